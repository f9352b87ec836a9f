//! What the thread of a program is given, and what it leaves there.
use erm_beside::SharedSession;
use erm_client::{Client, Finished};

/// A program with its client, and behind its thread what the client left.
#[derive(Drop)]
pub struct Job<'a, S: SharedSession, T, P> {
    pub program: P,
    /// The client of a session that was asked nothing yet. `None` behind the thread.
    pub client: Option<Client<'a, S, T>>,
    /// What the client left. `None` before.
    pub finished: Option<Finished<S, T>>,
}
