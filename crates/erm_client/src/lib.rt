//! Transactions for programs: a session of a world, asked by calls, which keeps the transcript of what was asked and answered.
//!
//! A program that has a session makes a `Client` of it, and calls it: `begin`, `get`, `put`, `del`, `next`, `scan`, `commit`, `abort` and `durable`; and
//! for a snapshot, which only reads, `safe` and `end`. Each call is one line of a script, whose command is made here; the line and its answer go into the
//! client's `Transcript`, for which the memory is taken before the line is run, so that nothing is run that isn't recorded. What the call gives is what the
//! answer says, or a `Refusal`, which names the cause and has a sentence of its own. So what is proved of scripts is proved of programs: the transcripts of
//! all clients, one behind another, are a script that was run at once (`transcripts_are_a_run`).
//!
//! A transfer between two keys, which is begun again where another session was in its way:
//!
//! ```text
//! fn transfer<S: SafeSession, T: Turns, R: Wait>(
//!     rt: &R,
//!     client: &mut Client<'_, S, T>,
//!     payer: u64,
//!     payee: u64,
//!     amount: u64,
//! ) -> Result<bool, Refusal> {
//!     client.begin(rt)?;
//!     let own = balance_in(client.get(rt, 0, payer)?);
//!     let there = balance_in(client.get(rt, 0, payee)?);
//!     let (Some(left), Some(more)) = (own.checked_sub(amount), there.checked_add(amount)) else {
//!         client.abort(rt)?;
//!         return Ok(false);
//!     };
//!     client.put(rt, 0, payer, value_of(left))?;
//!     client.put(rt, 0, payee, value_of(more))?;
//!     client.commit(rt)?;
//!     Ok(true)
//! }
//!
//! let outcome = match transfer(rt, client, payer, payee, amount) {
//!     Err(Refusal::Owned { .. } | Refusal::Newer { .. } | Refusal::Excluded { .. }) => {
//!         transfer(rt, client, payer, payee, amount)
//!     }
//!     outcome => outcome,
//! };
//! if outcome.is_err() {
//!     let _ = client.abort(rt);
//! }
//! ```
//!
//! What only reads, however much, goes into a snapshot. Once `safe` has given its begin stamp nothing that is asked of it is refused for what others do,
//! and nothing of others for what it reads; `end` gives it its place in the serial order:
//!
//! ```text
//! client.safe(rt)?;
//! let found = client.scan(rt, 0, 0, u64::MAX)?;
//! client.end(rt)?;
//! ```
//!
//! After `Owned`, `Newer` and `Excluded` the transaction has ended and leaves nothing, and after `Unsafe` the snapshot is over: it may be begun again.
//! After `ReadsFull`, `WritesFull`, `CellsFull`, `OidsFull` and `Memory` it may go on without what was asked: abort it, unless what was done so far is
//! what you mean to commit. After `Stopped` the client is asked no more, and after a `Memory` for which memory ran out within a line neither: each further
//! call is refused in the same way, and asks nothing. `abort` leaves nothing in progress, whatever it answers: the memory for its line is taken before
//! anything is begun that it may have to give up.
//! `close` gives the session back, with the transcript.
//!
//! The contract of each call says so in these terms. The client goes on (`GoesOn`): it is a client still (`IsClient`), its session did what its transcript
//! tells, from whatever view it began with (`RunsOn`), and where it was told to stop it was so by what it waits by. With `Ok` the transcript has just this
//! line more, and its answer, which is what the call gave (`IsAnswered`); with an error it says why, and what the transcript has of it (`IsRefused`, and
//! of `end` `IsUnended`). Its session is in the phase that the transcript tells (`IsInPhase`); and behind a commit, an end and an abort it rests (`Rests`).
//! What each refusal tells is a law (`refusals_tell`). That a call succeeds, or how long it waits, no contract says.
#![tactic(auto)]

mod client;
mod laws;
mod line;
mod refusal;
mod replies;
mod transcript;

pub use client::{Client, Finished};
pub use laws::{client_is_a_part, refusals_tell, transcripts_are_a_run};
pub use refusal::Refusal;
pub use replies::Commit;
pub use transcript::{Standing, Transcript};
