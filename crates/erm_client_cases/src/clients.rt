//! Two clients over empty tables.
ghost use Rattle.std.specs.Prelude.{◌≡◌, false, IfOk};
ghost use Rattle.erm_client.specs.Clients.{IsClient};
ghost use Rattle.erm_client.specs.Transcripts.{IsNew as IsUnasked};
ghost use Rattle.erm_engine.specs.Opened.{AreNew, IsNew, IsOpened};
ghost use Rattle.erm_node.specs.Sound.{sound_law};
ghost use Rattle.erm_rule.specs.declared.view.Opening.{Opening as OpeningOf};
ghost use Rattle.erm_shared_session.specs.Stands.{Stands, own_of, seat_of};

use erm_beside::SharedSession;
use erm_client::{Client, Finished, Transcript};
use erm_engine::{Opened, open};
use erm_model::{OID_LIMIT, Phase, ROW_WORDS, Seat};
use erm_node::{SoundRows, sound, zero_rows_are_not_reached};
use erm_outside::Place;
use erm_report::Answer;
use erm_rule::{Opening, Table};
use erm_shared_session::TableSession;
use erm_start::first_object;
use erm_worker::{Turns, Why};
use std::alloc::{AllocError, Global};
use std::process::Abort;
use std::sync::Wait;

// How often a client waits before it is told to stop.
const MOST_WAITS: u32 = 1_000;

/// What a client waits by, so often: nothing else runs on its thread, so no wait of it can end well.
#[derive(Drop)]
pub struct Patience {
    left: u32,
}

impl Turns for Patience {
    // No patience is left.
    ghost told = { λ patience. patience.left ≡ 0 };

    // Memory suffices the other one.
    ghost starved = { λ patience. false };

    fn pass(&mut self, _place: Place) {}

    fn wait(&mut self, _why: Why) -> bool {
        if self.left == 0 {
            return false;
        }
        self.left -= 1;
        true
    }

    fn goes_on(&mut self) -> bool {
        self.left > 0
    }

    fn is_starved(&self) -> bool {
        false
    }

    fn tell_starved(&mut self) {}
}

/// A client of the word table.
pub type TableClient<'a> = Client<'a, TableSession<SoundRows>, Patience>;

/// Two sessions over empty tables.
pub fn opened(rt: &impl Abort, alloc: Global) -> Result<Opened<SoundRows>, AllocError>
    ensures { IfOk result (λ t. (o : OpeningOf) × IsOpened sound_law o 2 t) }
{
    zero_rows_are_not_reached();
    let rows = Vec::from_elem(alloc, [0; ROW_WORDS], OID_LIMIT as usize)?;
    assert!(rt; sound(&rows), "rows of zeros are sound");
    let opening = Opening {
        sessions: 0,
        tail: 13,
        run: 1,
        first: first_object(&rows),
        rows,
    };
    open(alloc, &opening, 2)
}

// The client of a session that was just handed out.
fn client<'a>(
    alloc: Global,
    table: &'a Table<SoundRows>,
    session: TableSession<SoundRows>,
    seat: Seat,
) -> TableClient<'a>
    requires new { (o : OpeningOf) × IsNew sound_law table.now o seat session }
    ensures client { IsClient (λ x s. Stands sound_law x s) seat_of own_of result }
    ensures none { IsUnasked seat result.transcript }
{
    let patience = Patience { left: MOST_WAITS };
    Client::new(alloc, session, table, patience, seat)
}

/// The clients of both.
pub fn two<'a>(
    alloc: Global,
    table: &'a Table<SoundRows>,
    sessions: Vec<TableSession<SoundRows>>,
) -> (TableClient<'a>, TableClient<'a>)
    requires new { (o : OpeningOf) × AreNew sound_law table.now o 2 sessions.items }
    ensures first { IsClient (λ x s. Stands sound_law x s) seat_of own_of result.0 }
    ensures second { IsClient (λ x s. Stands sound_law x s) seat_of own_of result.1 }
    ensures unasked { IsUnasked 1 result.0.transcript × IsUnasked 2 result.1.transcript }
{
    let mut left = sessions.into_iter();
    let Some(first) = left.next() else {
        unreachable!();
    };
    let Some(second) = left.next() else {
        unreachable!();
    };
    left.destroy_empty();
    let first = client(alloc, table, first, 1);
    let second = client(alloc, table, second, 2);
    (first, second)
}

/// How a client ends: how many lines its transcript has, how many answers, and whether its closing aborted a transaction, or told nothing.
#[derive(Clone, Copy, PartialEq, Eq)]
pub enum End {
    Closed(usize, usize),
    Aborted(usize, usize),
    /// Its closing told something else.
    Other,
}

// How a client with this transcript ends, whose closing is answered so.
fn end_of(transcript: &Transcript, closed: &Option<Answer>) -> End {
    let (lines, answers) = (transcript.lines.len(), transcript.answers.len());
    match closed {
        None => End::Closed(lines, answers),
        Some(Answer::Aborted) => End::Aborted(lines, answers),
        Some(_) => End::Other,
    }
}

/// Closes a client and gives its session up, which is idle then.
pub fn finish<'a, R: Wait + Abort>(rt: &R, client: TableClient<'a>) -> End
    requires client { IsClient (λ x s. Stands sound_law x s) seat_of own_of client }
{
    let table = client.shared;
    let Finished {
        session,
        turns: _,
        transcript,
        closed,
    } = client.close(rt);
    let Phase::Idle = session.phase(table) else {
        panic!(rt; "a session that was closed isn't idle");
    };
    session.into_pass();
    end_of(&transcript, &closed)
}
