//! The world over the word table, as it is opened.
ghost use Rattle.std.specs.Prelude.{◌≡◌, ◌+◌, ◌<◌, ◌≤◌, ℕ, IfOk, length, slice_index_or, vec_len, []};
ghost use Rattle.erm_model.specs.declared.limits.TheConstants.{LAST_RUN, OID_LIMIT, SESSIONS, STOP};
ghost use Rattle.erm_model.specs.declared.TheConstants.{ROW_WORDS};
ghost use Rattle.erm_model.specs.Rows.{rows_of};
ghost use Rattle.erm_rule.specs.Books.{book};
ghost use Rattle.erm_rule.specs.Rule.{first_core};
ghost use Rattle.erm_rule.specs.Went.{core_of};
ghost use Rattle.erm_table_world.specs.Stands.{AreNew, Stands, table_view};
ghost use Rattle.erm_world.specs.World.{IsSession, phase_at};

use erm_model::{Phase, Row, RowLaw, Seat, Stamp};
use erm_rule::{Opening, Pass, Table};
use erm_session::Session;
use std::alloc::{AllocError, Global};

/// A world of sessions over the words that threads share. One pass has all of their seats; each call takes the machine's steps on
/// words, one after another. Its rows keep the law of `L`.
#[derive(Drop)]
pub struct TableWorld<L: RowLaw> {
    pub(crate) table: Table<L>,
    pub(crate) pass: Pass,
    // What each session keeps beside the pass, in the order of their seats, from 1 on.
    pub(crate) sessions: Vec<Session>,
    pub(crate) count: Seat,
    // The place that the flush seat has pinned, while it has a pin.
    pub(crate) pin: Stamp,
}

// Each row has so many words. This holds of every slice, and the function does nothing.
fn rows_are_whole(rows: &[Row])
    ensures { (oid : ℕ) → oid < length rows.now → length (slice_index_or rows.now oid []) ≡ ROW_WORDS }
{}

// So many sessions of seats that have done nothing, from seat 1 on.
fn new_sessions(alloc: Global, count: Seat, run: u64) -> Result<Vec<Session>, AllocError>
    requires few { count ≤ SESSIONS }
    requires run { run ≤ LAST_RUN }
    ensures count { IfOk result (λ sessions. length sessions.items ≡ count) }
    ensures new { IfOk result (λ sessions. AreNew run sessions.items) }
{
    let mut sessions = Vec::with_capacity(alloc, count as usize)?;
    for q in 0..count {
        sessions.push_reserved(Session::new(alloc, q + 1, run)?);
    }
    Ok(sessions)
}

impl<L: RowLaw> TableWorld<L> {
    /// A world of an opening's sessions, from 1 to 48, on its row for each object. Its log goes on at the opening's tail, in words, from 13,
    /// which is behind the first block of a log, to 2^60 + 4, and is written as this run, up to 2^44 - 1; the objects that it makes have
    /// numbers from the opening's first on. The rows meet the law, and reach no object from there on.
    pub fn open(alloc: Global, opening: &Opening) -> Result<TableWorld<L>, AllocError>
        requires some { 0 < opening.now.sessions }
        requires few { opening.now.sessions ≤ SESSIONS }
        requires positive { 13 ≤ opening.now.tail }
        requires low { opening.now.tail ≤ STOP + 4 }
        requires run_high { opening.now.run ≤ LAST_RUN }
        requires first { opening.now.first ≤ OID_LIMIT }
        requires rows { vec_len opening.now.rows ≡ OID_LIMIT }
        requires meets { L.law.meets (rows_of opening.now.rows.items) }
        requires unreached { (oid : ℕ) → opening.now.first ≤ oid → L.law.reach (rows_of opening.now.rows.items) oid ≡ 0 }
        ensures stands { IfOk result (Stands L.law) }
        ensures opened { IfOk result (λ w. core_of (book w.pass) ≡ first_core opening.now) }
        ensures sessions { IfOk result (λ w. w.count ≡ opening.now.sessions) }
    {
        erm_sound::openings_are_sound();
        erm_sound::openings_are_lawful::<L>();
        L::respects_rows();
        rows_are_whole(opening.rows.as_slice());
        let (table, pass) = erm_rule::open(alloc, opening)?;
        let sessions = new_sessions(alloc, opening.sessions, opening.run)?;
        Ok(TableWorld {
            table,
            pass,
            sessions,
            count: opening.sessions,
            pin: 0,
        })
    }

    /// The phase of a session.
    pub fn phase(&self, seat: Seat) -> Phase
        requires stands { Stands L.law self.now }
        requires session { IsSession (table_view self.now) seat }
        ensures { result ≡ phase_at (table_view self.now) seat }
    {
        self.sessions[seat as usize - 1].phase()
    }
}
