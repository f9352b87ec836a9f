//! What a session keeps beside its pass.
ghost use Rattle.std.specs.Prelude.{◌≡◌, ◌≤◌, ℕ, true, IfOk};
ghost use Rattle.erm_machine.specs.Words.{is_session};
ghost use Rattle.erm_machine.specs.Core.{fresh_part};
ghost use Rattle.erm_machine.specs.declared.place.Place.TheVariants.{Idle};
ghost use Rattle.erm_session.specs.Session.{IsSession, phase_of};

use crate::room::{Room, empty_block};
use erm_block::{BLOCK_WORDS, Block};
use erm_cells::Spare;
use erm_machine::{READ_LIMIT, WRITE_LIMIT};
use erm_model::{LAST_RUN, Phase, Row, Seat, Stamp};
use erm_precommit::Pre;
use erm_rows::Active;
use erm_savepoints::Saves;
use std::alloc::{AllocError, Global};

/// Where a session stands, with its transaction.
#[derive(Drop)]
pub enum Stage {
    /// It has no transaction.
    Idle,
    /// Its transaction reads and writes.
    Active(Active),
    /// Its transaction has its commit stamp and waits to be decided.
    Sealed(Pre),
    /// It has a snapshot that only reads, with this begin stamp, and looks whether it is safe: it has come to the session `next`.
    Pending { begin: Stamp, next: Seat },
    /// It has a safe snapshot that only reads, with this begin stamp.
    Safe { begin: Stamp },
}

/// A session as it keeps itself beside its pass. All memory is taken when it is made. The rows of its transaction lie apart from what
/// settle passes, in the same order.
#[derive(Drop)]
pub struct Session {
    pub(crate) seat: Seat,
    // The run of the log that is written.
    pub(crate) run: u64,
    // The number of the last transaction begun.
    pub(crate) number: u32,
    pub(crate) stage: Stage,
    // Room for what the next transaction reads and claims, while there is none, or a snapshot.
    pub(crate) room: Option<Room>,
    pub(crate) spare: Spare,
    // The rows read, in order of first read.
    pub(crate) rows_read: Vec<Row>,
    // The rows of the objects claimed, in order of claim.
    pub(crate) rows_claimed: Vec<Row>,
    // What it keeps to go back to the savepoints of its transaction.
    pub(crate) saves: Saves,
    // The block of the last transaction decided, and the words of one.
    pub(crate) decided: Box<Block>,
    pub(crate) block: Vec<u64>,
}

impl Session {
    /// A session without a transaction, of a seat that has done nothing. Its blocks are written in this run.
    pub fn new(alloc: Global, seat: Seat, run: u64) -> Result<Session, AllocError>
        requires session { is_session seat ≡ true }
        requires run { run ≤ LAST_RUN }
        ensures seat { IfOk result (λ s. s.seat ≡ seat) }
        ensures idle { IfOk result (λ s. (tail : ℕ) → IsSession s (fresh_part Idle run tail)) }
    {
        let room = Room::new(alloc)?;
        let spare = Spare::new(alloc)?;
        let rows_read = Vec::with_capacity(alloc, READ_LIMIT)?;
        let rows_claimed = Vec::with_capacity(alloc, WRITE_LIMIT)?;
        let saves = Saves::new(alloc)?;
        let decided = Box::new(alloc, empty_block())?;
        let block = vec![in alloc; 0; BLOCK_WORDS]?;
        Ok(Session {
            seat,
            run,
            number: 0,
            stage: Stage::Idle,
            room: Some(room),
            spare,
            rows_read,
            rows_claimed,
            saves,
            decided,
            block,
        })
    }

    /// Its seat.
    pub fn seat(&self) -> Seat
        ensures { result ≡ self.now.seat }
    {
        self.seat
    }

    /// Where it stands.
    pub fn phase(&self) -> Phase
        ensures { result ≡ phase_of self.now.stage }
    {
        match self.stage {
            Stage::Idle => Phase::Idle,
            Stage::Active(_) => Phase::Active,
            Stage::Sealed(_) => Phase::Sealed,
            Stage::Pending { .. } => Phase::Pending,
            Stage::Safe { .. } => Phase::Safe,
        }
    }
}
