//! What one seat alone changes, as it is kept.
ghost use Rattle.std.specs.Prelude.{◌≡◌, ◌+◌, ◌-◌, ◌≤◌, false, vec_len, vec_capacity};
ghost use Rattle.erm_machine.specs.Core as core_specs;
ghost use Rattle.erm_kept.specs.Tasks.{passed, stored};
ghost use Rattle.erm_machine.specs.declared.limits.TheConstants.{SESSIONS};
ghost use Rattle.erm_seat.specs.Needs.{awaiting, busy, holding, one, surveyed, undecided, unsealed, IsUnused};

use erm_kept::AttemptState;
use erm_machine::{ANNOUNCERS, Flushing, OwnCell, Place, Task};
use erm_model::Stamp;
use std::alloc::Global;

/// What one seat alone changes. Its lists always have room for all that its transaction adds up to its end by steps of writes of
/// claimed rows, of a seal, of a settle and of an end.
#[derive(Drop)]
pub struct SeatState {
    pub alloc: Global,
    /// Whether it is the flush seat, whose transactions are pins, and leave nothing.
    pub flushes: bool,
    /// Whether the log keeps room for a range of the seat's next draw.
    pub promised: bool,
    pub place: Place,
    pub task: Task,
    pub number: u32,
    pub current: AttemptState,
    pub over: Vec<AttemptState>,
    pub seen: Stamp,
    pub clear: [Stamp; ANNOUNCERS as usize],
    pub spare: Vec<OwnCell>,
    pub run: u64,
    pub flushing: Flushing,
    pub gathered_to: Stamp,
    pub back: Stamp,
    // A snapshot looks at sessions alone.
    ghost survey: { surveyed task ≤ SESSIONS },
    // A transaction that has begun has room for its range.
    ghost log_room: { awaiting flushes place ≤ one promised },
    // Room for the transaction once it is over.
    ghost over_room: { vec_len over + busy flushes place ≤ vec_capacity over },
    // From the first load of the tail on and until the draw, room for the block behind its header: 4 words, and 17 for each claim.
    ghost block_room: { vec_len current.block + unsealed flushes place (vec_len current.writes) ≤ vec_capacity current.block },
    // From the draw on, room for the words of the block that are not stored yet.
    ghost words_room: { vec_len current.block + undecided place (current.size - 1 - stored task) ≤ vec_capacity current.block },
    // Room for the cell of each claim that isn't over.
    ghost spare_room: { vec_len spare + holding place (vec_len current.writes - passed task) ≤ vec_capacity spare },
}

impl SeatState {
    ghost use Rattle.erm_seat.specs.Parts.{part_of};

    /// A seat that has done nothing yet, and has no transaction. It takes no memory.
    pub fn fresh(alloc: Global, flushes: bool, place: Place, run: u64, tail: Stamp) -> SeatState
        requires { IsUnused place }
        ensures fresh { part_of result ≡ core_specs.fresh_part place run tail }
        ensures flushes { result.flushes ≡ flushes }
        ensures promised { result.promised ≡ false }
    {
        SeatState {
            alloc,
            flushes,
            promised: false,
            place,
            task: Task::Rest,
            number: 0,
            current: AttemptState::begun(alloc, 0, 0),
            over: Vec::new(alloc),
            seen: tail,
            clear: [0; ANNOUNCERS as usize],
            spare: Vec::new(alloc),
            run,
            flushing: Flushing::Still,
            gathered_to: tail,
            back: 0,
        }
    }
}
