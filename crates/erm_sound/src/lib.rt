//! The laws of sound states: an opening's state is sound, and so is the state after each event and after each step. Each law is
//! the contract of a function that does nothing. Here alone a sound state is put together from the laws of its parts.
#![tactic(auto)]

ghost use Rattle.std.specs.Prelude.{◌≡◌, ◌+◌, ◌<◌, ◌≤◌, ℕ, Some, length};
ghost use Rattle.erm_machine.specs.declared.event.Event.{Event};
ghost use Rattle.erm_machine.specs.declared.event.Kind.{Kind};
ghost use Rattle.erm_machine.specs.declared.limits.TheConstants.{MOST_CELLS, OBJECT_LIMIT, SESSIONS, STOP};
ghost use Rattle.erm_machine.specs.Core.{Core, opening_state};
ghost use Rattle.erm_machine.specs.Decided.{history_of};
ghost use Rattle.erm_machine.specs.Lawful.{opening_rows};
ghost use Rattle.erm_machine.specs.Sound.{Sound};
ghost use Rattle.erm_machine.specs.Step.{after_event, core_step};
ghost use Rattle.erm_core_ssn.specs.Laws.{AllBelow};
ghost use Rattle.erm_sound.specs.Kept.{Keeps, SoundUnder};
ghost use Rattle.erm_model.specs.History.{History, HasNewestRows, RunsSerially, rank_of, rows_after};
ghost use Rattle.erm_model.specs.Rows.{Rows};
ghost use Rattle.erm_model.specs.SerialOrder.{IsSerialOrder};

use erm_model::RowLaw;

/// From a sound state each event of each seat leads to a sound one.
pub fn events_keep_sound()
    ensures { (c d : Core) (seat : ℕ) (kind : Kind) → Sound c → after_event c seat kind ≡ Some d → Sound d }
{
    erm_core_log::ranges_are_kept();
    erm_core_ring::log_is_kept();
    erm_core_si::looks_stay_true();
    erm_core_si::begins_are_kept();
    erm_core_si::tasks_are_kept();
    erm_core_calls::bounds_are_kept();
    erm_core_lives::lives_are_kept();
    erm_core_cells::numbers_are_kept();
    erm_core_cells::cells_are_kept();
    erm_core_cells::chains_are_kept();
    erm_core_si::claims_are_kept();
    erm_core_si::snapshots_are_kept();
    erm_core_back::backs_are_kept();
    erm_core_back::snapshots_stay_raised();
    erm_core_ssn::marks_are_kept();
    erm_core_ssn::readers_are_kept();
    erm_core_ssn::decisions_are_kept();
    erm_core_ssn::rows_are_kept();
}

/// Each step of a sound state, also one that isn't taken, leads to a sound one.
pub fn steps_keep_sound()
    ensures { (c : Core) (e : Event) → Sound c → Sound (core_step c e).1 }
{
    events_keep_sound();
}

/// A sound state whose rows keep a law and whose blocks are spelled leads to such a one, where an event draws a range for a lawful
/// transaction alone, and decides a spelled one alone.
pub fn events_keep_law<L: RowLaw>()
    ensures { (c d : Core) (seat : ℕ) (kind : Kind) → SoundUnder L.law c → Keeps L.law c seat kind
        → after_event c seat kind ≡ Some d → SoundUnder L.law d }
{
    events_keep_sound();
    erm_core_lives::law_is_kept::<L>();
    erm_core_blocks::blocks_stay_spelled();
    erm_core_ring::begins_stay_at_ends();
}

/// An opening's state is sound, where its log begins at 1 or above, and at 2^60 + 4 at most, and the first
/// number of an object to make is at most the number of objects; rows have 16 words; and there is a cell for each object, but no
/// more cells than there may be.
pub fn openings_are_sound()
    ensures { (sessions : ℕ) (rows : Rows) (tail run first cells : ℕ) → sessions ≤ SESSIONS → 0 < tail → tail ≤ STOP + 4
        → first ≤ OBJECT_LIMIT → OBJECT_LIMIT ≤ cells → cells ≤ MOST_CELLS → ((oid : ℕ) → oid < OBJECT_LIMIT → length (rows oid) ≡ 16)
        → Sound (opening_state sessions rows tail run first cells) }
{}

/// An opening's state keeps a law of rows that its rows meet, where they reach no object from its first number on. No block is
/// there yet.
pub fn openings_are_lawful<L: RowLaw>()
    ensures { (sessions : ℕ) (rows : Rows) (tail run first cells : ℕ) → Sound (opening_state sessions rows tail run first cells)
        → L.law.meets rows → ((oid : ℕ) → first ≤ oid → L.law.reach rows oid ≡ 0)
        → SoundUnder L.law (opening_state sessions rows tail run first cells) }
{
    erm_core_lives::openings_are_lawful::<L>();
    erm_core_blocks::openings_are_spelled();
}

/// What a sound state has committed, run one after another in the serial order over the opening's rows: each transaction finds
/// the rows that it read, and those that it overwrote, and in the end each object has its newest row. There is one such order.
pub fn commits_run_serially()
    ensures one { (c : Core) → Sound c → (order : History) × IsSerialOrder rank_of (history_of c.seats) order }
    ensures run { (c : Core) → Sound c → (order : History) → IsSerialOrder rank_of (history_of c.seats) order
        → RunsSerially (history_of c.seats) (opening_rows c.shared) (opening_rows c.shared) order }
    ensures newest { (c : Core) → Sound c → (order : History) → IsSerialOrder rank_of (history_of c.seats) order
        → (bound : ℕ) → 0 < bound → AllBelow bound (history_of c.seats)
        → HasNewestRows (history_of c.seats) (opening_rows c.shared) bound (rows_after order (opening_rows c.shared)) }
{
    erm_core_ssn::commits_are_certified();
    erm_core_ssn::commits_are_a_snapshot_history();
    erm_core_ssn::serial_order_is_unique();
    erm_core_ssn::rows_run_serially();
}
