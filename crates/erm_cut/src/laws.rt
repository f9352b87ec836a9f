//! Laws of sound states, for a caller with a view that is one of such a state. Each holds for every value, and its function does
//! nothing.
ghost use Rattle.std.specs.Prelude.{◌≡◌, ◌≢◌, ◌<◌, ◌≤◌, ℕ, Some};
ghost use Rattle.erm_cells.specs.Calls.{IsUnchained};
ghost use Rattle.erm_cut.specs.Calls.{IsInChain};
ghost use Rattle.erm_machine.specs.declared.attempt.OwnCell.{OwnCell};
ghost use Rattle.erm_machine.specs.declared.attempt.Read.{Read};
ghost use Rattle.erm_machine.specs.declared.event.Kind.{Kind};
ghost use Rattle.erm_machine.specs.declared.task.Task.TheVariants.{Rest};
ghost use Rattle.erm_machine.specs.Begins.{horizon_of};
ghost use Rattle.erm_machine.specs.Core.{Core};
ghost use Rattle.erm_machine.specs.Facts.{HasBegun};
ghost use Rattle.erm_machine.specs.Snapshot.{NewerFrom};
ghost use Rattle.erm_machine.specs.Sound.{Sound};
ghost use Rattle.erm_machine.specs.Step.{after_event};
ghost use Rattle.erm_model.specs.Member.{◌∈◌};
ghost use Rattle.erm_rule.specs.Newest.{CutsAtNewest};

use erm_machine::{ANNOUNCERS, OBJECT_LIMIT};

/// From the last begin word on until the chain is cut, the horizon is at most the begin stamp of each seat that has begun.
pub fn horizons_bound_begins()
    ensures { (c : Core) (p q horizon : ℕ) → Sound c → horizon_of (c.seats p).task ≡ Some (horizon, ANNOUNCERS) → q < ANNOUNCERS
        → HasBegun (c.seats q).place → horizon ≤ (c.seats q).current.begin }
{}

/// What is cut off nobody reads. While a seat has begun, a version is attached that it has read, and so is each that it may come
/// to: one whose newer ones all have stamps at or above its begin stamp. A spare cell is in no chain, so it is that of no version that
/// such a seat has read.
pub fn readers_keep_versions()
    ensures reach { (c : Core) (q oid place : ℕ) → Sound c → oid < OBJECT_LIMIT → HasBegun (c.seats q).place
        → NewerFrom (c.shared.objects oid) place (c.seats q).current.begin → (c.shared.objects oid).cut ≤ place }
    ensures read { (c : Core) (q : ℕ) (r : Read) → Sound c → HasBegun (c.seats q).place → r ∈ (c.seats q).current.reads → IsInChain c r.version }
    ensures spare { (c : Core) (p : ℕ) (own : OwnCell) → Sound c → p < ANNOUNCERS → own ∈ (c.seats p).spare → IsUnchained c own.cell }
    ensures unread { (c : Core) (p q : ℕ) (own : OwnCell) (r : Read) → Sound c → p < ANNOUNCERS → own ∈ (c.seats p).spare
        → HasBegun (c.seats q).place → r ∈ (c.seats q).current.reads → r.version.cell ≢ own.cell }
{}

/// A cut cuts behind the newest version below its horizon: where no seat is at work it is so, and each event keeps this.
pub fn cuts_stay_at_newest()
    ensures idle { (c : Core) → ((q : ℕ) → (c.seats q).task ≡ Rest) → CutsAtNewest c }
    ensures kept { (c d : Core) (p : ℕ) (kind : Kind) → Sound c → CutsAtNewest c → after_event c p kind ≡ Some d → CutsAtNewest d }
{}
