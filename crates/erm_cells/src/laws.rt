//! Laws of sound states, for a caller with a view that is one of such a state. Each holds for every value, and its function does
//! nothing.
ghost use Rattle.std.specs.Prelude.{◌≡◌, ◌<◌, ◌≤◌, ℕ, Some, length};
ghost use Rattle.erm_cells.specs.Calls.{IsAlone};
ghost use Rattle.erm_cells.specs.Reads.{ReadStands, SameRows};
ghost use Rattle.erm_machine.specs.declared.attempt.OwnCell.{OwnCell};
ghost use Rattle.erm_machine.specs.declared.attempt.Read.{Read};
ghost use Rattle.erm_machine.specs.declared.event.Kind.{Kind};
ghost use Rattle.erm_machine.specs.Core.{Core, claim_at};
ghost use Rattle.erm_machine.specs.Facts.{HasBegun, Holds};
ghost use Rattle.erm_machine.specs.Sound.{Sound};
ghost use Rattle.erm_machine.specs.Step.{after_event};
ghost use Rattle.erm_model.specs.Member.{◌∈◌};

use erm_machine::ANNOUNCERS;
use erm_model::TABLE_CELLS;

/// While a seat's transaction claims an object, no other seat's does.
pub fn claims_exclude_others()
    ensures { (c : Core) (p q oid : ℕ) → Sound c → Holds (c.seats p) oid → Holds (c.seats q) oid → p ≡ q }
{}

/// A claim's own cell is nobody else's: it is in no chain, and no other claim's or seat's.
pub fn own_cells_are_alone()
    ensures { (c : Core) (p k : ℕ) (own : OwnCell) → Sound c → p < ANNOUNCERS → (claim_at (c.seats p).current k).own ≡ Some own
        → IsAlone c p own.cell }
{}

/// A session's spare cells are no more than there are cells.
pub fn spare_lists_fit()
    ensures { (c : Core) (p : ℕ) → Sound c → c.shared.cell_limit ≡ TABLE_CELLS → p < ANNOUNCERS → length (c.seats p).spare ≤ TABLE_CELLS }
{}

/// No step changes the row of a version: a row that was loaded is that version's for ever.
pub fn rows_stay()
    ensures { (c d : Core) (p : ℕ) (kind : Kind) (oid : ℕ) → after_event c p kind ≡ Some d → SameRows (c.shared.objects oid) (d.shared.objects oid) }
{}

/// While a seat's begin word stands, each version that its transaction has read stays in its chain, and is the newest below the
/// begin stamp.
pub fn reads_stand()
    ensures { (c : Core) (p : ℕ) (r : Read) → Sound c → HasBegun (c.seats p).place → r ∈ (c.seats p).current.reads
        → ReadStands c (c.seats p).current.begin r }
{}
