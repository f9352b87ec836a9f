//! A read of a safe snapshot.
ghost use Rattle.std.specs.Prelude.{◌≡◌, ◌<◌, true, ℕ, List};
ghost use Rattle.erm_machine.specs.declared.version.VersionAt.{VersionAt};
ghost use Rattle.erm_machine.specs.Core.{Core};
ghost use Rattle.erm_machine.specs.Decided.{history_of};
ghost use Rattle.erm_machine.specs.Lawful.{opening_rows};
ghost use Rattle.erm_machine.specs.Seat.{is_active, is_safe};
ghost use Rattle.erm_machine.specs.Sound.{Sound};
ghost use Rattle.erm_model.specs.History.{IsNewestBelow};
ghost use Rattle.erm_rows.specs.Safe.{DidReadSafe};
ghost use Rattle.erm_rule.specs.Books.{book};
ghost use Rattle.erm_rule.specs.Steps.{Fits};
ghost use Rattle.erm_rule.specs.Views.{view, part_of};
ghost use Rattle.erm_rule.specs.Went.{IsLoadStep, Went};
ghost use Rattle.erm_safe_reads.specs.Calls.{IsSafeRow, stamp_of};

use erm_machine::OBJECT_LIMIT;
use erm_model::{Oid, Row, RowLaw, Seat, Stamp};
use erm_rule::{Pass, Table};
use erm_safe_reads::{enter_safe, load_safe_row, walk_safe};

/// Reads an object for a safe snapshot with this begin stamp: the row of the newest version below that, which no commit changes any more. It
/// is never refused, and counts for nobody.
pub fn safe_read<L: RowLaw>(t: &Table<L>, p: &mut Pass, who: Seat, oid: Oid, begin: Stamp) -> Row
    requires fits { Fits t.now.words.shared.table_id p.old }
    requires active { is_active (part_of (view p.old) who).place ≡ true }
    requires safe { is_safe (part_of (view p.old) who).task ≡ true }
    requires begin { (part_of (view p.old) who).current.begin ≡ begin }
    requires object { oid < OBJECT_LIMIT }
    ensures fits { Fits t.now.words.shared.table_id p.new }
    ensures read { DidReadSafe (book p.old) who oid result (book p.new) }
    ensures loads { Went L.law who IsLoadStep (book p.old) (book p.new) }
{
    let head = enter_safe(t, p, who, oid);
    let cell = walk_safe(t, p, who, head, begin);
    load_safe_row(t, p, who, cell)
}

/// The row that a safe snapshot finds is that of the snapshot: the newest below its begin stamp of all that has committed. So it is in every
/// state in which the snapshot is safe, now and for ever.
pub fn safe_rows_are_snapshots()
    ensures { (c : Core) (p : ℕ) (version : VersionAt) (row : List ℕ) → Sound c → is_safe (c.seats p).task ≡ true → version.oid < OBJECT_LIMIT
        → IsSafeRow (c.seats p).current.begin version row c
        → IsNewestBelow (history_of c.seats) (opening_rows c.shared) version.oid (c.seats p).current.begin (stamp_of c version) row }
{
    erm_core_safe::safe_reads_are_snapshots();
}
