//! The final rows: as all commits so far leave them.
ghost use Rattle.std.specs.Prelude.{◌≡◌, ◌-◌, ◌<◌, length, slice_index_or};
ghost use Rattle.erm_machine.specs.Core.{no_version};
ghost use Rattle.erm_model.specs.History.{History, rank_of, rows_after};
ghost use Rattle.erm_model.specs.SerialOrder.{IsSerialOrder};
ghost use Rattle.erm_model.specs.declared.limits.TheConstants.{OID_LIMIT};
ghost use Rattle.erm_core_steps.specs.Pinned.{IsNewestRow};
ghost use Rattle.erm_lists.specs.Stands.{Stands, lists_view};
ghost use Rattle.erm_world.specs.World.{history_of};

use crate::Lists;
use erm_machine::Version;
use erm_model::{Oid, Row, RowLaw};

// The row of the last of some versions.
fn last_row(versions: &[Version]) -> Row
    requires { 0 < length versions.now }
    ensures { result ≡ (slice_index_or versions.now (length versions.now - 1) no_version).words.row }
{
    versions[versions.len() - 1].words.row
}

impl<L: RowLaw> Lists<L> {
    /// The row of an object, below 2^14, as all commits so far leave it: the one that the commit with the greatest stamp made of
    /// it, or else the opening's. After all commits, one after another in their serial order, it is the object's row. What isn't
    /// committed doesn't count.
    pub fn row(&self, oid: Oid) -> Row
        requires stands { Stands L.law self.now }
        requires object { oid < OID_LIMIT }
        ensures newest { IsNewestRow (lists_view self.now) oid result (lists_view self.now).tail }
        ensures serial { (order : History) → IsSerialOrder rank_of (history_of (lists_view self.now)) order
            → result ≡ rows_after order (lists_view self.now).opening.rows oid }
    {
        erm_core_view::views_are_serializable::<L>();
        erm_core_ssn::rows_run_serially();
        erm_core_ssn::versions_are_unique();
        last_row(self.state.object(oid).versions.as_slice())
    }
}
