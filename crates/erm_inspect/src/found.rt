//! What a disk recovers to by the test of sound rows.
ghost use Rattle.std.specs.Prelude.{◌≡◌, ◌≢◌, ◌<◌, ◌≤◌, IfOk, Err};
ghost use Rattle.erm_model.specs.Rows.{rows_of};
ghost use Rattle.erm_block.specs.declared.block.TheConstants.{RUN_END};
ghost use Rattle.erm_node.specs.Sound.{IsSound, sound_law};
ghost use Rattle.erm_outside.specs.Faults.{Rose};
ghost use Rattle.erm_recover.specs.Recovering.{NoBaseTold, RecoveredTold, state_recovered};
ghost use Rattle.erm_inspect.specs.Recoveries.{IsState};

use erm_ckpt::LOG_START;
use erm_outside::Disk;
use erm_recover::{RecoverStop, Recovered, SoundTest, recover, zero_rows_are_sound};
use std::alloc::Global;

/// Recovers a disk, whose sound rows are those of trees.
pub(crate) fn find<D: Disk>(alloc: Global, disk: &mut D) -> Result<Recovered, RecoverStop>
    ensures recovered { IfOk result (λ found. RecoveredTold sound_law.meets (D.told disk.old) found) }
    ensures no_base { result ≡ Err RecoverStop.NoBase → NoBaseTold sound_law.meets (D.told disk.old) }
    ensures low { IfOk result (λ found. LOG_START ≤ found.base) }
    ensures above { IfOk result (λ found. found.base ≤ found.stamp) }
    ensures is { IfOk result (λ found. IsState (state_recovered found)) }
    ensures told { D.told disk.new ≡ D.told disk.old }
    ensures sound { result ≢ Err RecoverStop.DiskFault → D.faults disk.new ≡ D.faults disk.old }
    ensures fault { result ≡ Err RecoverStop.DiskFault → Rose (D.faults disk.old) (D.faults disk.new) }
{
    zero_rows_are_sound();
    recover(alloc, disk, &SoundTest)
}
