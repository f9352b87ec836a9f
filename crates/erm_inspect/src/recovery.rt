//! What a disk recovers to, in lines.
ghost use Rattle.std.specs.Prelude.{◌≡◌, ◌≢◌, IfOk, IfSome, Err};
ghost use Rattle.erm_node.specs.Sound.{sound_law};
ghost use Rattle.erm_outside.specs.Faults.{Rose};
ghost use Rattle.erm_recover.specs.Recovering.{NoBaseTold, state_recovered};
ghost use Rattle.erm_inspect.specs.Recoveries.{HasRecoveryForm, IsRecovery, TellsRecovery};

use crate::found::find;
use crate::map_lines::push_map;
use erm_node::same_rows_same_map;
use erm_outside::Disk;
use erm_recover::{RecoverStop, Recovered};
use erm_report::Line;
use std::alloc::{AllocError, Global};

/// The place of the log and the run that a disk recovers to, and its map. It writes nothing.
pub fn recovered<D: Disk>(alloc: Global, disk: &mut D) -> Result<Vec<Line>, RecoverStop>
    ensures ok { IfOk result (λ lines. IfSome (D.told disk.old) (λ steps. IsRecovery steps lines.items)) }
    ensures form { IfOk result (λ lines. HasRecoveryForm lines.items) }
    ensures no_base { result ≡ Err RecoverStop.NoBase → NoBaseTold sound_law.meets (D.told disk.old) }
    ensures told { D.told disk.new ≡ D.told disk.old }

    // The disk's count of faults rises exactly where it failed.
    ensures sound { result ≢ Err RecoverStop.DiskFault → D.faults disk.new ≡ D.faults disk.old }
    ensures fault { result ≡ Err RecoverStop.DiskFault → Rose (D.faults disk.old) (D.faults disk.new) }
{
    same_rows_same_map();
    let found = find(alloc, disk)?;
    let lines = recovery_lines(alloc, &found)?;
    Ok(lines)
}

// The lines of what was recovered.
fn recovery_lines(alloc: Global, found: &Recovered) -> Result<Vec<Line>, AllocError>
    ensures { IfOk result (λ lines. TellsRecovery (state_recovered found.now) lines.items) }
{
    let mut lines = Vec::new(alloc);
    lines.push(Line::Recovered {
        stamp: found.stamp,
        run: found.run,
    })?;
    push_map(alloc, &found.rows, &mut lines)?;
    Ok(lines)
}
