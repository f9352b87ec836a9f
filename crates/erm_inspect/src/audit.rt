//! The commits of a disk's log, in lines.
ghost use Rattle.std.specs.Prelude.{◌≡◌, ◌≢◌, ◌++◌, IfOk, IfSome, OnOk, Err};
ghost use Rattle.erm_audit.specs.Order.{commits_at};
ghost use Rattle.erm_node.specs.Sound.{sound_law};
ghost use Rattle.erm_outside.specs.Faults.{Rose};
ghost use Rattle.erm_recover.specs.Recovering.{NoBaseTold, state_recovered};
ghost use Rattle.erm_inspect.specs.Audits.{HasAuditForm, IsAudit, TellsAudit, logged, order_lines};

use crate::found::find;
use crate::map_lines::push_map;
use erm_audit::serial_order;
use erm_model::Commit;
use erm_node::same_rows_same_map;
use erm_outside::Disk;
use erm_recover::{RecoverStop, Recovered};
use erm_report::Line;
use std::alloc::{AllocError, Global};

/// The commits of a disk's log, from the place on where its recovery begins, in the serial order, and the map that it recovers to.
/// It writes nothing.
pub fn audited<D: Disk>(alloc: Global, disk: &mut D) -> Result<Vec<Line>, RecoverStop>
    ensures ok { IfOk result (λ lines. IfSome (D.told disk.old) (λ steps. IsAudit steps lines.items)) }
    ensures form { IfOk result (λ lines. HasAuditForm lines.items) }
    ensures no_base { result ≡ Err RecoverStop.NoBase → NoBaseTold sound_law.meets (D.told disk.old) }
    ensures told { D.told disk.new ≡ D.told disk.old }

    // The disk's count of faults rises exactly where it failed.
    ensures sound { result ≢ Err RecoverStop.DiskFault → D.faults disk.new ≡ D.faults disk.old }
    ensures fault { result ≡ Err RecoverStop.DiskFault → Rose (D.faults disk.old) (D.faults disk.new) }
{
    same_rows_same_map();
    let found = find(alloc, disk)?;
    let lines = audit_lines(alloc, &found)?;
    Ok(lines)
}

// The lines of what was recovered, with its commits.
fn audit_lines(alloc: Global, found: &Recovered) -> Result<Vec<Line>, AllocError>
    ensures { IfOk result (λ lines. TellsAudit found.now.base (state_recovered found.now) found.now.commits.items lines.items) }
{
    let order = serial_order(alloc, &found.commits)?;
    let mut lines = Vec::new(alloc);
    lines.push(Line::Audited {
        base: found.base,
        stamp: found.stamp,
        run: found.run,
    })?;
    push_order(&found.commits, &order, &mut lines)?;
    push_map(alloc, &found.rows, &mut lines)?;
    Ok(lines)
}

// Adds the lines of the commits at these places, in this order.
fn push_order(commits: &[Commit], order: &[usize], lines: &mut Vec<Line>) -> Result<(), AllocError>
    ensures { OnOk result (lines.new.items ≡ lines.old.items ++ order_lines commits.now (commits_at commits.now order.now)) }
{
    lines.push(Line::Order {
        commits: commits.len(),
    })?;
    for place in order {
        if let Some(commit) = commits.get(*place) {
            lines.push(logged(commit))?;
        }
    }
    Ok(())
}

// The line of a commit.
fn logged(commit: &Commit) -> Line
    ensures { result ≡ logged commit.now }
{
    Line::LoggedCommit {
        seat: commit.seat,
        number: commit.number,
        stamp: commit.stamp,
        succ: commit.succ,
    }
}
