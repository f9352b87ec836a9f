//! A bank on a disk.
ghost use Rattle.std.specs.Prelude.{◌≤◌, IfErr, IfOk, IfSome, vec_len};
ghost use Rattle.erm_bank.specs.Banks.{BankStays};
ghost use Rattle.erm_bank.specs.Tellers.{Promises};
ghost use Rattle.erm_ckpt.specs.Recovered.{State};
ghost use Rattle.erm_client_disk.specs.Ran.{CountsNone, CountsRun, NoneRan, WereRun};
ghost use Rattle.erm_disk_run.specs.Found.{IsFound, IsKept};
ghost use Rattle.erm_model.specs.declared.limits.TheConstants.{SESSIONS};

use crate::Teller;
use crate::laws::{
    audits_show_what_is, audits_show_what_was, audits_stand_in_order,
    crashes_leave_solvent_customers, crashes_leave_totals, ends_leave_solvent_customers,
    ends_leave_totals,
};
use erm_client_disk::{ProgramsOnDisk, run_programs_on_disk};
use erm_outside::{Disk, Gate};
use std::alloc::Global;
use std::sync::Wait;
use std::thread::Threads;

/// Runs tellers on a disk, each with the client of a session of its own. Where their clients have fewer than 2^32 lines in all, an image that a crash leaves at
/// any moment, and that shows each block and each slot whole, or none, has customers who are solvent, where they were so when the disk was opened; and where
/// the tellers only transfer among some of them, and audit, these hold as much in all. Each total that a teller tells was one. So it is where the disk fails, or
/// memory runs out; where neither was, it is so of the end too, and each total was one in the serial order of all that committed. Each teller keeps what he
/// promises: he does his errands in turn, and tells in its place what each came to.
///
/// ```text
/// let ProgramsOnDisk { disk, ended } = run_bank(rt, alloc, disk, &gate, tellers);
/// ```
pub fn run_bank<D: Disk + Drop + Send, G: Gate + Sync, R: Threads + Wait + Sync>(
    rt: &R,
    alloc: Global,
    disk: D,
    gate: &G,
    tellers: Vec<Teller>,
) -> ProgramsOnDisk<D, Teller>
    requires few { vec_len tellers ≤ SESSIONS }
    requires kept { IfSome (D.told disk) IsKept }
    ensures ran { IfOk result.ended (λ ran. (state : State) × IsFound (D.told disk) state
        × WereRun Promises (D.told disk) (D.told result.disk) state ran.failed tellers.items ran.programs.items
        × BankStays (D.told disk) (D.told result.disk) state ran.failed tellers.items ran.programs.items) }
    ensures none { IfErr result.ended (λ stop. NoneRan stop tellers.items (D.told disk) (D.told result.disk)) }
    ensures counts { IfOk result.ended (λ ran. CountsRun ran.failed (D.faults disk) (D.faults result.disk)) }
    ensures counts_none { IfErr result.ended (λ stop. CountsNone stop (D.faults disk) (D.faults result.disk)) }
{
    crashes_leave_solvent_customers();
    crashes_leave_totals();
    ends_leave_solvent_customers();
    ends_leave_totals();
    audits_show_what_was();
    audits_show_what_is();
    audits_stand_in_order();
    run_programs_on_disk(rt, alloc, disk, gate, tellers)
}
