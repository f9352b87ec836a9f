//! Laws of tellers on a disk. Each holds for every value, and its function does nothing.
ghost use Rattle.erm_bank.specs.Banks.{AuditsShowWhatIs, AuditsShowWhatWas, AuditsStandInOrder, CrashesLeaveSolvent, CrashesLeaveTotals, EndsLeaveSolvent, EndsLeaveTotals};

use erm_accounts::{Solvency, found_totals_are_totals};
use erm_client_disk::{crashes_keep_for_clients, ends_keep_for_clients};
use erm_invariant::invariants_hold_below;
use erm_tellers::{Total, audits_show_totals, tellers_keep_solvency, transactions_move_totals};

/// Where the customers found on a disk were solvent, a crash at any moment leaves solvent customers, whatever tellers do and however their transactions
/// interleave.
pub fn crashes_leave_solvent_customers()
    ensures { CrashesLeaveSolvent }
{
    crashes_keep_for_clients::<Solvency>();
    tellers_keep_solvency();
}

/// Where tellers only transfer among some customers, and audit, these hold as much in all, whatever crash there was.
pub fn crashes_leave_totals()
    ensures { CrashesLeaveTotals }
{
    crashes_keep_for_clients::<Total>();
    transactions_move_totals();
}

/// So it is of the customers at the end, where the tellers were done.
pub fn ends_leave_solvent_customers()
    ensures { EndsLeaveSolvent }
{
    ends_keep_for_clients::<Solvency>();
    tellers_keep_solvency();
}

/// And of what they hold.
pub fn ends_leave_totals()
    ensures { EndsLeaveTotals }
{
    ends_keep_for_clients::<Total>();
    transactions_move_totals();
}

/// Each total that one of the tellers' audits shows was one, in the state below the audit's begin stamp, wherever clients were told to stop or starved.
pub fn audits_show_what_was()
    ensures { AuditsShowWhatWas }
{
    found_totals_are_totals();
}

/// And where they only transferred among these customers it is what these held when the disk was opened.
pub fn audits_show_what_is()
    ensures { AuditsShowWhatIs }
{
    transactions_move_totals();
    invariants_hold_below::<Total>();
}

/// Where tellers were done it was one at the audit's place in the serial order of all commits.
pub fn audits_stand_in_order()
    ensures { AuditsStandInOrder }
{
    audits_show_totals();
}
