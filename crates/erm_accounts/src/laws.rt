//! Laws of the bank's transactions. Each holds for every value, and its function does nothing.
ghost use Rattle.erm_accounts.specs.Accounts.{AreReadable, AreSolvent, CustomersStaySolvent, IsDeposit, IsOfBank, IsWithdrawal, ReportsShowSolventCustomers, SnapshotsMaySkew};
ghost use Rattle.erm_accounts.specs.Totals.{AuditsLeaveTotals, DepositsRaiseTotals, FoundTotalsAreTotals, SolventCustomersHold, WithdrawalsLowerTotals};
ghost use Rattle.erm_invariant.specs.Invariant.{Keeps};
ghost use Rattle.erm_model.specs.Run.{Step};
ghost use Rattle.std.specs.Prelude.{List};

use erm_invariant::{Invariant, invariants_last, readers_keep_invariants};
use erm_report_invariant::good_reports_keep_invariants;

/// The invariant that of each customer the sum of the two balances is at or above zero.
pub struct Solvency;

impl Invariant for Solvency {
    ghost use Rattle.erm_accounts.specs.Accounts.{AreSolvent};

    ghost holds = { λ _ m. AreSolvent m };
}

/// A withdrawal that its own reads allow leaves each customer solvent, where it is run alone.
pub fn withdrawals_keep_solvency()
    ensures { (steps : List Step) → IsWithdrawal steps → Keeps AreSolvent steps }
{}

/// So does a deposit.
pub fn deposits_keep_solvency()
    ensures { (steps : List Step) → IsDeposit steps → Keeps AreSolvent steps }
{}

/// So each transaction of the bank keeps the invariant, audits too.
pub fn transactions_keep_solvency()
    ensures { (steps : List Step) → IsOfBank steps → Keeps AreSolvent steps }
{
    withdrawals_keep_solvency();
    deposits_keep_solvency();
    readers_keep_invariants::<Solvency>();
}

/// The invariant that what is kept of each account is a balance.
pub struct Readability;

impl Invariant for Readability {
    ghost use Rattle.erm_accounts.specs.Accounts.{AreReadable};

    ghost holds = { λ _ m. AreReadable m };
}

/// Each transaction of the bank leaves a balance where it writes, and so keeps all accounts readable.
pub fn transactions_keep_accounts_readable()
    ensures { (steps : List Step) → IsOfBank steps → Keeps AreReadable steps }
{
    readers_keep_invariants::<Readability>();
}

/// In each serial run of the bank's transactions customers stay solvent, and each transaction finds them so.
pub fn customers_stay_solvent()
    ensures { CustomersStaySolvent }
{
    transactions_keep_solvency();
    invariants_last::<Solvency>();
}

/// And whatever the interleaving, a good report's map shows them solvent, where it began so.
pub fn reports_show_solvent_customers()
    ensures { ReportsShowSolventCustomers }
{
    transactions_keep_solvency();
    good_reports_keep_invariants::<Solvency>();
}

/// Two withdrawals that are each answered from one snapshot may leave a customer that isn't solvent.
pub fn snapshots_may_skew()
    ensures { SnapshotsMaySkew }
{}

/// A deposit that is run alone raises the total of the customers of each range by its amount, where its own customer is one of them.
pub fn deposits_raise_totals()
    ensures { DepositsRaiseTotals }
{}

/// A withdrawal lowers it so.
pub fn withdrawals_lower_totals()
    ensures { WithdrawalsLowerTotals }
{}

/// An audit leaves it.
pub fn audits_leave_totals()
    ensures { AuditsLeaveTotals }
{}

/// What scans of both tables find of a range of customers in a map adds up to what they hold in that map, and to nothing else.
pub fn found_totals_are_totals()
    ensures { FoundTotalsAreTotals }
{}

/// Solvent customers hold something in all, if it be nothing.
pub fn solvent_customers_hold()
    ensures { SolventCustomersHold }
{}
