//! A worked example of an invariant: accounts at a bank, of which a customer's two cover one another. And what its transactions do to the total of customers.
#![tactic(auto)]

mod laws;

pub use laws::{
    Readability, Solvency, audits_leave_totals, customers_stay_solvent, deposits_keep_solvency,
    deposits_raise_totals, found_totals_are_totals, reports_show_solvent_customers,
    snapshots_may_skew, solvent_customers_hold, transactions_keep_accounts_readable,
    transactions_keep_solvency, withdrawals_keep_solvency, withdrawals_lower_totals,
};
