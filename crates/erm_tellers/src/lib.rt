//! A worked example of a program over the engine: tellers of a bank, whose customers each have two accounts that cover one another.
#![tactic(auto)]

mod audits;
mod dealing;
mod laws;
mod shown;
mod side;
mod tellers;
mod transactions;

pub use audits::{audit, audit_in_transaction};
pub use laws::{
    Soundness, Tellers, Total, audits_have_totals, audits_in_transactions_show_totals,
    audits_show_totals, audits_show_what_is_kept, tellers_keep_accounts_readable,
    tellers_keep_solvency, tellers_move_totals, tellers_stay_solvent, transactions_move_totals,
    transfers_keep_totals,
};
pub use shown::total_of;
pub use side::{Side, taken};
pub use tellers::{Holder, Outcome, Task, serve};
pub use transactions::Transactions;
