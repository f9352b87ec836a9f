//! The contract of a session that shares its world with others: what each call does to its own part, what a refusal says of the world in
//! which all end, and the session, or a safe snapshot of it, as a transaction over rows.
#![tactic(auto)]

mod safe_session;
mod safe_txn;
mod session;
mod txn;

pub use safe_session::SafeSession;
pub use safe_txn::SafeTxn;
pub use session::SharedSession;
pub use txn::SharedTxn;
