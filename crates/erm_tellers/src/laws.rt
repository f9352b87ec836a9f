//! Laws of what tellers do: each holds as it stands, and its function does nothing.
ghost use Rattle.erm_accounts.specs.Accounts.{AreReadable, AreSolvent};
ghost use Rattle.erm_invariant.specs.Invariant.{Keeps};
ghost use Rattle.erm_model.specs.Run.{Step};
ghost use Rattle.erm_tellers.specs.Laws.{AuditsHaveTotals, AuditsInTransactionsShowTotals, AuditsShowTotals, AuditsShowWhatIsKept, TellersMoveTotals, TellersStaySolvent, TransfersKeepTotals};
ghost use Rattle.erm_tellers.specs.Moves.{TransactionsMoveTotals};
ghost use Rattle.erm_tellers.specs.Tellers.{IsOfTellers};
ghost use Rattle.std.specs.Prelude.{List};

use erm_accounts::{
    Solvency, audits_leave_totals, deposits_raise_totals, found_totals_are_totals,
    solvent_customers_hold, transactions_keep_accounts_readable, transactions_keep_solvency,
    withdrawals_lower_totals,
};
use erm_client_invariant::{
    Kind, clients_are_serial, commits_are_of_kind, invariants_last_for_clients,
    snapshots_see_invariants_for_clients, snapshots_stand_among_commits, told_commits_are_there,
};
use erm_invariant::Invariant;

/// Each of the tellers' transactions leaves each customer solvent, where it is run alone.
pub fn tellers_keep_solvency()
    ensures { (steps : List Step) → IsOfTellers steps → Keeps AreSolvent steps }
{
    transactions_keep_solvency();
}

/// And leaves all accounts readable.
pub fn tellers_keep_accounts_readable()
    ensures { (steps : List Step) → IsOfTellers steps → Keeps AreReadable steps }
{
    transactions_keep_accounts_readable();
}

/// Whatever the interleaving of any number of clients, all of whose commits are of these, customers stay solvent.
pub fn tellers_stay_solvent()
    ensures { TellersStaySolvent }
{
    tellers_keep_solvency();
    invariants_last_for_clients::<Solvency>();
}

/// The tellers' transactions, as a kind.
pub struct Tellers;

impl Kind for Tellers {
    ghost use Rattle.erm_tellers.specs.Tellers.{IsOfTellers};

    ghost has = { λ _ steps. IsOfTellers steps };
}

/// The invariant that customers with numbers from `low` to `high` hold so much in all.
pub struct Total {
    pub low: u64,
    pub high: u64,
    pub total: u128,
}

impl Invariant for Total {
    ghost use Rattle.erm_accounts.specs.Totals.{HoldInAll};

    ghost holds = { λ t m. HoldInAll m t.low t.high t.total };
}

/// The invariant that customers are solvent, and their accounts readable.
pub struct Soundness;

impl Invariant for Soundness {
    ghost use Rattle.erm_accounts.specs.Accounts.{AreReadable, AreSolvent};

    ghost holds = { λ _ m. AreSolvent m × AreReadable m };
}

/// Each of the tellers' transactions that is run alone moves the total of the customers of each range by what it brings to them and takes from them: a
/// deposit raises it, a withdrawal lowers it, and a transfer among them, as an audit, leaves it.
pub fn transactions_move_totals()
    ensures { TransactionsMoveTotals }
{
    deposits_raise_totals();
    withdrawals_lower_totals();
    audits_leave_totals();
}

/// So whatever the interleaving, after each of the commits in their serial order the total is the opening's with what came and what went so far.
pub fn tellers_move_totals()
    ensures { TellersMoveTotals }
{
    transactions_move_totals();
    commits_are_of_kind::<Tellers>();
    clients_are_serial();
}

/// And where all commits are transfers among these customers, and audits, what they hold in all is kept.
pub fn transfers_keep_totals()
    ensures { TransfersKeepTotals }
{
    transactions_move_totals();
    invariants_last_for_clients::<Total>();
}

/// Each audit by a snapshot that ended shows the customers' accounts, and adds up to what they hold in all, as at its place in the serial order.
pub fn audits_show_totals()
    ensures { AuditsShowTotals }
{
    snapshots_stand_among_commits();
    found_totals_are_totals();
}

/// So does each audit in a transaction that committed.
pub fn audits_in_transactions_show_totals()
    ensures { AuditsInTransactionsShowTotals }
{
    told_commits_are_there();
    clients_are_serial();
    found_totals_are_totals();
}

/// So where all commits are transfers among these customers, and audits, each audit of them adds up to what they held at the opening.
pub fn audits_show_what_is_kept()
    ensures { AuditsShowWhatIsKept }
{
    transactions_move_totals();
    snapshots_see_invariants_for_clients::<Total>();
    found_totals_are_totals();
}

/// And whatever tellers do, each audit has a total, where the customers were solvent and their accounts readable at the opening.
pub fn audits_have_totals()
    ensures { AuditsHaveTotals }
{
    tellers_keep_solvency();
    tellers_keep_accounts_readable();
    snapshots_see_invariants_for_clients::<Soundness>();
    found_totals_are_totals();
    solvent_customers_hold();
}
