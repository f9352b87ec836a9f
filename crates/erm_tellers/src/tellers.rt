//! What a teller is asked for.
ghost use Rattle.std.specs.Prelude.{◌≡◌, ◌≢◌, ◌+◌, ◌≤◌, ◌^◌, ◌⊎◌, IfNone, IfSome, IsErrAnd, Some, false, max, true};
ghost use Rattle.erm_accounts.specs.Accounts.{IsBalance, raised};
ghost use Rattle.erm_client.specs.Dealings.{AllCommitted};
ghost use Rattle.erm_tellers.specs.Denials.{MayNotAdd, MayNotTake};
ghost use Rattle.erm_tellers.specs.Served.{Attempted, Served, ServedOnce};
ghost use Rattle.erm_tellers.specs.Tellers.{IsOfTellers, Serves, WasDone};
ghost use Rattle.erm_tellers.specs.Tries.{IsPassing};

use crate::dealing::{begin, commit, give_up, read, read_beside, write};
use crate::side::{added, taken};
use crate::{Side, Transactions};
use erm_client::Refusal;
use erm_model::Value;
use std::sync::Wait;

/// An account: whose, and which of the two.
#[derive(Clone, Copy, Debug, PartialEq, Eq)]
pub struct Holder {
    /// The customer's number.
    pub customer: u64,
    pub side: Side,
}

/// What a teller is asked for.
#[derive(Clone, Copy, Debug, PartialEq, Eq)]
pub enum Task {
    /// Takes an amount from an account, where the customer's two cover it.
    Withdraw {
        holder: Holder,
        amount: u64,
    },
    /// Adds an amount to an account.
    Deposit {
        holder: Holder,
        amount: u64,
    },
    /// Takes an amount from an account, where the customer's two cover it, and adds it to another customer's.
    Transfer {
        payer: Holder,
        payee: Holder,
        amount: u64,
    },
}

/// What became of what a teller was asked for.
#[derive(Clone, Copy, Debug, PartialEq, Eq)]
pub enum Outcome {
    /// It was done, and committed.
    Done,
    /// What was read of the accounts doesn't allow it. Nothing was done.
    Short,
}

// Whether it was done.
fn is_done(outcome: &Result<Outcome, Refusal>) -> bool
    ensures done { result ≡ true → outcome.now ≡ Ok Outcome.Done }
    ensures undone { result ≡ false → outcome.now ≢ Ok Outcome.Done }
{
    matches!(outcome, Ok(Outcome::Done))
}

// Whether it may go otherwise when it is tried again: another session was in its way.
fn is_passing(outcome: &Result<Outcome, Refusal>) -> bool
    ensures passing { result ≡ true → IsErrAnd outcome.now IsPassing }
    ensures other { result ≡ false → IsErrAnd outcome.now IsPassing → ⊥ }
{
    matches!(
        outcome,
        Err(Refusal::Owned { .. } | Refusal::Newer { .. } | Refusal::Excluded { .. })
    )
}

// Lowers an account where both of the customer cover the amount.
fn take<X: Transactions, R: Wait>(
    rt: &R,
    client: &mut X,
    holder: Holder,
    amount: u64,
) -> Result<Outcome, Refusal>
    requires stands { X.stands client.old }
    ensures stands { X.stands client.new }
    ensures on { X.goes client.old client.new }
    ensures came_to { Attempted (Task.Withdraw holder amount) result (X.transcript client.old) (X.transcript client.new) }
    ensures rests { result ≡ Ok Outcome.Done → X.rests client.new }
{
    begin(rt, client)?;
    let own = read(rt, client, holder.side, holder.customer)?;
    let other = read_beside(rt, client, holder.side, holder.customer)?;
    let Some(left) = taken(&own, &other, amount) else {
        return Ok(Outcome::Short);
    };
    write(rt, client, holder.side, holder.customer, left)?;
    commit(rt, client)?;
    Ok(Outcome::Done)
}

// Raises an account.
fn add<X: Transactions, R: Wait>(
    rt: &R,
    client: &mut X,
    holder: Holder,
    amount: u64,
) -> Result<Outcome, Refusal>
    requires stands { X.stands client.old }
    ensures stands { X.stands client.new }
    ensures on { X.goes client.old client.new }
    ensures came_to { Attempted (Task.Deposit holder amount) result (X.transcript client.old) (X.transcript client.new) }
    ensures rests { result ≡ Ok Outcome.Done → X.rests client.new }
{
    begin(rt, client)?;
    let own = read(rt, client, holder.side, holder.customer)?;
    let Some(more) = added(&own, amount) else {
        return Ok(Outcome::Short);
    };
    write(rt, client, holder.side, holder.customer, more)?;
    commit(rt, client)?;
    Ok(Outcome::Done)
}

// What is kept of both accounts after an amount is moved from the one to the other, or `None` where both are the same customer's, or what is kept doesn't
// allow it.
fn moved(
    payer: Holder,
    payee: Holder,
    amount: u64,
    own: &Option<Value>,
    other: &Option<Value>,
    there: &Option<Value>,
) -> Option<(Value, Value)>
    ensures apart { IfSome result (λ both. payer.customer ≢ payee.customer) }
    ensures left { IfSome result (λ both. raised (Some both.0) + amount ≡ raised own.now) }
    ensures covered { IfSome result (λ both. 2 ^ 64 + amount ≤ raised own.now + raised other.now) }
    ensures more { IfSome result (λ both. raised (Some both.1) ≡ raised there.now + amount) }
    ensures readable { IfSome result (λ both. IsBalance (Some both.0) × IsBalance (Some both.1)) }
    ensures none { IfNone result ((payer.customer ≡ payee.customer) ⊎ MayNotTake amount own.now other.now ⊎ MayNotAdd amount there.now) }
{
    if payer.customer == payee.customer {
        return None;
    }
    let left = taken(own, other, amount)?;
    let more = added(there, amount)?;
    Some((left, more))
}

// Lowers an account of the one customer, where both of his cover the amount, and raises one of another.
fn transfer<X: Transactions, R: Wait>(
    rt: &R,
    client: &mut X,
    payer: Holder,
    payee: Holder,
    amount: u64,
) -> Result<Outcome, Refusal>
    requires stands { X.stands client.old }
    ensures stands { X.stands client.new }
    ensures on { X.goes client.old client.new }
    ensures came_to { Attempted (Task.Transfer payer payee amount) result (X.transcript client.old) (X.transcript client.new) }
    ensures rests { result ≡ Ok Outcome.Done → X.rests client.new }
{
    begin(rt, client)?;
    let own = read(rt, client, payer.side, payer.customer)?;
    let other = read_beside(rt, client, payer.side, payer.customer)?;
    let there = read(rt, client, payee.side, payee.customer)?;
    let Some(both) = moved(payer, payee, amount, &own, &other, &there) else {
        return Ok(Outcome::Short);
    };
    let (left, more) = both;
    write(rt, client, payer.side, payer.customer, left)?;
    write(rt, client, payee.side, payee.customer, more)?;
    commit(rt, client)?;
    Ok(Outcome::Done)
}

// Does what is asked for, once.
fn attempt<X: Transactions, R: Wait>(rt: &R, client: &mut X, task: Task) -> Result<Outcome, Refusal>
    requires stands { X.stands client.old }
    ensures stands { X.stands client.new }
    ensures on { X.goes client.old client.new }
    ensures came_to { Attempted task result (X.transcript client.old) (X.transcript client.new) }
    ensures rests { result ≡ Ok Outcome.Done → X.rests client.new }
{
    match task {
        Task::Withdraw { holder, amount } => take(rt, client, holder, amount),
        Task::Deposit { holder, amount } => add(rt, client, holder, amount),
        Task::Transfer {
            payer,
            payee,
            amount,
        } => transfer(rt, client, payer, payee, amount),
    }
}

// The same, which leaves no transaction in progress.
fn try_once<X: Transactions, R: Wait>(
    rt: &R,
    client: &mut X,
    task: Task,
) -> Result<Outcome, Refusal>
    requires stands { X.stands client.old }
    ensures stands { X.stands client.new }
    ensures on { X.goes client.old client.new }
    ensures ended { ServedOnce task result (X.transcript client.old) (X.transcript client.new) }
    ensures rests { X.rests client.new }
{
    let outcome = attempt(rt, client, task);
    if is_done(&outcome) {
        return outcome;
    }
    give_up(rt, client);
    outcome
}

/// Does what is asked for. It is tried again while another session is in its way, so often in all, and once at least: what is given up because of another
/// session was tried as often as that. A try begins, reads what the task needs, and where that allows it writes what changes, and commits; it goes on until
/// one of these calls is refused, and asks for nothing else, but that what isn't done is aborted. Whatever it answers, it leaves nothing in progress, unless
/// memory ran out within a line; and a transaction that the client had in progress before is given up.
///
/// ```text
/// match serve(rt, client, Task::Deposit { holder, amount: 100 }, 3) {
///     Ok(Outcome::Done) => {}
///     Ok(Outcome::Short) => {}
///     Err(why) => return Err(why),
/// }
/// ```
pub fn serve<X: Transactions, R: Wait>(
    rt: &R,
    client: &mut X,
    task: Task,
    tries: u32,
) -> Result<Outcome, Refusal>
    requires stands { X.stands client.old }
    requires kept { AllCommitted IsOfTellers (X.transcript client.old) }
    ensures stands { X.stands client.new }
    ensures on { X.goes client.old client.new }
    ensures kept { AllCommitted IsOfTellers (X.transcript client.new) }
    ensures ended { Served task (max tries 1) result (X.transcript client.old) (X.transcript client.new) }
    ensures done { result ≡ Ok Outcome.Done → WasDone (Serves task) (X.transcript client.new) }
    ensures rests { X.rests client.new }
{
    let mut outcome = try_once(rt, client, task);
    'tries: for _tried in 1..tries {
        if !is_passing(&outcome) {
            return outcome;
        }
        outcome = try_once(rt, client, task);
    }
    outcome
}
