//! Two tellers of whom each finds enough to withdraw, and who together leave too little: the same transactions on the engine, and on snapshots without
//! exclusion.
ghost use Rattle.std.specs.Prelude.{◌≡◌};
ghost use Rattle.erm_client.specs.Dealings.{AllCommitted};
ghost use Rattle.erm_tellers.specs.Tellers.{IsOfTellers};

use crate::calls::number;
use crate::clients::{TableClient, finish, opened, two};
use crate::planted::{CUSTOMER, Kept, Planted};
use erm_client::{Commit, Refusal};
use erm_engine::Opened;
use erm_model::{Pairs, Stamp, Value};
use erm_tellers::{
    Holder, Outcome, Side, Task, Transactions, audit_in_transaction, serve, total_of,
};
use std::alloc::{AllocError, Global};
use std::cell::Cell;
use std::process::Abort;
use std::sync::Wait;

// What an account holds with nothing in it: 2 ^ 63 is added to each balance.
const ZERO: u64 = 1 << 63;

// What two accounts with nothing in them hold. A customer who has less than this in all owes more than he has.
const NOTHING: u128 = 2 << 63;

// What is deposited to both accounts of a customer, 100 in all.
const DEPOSITS: [(Side, u64); 2] = [(Side::Current, 40), (Side::Savings, 60)];

// What each of two tellers withdraws, from one of them.
const AMOUNT: u64 = 100;

// An account of the customer.
fn account(side: Side) -> Holder {
    Holder {
        customer: CUSTOMER,
        side,
    }
}

// What a teller withdraws from it.
fn withdrawal(side: Side) -> Task {
    Task::Withdraw {
        holder: account(side),
        amount: AMOUNT,
    }
}

// What a task came to.
#[derive(Clone, Copy, Debug, PartialEq, Eq)]
enum CameTo {
    Done,
    /// What was read doesn't cover the amount.
    Short,
    /// The transaction is excluded.
    Excluded,
    /// It is refused otherwise.
    Refused,
}

fn came_to(outcome: Result<Outcome, Refusal>) -> CameTo {
    match outcome {
        Ok(Outcome::Done) => CameTo::Done,
        Ok(Outcome::Short) => CameTo::Short,
        Err(Refusal::Excluded { .. }) => CameTo::Excluded,
        Err(_) => CameTo::Refused,
    }
}

// Two tellers: before the first one's next commit the second one does a task, if there is one.
struct Beside<X: Transactions> {
    first: X,
    second: X,
    task: Option<Task>,
    // What the task of the second one came to.
    other: Option<CameTo>,
}

impl<X: Transactions> Beside<X> {
    // Lets the second one do its task.
    fn pass<R: Wait>(&mut self, rt: &R)
        requires stands { X.stands self.old.second }
        requires kept { AllCommitted IsOfTellers (X.transcript self.old.second) }
        ensures stands { X.stands self.new.second }
        ensures kept { AllCommitted IsOfTellers (X.transcript self.new.second) }
        ensures same { self.new.first ≡ self.old.first }
    {
        if let Some(task) = self.task {
            self.task = None;
            self.other = Some(came_to(serve(rt, &mut self.second, task, 1)));
        }
    }
}

impl<X: Transactions> Transactions for Beside<X> {
    ghost use Rattle.erm_client.specs.Dealings.{AllCommitted};
    ghost use Rattle.erm_tellers.specs.Tellers.{IsOfTellers};

    ghost stands = { λ both. X.stands both.first × X.stands both.second × AllCommitted IsOfTellers (X.transcript both.second) };

    ghost transcript = { λ both. X.transcript both.first };

    ghost rests = { λ both. X.rests both.first };

    ghost goes = { λ before after. X.goes before.first after.first };

    fn begin<R: Wait>(&mut self, rt: &R) -> Result<Stamp, Refusal> {
        self.first.begin(rt)
    }

    fn get<R: Wait>(&mut self, rt: &R, table: u8, key: u64) -> Result<Option<Value>, Refusal> {
        self.first.get(rt, table, key)
    }

    fn put<R: Wait>(&mut self, rt: &R, table: u8, key: u64, value: Value) -> Result<(), Refusal> {
        self.first.put(rt, table, key, value)
    }

    fn scan<R: Wait>(&mut self, rt: &R, table: u8, low: u64, high: u64) -> Result<Pairs, Refusal> {
        self.first.scan(rt, table, low, high)
    }

    fn commit<R: Wait>(&mut self, rt: &R) -> Result<Commit, Refusal> {
        self.pass(rt);
        self.first.commit(rt)
    }

    fn abort<R: Wait>(&mut self, rt: &R) -> Result<(), Refusal> {
        self.first.abort(rt)
    }

    ghost told = { λ both stands. X.told both.first stands.0 };

    ghost goes_on = { λ x y z first second. X.goes_on x.first y.first z.first first second };
}

// What was seen: what both withdrawals came to, the total that an audit of the customer shows then, and what both accounts hold, with 2 ^ 63 added for each.
#[derive(Clone, Copy, Debug, PartialEq, Eq)]
struct Seen {
    first: CameTo,
    second: Option<CameTo>,
    total: Option<u128>,
    held: u128,
}

// What an account holds, with 2 ^ 63 added, by what an audit found of it.
fn held(found: &Pairs) -> u64 {
    match found.as_slice().first() {
        Some(pair) => number(&pair.1),
        None => ZERO,
    }
}

// Both withdraw, the second one just before the first one commits, which tries so often.
fn withdraw<X: Transactions, R: Wait>(rt: &R, both: &mut Beside<X>, tries: u32) -> Option<Seen>
    requires first { X.stands both.old.first }
    requires first_kept { AllCommitted IsOfTellers (X.transcript both.old.first) }
    requires second { X.stands both.old.second }
    requires second_kept { AllCommitted IsOfTellers (X.transcript both.old.second) }
    ensures first { X.stands both.new.first }
    ensures second { X.stands both.new.second }
{
    for place in 0..DEPOSITS.len() {
        let (side, amount) = DEPOSITS[place];
        let deposit = Task::Deposit {
            holder: account(side),
            amount,
        };
        if came_to(serve(rt, both, deposit, 1)) != CameTo::Done {
            return None;
        }
    }
    both.task = Some(withdrawal(Side::Savings));
    let first = came_to(serve(rt, both, withdrawal(Side::Current), tries));
    let (current, savings) = audit_in_transaction(rt, both, CUSTOMER, CUSTOMER).ok()?;
    Some(Seen {
        first,
        second: both.other,
        total: total_of(&current, &savings),
        held: u128::from(held(&current)) + u128::from(held(&savings)),
    })
}

// On the engine.
fn on_engine<R: Wait + Abort>(
    rt: &R,
    alloc: Global,
    tries: u32,
) -> Result<Option<Seen>, AllocError> {
    let Opened {
        table,
        sessions,
        idle: _,
        flush: _,
    } = opened(rt, alloc)?;
    let (first, second) = two(alloc, &table, sessions);
    let mut both = Beside {
        first,
        second,
        task: None,
        other: None,
    };
    let seen = withdraw(rt, &mut both, tries);
    let Beside {
        first,
        second,
        task: _,
        other: _,
    } = both;
    let _ = finish(rt, first);
    let _ = finish(rt, second);
    Ok(seen)
}

// On snapshots without exclusion.
fn on_snapshots<R: Wait>(rt: &R, alloc: Global, tries: u32) -> Option<Seen> {
    let kept = Cell::new(Kept::nothing());
    let mut both = Beside {
        first: Planted::new(alloc, &kept, 1),
        second: Planted::new(alloc, &kept, 2),
        task: None,
        other: None,
    };
    let seen = withdraw(rt, &mut both, tries);
    let Beside {
        first: _,
        second: _,
        task: _,
        other: _,
    } = both;
    seen
}

// The engine excludes the first one, which tried again finds too little: the customer is left with nothing. Snapshots alone let both commit, and he owes 100.
#[test]
fn the_engine_excludes_one_of_two_skewed_withdrawals(rt: HostRuntime) -> Result<(), AllocError> {
    for (tries, first) in [(1, CameTo::Excluded), (2, CameTo::Short)] {
        let solvent = Seen {
            first,
            second: Some(CameTo::Done),
            total: Some(0),
            held: NOTHING,
        };
        assert_eq!(rt; on_engine(&rt, rt.alloc(), tries)?, Some(solvent));
        let owing = Seen {
            first: CameTo::Done,
            second: Some(CameTo::Done),
            total: None,
            held: NOTHING - 100,
        };
        assert_eq!(rt; on_snapshots(&rt, rt.alloc(), tries), Some(owing));
    }
    Ok(())
}
