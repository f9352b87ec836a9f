//! What two tellers are answered.
ghost use Rattle.erm_client.specs.Clients.{IsClient};
ghost use Rattle.erm_client.specs.Dealings.{AllCommitted};
ghost use Rattle.erm_node.specs.Sound.{sound_law};
ghost use Rattle.erm_shared_session.specs.Stands.{Stands, own_of, seat_of};
ghost use Rattle.erm_tellers.specs.Tellers.{IsOfTellers};

use crate::clients::{End, TableClient, finish, opened, two};
use erm_engine::Opened;
use erm_model::Seat;
use erm_tellers::{Holder, Outcome, Side, Task, audit, audit_in_transaction, serve, total_of};
use std::alloc::{AllocError, Global};
use std::process::Abort;
use std::sync::Wait;

// A deposit to one account of a customer, and a withdrawal from the other one.
const DEPOSIT: Task = Task::Deposit {
    holder: Holder {
        customer: 7,
        side: Side::Current,
    },
    amount: 100,
};

const WITHDRAWAL: Task = Task::Withdraw {
    holder: Holder {
        customer: 7,
        side: Side::Savings,
    },
    amount: 100,
};

// A transfer to another customer.
const TRANSFER: Task = Task::Transfer {
    payer: Holder {
        customer: 7,
        side: Side::Current,
    },
    payee: Holder {
        customer: 8,
        side: Side::Savings,
    },
    amount: 60,
};

// What both customers hold in all.
const HUNDRED: u128 = 100;

// What a teller is asked.
#[derive(Clone, Copy)]
enum Ask {
    // A task, which is tried once.
    Serve(Task),
    // The total of both customers that an audit shows, and one in a transaction.
    Audit,
    Track,
}

// What it is answered, unless it is refused.
#[derive(Clone, Copy, PartialEq, Eq)]
enum Told {
    Served(Option<Outcome>),
    Shown(Option<u128>),
}

// A step: whose, what is asked, and what is to be answered.
type Step = (Seat, Ask, Told);

const DONE: Told = Told::Served(Some(Outcome::Done));

const SHORT: Told = Told::Served(Some(Outcome::Short));

// What a customer's accounts cover is withdrawn by one teller, and then no more by the other. Behind another deposit a transfer leaves the total.
const STEPS: [Step; 8] = [
    (1, Ask::Serve(DEPOSIT), DONE),
    (2, Ask::Serve(WITHDRAWAL), DONE),
    (1, Ask::Serve(WITHDRAWAL), SHORT),
    (2, Ask::Serve(DEPOSIT), DONE),
    (1, Ask::Audit, Told::Shown(Some(HUNDRED))),
    (2, Ask::Track, Told::Shown(Some(HUNDRED))),
    (2, Ask::Serve(TRANSFER), DONE),
    (1, Ask::Audit, Told::Shown(Some(HUNDRED))),
];

// The total that a teller's audit shows, unless it is refused.
fn shown<'a, R: Wait>(rt: &R, client: &mut TableClient<'a>) -> Option<u128>
    requires client { IsClient (λ x s. Stands sound_law x s) seat_of own_of client.old }
    requires kept { AllCommitted IsOfTellers client.old.transcript }
    ensures client { IsClient (λ x s. Stands sound_law x s) seat_of own_of client.new }
    ensures kept { AllCommitted IsOfTellers client.new.transcript }
{
    let found = audit(rt, client, 7, 8, 1).ok()?;
    total_of(&found.0, &found.1)
}

// The same in a transaction.
fn tracked<'a, R: Wait>(rt: &R, client: &mut TableClient<'a>) -> Option<u128>
    requires client { IsClient (λ x s. Stands sound_law x s) seat_of own_of client.old }
    requires kept { AllCommitted IsOfTellers client.old.transcript }
    ensures client { IsClient (λ x s. Stands sound_law x s) seat_of own_of client.new }
    ensures kept { AllCommitted IsOfTellers client.new.transcript }
{
    let found = audit_in_transaction(rt, client, 7, 8).ok()?;
    total_of(&found.0, &found.1)
}

// What a teller is answered.
fn answer<'a, R: Wait>(rt: &R, client: &mut TableClient<'a>, asked: Ask) -> Told
    requires client { IsClient (λ x s. Stands sound_law x s) seat_of own_of client.old }
    requires kept { AllCommitted IsOfTellers client.old.transcript }
    ensures client { IsClient (λ x s. Stands sound_law x s) seat_of own_of client.new }
    ensures kept { AllCommitted IsOfTellers client.new.transcript }
{
    match asked {
        Ask::Serve(task) => Told::Served(serve(rt, client, task, 1).ok()),
        Ask::Audit => Told::Shown(shown(rt, client)),
        Ask::Track => Told::Shown(tracked(rt, client)),
    }
}

// What the teller of a seat is answered.
fn answer_of<'a, R: Wait>(
    rt: &R,
    first: &mut TableClient<'a>,
    second: &mut TableClient<'a>,
    seat: Seat,
    asked: Ask,
) -> Told
    requires first { IsClient (λ x s. Stands sound_law x s) seat_of own_of first.old }
    requires first_kept { AllCommitted IsOfTellers first.old.transcript }
    requires second { IsClient (λ x s. Stands sound_law x s) seat_of own_of second.old }
    requires second_kept { AllCommitted IsOfTellers second.old.transcript }
    ensures first { IsClient (λ x s. Stands sound_law x s) seat_of own_of first.new }
    ensures first_kept { AllCommitted IsOfTellers first.new.transcript }
    ensures second { IsClient (λ x s. Stands sound_law x s) seat_of own_of second.new }
    ensures second_kept { AllCommitted IsOfTellers second.new.transcript }
{
    if seat == 1 {
        return answer(rt, first, asked);
    }
    answer(rt, second, asked)
}

// Takes the steps of two tellers up to one that is answered otherwise: its place.
fn first_other<'a, R: Wait>(
    rt: &R,
    first: &mut TableClient<'a>,
    second: &mut TableClient<'a>,
) -> Option<usize>
    requires first { IsClient (λ x s. Stands sound_law x s) seat_of own_of first.old }
    requires first_kept { AllCommitted IsOfTellers first.old.transcript }
    requires second { IsClient (λ x s. Stands sound_law x s) seat_of own_of second.old }
    requires second_kept { AllCommitted IsOfTellers second.old.transcript }
    ensures first { IsClient (λ x s. Stands sound_law x s) seat_of own_of first.new }
    ensures second { IsClient (λ x s. Stands sound_law x s) seat_of own_of second.new }
{
    for place in 0..STEPS.len() {
        let (seat, asked, want) = STEPS[place];
        if answer_of(rt, first, second, seat, asked) != want {
            return Some(place);
        }
    }
    None
}

// Two tellers over empty tables take the steps, and end.
fn run<R: Wait + Abort>(rt: &R, alloc: Global) -> Result<(Option<usize>, [End; 2]), AllocError> {
    let Opened {
        table,
        sessions,
        idle: _,
        flush: _,
    } = opened(rt, alloc)?;
    let (mut first, mut second) = two(alloc, &table, sessions);
    let other = first_other(rt, &mut first, &mut second);
    let first = finish(rt, first);
    let second = finish(rt, second);
    Ok((other, [first, second]))
}

#[test]
fn of_two_withdrawals_one_is_covered(rt: HostRuntime) -> Result<(), AllocError> {
    let (other, ends) = run(&rt, rt.alloc())?;
    assert_eq!(rt; other, None);
    assert!(rt; ends == [End::Closed(16, 16), End::Closed(20, 20)]);
    Ok(())
}
