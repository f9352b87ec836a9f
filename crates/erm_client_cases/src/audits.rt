//! What a teller's audits show beside the transactions of another client.
ghost use Rattle.erm_client.specs.Clients.{IsClient};
ghost use Rattle.erm_client.specs.Dealings.{AllCommitted};
ghost use Rattle.erm_node.specs.Sound.{sound_law};
ghost use Rattle.erm_shared_session.specs.Stands.{Stands, own_of, seat_of};
ghost use Rattle.erm_tellers.specs.Tellers.{IsOfTellers};

use crate::calls::{self, call};
use crate::clients::{End, TableClient, finish, opened, two};
use erm_beside::{SafeSession, SharedSession};
use erm_client::Refusal;
use erm_engine::Opened;
use erm_model::{Phase, Seat};
use erm_tellers::{Holder, Outcome, Side, Task, audit, serve, total_of};
use std::alloc::{AllocError, Global};
use std::process::Abort;
use std::sync::Wait;

// What is kept of an account whose balance is zero: 2 ^ 63 is added to each balance.
const ZERO: u64 = 1 << 63;

// A deposit to the account that the other client reads.
const DEPOSIT: Task = Task::Deposit {
    holder: Holder {
        customer: 7,
        side: Side::Current,
    },
    amount: 100,
};

// What is asked.
#[derive(Clone, Copy)]
enum Ask {
    // A call of the first client.
    Call(calls::Ask),
    // A task of the second one, the teller, in so many tries.
    Serve(Task, u32),
    // The teller's session begins a snapshot, and doesn't wait.
    Begin,
    // The total that the teller's audit shows of customers with numbers from the first to the second one, in so many tries.
    Audit(u64, u64, u32),
}

// What is answered.
#[derive(Clone, Copy, PartialEq, Eq)]
enum Told {
    Called(Option<calls::Told>),
    Served(Option<Outcome>),
    Began,
    Shown(Option<u128>),
    // A commit of this seat went back.
    Unsafe(Seat),
    // It is refused otherwise.
    Refused,
}

// A step: what is asked, and what is to be answered.
type Step = (Ask, Told);

const CALLED: Told = Told::Called(Some(calls::Told::Done));

const NONE: Told = Told::Called(Some(calls::Told::Value(None)));

// Customer 7 has 100, of which 60 are moved to customer 8. Audits beside the transfer, before it has written, between both writes and before its commit, are
// not refused, and show what each had before; and so do others behind it what each has then, and all customers.
const BESIDE: [Step; 18] = [
    (Ask::Call(calls::Ask::Begin), CALLED),
    (Ask::Call(calls::Ask::Put(0, 7, ZERO + 100)), CALLED),
    (Ask::Call(calls::Ask::Commit), CALLED),
    (Ask::Call(calls::Ask::Begin), CALLED),
    (
        Ask::Call(calls::Ask::Get(0, 7)),
        Told::Called(Some(calls::Told::Value(Some(ZERO + 100)))),
    ),
    (Ask::Call(calls::Ask::Get(1, 7)), NONE),
    (Ask::Call(calls::Ask::Get(1, 8)), NONE),
    (Ask::Audit(7, 8, 1), Told::Shown(Some(100))),
    (Ask::Call(calls::Ask::Put(0, 7, ZERO + 40)), CALLED),
    (Ask::Audit(7, 8, 1), Told::Shown(Some(100))),
    (Ask::Audit(7, 7, 1), Told::Shown(Some(100))),
    (Ask::Call(calls::Ask::Put(1, 8, ZERO + 60)), CALLED),
    (Ask::Audit(7, 8, 1), Told::Shown(Some(100))),
    (Ask::Audit(8, 8, 1), Told::Shown(Some(0))),
    (Ask::Call(calls::Ask::Commit), CALLED),
    (Ask::Audit(0, u64::MAX, 1), Told::Shown(Some(100))),
    (Ask::Audit(7, 7, 1), Told::Shown(Some(40))),
    (Ask::Audit(8, 8, 1), Told::Shown(Some(60))),
];

// The first client's transaction reads an account that the teller then raises, and commits behind the begin of the teller's snapshot: it has its turn before
// the deposit, and so the snapshot isn't safe. The audit is refused so, or begun again where it may be, and then shows both.
const WENT_BACK: [Step; 15] = [
    (Ask::Call(calls::Ask::Begin), CALLED),
    (Ask::Call(calls::Ask::Get(0, 7)), NONE),
    (Ask::Serve(DEPOSIT, 1), Told::Served(Some(Outcome::Done))),
    (Ask::Begin, Told::Began),
    (Ask::Call(calls::Ask::Put(1, 8, ZERO + 5)), CALLED),
    (Ask::Call(calls::Ask::Commit), CALLED),
    (Ask::Audit(7, 8, 1), Told::Unsafe(1)),
    (Ask::Audit(7, 8, 1), Told::Shown(Some(105))),
    (Ask::Call(calls::Ask::Begin), CALLED),
    (
        Ask::Call(calls::Ask::Get(0, 7)),
        Told::Called(Some(calls::Told::Value(Some(ZERO + 100)))),
    ),
    (Ask::Serve(DEPOSIT, 1), Told::Served(Some(Outcome::Done))),
    (Ask::Begin, Told::Began),
    (Ask::Call(calls::Ask::Put(1, 8, ZERO + 6)), CALLED),
    (Ask::Call(calls::Ask::Commit), CALLED),
    (Ask::Audit(7, 8, 2), Told::Shown(Some(206))),
];

// The first client has written the account to which the teller deposits: that is tried three times in vain, and done once the first one has committed. Then
// the customer owes more than he has, and an audit has no total.
const OWNED: [Step; 10] = [
    (Ask::Call(calls::Ask::Begin), CALLED),
    (Ask::Call(calls::Ask::Put(0, 7, ZERO + 5)), CALLED),
    (Ask::Serve(DEPOSIT, 3), Told::Served(None)),
    (Ask::Call(calls::Ask::Commit), CALLED),
    (Ask::Serve(DEPOSIT, 3), Told::Served(Some(Outcome::Done))),
    (Ask::Audit(0, u64::MAX, 1), Told::Shown(Some(105))),
    (Ask::Call(calls::Ask::Begin), CALLED),
    (Ask::Call(calls::Ask::Put(1, 7, ZERO - 106)), CALLED),
    (Ask::Call(calls::Ask::Commit), CALLED),
    (Ask::Audit(7, 7, 1), Told::Shown(None)),
];

// What the steps show, the steps, and how both clients end. An audit has four lines, and one that isn't safe two; a deposit that is tried in vain has four,
// with its abort.
const CASES: [(&str, &[Step], [End; 2]); 3] = [
    (
        "audits beside a transfer aren't refused, and show what was before it",
        &BESIDE,
        [End::Closed(10, 10), End::Closed(32, 32)],
    ),
    (
        "an audit that isn't safe is refused so, or tried again",
        &WENT_BACK,
        [End::Closed(8, 8), End::Closed(20, 20)],
    ),
    (
        "a teller tries as often as it is told where another one is in its way",
        &OWNED,
        [End::Closed(6, 6), End::Closed(24, 24)],
    ),
];

// Begins a snapshot of the teller's session, which is idle, as a call that waits would, and doesn't wait. There is room for the line that gives it up.
fn begin_alone<'a>(client: &mut TableClient<'a>) -> Told
    requires client { IsClient (λ x s. Stands sound_law x s) seat_of own_of client.old }
    requires kept { AllCommitted IsOfTellers client.old.transcript }
    ensures client { IsClient (λ x s. Stands sound_law x s) seat_of own_of client.new }
    ensures kept { AllCommitted IsOfTellers client.new.transcript }
{
    let Phase::Idle = client.session.phase(client.shared) else {
        return Told::Refused;
    };
    if client.transcript.make_room(1).is_err() {
        return Told::Refused;
    }
    match client.session.begin_safe(client.shared) {
        Ok(_) => Told::Began,
        Err(_) => Told::Refused,
    }
}

// What the teller's audit shows.
fn show<'a, R: Wait>(rt: &R, client: &mut TableClient<'a>, low: u64, high: u64, tries: u32) -> Told
    requires client { IsClient (λ x s. Stands sound_law x s) seat_of own_of client.old }
    requires kept { AllCommitted IsOfTellers client.old.transcript }
    ensures client { IsClient (λ x s. Stands sound_law x s) seat_of own_of client.new }
    ensures kept { AllCommitted IsOfTellers client.new.transcript }
{
    match audit(rt, client, low, high, tries) {
        Ok(found) => Told::Shown(total_of(&found.0, &found.1)),
        Err(Refusal::Unsafe { seat, .. }) => Told::Unsafe(seat),
        Err(_) => Told::Refused,
    }
}

// What is answered.
fn answer<'a, R: Wait>(
    rt: &R,
    first: &mut TableClient<'a>,
    teller: &mut TableClient<'a>,
    asked: Ask,
) -> Told
    requires first { IsClient (λ x s. Stands sound_law x s) seat_of own_of first.old }
    requires teller { IsClient (λ x s. Stands sound_law x s) seat_of own_of teller.old }
    requires kept { AllCommitted IsOfTellers teller.old.transcript }
    ensures first { IsClient (λ x s. Stands sound_law x s) seat_of own_of first.new }
    ensures teller { IsClient (λ x s. Stands sound_law x s) seat_of own_of teller.new }
    ensures kept { AllCommitted IsOfTellers teller.new.transcript }
{
    match asked {
        Ask::Call(ask) => Told::Called(call(rt, first, ask)),
        Ask::Serve(task, tries) => Told::Served(serve(rt, teller, task, tries).ok()),
        Ask::Begin => begin_alone(teller),
        Ask::Audit(low, high, tries) => show(rt, teller, low, high, tries),
    }
}

// Takes steps up to one that is answered otherwise: its place.
fn first_other<'a, R: Wait>(
    rt: &R,
    first: &mut TableClient<'a>,
    teller: &mut TableClient<'a>,
    steps: &[Step],
) -> Option<usize>
    requires first { IsClient (λ x s. Stands sound_law x s) seat_of own_of first.old }
    requires teller { IsClient (λ x s. Stands sound_law x s) seat_of own_of teller.old }
    requires kept { AllCommitted IsOfTellers teller.old.transcript }
    ensures first { IsClient (λ x s. Stands sound_law x s) seat_of own_of first.new }
    ensures teller { IsClient (λ x s. Stands sound_law x s) seat_of own_of teller.new }
{
    for place in 0..steps.len() {
        let (asked, want) = steps[place];
        if answer(rt, first, teller, asked) != want {
            return Some(place);
        }
    }
    None
}

// A client and a teller over empty tables take the steps, and end.
fn run<R: Wait + Abort>(
    rt: &R,
    alloc: Global,
    steps: &[Step],
) -> Result<(Option<usize>, [End; 2]), AllocError> {
    let Opened {
        table,
        sessions,
        idle: _,
        flush: _,
    } = opened(rt, alloc)?;
    let (mut first, mut teller) = two(alloc, &table, sessions);
    let other = first_other(rt, &mut first, &mut teller, steps);
    let first = finish(rt, first);
    let teller = finish(rt, teller);
    Ok((other, [first, teller]))
}

#[test]
fn audits_are_answered_beside_others(rt: HostRuntime) -> Result<(), AllocError> {
    for (name, steps, want) in CASES {
        let (other, ends) = run(&rt, rt.alloc(), steps)?;
        assert_eq!(rt; other, None, "{name}");
        assert!(rt; ends == want, "{name}: how both end");
    }
    Ok(())
}
