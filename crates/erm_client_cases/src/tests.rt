//! What two clients are answered whose calls come one between another.
use crate::calls::{Ask, Step, Told, first_other};
use crate::clients::{End, finish, opened, two};
use erm_client::Refusal;
use erm_engine::Opened;
use std::alloc::{AllocError, Global};
use std::process::Abort;
use std::sync::Wait;

// The first client commits two keys. The second one, which began before, sees neither, and may set neither; then it sees both and no more, takes one
// away and gives that up.
const SEEN: [Step; 20] = [
    (1, Ask::Durable, Told::Refused(Refusal::NoReceipt)),
    (1, Ask::Get(0, 10), Told::Refused(Refusal::NoTransaction)),
    (1, Ask::Begin, Told::Done),
    (2, Ask::Begin, Told::Done),
    (1, Ask::Put(0, 10, 1), Told::Done),
    (1, Ask::Begin, Told::Refused(Refusal::NotIdle)),
    (1, Ask::Put(0, 30, 3), Told::Done),
    (1, Ask::Commit, Told::Done),
    (2, Ask::Get(0, 10), Told::Value(None)),
    (2, Ask::Put(0, 10, 2), Told::Newer),
    (2, Ask::Begin, Told::Done),
    (2, Ask::Get(0, 10), Told::Value(Some(1))),
    (2, Ask::Get(0, 20), Told::Value(None)),
    (2, Ask::Next(0, 11), Told::Pair(Some((30, 3)))),
    (2, Ask::Next(0, 31), Told::Pair(None)),
    (2, Ask::Scan(0), Told::Found(2)),
    (2, Ask::Del(0, 10), Told::Done),
    (2, Ask::Scan(0), Told::Found(1)),
    (2, Ask::Abort, Told::Done),
    (2, Ask::Commit, Told::Refused(Refusal::NoTransaction)),
];

// The second client's snapshot sees what was there when it began, beside one that commits; it only reads, and its session has nothing else meanwhile.
// Once it has ended there is none to end, and a transaction isn't ended so.
const WATCHED: [Step; 25] = [
    (2, Ask::End, Told::Refused(Refusal::NoSnapshot)),
    (1, Ask::Begin, Told::Done),
    (1, Ask::Put(0, 10, 1), Told::Done),
    (1, Ask::Commit, Told::Done),
    (1, Ask::Begin, Told::Done),
    (1, Ask::Put(0, 10, 2), Told::Done),
    (2, Ask::Safe, Told::Done),
    (2, Ask::Get(0, 10), Told::Value(Some(1))),
    (1, Ask::Put(0, 20, 2), Told::Done),
    (1, Ask::Commit, Told::Done),
    (2, Ask::Get(0, 10), Told::Value(Some(1))),
    (2, Ask::Next(0, 11), Told::Pair(None)),
    (2, Ask::Scan(0), Told::Found(1)),
    (2, Ask::Put(0, 10, 3), Told::Refused(Refusal::ReadOnly)),
    (2, Ask::Begin, Told::Refused(Refusal::NotIdle)),
    (2, Ask::End, Told::Done),
    (2, Ask::Get(0, 10), Told::Refused(Refusal::NoTransaction)),
    (2, Ask::Begin, Told::Done),
    (2, Ask::End, Told::Refused(Refusal::NoSnapshot)),
    (2, Ask::Safe, Told::Refused(Refusal::NotIdle)),
    (2, Ask::Get(0, 10), Told::Value(Some(2))),
    (2, Ask::Abort, Told::Done),
    (2, Ask::Safe, Told::Done),
    (2, Ask::Commit, Told::Refused(Refusal::Ended)),
    (2, Ask::Safe, Told::Done),
];

// The clients set one key. The second one is refused, which ends its transaction: it begins again behind the first. Nobody writes the disk, so the first one
// is told to stop while it waits, and then asks nothing more.
const CLAIMED: [Step; 12] = [
    (1, Ask::Begin, Told::Done),
    (2, Ask::Begin, Told::Done),
    (1, Ask::Put(0, 10, 1), Told::Done),
    (
        2,
        Ask::Put(0, 10, 2),
        Told::Refused(Refusal::Owned { seat: 1, number: 1 }),
    ),
    (2, Ask::Commit, Told::Refused(Refusal::NoTransaction)),
    (1, Ask::Commit, Told::Done),
    (2, Ask::Begin, Told::Done),
    (2, Ask::Put(0, 10, 2), Told::Done),
    (2, Ask::Commit, Told::Done),
    (1, Ask::Durable, Told::Refused(Refusal::Stopped)),
    (1, Ask::Begin, Told::Refused(Refusal::Stopped)),
    (1, Ask::Get(0, 10), Told::Refused(Refusal::Stopped)),
];

// What the calls show, the calls, and how both clients end. The second one of the snapshots is closed while its last one isn't over.
// The line at which a client was told to stop has no answer.
const CASES: [(&str, &[Step], [End; 2]); 3] = [
    (
        "a client sees what the other committed",
        &SEEN,
        [End::Closed(7, 7), End::Closed(13, 13)],
    ),
    (
        "a snapshot sees what was there when it began",
        &WATCHED,
        [End::Closed(7, 7), End::Aborted(16, 16)],
    ),
    (
        "of two that set a key one begins again",
        &CLAIMED,
        [End::Closed(4, 3), End::Closed(6, 6)],
    ),
];

// Makes the calls of two clients over empty tables, up to one that is answered otherwise: its place, and how both end.
fn run<R: Wait + Abort>(
    rt: &R,
    alloc: Global,
    steps: &[Step],
) -> Result<(Option<usize>, [End; 2]), AllocError> {
    let Opened {
        table,
        sessions,
        idle: _,
        flush: _,
    } = opened(rt, alloc)?;
    let (mut first, mut second) = two(alloc, &table, sessions);
    let other = first_other(rt, &mut first, &mut second, steps);
    let first = finish(rt, first);
    let second = finish(rt, second);
    Ok((other, [first, second]))
}

// Each call has its line and its answer in its client's transcript.
#[test]
fn calls_of_two_clients_are_answered(rt: HostRuntime) -> Result<(), AllocError> {
    for (name, steps, want) in CASES {
        let (other, ends) = run(&rt, rt.alloc(), steps)?;
        assert_eq!(rt; other, None, "{name}");
        assert!(rt; ends == want, "{name}: how both end");
    }
    Ok(())
}
