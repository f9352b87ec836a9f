//! A log of one commit, followed; and one whose safe stamp is broken.
ghost use Rattle.std.specs.Prelude.{◌≡◌};

use erm_follow::{Follow, FollowStop, Seen};
use erm_model::Commit;
use std::test::*;

// A commit of session 1 with these stamps.
fn commit(stamp: u64, succ: u64) -> Commit
    ensures { result ≡ record { seat = 1; number = 1; stamp = stamp; succ = succ } }
{
    Commit {
        seat: 1,
        number: 1,
        stamp,
        succ,
    }
}

// Whether no commit is told.
fn is_quiet(told: Result<Vec<Commit>, FollowStop>) -> bool {
    matches!(&told, Ok(lines) if lines.is_empty())
}

// Whether one commit is told, with this stamp.
fn is_commit(told: Result<Vec<Commit>, FollowStop>, stamp: u64) -> bool {
    matches!(&told, Ok(lines) if lines.len() == 1 && lines[0].stamp == stamp)
}

// Whether the safe stamp is told as broken.
fn breaks(told: Result<Vec<Commit>, FollowStop>) -> bool {
    matches!(&told, Err(FollowStop::BrokenMark(b)) if (b.safe, b.stamp, b.succ) == (40, 47, 38))
}

#[test]
fn due(rt: HostRuntime) {
    let mut follow = Follow::new(rt.alloc(), 8);
    let waits = follow.take(Seen::Commit(commit(47, 38)));
    assert!(rt; is_quiet(waits) && follow.pending() == 1);
    let early = follow.take(Seen::Safe(7));
    assert!(rt; is_quiet(early));
    let told = follow.take(Seen::Safe(56));
    assert!(rt; is_commit(told, 47) && follow.pending() == 0);
}

// Asked twice it answers the same.
#[test]
fn broken(rt: HostRuntime) {
    let mut follow = Follow::new(rt.alloc(), 8);
    let waits = follow.take(Seen::Commit(commit(47, 38)));
    assert!(rt; is_quiet(waits));
    for _ in 0..2 {
        let stop = follow.take(Seen::Safe(40));
        assert!(rt; breaks(stop) && follow.pending() == 1);
    }
}
