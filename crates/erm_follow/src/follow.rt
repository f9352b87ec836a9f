//! A follower.
ghost use Rattle.std.specs.Prelude.{◌≡◌, IfOk, IfErr, None, length};
ghost use Rattle.erm_follow.specs.Follow.{start, MayTake, GivesNext, IsStop};
ghost use Rattle.erm_follow.specs.declared.seen.Seen.TheVariants as seen;

use crate::turn::{Turn, broken_by, commits_below, drop_first, turn_of};
use crate::{Broken, FollowStop, Seen};
use erm_model::{Commit, Stamp};
use std::alloc::Global;
use std::collections::BTreeSet;
use std::marker::Model;

/// Follows a log: it is given the log's commits and safe stamps in order, and answers the commits in the serial order, each
/// as soon as no later commit can come before it. Contracts see what it knows (`Followed`).
#[derive(Drop)]
pub struct Follow {
    alloc: Global,
    base: Stamp,
    safe: Stamp,
    waiting: BTreeSet<Turn>,
    broken: Option<Broken>,
}

impl Model for Follow {
    ghost use Rattle.erm_follow.specs.Follow.{Followed};
    ghost use Rattle.erm_follow.specs.Waiting.{commits_of_turns, IsKept};

    ghost Value = { Followed };

    ghost view = { λ f. record { base = f.base; safe = f.safe; waiting = commits_of_turns f.waiting.keys; broken = f.broken } };

    ghost invariant = { λ f. IsKept f.safe f.waiting.keys };
}

impl Follow {
    /// A follower of a log that begins at `base`.
    pub fn new(alloc: Global, base: Stamp) -> Follow
        ensures { result ≡ start base }
    {
        Follow {
            alloc,
            base,
            safe: 0,
            waiting: BTreeSet::new(alloc),
            broken: None,
        }
    }

    /// How many commits were read and not told.
    pub fn pending(&self) -> usize
        ensures { result ≡ length self.now.waiting }
    {
        self.waiting.len()
    }

    /// Takes the log's next item, and answers the commits that are due with it, in the serial order: those below the
    /// greatest safe stamp that were not told.
    ///
    /// # Errors
    ///
    /// `BrokenMark` where a commit breaks the greatest safe stamp, and from then on; then nothing is told. `Memory`
    /// changes nothing.
    pub fn take(&mut self, seen: Seen) -> Result<Vec<Commit>, FollowStop>
        requires { MayTake self.old seen }
        ensures given { IfOk result (λ lines. GivesNext self.old seen lines.items self.new) }
        ensures stopped { IfErr result (λ stop. IsStop self.old seen stop self.new) }
    {
        if let Some(broken) = self.broken {
            return Err(FollowStop::BrokenMark(broken));
        }
        match seen {
            Seen::Commit(commit) => self.take_commit(commit),
            Seen::Safe(safe) => self.take_safe(safe),
        }
    }

    // A commit waits, unless it breaks the safe stamp.
    fn take_commit(&mut self, commit: Commit) -> Result<Vec<Commit>, FollowStop>
        requires whole { self.old.broken ≡ None }
        requires next { MayTake self.old (seen.Commit commit) }
        ensures given { IfOk result (λ lines. GivesNext self.old (seen.Commit commit) lines.items self.new) }
        ensures stopped { IfErr result (λ stop. IsStop self.old (seen.Commit commit) stop self.new) }
    {
        if commit.succ < self.safe {
            let broken = Broken {
                safe: self.safe,
                stamp: commit.stamp,
                succ: commit.succ,
            };
            self.broken = Some(broken);
            return Err(FollowStop::BrokenMark(broken));
        }
        let Ok(_) = self.waiting.insert(turn_of(commit)) else {
            return Err(FollowStop::Memory);
        };
        Ok(Vec::new(self.alloc))
    }

    // The commits below a greater safe stamp are due, unless one above it breaks it.
    fn take_safe(&mut self, safe: Stamp) -> Result<Vec<Commit>, FollowStop>
        requires { self.old.broken ≡ None }
        ensures given { IfOk result (λ lines. GivesNext self.old (seen.Safe safe) lines.items self.new) }
        ensures stopped { IfErr result (λ stop. IsStop self.old (seen.Safe safe) stop self.new) }
    {
        if safe < self.base || safe <= self.safe {
            return Ok(Vec::new(self.alloc));
        }
        let Ok(lines) = commits_below(self.alloc, &self.waiting, safe) else {
            return Err(FollowStop::Memory);
        };
        if let Some(broken) = broken_by(safe, &lines) {
            self.broken = Some(broken);
            return Err(FollowStop::BrokenMark(broken));
        }
        drop_first(&mut self.waiting, lines.len());
        self.safe = safe;
        Ok(lines)
    }
}
