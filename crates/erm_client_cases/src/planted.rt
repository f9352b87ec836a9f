//! An engine of snapshots without exclusion: what the tellers' transactions are run on to show what the engine rules out.
ghost use Rattle.std.specs.Prelude.{◌≡◌, ◌<◌, IfErr, IfOk, OnOk};
ghost use Rattle.std.specs.List.{All};
ghost use Rattle.erm_client.specs.Refusals.{IsOfClient, MayTell};
ghost use Rattle.erm_client.specs.Transcripts.{IsAnswered, IsNew, IsRefused};
ghost use Rattle.erm_client_cases.specs.Planted.{IsOfPlanted, IsTold, found_of};
ghost use Rattle.erm_script.specs.Script.{IsInRange};
ghost use Rattle.erm_worker.specs.Work.{MayBeAsked};

use crate::calls::{number, value};
use erm_client::{Commit, Refusal, Transcript};
use erm_model::{Pairs, Reply, Seat, Stamp, Value};
use erm_report::Answer;
use erm_script::Command;
use erm_tellers::Transactions;
use std::alloc::{AllocError, Global};
use std::cell::Cell;
use std::sync::Wait;

/// The customer whose accounts it keeps.
pub const CUSTOMER: u64 = 7;

// How many accounts there are, each in a table of its own.
const ACCOUNTS: usize = 2;

/// What is kept of the accounts, and the stamps of the commits that wrote them last.
#[derive(Clone, Copy)]
pub struct Kept {
    accounts: [Option<u64>; ACCOUNTS],
    stamps: [Stamp; ACCOUNTS],
    /// The stamp of the next commit.
    next: Stamp,
}

impl Kept {
    /// Nothing is.
    pub fn nothing() -> Kept {
        Kept {
            accounts: [None; ACCOUNTS],
            stamps: [0; ACCOUNTS],
            next: 1,
        }
    }
}

// A transaction in progress: what was kept when it began, with what it writes, and which accounts these are.
#[derive(Clone, Copy)]
struct Work {
    copy: Kept,
    written: [bool; ACCOUNTS],
}

impl Work {
    // What it sees of the accounts of customers with numbers from `low` to `high`.
    fn sees(&self, table: u8, low: u64, high: u64) -> Option<Value> {
        let place = usize::from(table);
        if CUSTOMER < low || high < CUSTOMER || place >= ACCOUNTS {
            return None;
        }
        match self.copy.accounts[place] {
            Some(balance) => Some(value(balance)),
            None => None,
        }
    }

    // The stamp of a commit since its begin that wrote what it has written.
    fn newer(&self, kept: &Kept) -> Option<Stamp> {
        for place in 0..ACCOUNTS {
            if self.written[place] && kept.stamps[place] >= self.copy.next {
                return Some(kept.stamps[place]);
            }
        }
        None
    }

    // What is kept once it has committed.
    fn kept(&self, mut kept: Kept) -> Kept {
        for place in 0..ACCOUNTS {
            if self.written[place] {
                kept.accounts[place] = self.copy.accounts[place];
                kept.stamps[place] = kept.next;
            }
        }
        kept.next = kept.next.saturating_add(1);
        kept
    }
}

// Notes what was asked, and answered: nothing of it where there is no memory.
fn note(transcript: &mut Transcript, asked: Command, answer: Answer) -> Result<(), Refusal>
    requires told { IsTold transcript.old }
    requires may { MayBeAsked asked }
    requires of { IsOfClient asked }
    requires range { IsInRange asked }
    requires tells { MayTell asked answer }
    requires planted { IsOfPlanted answer }
    ensures told { IsTold transcript.new }
    ensures ok { OnOk result (IsAnswered transcript.old asked answer transcript.new) }
    ensures err { IfErr result (λ why. IsRefused transcript.old asked why transcript.new) }
{
    if transcript.make_room(1).is_err() {
        return Err(Refusal::Memory);
    }
    let line = transcript.next_line(asked);
    transcript.add(line, answer);
    Ok(())
}

// Bytes are each below 256.
fn bytes_are_small(bytes: &[u8])
    ensures { All (λ b. b < 256) bytes.now }
{}

// The same value once more.
fn copied(value: &Option<Value>) -> Option<Value>
    ensures { result ≡ value.now }
{
    match value {
        Some(value) => Some(value.copied()),
        None => None,
    }
}

// The customer's account as a scan finds it, where something is kept of it.
fn found(alloc: Global, value: &Option<Value>) -> Result<Pairs, AllocError>
    ensures { IfOk result (λ pairs. pairs ≡ found_of CUSTOMER value.now) }
{
    let mut pairs = Vec::new(alloc);
    if let Some(value) = value {
        pairs.push((CUSTOMER, value.copied()))?;
    }
    Ok(Pairs::new(pairs))
}

/// A session of the engine: snapshot isolation. A transaction works on a copy of what is kept; of two that write an account, the first one to commit wins, and
/// nothing else is refused.
#[derive(Drop)]
pub struct Planted<'k> {
    alloc: Global,
    kept: &'k Cell<Kept>,
    work: Option<Work>,
    transcript: Transcript,
}

impl<'k> Planted<'k> {
    /// Of this seat.
    pub fn new(alloc: Global, kept: &'k Cell<Kept>, seat: Seat) -> Planted<'k>
        ensures told { IsTold result.transcript }
        ensures new { IsNew seat result.transcript }
    {
        Planted {
            alloc,
            kept,
            work: None,
            transcript: Transcript::new(alloc, seat),
        }
    }
}

impl<'k> Transactions for Planted<'k> {
    ghost use Rattle.std.specs.Prelude.{◌≡◌, None, ⊤};
    ghost use Rattle.erm_client_cases.specs.Planted.{IsTold};

    ghost stands = { λ session. IsTold session.transcript };

    ghost transcript = { λ session. session.transcript };

    ghost rests = { λ session. session.work ≡ None };

    ghost goes = { λ before after. ⊤ };

    fn begin<R: Wait>(&mut self, _rt: &R) -> Result<Stamp, Refusal> {
        if self.work.is_some() {
            note(&mut self.transcript, Command::Begin, Answer::NotIdle)?;
            return Err(Refusal::NotIdle);
        }
        let copy = self.kept.get();
        note(
            &mut self.transcript,
            Command::Begin,
            Answer::Began(copy.next),
        )?;
        self.work = Some(Work {
            copy,
            written: [false; ACCOUNTS],
        });
        Ok(copy.next)
    }

    fn get<R: Wait>(&mut self, _rt: &R, table: u8, key: u64) -> Result<Option<Value>, Refusal> {
        let asked = Command::Get { table, key };
        let Some(work) = self.work else {
            note(&mut self.transcript, asked, Answer::NoTransaction)?;
            return Err(Refusal::NoTransaction);
        };
        let value = work.sees(table, key, key);
        let reply = Reply::Value(copied(&value));
        note(&mut self.transcript, asked, Answer::Replied(reply))?;
        Ok(value)
    }

    fn put<R: Wait>(&mut self, _rt: &R, table: u8, key: u64, value: Value) -> Result<(), Refusal> {
        bytes_are_small(value.as_slice());
        let balance = number(&value);
        let asked = Command::Put { table, key, value };
        let Some(mut work) = self.work else {
            note(&mut self.transcript, asked, Answer::NoTransaction)?;
            return Err(Refusal::NoTransaction);
        };
        let place = usize::from(table);
        if key != CUSTOMER || place >= ACCOUNTS {
            note(&mut self.transcript, asked, Answer::WritesFull)?;
            return Err(Refusal::WritesFull);
        }
        note(&mut self.transcript, asked, Answer::Replied(Reply::Done))?;
        work.copy.accounts[place] = Some(balance);
        work.written[place] = true;
        self.work = Some(work);
        Ok(())
    }

    fn scan<R: Wait>(&mut self, _rt: &R, table: u8, low: u64, high: u64) -> Result<Pairs, Refusal> {
        let asked = Command::Scan { table, low, high };
        let Some(work) = self.work else {
            note(&mut self.transcript, asked, Answer::NoTransaction)?;
            return Err(Refusal::NoTransaction);
        };
        let value = work.sees(table, low, high);
        let (Ok(pairs), Ok(copy)) = (found(self.alloc, &value), found(self.alloc, &value)) else {
            note(&mut self.transcript, asked, Answer::ReadsFull)?;
            return Err(Refusal::ReadsFull);
        };
        note(
            &mut self.transcript,
            asked,
            Answer::Replied(Reply::Found(copy)),
        )?;
        Ok(pairs)
    }

    fn commit<R: Wait>(&mut self, _rt: &R) -> Result<Commit, Refusal> {
        let Some(work) = self.work else {
            note(&mut self.transcript, Command::Commit, Answer::NoTransaction)?;
            return Err(Refusal::NoTransaction);
        };
        let kept = self.kept.get();
        if let Some(stamp) = work.newer(&kept) {
            note(
                &mut self.transcript,
                Command::Commit,
                Answer::Newer { stamp },
            )?;
            self.work = None;
            return Err(Refusal::Newer { stamp });
        }
        let stamp = kept.next;
        note(
            &mut self.transcript,
            Command::Commit,
            Answer::Committed {
                stamp,
                succ: stamp,
                pred: 0,
            },
        )?;
        self.kept.set(work.kept(kept));
        self.work = None;
        Ok(Commit {
            stamp,
            succ: stamp,
            pred: 0,
        })
    }

    fn abort<R: Wait>(&mut self, _rt: &R) -> Result<(), Refusal> {
        if self.work.is_none() {
            note(&mut self.transcript, Command::Abort, Answer::NoTransaction)?;
            return Err(Refusal::NoTransaction);
        }
        self.work = None;
        note(&mut self.transcript, Command::Abort, Answer::Aborted)
    }

    ghost told = { λ session told. told.ok };

    ghost goes_on = { λ x y z first second. tt };
}
