//! A teller as a program: what it is asked for, in turn, and what it tells of it.
ghost use Rattle.std.specs.Prelude.{◌≡◌, ◌≤◌, [], IfOk, max, min, vec_capacity, vec_len};
ghost use Rattle.erm_bank.specs.Tellers.{DidErrand, Promises, Waits};
ghost use Rattle.erm_client.specs.Clients.{GoesOn, IsClient};
ghost use Rattle.erm_client.specs.Dealings.{AllCommitted};
ghost use Rattle.erm_client.specs.Stretches.{Went};
ghost use Rattle.erm_client.specs.Transcripts.{IsNew};
ghost use Rattle.erm_model.specs.RowTransaction.{SameLaw};
ghost use Rattle.erm_node.specs.Sound.{sound_law};
ghost use Rattle.erm_tellers.specs.Tellers.{IsOfTellers};

use erm_beside::SafeSession;
use erm_client::Client;
use erm_client_threads::Program;
use erm_tellers::{Outcome, Task, audit, serve, total_of};
use erm_worker::Turns;
use std::alloc::{AllocError, Global};
use std::sync::Wait;

/// What a teller is asked for.
#[derive(Clone, Copy, Debug, PartialEq, Eq)]
pub enum Errand {
    /// A withdrawal, a deposit or a transfer.
    Serve(Task),
    /// An audit of the customers with numbers from `low` to `high`, these two too.
    Audit { low: u64, high: u64 },
}

/// What it tells of it.
#[derive(Clone, Copy, Debug, PartialEq, Eq)]
pub enum Told {
    /// What became of a task.
    Served(Outcome),
    /// What the customers with numbers from `low` to `high` hold in all.
    Total { low: u64, high: u64, total: u128 },
    /// What was found of the customers has no total.
    NoTotal,
    /// It was given up: memory ran out, or the client was told to stop, or a call that it needs was refused. Where others were in its way, or the snapshot of an
    /// audit wasn't safe, it was tried as often as the teller tries.
    Refused,
}

/// A teller.
#[derive(Drop)]
pub struct Teller {
    /// What it is asked for, in order.
    pub errands: Vec<Errand>,
    /// How often it tries what others are in the way of.
    pub tries: u32,
    /// What it tells of its errands, in their order: of all, where there is room for it at first, and else of the first ones, as many as there is room for at
    /// least, and then it does no other.
    pub told: Vec<Told>,
}

impl Teller {
    /// A teller who is asked for this, has told nothing, and has room for what it will tell of all of it. An error where there is no memory for that.
    ///
    /// ```text
    /// let teller = Teller::new(alloc, errands, 3)?;
    /// ```
    pub fn new(alloc: Global, errands: Vec<Errand>, tries: u32) -> Result<Teller, AllocError>
        ensures errands { IfOk result (λ teller. teller.errands ≡ errands) }
        ensures tries { IfOk result (λ teller. teller.tries ≡ tries) }
        ensures told { IfOk result (λ teller. teller.told.items ≡ []) }
        ensures room { IfOk result (λ teller. vec_len errands ≤ vec_capacity teller.told) }
    {
        let told = Vec::with_capacity(alloc, errands.len())?;
        Ok(Teller {
            errands,
            tries,
            told,
        })
    }

    // Forgets what it told, and makes room for what it will tell: of how many errands there is room for that.
    fn make_room(&mut self) -> usize
        ensures errands { self.new.errands ≡ self.old.errands }
        ensures tries { self.new.tries ≡ self.old.tries }
        ensures told { self.new.told.items ≡ [] }
        ensures few { result ≤ vec_len self.old.errands }
        ensures room { result ≤ vec_capacity self.new.told }
        ensures all { vec_len self.old.errands ≤ vec_capacity self.old.told → result ≡ vec_len self.old.errands }
        ensures least { min (vec_len self.old.errands) (vec_capacity self.old.told) ≤ result }
    {
        self.told.clear();
        let many = self.errands.len();
        let _ = self.told.reserve(many);
        many.min(self.told.capacity())
    }
}

// Serves a task.
fn do_task<'a, S: SafeSession, T: Turns, R: Wait>(
    rt: &R,
    client: &mut Client<'a, S, T>,
    task: Task,
    tries: u32,
) -> Told
    requires law { SameLaw S.law sound_law }
    requires client { IsClient S.stands S.seat S.own client.old }
    requires tellers { AllCommitted IsOfTellers client.old.transcript }
    ensures on { GoesOn S.stands S.seat S.own S.ends T.told client.old client.new }
    ensures did { DidErrand (max tries 1) (Errand.Serve task) result client.old.transcript client.new.transcript }
{
    match serve(rt, client, task, tries) {
        Ok(outcome) => Told::Served(outcome),
        Err(_) => Told::Refused,
    }
}

// Audits customers.
fn do_audit<'a, S: SafeSession, T: Turns, R: Wait>(
    rt: &R,
    client: &mut Client<'a, S, T>,
    low: u64,
    high: u64,
    tries: u32,
) -> Told
    requires law { SameLaw S.law sound_law }
    requires client { IsClient S.stands S.seat S.own client.old }
    requires tellers { AllCommitted IsOfTellers client.old.transcript }
    ensures on { GoesOn S.stands S.seat S.own S.ends T.told client.old client.new }
    ensures did { DidErrand (max tries 1) (Errand.Audit low high) result client.old.transcript client.new.transcript }
{
    match audit(rt, client, low, high, tries) {
        Ok(found) => match total_of(&found.0, &found.1) {
            Some(total) => Told::Total { low, high, total },
            None => Told::NoTotal,
        },
        Err(_) => Told::Refused,
    }
}

// Does an errand.
fn do_errand<'a, S: SafeSession, T: Turns, R: Wait>(
    rt: &R,
    client: &mut Client<'a, S, T>,
    errand: Errand,
    tries: u32,
) -> Told
    requires law { SameLaw S.law sound_law }
    requires client { IsClient S.stands S.seat S.own client.old }
    requires tellers { AllCommitted IsOfTellers client.old.transcript }
    ensures on { GoesOn S.stands S.seat S.own S.ends T.told client.old client.new }
    ensures did { DidErrand (max tries 1) errand result client.old.transcript client.new.transcript }
{
    match errand {
        Errand::Serve(task) => do_task(rt, client, task, tries),
        Errand::Audit { low, high } => do_audit(rt, client, low, high, tries),
    }
}

// Waits until what committed is on the disk.
fn wait_for_disk<'a, S: SafeSession, T: Turns, R: Wait>(rt: &R, client: &mut Client<'a, S, T>)
    requires law { SameLaw S.law sound_law }
    requires client { IsClient S.stands S.seat S.own client.old }
    ensures on { GoesOn S.stands S.seat S.own S.ends T.told client.old client.new }
    ensures went { Went 0 [] [] client.old.transcript client.new.transcript }
    ensures waited { Waits client.old.transcript client.new.transcript }
{
    let _ = client.durable(rt);
}

impl Program for Teller {
    ghost promises = { λ before after transcript. Promises before after transcript };

    /// Does what it is asked for, in order, as far as there is room for what it tells of it, and waits at the end until all is on the disk.
    fn run<'a, S: SafeSession, T: Turns, R: Wait>(&mut self, rt: &R, client: &mut Client<'a, S, T>)
        requires law { SameLaw S.law sound_law }
        requires client { IsClient S.stands S.seat S.own client.old }
        requires new { IsNew (S.seat client.old.session) client.old.transcript }
        ensures on { GoesOn S.stands S.seat S.own S.ends T.told client.old client.new }
        ensures promised { Promises self.old self.new client.new.transcript }
    {
        let many = self.make_room();
        'errands: for place in 0..many {
            let told = do_errand(rt, client, self.errands[place], self.tries);
            self.told.push_reserved(told);
        }
        wait_for_disk(rt, client);
    }
}
