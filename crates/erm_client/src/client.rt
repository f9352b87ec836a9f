//! A client: a session with the transcript of what was asked of it.
ghost use Rattle.std.specs.Prelude.{◌≡◌, ◌≢◌, ◌<◌, IfErr, IfOk, None, OnOk, false, true};
ghost use Rattle.std.specs.List.{All};
ghost use Rattle.erm_beside.specs.Laws.{GoesOnward};
ghost use Rattle.erm_client.specs.Clients.{FinishesWork, GoesOn, HasRun, IsClient, Rests, StarvesWork};
ghost use Rattle.erm_client.specs.Dealings.{HasNone};
ghost use Rattle.erm_client.specs.Refusals.{IsOfClient};
ghost use Rattle.erm_client.specs.Transcripts.{HasRoom, IsAnswered, IsAsked, IsLine, IsNew, IsRefused, IsUnended, room_for};
ghost use Rattle.erm_lines.specs.Whole.{is_snapshot};
ghost use Rattle.erm_model.specs.declared.outcome.Phase.TheVariants.{Active, Idle, Sealed};
ghost use Rattle.erm_model.specs.RowTransaction.{SameLaw};
ghost use Rattle.erm_node.specs.Sound.{sound_law};
ghost use Rattle.erm_script.specs.Script.{IsInRange};
ghost use Rattle.erm_worker.specs.Work.{IsReady, MayBeAsked};
ghost use Rattle.erm_world.specs.World.{View, phase_at};

use crate::line::{end, give_up, run_next};
use crate::replies::{
    Commit, abort_in, begin_in, commit_in, done_in, durable_in, end_in, found_in, pair_in, safe_in,
    value_in,
};
use crate::{Refusal, Standing, Transcript};
use erm_beside::{SafeSession, SharedSession};
use erm_lines_at_once::has_snapshot;
use erm_model::{Pairs, Receipt, Reply, Seat, Stamp, TABLES, Value};
use erm_report::Answer;
use erm_script::{Command, ScriptLine};
use erm_worker::Turns;
use std::alloc::{AllocError, Global};
use std::sync::Wait;

// Bytes are each below 256.
fn bytes_are_small(bytes: &[u8])
    ensures { All (λ b. b < 256) bytes.now }
{}

// For how many lines there is to be room before a command is asked: for its own, and for one that gives up what may be in progress then.
fn lines_ahead(command: &Command) -> usize
    ensures { result ≡ room_for command.now }
{
    match command {
        Command::Abort => 1,
        _ => 2,
    }
}

/// A session of a world, as a program has it.
#[derive(Drop)]
pub struct Client<'a, S: SharedSession, T> {
    pub alloc: Global,
    pub session: S,
    /// What the session shares with others.
    pub shared: &'a S::Shared,
    /// What the client waits by.
    pub turns: T,
    /// The receipt of the session's last commit.
    pub receipt: Option<Receipt>,
    pub transcript: Transcript,
}

/// A session after its client.
#[derive(Drop)]
pub struct Finished<S, T> {
    pub session: S,
    pub turns: T,
    pub transcript: Transcript,
    /// The answer of its closing behind the last line. `None` where it had no transaction, or was left.
    pub closed: Option<Answer>,
}

impl<'a, S: SafeSession, T: Turns> Client<'a, S, T> {
    /// The client of a session, of this seat, that is idle and has committed nothing.
    ///
    /// ```text
    /// let mut client = Client::new(alloc, session, &table, turns, seat);
    /// ```
    pub fn new(
        alloc: Global,
        session: S,
        shared: &'a S::Shared,
        turns: T,
        seat: Seat,
    ) -> Client<'a, S, T>
        requires stands { S.stands shared.now session }
        requires seat { seat ≡ S.seat session }
        requires ready { IsReady (S.own session) (S.seat session) None }
        requires idle { phase_at (S.own session) (S.seat session) ≡ Idle }
        ensures client { IsClient S.stands S.seat S.own result }
        ensures same { result.session ≡ session }
        ensures shared { result.shared ≡ shared.entry }
        ensures none { IsNew seat result.transcript }
        ensures ran { (f : View) → HasRun f (S.own session) result.transcript (S.own session) }
    {
        Client {
            alloc,
            session,
            shared,
            turns,
            receipt: None,
            transcript: Transcript::new(alloc, seat),
        }
    }

    // Runs a line, for which the transcript has room.
    fn run<R: Wait>(&mut self, rt: &R, line: ScriptLine) -> Result<(), Refusal>
        requires law { SameLaw S.law sound_law }
        requires client { IsClient S.stands S.seat S.own self.old }
        requires opened { self.old.transcript.standing ≡ Standing.Open }
        requires room { HasRoom (room_for line.command) self.old.transcript }
        requires line { IsLine (S.seat self.old.session) line }
        ensures on { GoesOn S.stands S.seat S.own S.ends T.told self.old self.new }
        ensures ok { OnOk result (IsAsked (phase_at (S.own self.old.session) (S.seat self.old.session)) (phase_at (S.own self.new.session) (S.seat self.new.session)) self.old.transcript line.command self.new.transcript) }
        ensures err { IfErr result (λ why. IsRefused self.old.transcript line.command why self.new.transcript) }
        ensures other { IfErr result (λ why. why ≢ Refusal.Ended) }
        ensures rests { line.command ≡ Command.Abort → Rests S.seat S.own self.new }
    {
        erm_maps::begun_transactions_are_runs();
        erm_maps::answers_stay();
        match run_next(
            rt,
            self.alloc,
            &mut self.session,
            self.shared,
            &mut self.turns,
            &line,
            &mut self.receipt,
        ) {
            Ok(Some(answer)) => {
                self.transcript.add(line, answer);
                Ok(())
            }
            Ok(None) => {
                self.transcript.stop(line);
                Err(Refusal::Stopped)
            }
            Err(AllocError) => {
                self.transcript.starve();
                Err(Refusal::Memory)
            }
        }
    }

    // Asks a command of the session, and puts it and its answer into the transcript. The memory for both is taken before, and for a line that gives up what
    // is in progress then: so this one is always there.
    fn ask<R: Wait>(&mut self, rt: &R, command: Command) -> Result<(), Refusal>
        requires law { SameLaw S.law sound_law }
        requires client { IsClient S.stands S.seat S.own self.old }
        requires may { MayBeAsked command }
        requires of { IsOfClient command }
        requires range { IsInRange command }
        ensures on { GoesOn S.stands S.seat S.own S.ends T.told self.old self.new }
        ensures ok { OnOk result (IsAsked (phase_at (S.own self.old.session) (S.seat self.old.session)) (phase_at (S.own self.new.session) (S.seat self.new.session)) self.old.transcript command self.new.transcript) }
        ensures err { IfErr result (λ why. IsRefused self.old.transcript command why self.new.transcript) }
        ensures other { IfErr result (λ why. why ≢ Refusal.Ended) }
        ensures rests { command ≡ Command.Abort → Rests S.seat S.own self.new }
    {
        match self.transcript.standing {
            Standing::Open => {}
            Standing::Stopped => return Err(Refusal::Stopped),
            Standing::Starved => return Err(Refusal::Memory),
        }
        if self.transcript.make_room(lines_ahead(&command)).is_err() {
            return Err(Refusal::Memory);
        }
        let line = self.transcript.next_line(command);
        self.run(rt, line)
    }

    /// Begins a transaction: its begin stamp.
    ///
    /// ```text
    /// let begin = client.begin(rt)?;
    /// ```
    pub fn begin<R: Wait>(&mut self, rt: &R) -> Result<Stamp, Refusal>
        requires law { SameLaw S.law sound_law }
        requires client { IsClient S.stands S.seat S.own self.old }
        ensures on { GoesOn S.stands S.seat S.own S.ends T.told self.old self.new }
        ensures ok { IfOk result (λ begin. IsAnswered self.old.transcript Command.Begin (Answer.Began begin) self.new.transcript) }
        ensures err { IfErr result (λ why. IsRefused self.old.transcript Command.Begin why self.new.transcript) }
    {
        self.ask(rt, Command::Begin)?;
        begin_in(self.transcript.last())
    }

    /// Begins a snapshot, which only reads, and waits until it is known whether it is safe: its begin stamp. It sees what had committed by its begin, and
    /// no more, and what is asked of it is never refused for others, nor is anything of others for it.
    ///
    /// ```text
    /// match client.safe(rt) {
    ///     Err(Refusal::Unsafe { .. }) => client.safe(rt)?,
    ///     begin => begin?,
    /// };
    /// ```
    pub fn safe<R: Wait>(&mut self, rt: &R) -> Result<Stamp, Refusal>
        requires law { SameLaw S.law sound_law }
        requires client { IsClient S.stands S.seat S.own self.old }
        ensures on { GoesOn S.stands S.seat S.own S.ends T.told self.old self.new }
        ensures ok { IfOk result (λ begin. IsAnswered self.old.transcript Command.Safe (Answer.Safe begin) self.new.transcript) }
        ensures err { IfErr result (λ why. IsRefused self.old.transcript Command.Safe why self.new.transcript) }
    {
        self.ask(rt, Command::Safe)?;
        safe_in(self.transcript.last())
    }

    /// Reads the value of a key, if it has one.
    ///
    /// ```text
    /// let Some(value) = client.get(rt, 0, key)? else {
    ///     return Ok(None);
    /// };
    /// ```
    pub fn get<R: Wait>(&mut self, rt: &R, table: u8, key: u64) -> Result<Option<Value>, Refusal>
        requires law { SameLaw S.law sound_law }
        requires client { IsClient S.stands S.seat S.own self.old }
        requires table { table < TABLES }
        ensures on { GoesOn S.stands S.seat S.own S.ends T.told self.old self.new }
        ensures ok { IfOk result (λ value. IsAnswered self.old.transcript (Command.Get table key) (Answer.Replied (Reply.Value value)) self.new.transcript) }
        ensures err { IfErr result (λ why. IsRefused self.old.transcript (Command.Get table key) why self.new.transcript) }
    {
        self.ask(rt, Command::Get { table, key })?;
        value_in(self.transcript.last())
    }

    /// Sets the value of a key. Where it is refused because memory ran out, the transcript has nothing of it; so it is of each call but a scan.
    ///
    /// ```text
    /// client.put(rt, 0, key, value)?;
    /// ```
    pub fn put<R: Wait>(&mut self, rt: &R, table: u8, key: u64, value: Value) -> Result<(), Refusal>
        requires law { SameLaw S.law sound_law }
        requires client { IsClient S.stands S.seat S.own self.old }
        requires table { table < TABLES }
        ensures on { GoesOn S.stands S.seat S.own S.ends T.told self.old self.new }
        ensures ok { OnOk result (IsAnswered self.old.transcript (Command.Put table key value) (Answer.Replied Reply.Done) self.new.transcript) }
        ensures err { IfErr result (λ why. IsRefused self.old.transcript (Command.Put table key value) why self.new.transcript) }
    {
        bytes_are_small(value.as_slice());
        self.ask(rt, Command::Put { table, key, value })?;
        done_in(self.transcript.last())
    }

    /// Takes the value of a key away, if it has one.
    ///
    /// ```text
    /// client.del(rt, 0, key)?;
    /// ```
    pub fn del<R: Wait>(&mut self, rt: &R, table: u8, key: u64) -> Result<(), Refusal>
        requires law { SameLaw S.law sound_law }
        requires client { IsClient S.stands S.seat S.own self.old }
        requires table { table < TABLES }
        ensures on { GoesOn S.stands S.seat S.own S.ends T.told self.old self.new }
        ensures ok { OnOk result (IsAnswered self.old.transcript (Command.Del table key) (Answer.Replied Reply.Done) self.new.transcript) }
        ensures err { IfErr result (λ why. IsRefused self.old.transcript (Command.Del table key) why self.new.transcript) }
    {
        self.ask(rt, Command::Del { table, key })?;
        done_in(self.transcript.last())
    }

    /// Finds the least key at or above `from` that has a value.
    ///
    /// ```text
    /// let mut found = client.next(rt, 0, from)?;
    /// ```
    pub fn next<R: Wait>(
        &mut self,
        rt: &R,
        table: u8,
        from: u64,
    ) -> Result<Option<(u64, Value)>, Refusal>
        requires law { SameLaw S.law sound_law }
        requires client { IsClient S.stands S.seat S.own self.old }
        requires table { table < TABLES }
        ensures on { GoesOn S.stands S.seat S.own S.ends T.told self.old self.new }
        ensures ok { IfOk result (λ found. IsAnswered self.old.transcript (Command.Next table from) (Answer.Replied (Reply.Pair found)) self.new.transcript) }
        ensures err { IfErr result (λ why. IsRefused self.old.transcript (Command.Next table from) why self.new.transcript) }
    {
        self.ask(rt, Command::Next { table, from })?;
        pair_in(self.transcript.last())
    }

    /// Finds all keys from `low` to `high`, these two too, that have a value. Memory is taken for them twice: the transcript has them too, also where there is
    /// none for the caller's copy.
    ///
    /// ```text
    /// for (key, value) in client.scan(rt, 0, low, high)?.as_slice() {
    ///     sum = added(sum, key, value);
    /// }
    /// ```
    pub fn scan<R: Wait>(
        &mut self,
        rt: &R,
        table: u8,
        low: u64,
        high: u64,
    ) -> Result<Pairs, Refusal>
        requires law { SameLaw S.law sound_law }
        requires client { IsClient S.stands S.seat S.own self.old }
        requires table { table < TABLES }
        ensures on { GoesOn S.stands S.seat S.own S.ends T.told self.old self.new }
        ensures ok { IfOk result (λ found. IsAnswered self.old.transcript (Command.Scan table low high) (Answer.Replied (Reply.Found found)) self.new.transcript) }
        ensures err { IfErr result (λ why. IsRefused self.old.transcript (Command.Scan table low high) why self.new.transcript) }
    {
        self.ask(rt, Command::Scan { table, low, high })?;
        found_in(self.alloc, self.transcript.last())
    }

    /// Commits the transaction, or gives it up where its exclusion window is closed. It waits for others that may count for that. Once it has committed
    /// nothing is in progress.
    ///
    /// ```text
    /// match client.commit(rt) {
    ///     Ok(commit) => Ok(commit.stamp),
    ///     Err(Refusal::Excluded { .. }) => again(rt, client),
    ///     Err(why) => Err(why),
    /// }
    /// ```
    pub fn commit<R: Wait>(&mut self, rt: &R) -> Result<Commit, Refusal>
        requires law { SameLaw S.law sound_law }
        requires client { IsClient S.stands S.seat S.own self.old }
        ensures on { GoesOn S.stands S.seat S.own S.ends T.told self.old self.new }
        ensures ok { IfOk result (λ commit. IsAnswered self.old.transcript Command.Commit (Answer.Committed commit.stamp commit.succ commit.pred) self.new.transcript) }
        ensures err { IfErr result (λ why. IsRefused self.old.transcript Command.Commit why self.new.transcript) }
        ensures rests { OnOk result (Rests S.seat S.own self.new) }
    {
        self.ask(rt, Command::Commit)?;
        commit_in(self.transcript.last())
    }

    // Whether it may be asked, and its session has no snapshot.
    fn has_no_snapshot(&self) -> bool
        requires client { IsClient S.stands S.seat S.own self.now }
        ensures none { result ≡ true → HasNone self.now.transcript }
        ensures some { result ≡ false → self.now.transcript.standing ≡ Standing.Open → is_snapshot (phase_at (S.own self.now.session) (S.seat self.now.session)) ≡ true }
    {
        match self.transcript.standing {
            Standing::Open => !has_snapshot(self.session.phase(self.shared)),
            _ => false,
        }
    }

    /// Ends the snapshot: it has its place in the serial order, in front of all that commit at its begin stamp or later. A transaction isn't ended so.
    ///
    /// ```text
    /// client.safe(rt)?;
    /// let found = client.scan(rt, 0, 0, u64::MAX)?;
    /// client.end(rt)?;
    /// ```
    pub fn end<R: Wait>(&mut self, rt: &R) -> Result<(), Refusal>
        requires law { SameLaw S.law sound_law }
        requires client { IsClient S.stands S.seat S.own self.old }
        ensures on { GoesOn S.stands S.seat S.own S.ends T.told self.old self.new }
        ensures ok { OnOk result (IsAnswered self.old.transcript Command.Commit Answer.Ended self.new.transcript) }
        ensures err { IfErr result (λ why. IsUnended self.old.transcript why self.new.transcript) }
        ensures rests { OnOk result (Rests S.seat S.own self.new) }
    {
        if self.has_no_snapshot() {
            return Err(Refusal::NoSnapshot);
        }
        self.ask(rt, Command::Commit)?;
        end_in(self.transcript.last())
    }

    /// Gives the transaction up: nothing of it stays. A snapshot is over then, without a place in the serial order. Whatever it answers, nothing is in
    /// progress behind it, unless memory ran out in the line itself: there is always room for its line.
    ///
    /// ```text
    /// let Some(left) = own.checked_sub(amount) else {
    ///     client.abort(rt)?;
    ///     return Ok(false);
    /// };
    /// ```
    pub fn abort<R: Wait>(&mut self, rt: &R) -> Result<(), Refusal>
        requires law { SameLaw S.law sound_law }
        requires client { IsClient S.stands S.seat S.own self.old }
        ensures on { GoesOn S.stands S.seat S.own S.ends T.told self.old self.new }
        ensures ok { OnOk result (IsAnswered self.old.transcript Command.Abort Answer.Aborted self.new.transcript) }
        ensures err { IfErr result (λ why. IsRefused self.old.transcript Command.Abort why self.new.transcript) }
        ensures rests { Rests S.seat S.own self.new }
    {
        self.ask(rt, Command::Abort)?;
        abort_in(self.transcript.last())
    }

    /// Waits until the session's last commit is on the disk: its stamp.
    ///
    /// ```text
    /// client.commit(rt)?;
    /// let stamp = client.durable(rt)?;
    /// ```
    pub fn durable<R: Wait>(&mut self, rt: &R) -> Result<Stamp, Refusal>
        requires law { SameLaw S.law sound_law }
        requires client { IsClient S.stands S.seat S.own self.old }
        ensures on { GoesOn S.stands S.seat S.own S.ends T.told self.old self.new }
        ensures ok { IfOk result (λ stamp. IsAnswered self.old.transcript Command.Durable (Answer.Durable stamp) self.new.transcript) }
        ensures err { IfErr result (λ why. IsRefused self.old.transcript Command.Durable why self.new.transcript) }
    {
        self.ask(rt, Command::Durable)?;
        durable_in(self.transcript.last())
    }

    /// Closes the session behind its last line: its transaction is aborted where it is active. A session whose client was told to stop, or without
    /// memory, isn't closed; its transaction is given up. It comes back, and so do the transcript and what the client waited by.
    ///
    /// ```text
    /// let Finished { session, transcript, .. } = client.close(rt);
    /// ```
    pub fn close<R: Wait>(self, rt: &R) -> Finished<S, T>
        requires client { IsClient S.stands S.seat S.own self }
        ensures stands { S.stands self.entry.shared.now result.session }
        ensures onward { GoesOnward (S.seat self.entry.session) (S.seat result.session) (S.ends self.entry.session) (S.ends result.session) }
        ensures transcript { result.transcript ≡ self.entry.transcript }
        ensures rests { phase_at (S.own result.session) (S.seat self.entry.session) ≡ Active → ⊥ }
        ensures did { FinishesWork (S.ends self.entry.session) (S.own self.entry.session) (S.ends result.session) (S.own result.session) result.transcript result.closed }
        ensures starved { StarvesWork (S.ends self.entry.session) (S.own self.entry.session) (S.ends result.session) (S.own result.session) result.transcript result.closed }
        ensures waits { self.entry.transcript.standing ≡ Standing.Open → result.closed ≡ None → phase_at (S.own result.session) (S.seat self.entry.session) ≡ Sealed → T.told result.turns }
    {
        let Client {
            alloc: _,
            mut session,
            shared,
            mut turns,
            receipt: _,
            transcript,
        } = self;
        match transcript.standing {
            Standing::Open => {
                let closed = end(rt, &mut session, shared, &mut turns);
                Finished {
                    session,
                    turns,
                    transcript,
                    closed,
                }
            }
            _ => {
                give_up(&mut session, shared);
                Finished {
                    session,
                    turns,
                    transcript,
                    closed: None,
                }
            }
        }
    }
}
