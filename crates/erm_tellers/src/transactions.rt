//! Transactions, one behind another, as tellers ask for them.
ghost use Rattle.std.specs.Prelude.{◌<◌, IfErr, IfOk, OnOk};
ghost use Rattle.erm_client.proofs.Onward.{goes_then};
ghost use Rattle.erm_client.specs.Clients.{GoesOn, IsClient, Rests};
ghost use Rattle.erm_client.specs.Transcripts.{IsAnswered, IsRefused, IsTranscript};
ghost use Rattle.erm_client.specs.declared.transcript.Transcript.{Transcript as TranscriptOf};
ghost use Rattle.erm_model.specs.RowTransaction.{SameLaw};
ghost use Rattle.erm_node.specs.Sound.{sound_law};

use erm_beside::SafeSession;
use erm_client::{Client, Commit, Refusal};
use erm_model::{Pairs, Reply, Stamp, TABLES, Value};
use erm_report::Answer;
use erm_script::Command;
use erm_worker::Turns;
use std::sync::Wait;

/// Who is asked for transactions, one behind another: by the calls of a client, each of which is a line of a transcript, with its answer. Nothing is said here
/// of what is answered: a client of the engine has them, and so may have another engine, also one that excludes nothing.
pub trait Transactions {
    /// It may be asked.
    ghost stands: { Self → Type 0 };

    /// What was asked and answered.
    ghost transcript: { Self → TranscriptOf };

    /// Nothing is in progress, unless memory ran out within a line.
    ghost rests: { Self → Type 0 };

    /// It goes on from the one state to the other.
    ghost goes: { Self → Self → Type 0 };

    /// Begins a transaction: its begin stamp.
    fn begin<R: Wait>(&mut self, rt: &R) -> Result<Stamp, Refusal>
        requires stands { stands self.old }
        ensures stands { stands self.new }
        ensures on { goes self.old self.new }
        ensures ok { IfOk result (λ begin. IsAnswered (transcript self.old) Command.Begin (Answer.Began begin) (transcript self.new)) }
        ensures err { IfErr result (λ why. IsRefused (transcript self.old) Command.Begin why (transcript self.new)) };

    /// Reads the value of a key, if it has one.
    fn get<R: Wait>(&mut self, rt: &R, table: u8, key: u64) -> Result<Option<Value>, Refusal>
        requires stands { stands self.old }
        requires table { table < TABLES }
        ensures stands { stands self.new }
        ensures on { goes self.old self.new }
        ensures ok { IfOk result (λ value. IsAnswered (transcript self.old) (Command.Get table key) (Answer.Replied (Reply.Value value)) (transcript self.new)) }
        ensures err { IfErr result (λ why. IsRefused (transcript self.old) (Command.Get table key) why (transcript self.new)) };

    /// Sets the value of a key.
    fn put<R: Wait>(&mut self, rt: &R, table: u8, key: u64, value: Value) -> Result<(), Refusal>
        requires stands { stands self.old }
        requires table { table < TABLES }
        ensures stands { stands self.new }
        ensures on { goes self.old self.new }
        ensures ok { OnOk result (IsAnswered (transcript self.old) (Command.Put table key value) (Answer.Replied Reply.Done) (transcript self.new)) }
        ensures err { IfErr result (λ why. IsRefused (transcript self.old) (Command.Put table key value) why (transcript self.new)) };

    /// Finds all keys from `low` to `high`, these two too, that have a value.
    fn scan<R: Wait>(&mut self, rt: &R, table: u8, low: u64, high: u64) -> Result<Pairs, Refusal>
        requires stands { stands self.old }
        requires table { table < TABLES }
        ensures stands { stands self.new }
        ensures on { goes self.old self.new }
        ensures ok { IfOk result (λ found. IsAnswered (transcript self.old) (Command.Scan table low high) (Answer.Replied (Reply.Found found)) (transcript self.new)) }
        ensures err { IfErr result (λ why. IsRefused (transcript self.old) (Command.Scan table low high) why (transcript self.new)) };

    /// Commits the transaction.
    fn commit<R: Wait>(&mut self, rt: &R) -> Result<Commit, Refusal>
        requires stands { stands self.old }
        ensures stands { stands self.new }
        ensures on { goes self.old self.new }
        ensures ok { IfOk result (λ commit. IsAnswered (transcript self.old) Command.Commit (Answer.Committed commit.stamp commit.succ commit.pred) (transcript self.new)) }
        ensures err { IfErr result (λ why. IsRefused (transcript self.old) Command.Commit why (transcript self.new)) }
        ensures rests { OnOk result (rests self.new) };

    /// Gives up what is in progress.
    fn abort<R: Wait>(&mut self, rt: &R) -> Result<(), Refusal>
        requires stands { stands self.old }
        ensures stands { stands self.new }
        ensures on { goes self.old self.new }
        ensures ok { OnOk result (IsAnswered (transcript self.old) Command.Abort Answer.Aborted (transcript self.new)) }
        ensures err { IfErr result (λ why. IsRefused (transcript self.old) Command.Abort why (transcript self.new)) }
        ensures rests { rests self.new };

    /// Its transcript is one as clients write it.
    ghost told: { (x : Self) → stands x → IsTranscript (transcript x) };

    /// What went on, and went on again, has gone on.
    ghost goes_on: { (x y z : Self) → goes x y → goes y z → goes x z };
}

impl<'a, S: SafeSession, T: Turns> Transactions for Client<'a, S, T> {
    ghost stands = { λ client. SameLaw S.law sound_law × IsClient S.stands S.seat S.own client };

    ghost transcript = { λ client. client.transcript };

    ghost rests = { λ client. Rests S.seat S.own client };

    ghost goes = { λ before after. GoesOn S.stands S.seat S.own S.ends T.told before after };

    fn begin<R: Wait>(&mut self, rt: &R) -> Result<Stamp, Refusal> {
        Client::begin(self, rt)
    }

    fn get<R: Wait>(&mut self, rt: &R, table: u8, key: u64) -> Result<Option<Value>, Refusal> {
        Client::get(self, rt, table, key)
    }

    fn put<R: Wait>(&mut self, rt: &R, table: u8, key: u64, value: Value) -> Result<(), Refusal> {
        Client::put(self, rt, table, key, value)
    }

    fn scan<R: Wait>(&mut self, rt: &R, table: u8, low: u64, high: u64) -> Result<Pairs, Refusal> {
        Client::scan(self, rt, table, low, high)
    }

    fn commit<R: Wait>(&mut self, rt: &R) -> Result<Commit, Refusal> {
        Client::commit(self, rt)
    }

    fn abort<R: Wait>(&mut self, rt: &R) -> Result<(), Refusal> {
        Client::abort(self, rt)
    }

    ghost told = { λ client stands. stands.1.transcript_ok };

    ghost goes_on = { λ x y z first second. goes_then S.stands S.seat S.own S.ends T.told x y z first second };
}
