//! The calls that tellers make, with what they say of the transaction or snapshot in progress, and of the stretch of the transcript.
ghost use Rattle.std.specs.Prelude.{ℕ, ◌++◌, ◌∷◌, [], List, IfErr, IfOk, OnOk};
ghost use Rattle.erm_accounts.specs.Accounts.{beside, reads, writes};
ghost use Rattle.erm_client.specs.Clients.{GoesOn, IsClient, Rests};
ghost use Rattle.erm_client.specs.Dealings.{IsAt, IsSafeAt};
ghost use Rattle.erm_client.specs.Stretches.{Went};
ghost use Rattle.erm_model.specs.RowTransaction.{SameLaw};
ghost use Rattle.erm_model.specs.Run.{Step};
ghost use Rattle.erm_node.specs.Sound.{sound_law};
ghost use Rattle.erm_tellers.specs.Plans.{Aborts, IsDone, gets, puts, scans};
ghost use Rattle.erm_tellers.specs.Served.{Commits, Ends};
ghost use Rattle.erm_tellers.specs.Tellers.{account_of, finds};
ghost use Rattle.erm_tellers.specs.Tries.{IsUnderWay, Refuses};

use crate::{Side, Transactions};
use erm_beside::SafeSession;
use erm_client::{Client, Commit, Refusal};
use erm_model::{Pairs, Stamp, Value};
use erm_script::Command;
use erm_worker::Turns;
use std::sync::Wait;

/// Begins a transaction.
pub fn begin<X: Transactions, R: Wait>(rt: &R, client: &mut X) -> Result<Stamp, Refusal>
    requires stands { X.stands client.old }
    ensures stands { X.stands client.new }
    ensures on { X.goes client.old client.new }
    ensures under_way { OnOk result (IsUnderWay (Command.Begin ∷ []) (X.transcript client.old) (X.transcript client.new)) }
    ensures at { OnOk result (IsAt (X.transcript client.new) []) }
    ensures went { Went 1 [] [] (X.transcript client.old) (X.transcript client.new) }
    ensures err { IfErr result (λ why. Refuses Command.Begin why (X.transcript client.old) (X.transcript client.new)) }
{
    client.begin(rt)
}

/// Reads an account.
pub fn read<X: Transactions, R: Wait>(
    rt: &R,
    client: &mut X,
    side: Side,
    customer: u64,
) -> Result<Option<Value>, Refusal>
    requires stands { X.stands client.old }
    ensures stands { X.stands client.new }
    ensures on { X.goes client.old client.new }
    ensures went { Went 0 [] [] (X.transcript client.old) (X.transcript client.new) }
    ensures done { OnOk result (IsDone (gets (account_of side) customer) (X.transcript client.old) (X.transcript client.new)) }
    ensures at { IfOk result (λ value. (steps : List Step) → IsAt (X.transcript client.old) steps → IsAt (X.transcript client.new) (steps ++ reads (account_of side) customer value ∷ [])) }
    ensures err { IfErr result (λ why. Refuses (gets (account_of side) customer) why (X.transcript client.old) (X.transcript client.new)) }
{
    client.get(rt, side.table(), customer)
}

/// Reads a customer's other account.
pub fn read_beside<X: Transactions, R: Wait>(
    rt: &R,
    client: &mut X,
    side: Side,
    customer: u64,
) -> Result<Option<Value>, Refusal>
    requires stands { X.stands client.old }
    ensures stands { X.stands client.new }
    ensures on { X.goes client.old client.new }
    ensures went { Went 0 [] [] (X.transcript client.old) (X.transcript client.new) }
    ensures done { OnOk result (IsDone (gets (beside (account_of side)) customer) (X.transcript client.old) (X.transcript client.new)) }
    ensures at { IfOk result (λ value. (steps : List Step) → IsAt (X.transcript client.old) steps → IsAt (X.transcript client.new) (steps ++ reads (beside (account_of side)) customer value ∷ [])) }
    ensures err { IfErr result (λ why. Refuses (gets (beside (account_of side)) customer) why (X.transcript client.old) (X.transcript client.new)) }
{
    read(rt, client, side.beside(), customer)
}

/// Finds the accounts of customers with numbers from `low` to `high`, these two too, of which something is kept.
pub fn find<X: Transactions, R: Wait>(
    rt: &R,
    client: &mut X,
    side: Side,
    low: u64,
    high: u64,
) -> Result<Pairs, Refusal>
    requires stands { X.stands client.old }
    ensures stands { X.stands client.new }
    ensures on { X.goes client.old client.new }
    ensures went { Went 0 [] [] (X.transcript client.old) (X.transcript client.new) }
    ensures done { OnOk result (IsDone (scans (account_of side) low high) (X.transcript client.old) (X.transcript client.new)) }
    ensures at { IfOk result (λ found. (steps : List Step) → IsAt (X.transcript client.old) steps → IsAt (X.transcript client.new) (steps ++ finds (account_of side) low high found ∷ [])) }
    ensures seen { IfOk result (λ found. (begin : ℕ) (steps : List Step) → IsSafeAt (X.transcript client.old) begin steps → IsSafeAt (X.transcript client.new) begin (steps ++ finds (account_of side) low high found ∷ [])) }
    ensures err { IfErr result (λ why. Refuses (scans (account_of side) low high) why (X.transcript client.old) (X.transcript client.new)) }
{
    client.scan(rt, side.table(), low, high)
}

/// Writes an account.
pub fn write<X: Transactions, R: Wait>(
    rt: &R,
    client: &mut X,
    side: Side,
    customer: u64,
    value: Value,
) -> Result<(), Refusal>
    requires stands { X.stands client.old }
    ensures stands { X.stands client.new }
    ensures on { X.goes client.old client.new }
    ensures went { Went 0 [] [] (X.transcript client.old) (X.transcript client.new) }
    ensures done { OnOk result (IsDone (puts (account_of side) customer value) (X.transcript client.old) (X.transcript client.new)) }
    ensures at { OnOk result ((steps : List Step) → IsAt (X.transcript client.old) steps → IsAt (X.transcript client.new) (steps ++ writes (account_of side) customer value ∷ [])) }
    ensures err { IfErr result (λ why. Refuses (puts (account_of side) customer value) why (X.transcript client.old) (X.transcript client.new)) }
{
    client.put(rt, side.table(), customer, value)
}

/// Commits the transaction: then nothing is in progress.
pub fn commit<X: Transactions, R: Wait>(rt: &R, client: &mut X) -> Result<Commit, Refusal>
    requires stands { X.stands client.old }
    ensures stands { X.stands client.new }
    ensures on { X.goes client.old client.new }
    ensures undone { IfErr result (λ _. (steps : List Step) → IsAt (X.transcript client.old) steps → Went 0 [] [] (X.transcript client.old) (X.transcript client.new)) }
    ensures done { OnOk result (IsDone Command.Commit (X.transcript client.old) (X.transcript client.new)) }
    ensures commits { OnOk result ((steps : List Step) → IsAt (X.transcript client.old) steps → Commits steps (X.transcript client.old) (X.transcript client.new)) }
    ensures err { IfErr result (λ why. Refuses Command.Commit why (X.transcript client.old) (X.transcript client.new)) }
    ensures rests { OnOk result (X.rests client.new) }
{
    client.commit(rt)
}

/// Begins a snapshot, and waits until it is known whether it is safe.
pub fn begin_snapshot<'a, S: SafeSession, T: Turns, R: Wait>(
    rt: &R,
    client: &mut Client<'a, S, T>,
) -> Result<Stamp, Refusal>
    requires law { SameLaw S.law sound_law }
    requires client { IsClient S.stands S.seat S.own client.old }
    ensures on { GoesOn S.stands S.seat S.own S.ends T.told client.old client.new }
    ensures under_way { OnOk result (IsUnderWay (Command.Safe ∷ []) client.old.transcript client.new.transcript) }
    ensures at { IfOk result (λ begin. IsSafeAt client.new.transcript begin []) }
    ensures went { Went 1 [] [] client.old.transcript client.new.transcript }
    ensures err { IfErr result (λ why. Refuses Command.Safe why client.old.transcript client.new.transcript) }
{
    client.safe(rt)
}

/// Ends the snapshot: then nothing is in progress.
pub fn end_snapshot<'a, S: SafeSession, T: Turns, R: Wait>(
    rt: &R,
    client: &mut Client<'a, S, T>,
) -> Result<(), Refusal>
    requires law { SameLaw S.law sound_law }
    requires client { IsClient S.stands S.seat S.own client.old }
    ensures on { GoesOn S.stands S.seat S.own S.ends T.told client.old client.new }
    ensures undone { IfErr result (λ _. Went 0 [] [] client.old.transcript client.new.transcript) }
    ensures done { OnOk result (IsDone Command.Commit client.old.transcript client.new.transcript) }
    ensures ends { OnOk result ((begin : ℕ) (steps : List Step) → IsSafeAt client.old.transcript begin steps → Ends steps client.old.transcript client.new.transcript) }
    ensures err { IfErr result (λ why. (begin : ℕ) (steps : List Step) → IsSafeAt client.old.transcript begin steps → Refuses Command.Commit why client.old.transcript client.new.transcript) }
    ensures rests { OnOk result (Rests S.seat S.own client.new) }
{
    client.end(rt)
}

// Aborts the transaction, or gives the snapshot up.
fn end<X: Transactions, R: Wait>(rt: &R, client: &mut X) -> Result<(), Refusal>
    requires stands { X.stands client.old }
    ensures stands { X.stands client.new }
    ensures on { X.goes client.old client.new }
    ensures went { Went 0 [] [] (X.transcript client.old) (X.transcript client.new) }
    ensures aborts { Aborts (X.transcript client.old) (X.transcript client.new) }
    ensures rests { X.rests client.new }
{
    client.abort(rt)
}

/// Gives the transaction up, or the snapshot, where one is in progress: then nothing is.
pub fn give_up<X: Transactions, R: Wait>(rt: &R, client: &mut X)
    requires stands { X.stands client.old }
    ensures stands { X.stands client.new }
    ensures on { X.goes client.old client.new }
    ensures went { Went 0 [] [] (X.transcript client.old) (X.transcript client.new) }
    ensures aborts { Aborts (X.transcript client.old) (X.transcript client.new) }
    ensures rests { X.rests client.new }
{
    let _ = end(rt, client);
}
