//! Audits: what is kept of customers, as of one state.
ghost use Rattle.std.specs.Prelude.{◌≡◌, IfErr, IfOk, IsErrAnd, OnOk, false, max, true};
ghost use Rattle.erm_client.specs.Clients.{GoesOn, IsClient, Rests};
ghost use Rattle.erm_client.specs.Dealings.{AllCommitted};
ghost use Rattle.erm_model.specs.RowTransaction.{SameLaw};
ghost use Rattle.erm_node.specs.Sound.{sound_law};
ghost use Rattle.erm_tellers.specs.Plans.{IsAuditPlan, IsPlanInTransaction};
ghost use Rattle.erm_tellers.specs.Served.{Audited, AuditedInTransaction, AuditedOnce, DidAudit, DidAuditInTransaction};
ghost use Rattle.erm_tellers.specs.Tellers.{Audits, IsOfTellers, WasDone};
ghost use Rattle.erm_tellers.specs.Tries.{IsHeldUp, IsUnsafe};

use crate::dealing::{begin, begin_snapshot, commit, end_snapshot, find, give_up};
use crate::{Side, Transactions};
use erm_beside::SafeSession;
use erm_client::{Client, Refusal};
use erm_model::Pairs;
use erm_worker::Turns;
use std::sync::Wait;

// Whether it may go otherwise when it is tried again: the snapshot wasn't known to be safe.
fn is_unsafe(found: &Result<(Pairs, Pairs), Refusal>) -> bool
    ensures passing { result ≡ true → IsErrAnd found.now IsUnsafe }
    ensures other { result ≡ false → IsErrAnd found.now IsUnsafe → ⊥ }
{
    matches!(found, Err(Refusal::Unsafe { .. }))
}

// Finds what is kept of both accounts of customers with numbers from `low` to `high`, in a snapshot, and ends it.
fn look<'a, S: SafeSession, T: Turns, R: Wait>(
    rt: &R,
    client: &mut Client<'a, S, T>,
    low: u64,
    high: u64,
) -> Result<(Pairs, Pairs), Refusal>
    requires law { SameLaw S.law sound_law }
    requires client { IsClient S.stands S.seat S.own client.old }
    ensures on { GoesOn S.stands S.seat S.own S.ends T.told client.old client.new }
    ensures did { IfOk result (λ both. DidAudit low high both.0 both.1 client.old.transcript client.new.transcript) }
    ensures held_up { IfErr result (λ why. IsHeldUp (IsAuditPlan low high) why client.old.transcript client.new.transcript) }
    ensures rests { OnOk result (Rests S.seat S.own client.new) }
{
    begin_snapshot(rt, client)?;
    let current = find(rt, client, Side::Current, low, high)?;
    let savings = find(rt, client, Side::Savings, low, high)?;
    end_snapshot(rt, client)?;
    Ok((current, savings))
}

// The same, which leaves no snapshot in progress.
fn look_once<'a, S: SafeSession, T: Turns, R: Wait>(
    rt: &R,
    client: &mut Client<'a, S, T>,
    low: u64,
    high: u64,
) -> Result<(Pairs, Pairs), Refusal>
    requires law { SameLaw S.law sound_law }
    requires client { IsClient S.stands S.seat S.own client.old }
    ensures on { GoesOn S.stands S.seat S.own S.ends T.told client.old client.new }
    ensures ended { AuditedOnce low high result client.old.transcript client.new.transcript }
    ensures rests { Rests S.seat S.own client.new }
{
    match look(rt, client, low, high) {
        Ok(both) => Ok(both),
        Err(why) => {
            give_up(rt, client);
            Err(why)
        }
    }
}

/// Audits the customers with numbers from `low` to `high`, these two too: what is kept of the current accounts and of the savings, by customer, all as of
/// one state of the serial order. It reads them in a snapshot: the causes of what a line may be refused have none for reads of a safe one, nor is anything of
/// others refused for it. Where the snapshot isn't safe it is tried again, so often in all, and once at least: what is given up because of that was tried as
/// often as that. Whatever it answers, it leaves nothing in progress, unless memory ran out within a line.
///
/// ```text
/// let (current, savings) = audit(rt, client, 1, 1_000, 3)?;
/// ```
pub fn audit<'a, S: SafeSession, T: Turns, R: Wait>(
    rt: &R,
    client: &mut Client<'a, S, T>,
    low: u64,
    high: u64,
    tries: u32,
) -> Result<(Pairs, Pairs), Refusal>
    requires law { SameLaw S.law sound_law }
    requires client { IsClient S.stands S.seat S.own client.old }
    requires kept { AllCommitted IsOfTellers client.old.transcript }
    ensures on { GoesOn S.stands S.seat S.own S.ends T.told client.old client.new }
    ensures kept { AllCommitted IsOfTellers client.new.transcript }
    ensures ended { Audited low high (max tries 1) result client.old.transcript client.new.transcript }
    ensures rests { Rests S.seat S.own client.new }
{
    let mut found = look_once(rt, client, low, high);
    'tries: for _tried in 1..tries {
        if !is_unsafe(&found) {
            return found;
        }
        found = look_once(rt, client, low, high);
    }
    found
}

// Finds them in a transaction, and commits.
fn track<X: Transactions, R: Wait>(
    rt: &R,
    client: &mut X,
    low: u64,
    high: u64,
) -> Result<(Pairs, Pairs), Refusal>
    requires stands { X.stands client.old }
    ensures stands { X.stands client.new }
    ensures on { X.goes client.old client.new }
    ensures did { IfOk result (λ both. DidAuditInTransaction low high both.0 both.1 (X.transcript client.old) (X.transcript client.new)) }
    ensures held_up { IfErr result (λ why. IsHeldUp (IsPlanInTransaction low high) why (X.transcript client.old) (X.transcript client.new)) }
    ensures rests { OnOk result (X.rests client.new) }
{
    begin(rt, client)?;
    let current = find(rt, client, Side::Current, low, high)?;
    let savings = find(rt, client, Side::Savings, low, high)?;
    commit(rt, client)?;
    Ok((current, savings))
}

/// The same audit in a transaction. It sees what had committed by its begin without a wait, but what it reads is counted, so that it may be excluded, and
/// others for it; and it reads some hundreds of accounts at most. It is tried once, and leaves nothing in progress, as above.
///
/// ```text
/// let (current, savings) = audit_in_transaction(rt, client, 1, 100)?;
/// ```
pub fn audit_in_transaction<X: Transactions, R: Wait>(
    rt: &R,
    client: &mut X,
    low: u64,
    high: u64,
) -> Result<(Pairs, Pairs), Refusal>
    requires stands { X.stands client.old }
    requires kept { AllCommitted IsOfTellers (X.transcript client.old) }
    ensures stands { X.stands client.new }
    ensures on { X.goes client.old client.new }
    ensures kept { AllCommitted IsOfTellers (X.transcript client.new) }
    ensures ended { AuditedInTransaction low high result (X.transcript client.old) (X.transcript client.new) }
    ensures done { IfOk result (λ both. WasDone (Audits low high both.0 both.1) (X.transcript client.new)) }
    ensures rests { X.rests client.new }
{
    match track(rt, client, low, high) {
        Ok(both) => Ok(both),
        Err(why) => {
            give_up(rt, client);
            Err(why)
        }
    }
}
