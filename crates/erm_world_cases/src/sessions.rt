//! Tree calls of a world's sessions, whose transactions stay runs of operations.
ghost use Rattle.std.specs.Prelude.{[], ◌≡◌, IfErr, IfOk};
ghost use Rattle.erm_model.specs.declared.outcome.Phase.TheVariants.{Active, Idle, Sealed};
ghost use Rattle.erm_model.specs.RowTransaction.{SameLaw};
ghost use Rattle.erm_node.specs.Sound.{sound_law};
ghost use Rattle.erm_tree.specs.Calls.{IsReady};
ghost use Rattle.erm_tree.specs.Operations.{IsAnswered};
ghost use Rattle.erm_world.specs.World.{IsSession, phase_at};
ghost use Rattle.erm_world_cases.specs.Sessions.{AllRun, IsReplyTo, KeepsRun, Leads};

use erm_model::{Op, Outcome, Reply, RowRead, RowStop, RowTxn, Seat, Stamp, TABLES};
use erm_tree::{del, get, next, put};
use erm_world::{BeginStop, RowWorld, Wait, WorldTxn};

// Answers an operation by a call.
fn call<T: RowTxn>(txn: &mut T, op: &Op) -> Result<Reply, RowStop>
    requires ready { IsReady T.face txn.old }
    requires law { SameLaw T.face.law sound_law }
    ensures follows { T.face.follows txn.old txn.new }
    ensures ok { IfOk result (λ reply. IsAnswered T.face txn.old op.now reply txn.new) }
    ensures err { IfErr result (λ stop. T.face.active txn.new → Leads T.face txn.old [] txn.new) }
{
    erm_tree::refused_calls_set_no_row::<T>();
    match op {
        Op::Get { table, key } if *table < TABLES => Ok(Reply::Value(get(txn, *table, *key)?)),
        Op::Put { table, key, value } if *table < TABLES => {
            put(txn, *table, *key, value)?;
            Ok(Reply::Done)
        }
        Op::Del { table, key } if *table < TABLES => {
            del(txn, *table, *key)?;
            Ok(Reply::Done)
        }
        Op::Next { table, from } if *table < TABLES => Ok(Reply::Pair(next(txn, *table, *from)?)),
        _ => Err(RowStop::Memory),
    }
}

// The same by a session of a world, whose transactions are runs of operations, and stay so.
fn answer_by<'a, W: RowWorld>(txn: &mut WorldTxn<'a, W>, op: &Op) -> Result<Reply, RowStop>
    requires law { SameLaw W.law sound_law }
    requires active { ⟦<WorldTxn<'a, W> as RowRead>⟧.face.active txn.old }
    requires runs { AllRun (W.view txn.old.world.now) }
    ensures same { txn.new.world.ghost_name ≡ txn.old.world.ghost_name }
    ensures stands { W.stands txn.new.world.now }
    ensures runs { AllRun (W.view txn.new.world.now) }
    ensures opening { (W.view txn.new.world.now).opening ≡ (W.view txn.old.world.now).opening }
    ensures ok { IfOk result (λ reply. IsReplyTo (W.view txn.old.world.now) txn.old.seat op.now reply (W.view txn.new.world.now)) }
    ensures err { IfErr result (λ stop. KeepsRun (W.view txn.old.world.now) txn.old.seat (W.view txn.new.world.now)) }
{
    erm_maps::runs_are_ready::<W>();
    erm_maps::calls_are_runs::<W>();
    call(txn, op)
}

/// Answers an operation by a tree call of an active session. The reply is the operation's, and a refusal that doesn't end the
/// transaction leaves it the run of the operations answered before.
pub fn answer<W: RowWorld>(world: &mut W, seat: Seat, op: &Op) -> Result<Reply, RowStop>
    requires law { SameLaw W.law sound_law }
    requires stands { W.stands world.old }
    requires session { IsSession (W.view world.old) seat }
    requires active { phase_at (W.view world.old) seat ≡ Active }
    requires runs { AllRun (W.view world.old) }
    ensures stands { W.stands world.new }
    ensures runs { AllRun (W.view world.new) }
    ensures opening { (W.view world.new).opening ≡ (W.view world.old).opening }
    ensures ok { IfOk result (λ reply. IsReplyTo (W.view world.old) seat op.now reply (W.view world.new)) }
    ensures err { IfErr result (λ stop. KeepsRun (W.view world.old) seat (W.view world.new)) }
{
    let mut txn = WorldTxn { world, seat };
    answer_by(&mut txn, op)
}

/// Begins a transaction.
pub fn begin<W: RowWorld>(world: &mut W, seat: Seat) -> Result<Stamp, BeginStop>
    requires stands { W.stands world.old }
    requires session { IsSession (W.view world.old) seat }
    requires idle { phase_at (W.view world.old) seat ≡ Idle }
    requires runs { AllRun (W.view world.old) }
    ensures stands { W.stands world.new }
    ensures runs { AllRun (W.view world.new) }
    ensures opening { (W.view world.new).opening ≡ (W.view world.old).opening }
{
    erm_maps::begun_transactions_are_runs();
    world.begin(seat)
}

/// Seals a transaction, which keeps the law of sound rows, since it is a run of operations.
pub fn seal<W: RowWorld>(world: &mut W, seat: Seat) -> Stamp
    requires law { SameLaw W.law sound_law }
    requires stands { W.stands world.old }
    requires session { IsSession (W.view world.old) seat }
    requires active { phase_at (W.view world.old) seat ≡ Active }
    requires runs { AllRun (W.view world.old) }
    ensures stands { W.stands world.new }
    ensures runs { AllRun (W.view world.new) }
    ensures opening { (W.view world.new).opening ≡ (W.view world.old).opening }
{
    world.seal(seat)
}

/// Decides a sealed transaction.
pub fn settle<W: RowWorld>(world: &mut W, seat: Seat) -> Result<Outcome, Wait>
    requires stands { W.stands world.old }
    requires session { IsSession (W.view world.old) seat }
    requires sealed { phase_at (W.view world.old) seat ≡ Sealed }
    requires runs { AllRun (W.view world.old) }
    ensures stands { W.stands world.new }
    ensures runs { AllRun (W.view world.new) }
    ensures opening { (W.view world.new).opening ≡ (W.view world.old).opening }
{
    world.settle(seat)
}
