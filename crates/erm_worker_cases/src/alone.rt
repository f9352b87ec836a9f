//! The worker of a session whose world stands while it works.
ghost use Rattle.std.specs.Prelude.{◌≡◌, ◌≢◌, ℕ, [], IfOk};
ghost use Rattle.erm_model.specs.declared.outcome.Phase.TheVariants.{Idle};
ghost use Rattle.erm_model.specs.RowTransaction.{SameLaw};
ghost use Rattle.erm_node.specs.Sound.{sound_law};
ghost use Rattle.erm_world.specs.World.{IsSession, View, idle, phase_at};
ghost use Rattle.erm_lone.specs.Later.{EndsIn, IsLaterWorld, OthersStand};
ghost use Rattle.erm_worker.specs.Work.{RanLines};
ghost use Rattle.erm_worker_cases.specs.Lines.{AreOf};

use erm_lone::{LoneSession, Others};
use erm_model::{Phase, Seat};
use erm_report::Answer;
use erm_script::ScriptLine;
use erm_worker::{Turns, close_session, run_lines};
use erm_world::SafeWorld;
use std::alloc::{AllocError, Global};
use std::marker::{Brand, PhantomData};
use std::sync::Wait;

// The lines of a new session, beside others that stand so.
fn work_beside<W: SafeWorld + Drop, O: Others, T: Turns, R: Wait>(
    rt: &R,
    alloc: Global,
    world: W,
    seat: Seat,
    lines: &[ScriptLine],
    turns: &mut T,
) -> Result<(W, Vec<Answer>), AllocError>
    requires law { SameLaw W.law sound_law }
    requires stands { W.stands world }
    requires session { IsSession (W.view world) seat }
    requires others { OthersStand O.standing (W.view world) seat }
    requires new { (W.view world).session seat ≡ record { over = []; stand = idle } }
    requires lines { AreOf seat lines.now }
    ensures stands { IfOk result (λ r. W.stands r.0) }
    ensures others { IfOk result (λ r. OthersStand O.standing (W.view r.0) seat) }
    ensures later { IfOk result (λ r. IsLaterWorld (W.view world) (W.view r.0)) }
    ensures ran { IfOk result (λ r. (f : View) → EndsIn W.law (W.view r.0) seat f → RanLines f seat lines.now r.1.items (W.view world) (W.view r.0)) }
{
    let mut answers = Vec::with_capacity(alloc, lines.len())?;
    let mut session = LoneSession::<W, O> {
        world,
        seat,
        others: PhantomData,
    };
    run_lines(rt, alloc, &mut session, &(), turns, lines, &mut answers)?;
    Ok((session.world, answers))
}

/// The worker of a new session runs its lines, up to where it is told to stop, while the other sessions stand.
pub fn work<W: SafeWorld + Drop, T: Turns, R: Wait>(
    rt: &R,
    alloc: Global,
    world: W,
    seat: Seat,
    lines: &[ScriptLine],
    turns: &mut T,
) -> Result<(W, Vec<Answer>), AllocError>
    requires law { SameLaw W.law sound_law }
    requires stands { W.stands world }
    requires session { IsSession (W.view world) seat }
    requires new { (W.view world).session seat ≡ record { over = []; stand = idle } }
    requires lines { AreOf seat lines.now }
    ensures stands { IfOk result (λ r. W.stands r.0) }
    ensures others { IfOk result (λ r. (q : ℕ) → q ≢ seat → (W.view r.0).session q ≡ (W.view world).session q) }
    ensures opening { IfOk result (λ r. (W.view r.0).opening ≡ (W.view world).opening) }
    ensures ran { IfOk result (λ r. (f : View) → EndsIn W.law (W.view r.0) seat f → RanLines f seat lines.now r.1.items (W.view world) (W.view r.0)) }
{
    work_beside::<W, Brand, T, R>(rt, alloc, world, seat, lines, turns)
}

// Closes a session with a transaction or a snapshot, beside others that stand so.
fn close_open<W: SafeWorld + Drop, O: Others, T: Turns, R: Wait>(
    rt: &R,
    world: W,
    seat: Seat,
    turns: &mut T,
) -> (W, Option<Answer>)
    requires stands { W.stands world }
    requires session { IsSession (W.view world) seat }
    requires others { OthersStand O.standing (W.view world) seat }
    requires open { phase_at (W.view world) seat ≡ Idle → ⊥ }
    ensures stands { W.stands result.0 }
    ensures opening { (W.view result.0).opening ≡ (W.view world).opening }
{
    let mut session = LoneSession::<W, O> {
        world,
        seat,
        others: PhantomData,
    };
    let closed = close_session(rt, &mut session, &(), turns);
    (session.world, closed)
}

// Closes a session where it has a transaction or a snapshot, beside others that stand so.
fn close_beside<W: SafeWorld + Drop, O: Others, T: Turns, R: Wait>(
    rt: &R,
    world: W,
    seat: Seat,
    turns: &mut T,
) -> (W, Option<Answer>)
    requires stands { W.stands world }
    requires session { IsSession (W.view world) seat }
    requires others { OthersStand O.standing (W.view world) seat }
    ensures stands { W.stands result.0 }
    ensures opening { (W.view result.0).opening ≡ (W.view world).opening }
{
    match world.phase(seat) {
        Phase::Idle => (world, None),
        _ => close_open::<W, O, T, R>(rt, world, seat, turns),
    }
}

/// Closes a session, where it has a transaction or a snapshot, while the other sessions stand.
pub fn close<W: SafeWorld + Drop, T: Turns, R: Wait>(
    rt: &R,
    world: W,
    seat: Seat,
    turns: &mut T,
) -> (W, Option<Answer>)
    requires stands { W.stands world }
    requires session { IsSession (W.view world) seat }
    ensures stands { W.stands result.0 }
    ensures opening { (W.view result.0).opening ≡ (W.view world).opening }
{
    close_beside::<W, Brand, T, R>(rt, world, seat, turns)
}
