//! A turn of a session: one line of it, called as one that shares its world, of which no other session goes on meanwhile.
ghost use Rattle.std.specs.Prelude.{◌≡◌, ◌≢◌, ◌<◌, ℕ, IfOk, IfSome, IsSome, OnOk};
ghost use Rattle.erm_model.specs.declared.limits.TheConstants.{TABLES};
ghost use Rattle.erm_model.specs.RowTransaction.{SameLaw};
ghost use Rattle.erm_node.specs.Sound.{sound_law};
ghost use Rattle.erm_good_report.specs.Phases.{need_of};
ghost use Rattle.erm_good_report.specs.Transactions.{table_of};
ghost use Rattle.erm_world.specs.World.{IsSession};
ghost use Rattle.erm_safe_world.specs.Moves.{MovesOn};
ghost use Rattle.erm_lines.specs.Whole.{AreRunsNow};
ghost use Rattle.erm_lone.specs.Later.{EndsIn, IsLaterWorld, OthersStand};
ghost use Rattle.erm_turn_cases.specs.Turns.{HadTurn, IsRunNow, WasRun};

use crate::try_line;
use erm_lone::{LoneSession, Others};
use erm_model::Receipt;
use erm_report::Answer;
use erm_script::ScriptLine;
use erm_world::SafeWorld;
use std::alloc::{AllocError, Global};
use std::marker::{Brand, PhantomData};

// The line of a session, beside others that stand so.
fn turn_beside<W: SafeWorld, O: Others>(
    alloc: Global,
    world: W,
    line: &ScriptLine,
    receipt: &mut Option<Receipt>,
) -> (W, Result<Option<Answer>, AllocError>)
    requires law { SameLaw W.law sound_law }
    requires stands { W.stands world }
    requires session { IsSession (W.view world) line.now.session }
    requires others { OthersStand O.standing (W.view world) line.now.session }
    requires asks { IsSome (need_of line.now.command) }
    requires table { IfSome (table_of line.now.command) (λ table. table < TABLES) }
    requires ran { IsRunNow (W.view world) line.now.session }
    ensures stands { W.stands result.0 }
    ensures others { OthersStand O.standing (W.view result.0) line.now.session }
    ensures later { IsLaterWorld (W.view world) (W.view result.0) }
    ensures moves { MovesOn (W.view world) (W.view result.0) }
    ensures ran { OnOk result.1 (IsRunNow (W.view result.0) line.now.session) }
    ensures did { IfOk result.1 (λ tried. WasRun (λ f. EndsIn W.law (W.view result.0) line.now.session f) line.now tried (W.view world) (W.view result.0)) }
{
    let mut session = LoneSession::<W, O> {
        world,
        seat: line.session,
        others: PhantomData,
    };
    let tried = try_line(alloc, &mut session, &(), line, receipt);
    (session.world, tried)
}

/// One line of a session: its answer, or `None` where it waits for another session. It says what it did as a line of a session beside others,
/// whatever world all sessions end in; and it leaves the others as they are.
pub fn turn<W: SafeWorld>(
    alloc: Global,
    world: W,
    line: &ScriptLine,
    receipt: &mut Option<Receipt>,
) -> (W, Result<Option<Answer>, AllocError>)
    requires law { SameLaw W.law sound_law }
    requires stands { W.stands world }
    requires session { IsSession (W.view world) line.now.session }
    requires asks { IsSome (need_of line.now.command) }
    requires table { IfSome (table_of line.now.command) (λ table. table < TABLES) }
    requires runs { AreRunsNow (W.view world) }
    ensures stands { W.stands result.0 }
    ensures others { (q : ℕ) → q ≢ line.now.session → (W.view result.0).session q ≡ (W.view world).session q }
    ensures opening { (W.view result.0).opening ≡ (W.view world).opening }
    ensures runs { OnOk result.1 (AreRunsNow (W.view result.0)) }
    ensures did { IfOk result.1 (λ tried. HadTurn W.law (W.view world) line.now tried (W.view result.0)) }
{
    turn_beside::<W, Brand>(alloc, world, line, receipt)
}
