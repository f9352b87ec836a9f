//! Whether a session's last commit is on the disk.
ghost use Rattle.std.specs.Prelude.{◌≡◌, MatchOption, None, Some};
ghost use Rattle.erm_world.specs.World.{IsSession};
ghost use Rattle.erm_lines.specs.Answers.{IsReceiptOf};
ghost use Rattle.erm_lines.specs.Whole.{WasAnswered};

use erm_model::{Receipt, Seat};
use erm_report::Answer;
use erm_script::Command;
use erm_world::{NotFlushed, RowWorld};

/// Whether the last commit of a session is on the disk. It is given by its receipt, or by `None` where the session has committed
/// nothing.
pub fn answer_durable<W: RowWorld>(world: &mut W, seat: Seat, receipt: Option<&Receipt>) -> Answer
    requires stands { W.stands world.old }
    requires session { IsSession (W.view world.old) seat }
    requires receipt { MatchOption receipt (IsReceiptOf ((W.view world.old).session seat).over None) (λ r. IsReceiptOf ((W.view world.old).session seat).over (Some r.now)) }
    ensures stands { W.stands world.new }
    ensures answered { WasAnswered (W.view world.old) seat Command.Durable result (W.view world.new) }
{
    let Some(receipt) = receipt else {
        return Answer::NoReceipt;
    };
    match world.durable(seat, receipt) {
        Ok(()) => Answer::Durable(receipt.stamp),
        Err(NotFlushed { flushed }) => Answer::NotFlushed { flushed },
    }
}
