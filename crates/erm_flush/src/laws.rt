//! Laws of logs that were flushed.
ghost use Rattle.std.specs.Prelude.{◌++◌, ◌≡◌, ◌≤◌, ℕ, List};
ghost use Rattle.erm_block.specs.declared.block.Block.{Block};
ghost use Rattle.erm_block.specs.LogList.{End};
ghost use Rattle.erm_outside.specs.Disk.{EachImage, IsSettled, Step, contents};
ghost use Rattle.erm_log_words.specs.Tears.{IsFresh};
ghost use Rattle.erm_log_disk.specs.Chains.{MayStand};
ghost use Rattle.erm_log_disk.specs.Writes.{AllWriteWords};
ghost use Rattle.erm_world.specs.Log.{words_of};
ghost use Rattle.erm_flush.specs.Blocks.{LeavesFront};

use erm_model::RowLaw;
use erm_record::stored_words_tell_the_row;

/// Where nothing was pending, and no block of a run or a later one read from an end of that run on, and nothing else was done
/// since than to write words of blocks that may stand there, each image at each moment has a front of them.
pub fn writes_leave_fronts<R: RowLaw>()
    ensures { (run : ℕ) (end : End) (blocks : List Block) (old more : List Step)
        → run ≤ end.run → MayStand R.law.meets end blocks → IsSettled old → IsFresh run (contents old) end.at
        → AllWriteWords end.at (words_of blocks) more
        → EachImage (LeavesFront R.law.meets end blocks (contents old)) old more }
{
    stored_words_tell_the_row();
}
