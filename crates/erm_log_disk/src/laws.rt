//! Laws of logs that were written, and of what a crash leaves of them.
ghost use Rattle.std.specs.Prelude.{◌≡◌, ◌+◌, ◌++◌, ℕ, List, length};
ghost use Rattle.erm_block.specs.declared.block.Block.{Block};
ghost use Rattle.erm_block.specs.LogList.{End, IsChain, IsLogList, end_of};
ghost use Rattle.erm_outside.specs.Disk.{Image, IsImage, IsSettled, Step, contents};
ghost use Rattle.erm_log_words.specs.Words.{Spares};
ghost use Rattle.erm_log_disk.specs.Chains.{log_from};
ghost use Rattle.erm_log_disk.specs.Writes.{AllWriteWords};

use erm_model::RowLaw;
use erm_record::stored_words_tell_the_row;

/// Where an image has the words that were below a place, its log list from an earlier place on is the blocks that stood
/// between, and then its log list from that place on.
pub fn lists_join<R: RowLaw>()
    ensures { (old new : Image) (end : End) (xs ys : List Block) (to : ℕ)
        → IsChain R.law.meets (log_from old end) xs → Spares (end_of end xs).at to old new
        → IsLogList R.law.meets (log_from new (end_of end xs)) ys → IsLogList R.law.meets (log_from new end) (xs ++ ys) }
{
    stored_words_tell_the_row();
}

/// Steps that wrote words, and then steps that wrote those behind, wrote all of them.
pub fn writes_join()
    ensures { (at : ℕ) (xs ys : List ℕ) (first second : List Step)
        → AllWriteWords at xs first → AllWriteWords (at + length xs) ys second → AllWriteWords at (xs ++ ys) (second ++ first) }
{}

/// Where nothing was pending and nothing else was done since than to write words of the log, each image that a crash may leave
/// has what was there at all other places.
pub fn writes_spare_others()
    ensures { (at : ℕ) (words : List ℕ) (old more : List Step) (image : Image)
        → IsSettled old → AllWriteWords at words more → IsImage (more ++ old) image → Spares at (at + length words) (contents old) image }
{}
