//! Laws of the grammar of blocks.
ghost use Rattle.std.specs.Prelude.{◌≡◌, ◌≤◌, ℕ, ◌++◌, List, [], ◌∷◌, length};
ghost use Rattle.erm_block.specs.declared.block.Block.{Block};
ghost use Rattle.erm_block.specs.declared.block.TheConstants.{BLOCK_WORDS};
ghost use Rattle.erm_block.specs.Block.{IsBlock};
ghost use Rattle.erm_block.specs.Spelling.{spelling};
ghost use Rattle.erm_block.specs.LogList.{Continues, End, IsChain, IsLogList, end_of};

use erm_model::RowLaw;
use erm_record::stored_words_tell_the_row;

/// A block is spelled in as many words as its size says, and these are no more than a block has.
pub fn spelling_size()
    ensures size { (block : Block) (at run_before : ℕ) → IsBlock block at run_before → length (spelling block) ≡ block.size }
    ensures most { (block : Block) (at run_before : ℕ) → IsBlock block at run_before → block.size ≤ BLOCK_WORDS }
{
    stored_words_tell_the_row();
}

/// No block's spelling begins another's: where two stand at one place they are one block.
pub fn one_spelling()
    ensures { (a b : Block) (at_a run_a at_b run_b : ℕ) (x y : List ℕ) → IsBlock a at_a run_a → IsBlock b at_b run_b
        → spelling a ++ x ≡ spelling b ++ y → a ≡ b }
{
    stored_words_tell_the_row();
}

/// Words have one log list from a place with a run and rows on.
pub fn one_log_list<R: RowLaw>()
    ensures { (end : End) (a b : List Block) → IsLogList R.law.meets end a → IsLogList R.law.meets end b → a ≡ b }
{
    stored_words_tell_the_row();
}

/// A block that goes on from the end of a chain makes it longer.
pub fn chain_grows<R: RowLaw>()
    ensures { (end : End) (blocks : List Block) (block : Block)
        → IsChain R.law.meets end blocks → Continues R.law.meets (end_of end blocks) block
        → IsChain R.law.meets end (blocks ++ block ∷ []) }
{}

/// A chain from whose end no block goes on is the log list.
pub fn chain_ends<R: RowLaw>()
    ensures { (end : End) (blocks : List Block) → IsChain R.law.meets end blocks
        → ((block : Block) → Continues R.law.meets (end_of end blocks) block → ⊥) → IsLogList R.law.meets end blocks }
{
    stored_words_tell_the_row();
}
