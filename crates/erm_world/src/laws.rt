//! Laws of the definitions. Each holds for every value, and its function does nothing.
ghost use Rattle.std.specs.Prelude.{◌≡◌, ◌⊎◌, ◌↔◌, ◌++◌, ℕ, List};
ghost use Rattle.erm_block.specs.LogList.{End, IsChain};
ghost use Rattle.erm_block.specs.declared.block.Block.{Block};
ghost use Rattle.erm_model.specs.Member.{◌∈◌};
ghost use Rattle.erm_model.specs.RowTransaction.{SameLaw};
ghost use Rattle.erm_world.specs.Laws.{IsLawfulWork, IsSerializable, TellsCommits};
ghost use Rattle.erm_world.specs.Log.{IsFrontOf, StandFrom, place_behind};
ghost use Rattle.erm_world.specs.Whole.{IsBlockOf};
ghost use Rattle.erm_world.specs.World.{Finished, IsSession, View, Work};

use erm_model::RowLaw;

/// The history names just what sessions have committed: each record is that of a transaction that is over and committed, and
/// none is left out.
pub fn histories_tell_commits()
    ensures { (v : View) → TellsCommits v }
{}

/// Two laws of rows that say the same make the same transactions lawful.
pub fn laws_that_say_the_same<A: RowLaw, B: RowLaw>()
    ensures { SameLaw A.law B.law → (w : Work) → IsLawfulWork A.law w ↔ IsLawfulWork B.law w }
{}

/// The blocks of a chain stand one after another. Where two lists of blocks do so from one place on, and each block of both is that
/// of a transaction of one world, one of the lists is a front of the other; and where both end at one place they are the same.
pub fn blocks_are_one<L: RowLaw>()
    ensures chains { (end : End) (blocks : List Block) → IsChain L.law.meets end blocks → StandFrom end.at blocks }
    ensures fronts { (v : View) (run at : ℕ) (xs ys : List Block) → IsSerializable L.law v → StandFrom at xs → StandFrom at ys
        → ((b : Block) → b ∈ xs → IsBlockOf v run b) → ((b : Block) → b ∈ ys → IsBlockOf v run b) → IsFrontOf xs ys ⊎ IsFrontOf ys xs }
    ensures same { (v : View) (run at : ℕ) (xs ys : List Block) → IsSerializable L.law v → StandFrom at xs → StandFrom at ys
        → ((b : Block) → b ∈ xs → IsBlockOf v run b) → ((b : Block) → b ∈ ys → IsBlockOf v run b)
        → place_behind at xs ≡ place_behind at ys → xs ≡ ys }
{}

/// A block of a session's transaction is one still where the sessions go on.
pub fn blocks_of_sessions_stay()
    ensures { (v t : View) (run : ℕ) (b : Block) → t.opening ≡ v.opening
        → ((seat : ℕ) → IsSession v seat → (more : List Finished) × ((t.session seat).over ≡ (v.session seat).over ++ more))
        → IsBlockOf v run b → IsBlockOf t run b }
{}
