//! The laws of what the flush seat gathers: a turn leaves a pass that may gather again, and the blocks that were gathered stay in all
//! later states, end to end with those gathered behind them. Each law is the contract of a function that does nothing.
#![tactic(auto)]

ghost use Rattle.std.specs.Prelude.{◌≡◌, ◌+◌, ◌<◌, ◌^◌, ◌++◌, ℕ, List, []};
ghost use Rattle.erm_machine.specs.declared.limits.TheConstants.{FLUSH_SEAT};
ghost use Rattle.erm_machine.specs.declared.part.Flushing.TheVariants as flushing;
ghost use Rattle.erm_machine.specs.Core.{Core};
ghost use Rattle.erm_ring.specs.Turns.{DidClear, DidGather, Gathers, HasBlocks, MayClear, MayGather};
ghost use Rattle.erm_rule.specs.declared.view.Book.{Book};
ghost use Rattle.erm_rule.specs.Books.{IsAfter, IsBookOf, IsLater};
ghost use Rattle.erm_rule.specs.Views.{MayJoin};
ghost use Rattle.erm_world.specs.declared.gathered.Gathered.{Gathered as GatheredValue};
ghost use Rattle.erm_world.specs.declared.gathered.Gathered.TheVariants.{Words};

/// Whatever was gathered, the pass may gather anew, and the log is flushed as far as before. Where something was, it may be cleared, and
/// ends at a place of the log. Once it is cleared, the pass may gather again. It may be joined as before.
pub fn turns_go_on()
    ensures anew { (g : GatheredValue) (words : List ℕ) (b e : Book) → MayGather b.view → Gathers g b words e → MayGather e.view }
    ensures clears { (at count : ℕ) (words : List ℕ) (b e : Book) → MayGather b.view → Gathers (Words at count) b words e
        → MayClear (at + count) e.view }
    ensures low { (at count : ℕ) (words : List ℕ) (b e : Book) → MayGather b.view → Gathers (Words at count) b words e → at + count < 2 ^ 61 }
    ensures still { (tail from to : ℕ) (words : List ℕ) (b e : Book) → MayGather b.view → DidGather b tail from to words e → (c : Core) → IsBookOf e c
        → (c.shared.flushed ≡ from) × ((c.seats FLUSH_SEAT).flushing ≡ flushing.Gathers tail from to to to) }
    ensures again { (to : ℕ) (b e : Book) → MayClear to b.view → DidClear b to e → MayGather e.view }
    ensures gather_joins { (g : GatheredValue) (words : List ℕ) (b e : Book) → MayJoin b.view → Gathers g b words e → MayJoin e.view }
    ensures clear_joins { (to : ℕ) (b e : Book) → MayJoin b.view → DidClear b to e → MayJoin e.view }
{}

/// Blocks that lie end to end stay so in all later states: so in each state of a book that comes after one in each of whose states
/// they do. Blocks that begin where others end lie end to end with them.
pub fn gathered_blocks_stay()
    ensures later { (from to : ℕ) (words : List ℕ) (c d : Core) → IsLater c d → HasBlocks from to words c → HasBlocks from to words d }
    ensures after { (from to : ℕ) (words : List ℕ) (b e : Book) → IsAfter b e → ((c : Core) → IsBookOf b c → HasBlocks from to words c)
        → (c : Core) → IsBookOf e c → HasBlocks from to words c }
    ensures none { (place : ℕ) (c : Core) → HasBlocks place place [] c }
    ensures both { (from mid to : ℕ) (first second : List ℕ) (c : Core) → HasBlocks from mid first c → HasBlocks mid to second c
        → HasBlocks from to (first ++ second) c }
{
    erm_core_stays::decided_blocks_stay();
}
