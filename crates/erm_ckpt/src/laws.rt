//! Laws of slots and of what an image recovers to.
ghost use Rattle.std.specs.Prelude.{◌≡◌, ◌+◌, ◌/◌, ◌<◌, ◌≤◌, ◌⊎◌, ◌↔◌, ℕ, ◌++◌, List, [], Option, Some, None, IfSome, length, slice_index_or};
ghost use Rattle.erm_ckpt.specs.declared.slot.Slot.{Slot};
ghost use Rattle.erm_model.specs.declared.TheConstants.{ROW_WORDS};
ghost use Rattle.std.specs.Option.{option_map};
ghost use Rattle.erm_model.specs.declared.limits.TheConstants.{OID_LIMIT, SEGMENT_WORDS};
ghost use Rattle.erm_ckpt.specs.declared.slot.Slots.{Slots};
ghost use Rattle.erm_ckpt.specs.Slots.{best_of, next_first, put_slot};
ghost use Rattle.erm_block.specs.LogList.{IsLogList};
ghost use Rattle.erm_block.specs.declared.block.Block.{Block};
ghost use Rattle.erm_bytes.specs.Bytes.{AreWords, bytes_of};
ghost use Rattle.erm_bytes.specs.declared.bytes.TheConstants.{WORD_BYTES};
ghost use Rattle.erm_log_words.specs.Tears.{BeginsWith, IsFresh, ShowsSlot};
ghost use Rattle.erm_log_words.specs.Words.{Spares, word_at};
ghost use Rattle.erm_outside.specs.declared.disk.File.TheVariants.{Slot0, Slot1};
ghost use Rattle.erm_outside.specs.Disk.{Image};
ghost use Rattle.erm_ckpt.specs.declared.slot.TheConstants.{SLOT_WORDS};
ghost use Rattle.erm_ckpt.specs.Checkpoint.{Checkpoint, Checks, IsCheckedSlot, IsCheckpoint, IsSlot, StandsIn, checkpoint_of, rows_of_checkpoint, slot_words};
ghost use Rattle.erm_ckpt.specs.Recovered.{HasBase, Pair, Recovers, Shows, State, base, best, end_at, put, slots_of, state_behind, state_of};
ghost use Rattle.erm_ckpt.specs.States.{RecoversTo, SameChecks, SameState};

use erm_model::RowLaw;

/// A slot has no more words than there may be, and each is a word of 64 bits.
pub fn slots_are_bounded()
    ensures most { (checkpoint : Checkpoint) → IsCheckpoint checkpoint → length (slot_words checkpoint) ≤ SLOT_WORDS }
    ensures words { (checkpoint : Checkpoint) → IsCheckpoint checkpoint → AreWords (slot_words checkpoint) }
    ensures written { (slot : Slot) (rows : List (List ℕ)) → length rows ≡ OID_LIMIT
        → ((i : ℕ) → i < length rows → length (slice_index_or rows i []) ≡ ROW_WORDS) → length (slot_words (checkpoint_of slot rows)) ≤ SLOT_WORDS }
{}

/// No slot's words, and no slot's bytes, begin another's: where two stand at one place they are of one checkpoint.
pub fn one_slot()
    ensures words { (a b : Checkpoint) (x y : List ℕ) → IsCheckpoint a → IsCheckpoint b → slot_words a ++ x ≡ slot_words b ++ y → a ≡ b }
    ensures bytes { (a b : Checkpoint) (file : List ℕ) → IsCheckpoint a → IsCheckpoint b
        → BeginsWith file (bytes_of (slot_words a)) → BeginsWith file (bytes_of (slot_words b)) → a ≡ b }
{}

/// A file begins with a slot just where its words do: all of its words, or as many as a slot may have.
pub fn files_have_the_slots_of_their_words()
    ensures { (file words tail : List ℕ) (checkpoint : Checkpoint) → AreWords words → file ≡ bytes_of words ++ tail
        → (length tail < WORD_BYTES) ⊎ (SLOT_WORDS ≤ length words) → IsCheckpoint checkpoint
        → BeginsWith file (bytes_of (slot_words checkpoint)) ↔ StandsIn words checkpoint }
{}

/// What is read of a file's words, all of them or as many as a slot may have, is what the file shows.
pub fn read_slots_show<L: RowLaw>()
    ensures { (file words tail : List ℕ) (checkpoint : Checkpoint) → AreWords words → file ≡ bytes_of words ++ tail
        → (length tail < WORD_BYTES) ⊎ (SLOT_WORDS ≤ length words)
        → Checks L.law.meets file checkpoint ↔ (StandsIn words checkpoint × L.law.meets (rows_of_checkpoint checkpoint)) }
{}

/// The best slot is that of the best checkpoint.
pub fn best_slots_are_of_best_checkpoints()
    ensures { (pair : Pair) → best_of (slots_of pair) ≡ option_map (λ checkpoint. checkpoint.slot) (best pair) }
{}

/// A checkpoint that is written, no place of a best one being behind its own, is the best one then, or the best one stays and
/// has the same place. The slots say so.
pub fn put_slots_are_best()
    ensures best { (pair : Pair) (checkpoint : Checkpoint) → IfSome (best pair) (λ old. old.slot.stamp ≤ checkpoint.slot.stamp)
        → (best (put pair checkpoint) ≡ Some checkpoint)
        ⊎ ((best (put pair checkpoint) ≡ best pair) × IfSome (best pair) (λ old. old.slot.stamp ≡ checkpoint.slot.stamp)) }
    ensures slots { (pair : Pair) (checkpoint : Checkpoint) → slots_of (put pair checkpoint) ≡ put_slot (slots_of pair) checkpoint.slot }
{}

/// The first segment that the slot of the next checkpoint names is no greater than that of a place that no slot lies behind.
pub fn next_first_is_low()
    ensures { (slots : Slots) (stamp : ℕ) → IfSome slots.slot0 (λ slot. IsSlot slot × slot.stamp ≤ stamp)
        → IfSome slots.slot1 (λ slot. IsSlot slot × slot.stamp ≤ stamp) → next_first slots ≤ stamp / SEGMENT_WORDS }
{}

/// What a slot's file shows is one.
pub fn one_checkpoint<L: RowLaw>()
    ensures checks { (file : List ℕ) (a b : Checkpoint) → Checks L.law.meets file a → Checks L.law.meets file b → a ≡ b }
    ensures shows { (file : List ℕ) (a b : Option Checkpoint) → Shows L.law.meets file a → Shows L.law.meets file b → a ≡ b }
{}

/// What an image recovers to is one.
pub fn one_recovery<L: RowLaw>()
    ensures { (image : Image) (p q : Pair) (xs ys : List Block)
        → Recovers L.law.meets image p xs → Recovers L.law.meets image q ys → (p ≡ q) × (xs ≡ ys) }
{
    erm_block::one_log_list::<L>();
}

/// Where a file shows a slot that was written to it, or what stood there before, or no slot: the slot's checkpoint checks, or the
/// same slots check as before, or none does.
pub fn torn_slots_show<L: RowLaw>()
    ensures { (before after : List ℕ) (checkpoint : Checkpoint) → IsCheckpoint checkpoint → L.law.meets (rows_of_checkpoint checkpoint)
        → ShowsSlot (IsCheckedSlot L.law.meets) before (bytes_of (slot_words checkpoint)) after
        → Checks L.law.meets after checkpoint
        ⊎ (SameChecks L.law.meets before after ⊎ ((other : Checkpoint) → Checks L.law.meets after other → ⊥)) }
{}

/// An image with the same best checkpoint, and with the same words of the log from its place on, recovers to the same state.
pub fn recovery_stays<L: RowLaw>()
    ensures { (old new : Image) (state : State) (pair now : Pair) → RecoversTo L.law.meets state pair old
        → Shows L.law.meets (new Slot0) now.slot0 → Shows L.law.meets (new Slot1) now.slot1
        → best now ≡ best pair → (best now ≡ None → HasBase new)
        → ((p : ℕ) → (base pair).at ≤ p → word_at new p ≡ word_at old p) → RecoversTo L.law.meets state now new }
{}

/// Where an image recovered to a state, and another has the words below its place, the same slots, and from there on a log list:
/// it recovers to the state behind that.
pub fn recovery_goes_on<L: RowLaw>()
    ensures { (old new : Image) (state : State) (pair : Pair) (blocks : List Block) (to : ℕ) → RecoversTo L.law.meets state pair old
        → Spares state.at to old new → (best pair ≡ None → HasBase new) → IsLogList L.law.meets (end_at new state) blocks
        → IsFresh ((state_behind state blocks).run + 1) new (state_behind state blocks).at
        → RecoversTo L.law.meets (state_behind state blocks) pair new }
{
    L::respects_rows();
}

/// Where the log list from a state on was some blocks, an image whose best checkpoint has the state behind a front of them, and
/// which has the same words of the log from there on, recovers to the state behind all of them.
pub fn slots_recover<L: RowLaw>()
    ensures { (old new : Image) (opened : State) (front rest : List Block) (now : Pair) (checkpoint : Checkpoint)
        → IsLogList L.law.meets (end_at old opened) (front ++ rest)
        → IsFresh ((state_behind opened (front ++ rest)).run + 1) old (state_behind opened (front ++ rest)).at
        → Shows L.law.meets (new Slot0) now.slot0 → Shows L.law.meets (new Slot1) now.slot1 → best now ≡ Some checkpoint
        → SameState (state_of (Some checkpoint)) (state_behind opened front)
        → ((p : ℕ) → checkpoint.slot.stamp ≤ p → word_at new p ≡ word_at old p)
        → RecoversTo L.law.meets (state_behind opened (front ++ rest)) now new }
{
    L::respects_rows();
}
