//! Laws of streams: each is the contract of a function that does nothing.
ghost use Rattle.std.specs.Prelude.{◌≡◌, ◌*◌, ◌≤◌, ℕ, List, ◌++◌, length, Option, Some};
ghost use Rattle.std.specs.List.{flat_map};
ghost use Rattle.erm_bytes.specs.declared.bytes.TheConstants.{WORD_BYTES};
ghost use Rattle.erm_replica.specs.Cuts.{Drains, FeedsAll};
ghost use Rattle.erm_replica.specs.Stream.{HasNext, IsShort, IsUnreadable, Part, StandsFirst, Streamed, announced, fed, first_word, part_words};
ghost use Rattle.erm_replica.specs.declared.item.LogPlace.{LogPlace};

use erm_block::{one_spelling, spelling_size};
use erm_ckpt::{one_slot, slots_are_bounded};

/// A part has as many words as its first one announces, and all of them are there: no part is refused for its header.
pub fn parts_are_announced()
    ensures { (log : Option LogPlace) (bytes : List ℕ) (part : Part) → StandsFirst log bytes part
        → (announced log (first_word bytes) ≡ Some (length (part_words part))) × (WORD_BYTES * length (part_words part) ≤ length bytes) }
{
    spelling_size();
    slots_are_bounded();
}

/// Bytes begin with one part at most; and they begin with one, or are short of one, or are none, and only one of these.
pub fn fronts_are_one()
    ensures part { (log : Option LogPlace) (bytes : List ℕ) (a b : Part) → StandsFirst log bytes a → StandsFirst log bytes b → a ≡ b }
    ensures short { (log : Option LogPlace) (bytes : List ℕ) (part : Part) → StandsFirst log bytes part → IsShort log bytes → ⊥ }
    ensures unreadable { (log : Option LogPlace) (bytes : List ℕ) (part : Part) → StandsFirst log bytes part → IsUnreadable log bytes → ⊥ }
    ensures either { (log : Option LogPlace) (bytes : List ℕ) → IsShort log bytes → IsUnreadable log bytes → ⊥ }
{
    spelling_size();
    slots_are_bounded();
    one_spelling();
    one_slot();
}

/// Whatever follows, a part that bytes begin with stays, and so does that they begin with none.
pub fn fronts_stay()
    ensures part { (log : Option LogPlace) (bytes more : List ℕ) (part : Part) → StandsFirst log bytes part → StandsFirst log (bytes ++ more) part }
    ensures unreadable { (log : Option LogPlace) (bytes more : List ℕ) → IsUnreadable log bytes → IsUnreadable log (bytes ++ more) }
{
    spelling_size();
    slots_are_bounded();
}

/// What is answered of a stream, and what is left of it, is a function of its bytes, however they are cut: piece by piece it is what all of them
/// at once would give.
pub fn cuts_do_not_matter()
    ensures { (s t u : Streamed) (pieces : List (List ℕ)) (parts others : List Part) → ((part : Part) → HasNext s part → ⊥)
        → FeedsAll s pieces parts t → Drains (fed s (flat_map (λ piece. piece) pieces)) others u → (parts ≡ others) × (t ≡ u) }
{
    parts_are_announced();
    fronts_are_one();
    fronts_stay();
}
