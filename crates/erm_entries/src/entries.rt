//! An object's entry, and the word that spells it.
ghost use Rattle.std.specs.Prelude.{◌≡◌, ◌<◌, ◌^◌};
ghost use Rattle.erm_entries.specs.Spelling.{entry_of, word_of};

use erm_kept::words::{claimed, head_of, owner_of};
use erm_model::Seat;

/// An object's entry.
#[derive(Clone, Copy, Debug, PartialEq, Eq)]
pub struct Entry {
    /// The cell at the head of the object's chain.
    pub head: u32,
    /// The seat whose transaction owns the entry, or 0.
    pub owner: Seat,
    /// The number of that transaction, or 0.
    pub number: u32,
}

impl Entry {
    /// The entry that a word spells.
    pub fn of(word: u64) -> Entry
        ensures entry { result ≡ entry_of word }
        ensures spelled { word_of result ≡ word }
    {
        Entry {
            head: head_of(word),
            owner: owner_of(word),
            number: (word / (1 << 32)) as u32,
        }
    }

    /// The word that spells the entry, whose head is a cell of 24 bits; of another head these bits alone are in the word.
    pub fn word(&self) -> u64
        ensures word { result ≡ word_of self.now }
        ensures spelled { self.now.head < 2 ^ 24 → entry_of result ≡ self.now }
    {
        claimed(u64::from(self.head), self.owner, self.number)
    }
}
