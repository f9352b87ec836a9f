//! A row as the log stores it: up to its last word that isn't 0.
ghost use Rattle.std.specs.Prelude.{◌≡◌, ◌≢◌, ◌≤◌, ◌<◌, ◌+◌, ◌-◌, ◌++◌, ℕ, List, length, replicate, slice_index, take};
ghost use Rattle.erm_record.specs.Stored.{stored_length, stored_words};

use erm_model::{ROW_WORDS, Row};

/// The length of a row up to its last word that isn't 0, in words.
pub fn stored_length(row: &Row) -> usize
    ensures length { result ≡ stored_length row.now }
    ensures short { result ≤ ROW_WORDS }
    ensures last { 0 < result → slice_index row.now (result - 1) ≢ 0 }
    ensures rest { (k : ℕ) → result ≤ k → slice_index row.now k ≡ 0 }
{
    for i in (0..ROW_WORDS).rev() {
        if row[i] != 0 {
            return i + 1;
        }
    }
    0
}

/// How many words a row takes in a block of the log: one for its object, and those up to its last word that isn't 0.
pub fn stored_words(row: &Row) -> usize
    ensures words { result ≡ stored_words row.now }
    ensures short { result ≤ 1 + ROW_WORDS }
{
    1 + stored_length(row)
}

/// A row is its stored words and zeros after them, as many as it has words more.
pub fn stored_words_tell_the_row()
    ensures short { (row : List ℕ) → stored_length row ≤ length row }
    ensures whole { (row : List ℕ) → take (stored_length row) row ++ replicate (length row - stored_length row) 0 ≡ row }
{}
