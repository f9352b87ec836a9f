//! Laws of the numbers. Each holds for every value, and its function does nothing.
ghost use Rattle.std.specs.Prelude.{◌≡◌, ℕ, ◌<◌};
ghost use Rattle.erm_layout.specs.declared.word.Word.{Word};
ghost use Rattle.erm_layout.specs.Layout.{HasNumber, index_of};

use crate::limits::WORDS;

/// Two words have two numbers.
pub fn one_number()
    ensures { (v w : Word) → HasNumber v → HasNumber w → index_of v ≡ index_of w → v ≡ w }
{}

/// All numbers are below the count of the words.
pub fn numbers_below()
    ensures { (w : Word) → HasNumber w → index_of w < WORDS }
{}

/// Every number below the count of the words is some word's.
pub fn every_number()
    ensures { (number : ℕ) → number < WORDS → (w : Word) × HasNumber w × (index_of w ≡ number) }
{}
