//! The words of a table when it is made.
ghost use Rattle.std.specs.Prelude.{◌≡◌, ◌<◌, ℕ, [], length, slice_index, slice_index_or, vec_len, IfOk};
ghost use Rattle.erm_layout.specs.Layout.{HasNumber, IsInCell};
ghost use Rattle.erm_machine.specs.Words.{cell_word};
ghost use Rattle.erm_rule.specs.Cells.{word_in};
ghost use Rattle.erm_rule.specs.Rule.{IsFirst, first_cells, first_core, first_rows};

use crate::view::Opening;
use erm_layout::{WORDS, Word, word_of};
use erm_machine::{CellWord, Counter, OBJECT_LIMIT};
use erm_model::{ROW_WORDS, Row};
use std::alloc::{AllocError, Global};

/// Each row has so many words. This holds of every slice, and the function does nothing.
pub(crate) fn rows_are_whole(rows: &[Row])
    ensures { (oid : ℕ) → oid < length rows.now → length (slice_index_or rows.now oid []) ≡ ROW_WORDS }
{}

/// The words of the opening's state.
pub(crate) fn first_words(alloc: Global, opening: &Opening) -> Result<Vec<u64>, AllocError>
    requires rows { vec_len opening.now.rows ≡ OBJECT_LIMIT }
    ensures { IfOk result (λ words. IsFirst opening.now words.items) }
{
    erm_layout::one_number();
    let mut words = Vec::with_capacity(alloc, WORDS)?;
    for number in 0..WORDS {
        let Some(word) = word_of(number) else {
            unreachable!()
        };
        words.push(first_word(opening, word))?;
    }
    Ok(words)
}

// A word of the opening's state: the log ends where it begins, all of it is synced, each entry names the cell of the same number,
// which is drawn and has the object's row, and the rest is zeros.
fn first_word(opening: &Opening, word: Word) -> u64
    requires rows { vec_len opening.now.rows ≡ OBJECT_LIMIT }
    requires numbered { HasNumber word }
    ensures { result ≡ word_in (first_core opening.now) (first_cells opening.now) word }
{
    match word {
        Word::Tail | Word::Flushed => opening.tail,
        Word::Counter(Counter::Objects) => u64::from(opening.first),
        Word::Counter(Counter::Cells) => u64::from(OBJECT_LIMIT),
        Word::Entry(oid) => u64::from(oid),
        Word::Cell { cell, word } => first_cell_word(opening, cell, word),
        Word::Begin(_) | Word::State(_) | Word::Ring(_) | Word::Back(_) => 0,
    }
}

// A word of a cell: those of the objects have their rows.
fn first_cell_word(opening: &Opening, cell: u32, word: CellWord) -> u64
    requires rows { vec_len opening.now.rows ≡ OBJECT_LIMIT }
    requires numbered { IsInCell word }
    ensures { result ≡ cell_word word (first_cells opening.now cell) }
{
    match word {
        CellWord::Row(place) => first_row_word(opening, cell, place),
        _ => 0,
    }
}

// A word of the row of a cell.
fn first_row_word(opening: &Opening, cell: u32, place: u8) -> u64
    requires rows { vec_len opening.now.rows ≡ OBJECT_LIMIT }
    requires place { place < ROW_WORDS }
    ensures { result ≡ slice_index (first_rows opening.now cell) place }
{
    if cell < OBJECT_LIMIT {
        opening.rows[cell as usize][place as usize]
    } else {
        0
    }
}
