//! The number of a word, and the word of a number.
ghost use Rattle.std.specs.Prelude.{◌≡◌, ◌+◌, ◌-◌, ◌*◌, ◌<◌, ◌↔◌, IfSome, IsSome};
ghost use Rattle.erm_layout.specs.Layout.{HasNumber, IsInCell, index_of, place_in_cell};

use crate::Word;
use crate::limits::{
    BACKS_FROM, CELL_HEAD_WORDS, CELL_WORDS, CELLS_FROM, ENTRIES_FROM, RING_FROM, SEAT_WORDS,
    SEATS_FROM, WORDS,
};
use erm_machine::{ANNOUNCERS, CellWord, Counter};
use erm_model::{Oid, Seat, TABLE_CELLS};

/// The number of a word.
pub fn index(word: Word) -> usize
    requires { HasNumber word }
    ensures number { result ≡ index_of word }
    ensures below { result < WORDS }
{
    match word {
        Word::Tail => 0,
        Word::Flushed => 1,
        Word::Counter(Counter::Objects) => 2,
        Word::Counter(Counter::Cells) => 3,
        Word::Begin(seat) => SEATS_FROM + SEAT_WORDS * (seat as usize - 1),
        Word::State(seat) => SEATS_FROM + SEAT_WORDS * (seat as usize - 1) + 1,
        Word::Entry(oid) => ENTRIES_FROM + oid as usize,
        Word::Cell { cell, word } => CELLS_FROM + CELL_WORDS * cell as usize + index_in_cell(word),
        Word::Ring(place) => RING_FROM + place as usize,
        Word::Back(seat) => BACKS_FROM + (seat as usize - 1),
    }
}

// The place of a word in its cell.
fn index_in_cell(word: CellWord) -> usize
    requires { IsInCell word }
    ensures place { result ≡ place_in_cell word }
    ensures below { result < CELL_WORDS }
{
    match word {
        CellWord::Stamp => 0,
        CellWord::Link => 1,
        CellWord::Readers => 2,
        CellWord::ReaderStamp => 3,
        CellWord::Overwriter => 4,
        CellWord::OverwriterSucc => 5,
        CellWord::Row(place) => CELL_HEAD_WORDS + place as usize,
    }
}

/// The word that has this number, or `None` where no word has it.
pub fn word_of(index: usize) -> Option<Word>
    ensures found { IfSome result (λ word. HasNumber word × (index_of word ≡ index)) }
    ensures all { IsSome result ↔ (index < WORDS) }
{
    if index < SEATS_FROM {
        Some(first_word(index))
    } else if index < ENTRIES_FROM {
        Some(seat_word(index - SEATS_FROM))
    } else if index < CELLS_FROM {
        Some(Word::Entry((index - ENTRIES_FROM) as Oid))
    } else if index < RING_FROM {
        Some(cell_word(index - CELLS_FROM))
    } else if index < BACKS_FROM {
        Some(Word::Ring((index - RING_FROM) as u64))
    } else if index < WORDS {
        Some(Word::Back((index - BACKS_FROM) as Seat + 1))
    } else {
        None
    }
}

// The word of a number below those of the seats.
fn first_word(index: usize) -> Word
    requires { index < SEATS_FROM }
    ensures has { HasNumber result }
    ensures number { index_of result ≡ index }
{
    match index {
        0 => Word::Tail,
        1 => Word::Flushed,
        2 => Word::Counter(Counter::Objects),
        _ => Word::Counter(Counter::Cells),
    }
}

// The word at a place of the seats' words.
fn seat_word(place: usize) -> Word
    requires { place < SEAT_WORDS * (ANNOUNCERS - 1) }
    ensures has { HasNumber result }
    ensures number { index_of result ≡ SEATS_FROM + place }
{
    let seat = (place / SEAT_WORDS) as Seat + 1;
    if place % SEAT_WORDS == 0 {
        Word::Begin(seat)
    } else {
        Word::State(seat)
    }
}

// The word at a place of the cells' words.
fn cell_word(place: usize) -> Word
    requires { place < CELL_WORDS * TABLE_CELLS }
    ensures has { HasNumber result }
    ensures number { index_of result ≡ CELLS_FROM + place }
{
    Word::Cell {
        cell: (place / CELL_WORDS) as u32,
        word: word_in_cell(place % CELL_WORDS),
    }
}

// The word at a place of a cell.
fn word_in_cell(place: usize) -> CellWord
    requires { place < CELL_WORDS }
    ensures has { IsInCell result }
    ensures number { place_in_cell result ≡ place }
{
    match place {
        0 => CellWord::Stamp,
        1 => CellWord::Link,
        2 => CellWord::Readers,
        3 => CellWord::ReaderStamp,
        4 => CellWord::Overwriter,
        5 => CellWord::OverwriterSucc,
        _ => CellWord::Row((place - CELL_HEAD_WORDS) as u8),
    }
}
