//! The numbers of the table's words.
use erm_layout::{WORDS, Word, index, word_of};
use erm_machine::{CellWord, Counter};

// All four first words, the first and the last word of each part, and all kinds of words of a cell with those beside it.
const PLACES: [(usize, Word); 27] = [
    (0, Word::Tail),
    (1, Word::Flushed),
    (2, Word::Counter(Counter::Objects)),
    (3, Word::Counter(Counter::Cells)),
    (4, Word::Begin(1)),
    (5, Word::State(1)),
    (6, Word::Begin(2)),
    (99, Word::State(48)),
    (100, Word::Begin(49)),
    (101, Word::State(49)),
    (102, Word::Entry(0)),
    (16_485, Word::Entry(16_383)),
    (
        16_486,
        Word::Cell {
            cell: 0,
            word: CellWord::Stamp,
        },
    ),
    (
        16_529,
        Word::Cell {
            cell: 1,
            word: CellWord::Row(15),
        },
    ),
    (
        16_530,
        Word::Cell {
            cell: 2,
            word: CellWord::Stamp,
        },
    ),
    (
        16_531,
        Word::Cell {
            cell: 2,
            word: CellWord::Link,
        },
    ),
    (
        16_532,
        Word::Cell {
            cell: 2,
            word: CellWord::Readers,
        },
    ),
    (
        16_533,
        Word::Cell {
            cell: 2,
            word: CellWord::ReaderStamp,
        },
    ),
    (
        16_534,
        Word::Cell {
            cell: 2,
            word: CellWord::Overwriter,
        },
    ),
    (
        16_535,
        Word::Cell {
            cell: 2,
            word: CellWord::OverwriterSucc,
        },
    ),
    (
        16_536,
        Word::Cell {
            cell: 2,
            word: CellWord::Row(0),
        },
    ),
    (
        1_458_256,
        Word::Cell {
            cell: 65_535,
            word: CellWord::Stamp,
        },
    ),
    (
        1_458_277,
        Word::Cell {
            cell: 65_535,
            word: CellWord::Row(15),
        },
    ),
    (1_458_278, Word::Ring(0)),
    (1_491_045, Word::Ring(32_767)),
    (1_491_046, Word::Back(1)),
    (1_491_093, Word::Back(48)),
];

#[test]
fn numbers(rt: HostRuntime) {
    assert!(rt; WORDS == 1_491_094);
    assert!(rt; word_of(1_491_094).is_none() && word_of(usize::MAX).is_none());
    for (number, word) in PLACES {
        assert!(rt; word_of(number) == Some(word), "{number}");
    }
    assert!(rt; index(Word::State(49)) == 101 && index(Word::Ring(32_767)) == 1_491_045);
}
