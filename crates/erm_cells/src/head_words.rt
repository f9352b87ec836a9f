//! The words of a new version before its row, stored into a claim's own cell.
ghost use Rattle.std.specs.Prelude.{◌≡◌};
ghost use Rattle.erm_cells.specs.Heads.{DidStoreHead, MayStoreHead, head_value_at, head_word_at, link_of};
ghost use Rattle.erm_rule.specs.Hands.{IsKnown};
ghost use Rattle.erm_rule.specs.Steps.{Fits};
ghost use Rattle.erm_rule.specs.Views.{view, part_of};
ghost use Rattle.erm_cells.specs.Took.{TookHeadWords};
ghost use Rattle.erm_rule.specs.Books.{book};

use crate::placed::store_placed;
use erm_machine::CellWord;
use erm_model::{RowLaw, Seat, Stamp};
use erm_rule::{Pass, Table};

// How many words a cell has before its row.
const HEAD_WORDS: u8 = 6;

/// Stores the words before the row into the own cell of the next claim to be installed: its stamp, the link to the cell overwritten,
/// no readers and no overwriter.
pub fn store_head<L: RowLaw>(
    t: &Table<L>,
    p: &mut Pass,
    who: Seat,
    cell: u32,
    stamp: Stamp,
    link: Option<u32>,
)
    requires fits { Fits t.now.words.shared.table_id p.old }
    requires known { IsKnown (view p.old) }
    requires may { MayStoreHead cell stamp link (part_of (view p.old) who) (part_of (view p.old) who).task }
    ensures fits { Fits t.now.words.shared.table_id p.new }
    ensures stored { DidStoreHead (view p.old) who cell (view p.new) }
    ensures stores { TookHeadWords L.law who cell stamp link (book p.old) (book p.new) }
{
    let older = link_word(link);
    for step in 0..HEAD_WORDS {
        let (word, value) = head_word(step, stamp, older);
        store_placed(t, p, who, cell, word, value);
    }
}

// The word that is stored in this step, and its value.
fn head_word(step: u8, stamp: Stamp, link: u64) -> (CellWord, u64)
    ensures word { result.0 ≡ head_word_at step }
    ensures value { result.1 ≡ head_value_at stamp link (head_word_at step) }
{
    match step {
        0 => (CellWord::Stamp, stamp),
        1 => (CellWord::Link, link),
        2 => (CellWord::Readers, 0),
        3 => (CellWord::ReaderStamp, stamp),
        4 => (CellWord::Overwriter, 0),
        _ => (CellWord::OverwriterSucc, 0),
    }
}

// The link to a cell, as a word.
fn link_word(link: Option<u32>) -> u64
    ensures { result ≡ link_of link }
{
    match link {
        Some(cell) => u64::from(cell) + 1,
        None => 0,
    }
}
