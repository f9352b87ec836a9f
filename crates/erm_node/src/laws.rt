//! The laws of rows that a program names as types, and laws of the definitions. Each of these holds for every value, and
//! its function does nothing.
ghost use Rattle.std.specs.Prelude.{◌≡◌, ◌<◌, ◌≤◌, ℕ, suc, List, true, Some, None, replicate};
ghost use Rattle.erm_model.specs.Database.{value_at};
ghost use Rattle.erm_model.specs.Rows.{Rows};
ghost use Rattle.erm_model.specs.RowTransaction.{SameRows};
ghost use Rattle.erm_record.specs.Record.{IsRecord};
ghost use Rattle.erm_node.specs.Node.{Shape, is_node, node_of, node_row};
ghost use Rattle.erm_node.specs.Tree.{AscendWithin, IsTree, entries, times};
ghost use Rattle.erm_node.specs.Sound.{IsSound, levels_of, reached, sound_law};
ghost use Rattle.erm_node.specs.TreeMap.{map_of_rows, value_in};

use crate::LEVELS;
use erm_model::{OID_LIMIT, ROW_WORDS, RowLaw, TABLES};

/// The law of sound rows: sixteen trees, which reach each object once at most.
pub struct SoundRows;

impl RowLaw for SoundRows {
    ghost law = { sound_law };

    fn respects_rows() {}
}

/// A row is a node's exactly where it is spelled so, and no record's row is a node's.
pub fn nodes_are_read_back()
    ensures found { (row : List ℕ) (shape : Shape) → node_of row ≡ Some shape → (is_node shape ≡ true) × (row ≡ node_row shape) }
    ensures given { (shape : Shape) → is_node shape ≡ true → node_of (node_row shape) ≡ Some shape }
    ensures record { (row : List ℕ) → IsRecord row → node_of row ≡ None }
{}

/// A tree that reaches no object twice, and none that there may not be, has few levels, and they are those that its first
/// children show.
pub fn trees_are_low()
    ensures low { (rows : Rows) (levels least oid lo hi : ℕ) → IsTree rows levels least oid lo hi → ((x : ℕ) → times rows levels oid x ≤ 1)
        → ((x : ℕ) → OID_LIMIT ≤ x → times rows levels oid x ≡ 0) → levels ≤ LEVELS }
    ensures found { (rows : Rows) (levels least oid lo hi : ℕ) → IsTree rows (suc levels) least oid lo hi → levels < LEVELS → levels_of rows oid ≡ suc levels }
{}

/// A row of zeros is reached as the root of a table alone.
pub fn zero_rows_are_not_reached()
    ensures { (rows : Rows) (x : ℕ) → IsSound rows → TABLES ≤ x → rows x ≡ replicate ROW_WORDS 0 → reached rows x ≡ 0 }
{}

/// The keys of a tree's entries ascend strictly, within its bounds.
pub fn keys_ascend()
    ensures { (rows : Rows) (levels least oid lo hi : ℕ) → IsTree rows levels least oid lo hi → lo < hi → AscendWithin lo (entries rows levels oid lo) hi }
{}

/// The map of sound rows has for each key of each table the value of its record, and nothing else.
pub fn map_has_values_of_records()
    ensures value { (rows : Rows) (table key : ℕ) → IsSound rows → table < TABLES → value_at (map_of_rows rows) table key ≡ value_in rows table key }
    ensures none { (rows : Rows) (table key : ℕ) → IsSound rows → TABLES ≤ table → value_at (map_of_rows rows) table key ≡ None }
{}

/// The map of sound rows is told by the rows of the objects that there may be.
pub fn same_rows_same_map()
    ensures { (a b : Rows) → SameRows a b → IsSound a → map_of_rows a ≡ map_of_rows b }
{}
