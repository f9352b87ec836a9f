//! The test of sound rows, which are those of trees.
ghost use Rattle.std.specs.Prelude.{IsTrue};
ghost use Rattle.erm_record.specs.Record.{IsRecord};
ghost use Rattle.erm_ckpt.specs.Checkpoint.{zero_rows};
ghost use Rattle.erm_node.specs.Sound.{IsSound};

use crate::ReplaceTest;
use erm_ckpt::RowTest;
use erm_model::{Row, RowLaw};
use erm_node::{SoundRows, nodes_are_read_back, sound};
use erm_record::{absent, value_of};

/// The test of sound rows: its law is that of [`SoundRows`]. Where a record's row takes the place of a record's, no other row is
/// looked at.
pub struct SoundTest;

impl RowLaw for SoundTest {
    ghost use Rattle.erm_node.specs.Sound.{sound_law};

    ghost law = { sound_law };

    fn respects_rows() {
        SoundRows::respects_rows();
    }
}

impl RowTest for SoundTest {
    fn test(&self, rows: &[Row]) -> bool {
        sound(rows)
    }
}

impl ReplaceTest for SoundTest {
    fn may_replace(&self, before: &Row, after: &Row) -> bool {
        nodes_are_read_back();
        are_records(before, after)
    }
}

// Whether both rows are records'.
fn are_records(before: &Row, after: &Row) -> bool
    ensures { IsTrue result → IsRecord before.now × IsRecord after.now }
{
    is_record(before) && is_record(after)
}

// Whether a row is a record's.
fn is_record(row: &Row) -> bool
    ensures { IsTrue result → IsRecord row.now }
{
    *row == absent() || value_of(row).is_some()
}

/// Rows that are all zero are sound.
pub fn zero_rows_are_sound()
    ensures { IsSound zero_rows }
{}
