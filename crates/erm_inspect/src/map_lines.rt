//! The lines of the database map of rows.
ghost use Rattle.std.specs.Prelude.{OnOk};
ghost use Rattle.erm_model.specs.Rows.{rows_of};
ghost use Rattle.erm_node.specs.TreeMap.{map_of_rows};
ghost use Rattle.erm_inspect.specs.Maps.{EndsWithMap};

use erm_model::Row;
use erm_node::map_of;
use erm_report::Line;
use std::alloc::{AllocError, Global};

/// Adds the lines of the map of these rows, which are sound, and the end.
pub fn push_map(alloc: Global, rows: &[Row], lines: &mut Vec<Line>) -> Result<(), AllocError>
    ensures { OnOk result (EndsWithMap (map_of_rows (rows_of rows.now)) lines.old.items lines.new.items) }
{
    let pairs = map_of(alloc, rows)?.pairs(alloc)?;
    lines.push(Line::Map { pairs: pairs.len() })?;
    for pair in pairs {
        lines.push(Line::Pair(pair))?;
    }
    lines.push(Line::End)?;
    Ok(())
}
