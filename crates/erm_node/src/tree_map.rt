//! The database map that rows stand for.
ghost use Rattle.std.specs.Prelude.{◌≡◌, IfOk, OnOk, option_map, option_to_list};
ghost use Rattle.erm_model.specs.Database.{at};
ghost use Rattle.erm_model.specs.Rows.{rows_of};
ghost use Rattle.erm_record.specs.Record.{record_value};
ghost use Rattle.erm_node.specs.TreeMap.{map_of_rows, tree_values, with_values};

use crate::read_node;
use crate::soundness::levels;
use erm_model::{Map, Oid, Row, TABLES};
use erm_record::value_of;
use std::alloc::{AllocError, Global};

/// The database map of sound rows: each key of each table whose record has a value, with it. Where the rows are sound,
/// it reads each row once or twice.
pub fn map_of(alloc: Global, rows: &[Row]) -> Result<Map, AllocError>
    ensures { IfOk result (λ map. map ≡ map_of_rows (rows_of rows.now)) }
{
    let mut map = Map::new(alloc);
    for table in (0..TABLES).rev() {
        let oid = Oid::from(table);
        let tree = Tree {
            table,
            levels: levels(rows, oid),
            oid,
            lo: 0,
        };
        add_tree(&mut map, rows, tree)?;
    }
    Ok(map)
}

// A part of the tree of a table: how many levels of nodes it has, the object at its root, and where its keys begin.
#[derive(Clone, Copy)]
struct Tree {
    table: u8,
    levels: usize,
    oid: Oid,
    lo: u64,
}

// Adds the values of a tree to the map, from the last to the first.
fn add_tree(map: &mut Map, rows: &[Row], tree: Tree) -> Result<(), AllocError>
    ensures { OnOk result (map.new ≡ with_values (tree_values (rows_of rows.now) tree.table tree.levels tree.oid tree.lo) map.old) }
{
    let Some(row) = rows.get(tree.oid as usize) else {
        return Ok(());
    };
    if tree.levels == 0 {
        return add_value(map, tree.table, tree.lo, row);
    }
    let Some(node) = read_node(row) else {
        return Ok(());
    };
    let pairs = node.pairs.as_slice();
    for i in (0..pairs.len()).rev() {
        let (lo, oid) = pairs[i];
        let child = Tree {
            table: tree.table,
            levels: tree.levels - 1,
            oid,
            lo,
        };
        add_tree(map, rows, child)?;
    }
    Ok(())
}

// Adds the value of a record, if it has one, to the map.
fn add_value(map: &mut Map, table: u8, key: u64, row: &Row) -> Result<(), AllocError>
    ensures { OnOk result (map.new ≡ with_values (option_to_list (option_map (λ value. (at table key, value)) (record_value row.now))) map.old) }
{
    if let Some(value) = value_of(row) {
        map.insert(table, key, value)?;
    }
    Ok(())
}
