//! Whether rows are sound.
ghost use Rattle.std.specs.Prelude.{◌≡◌, ◌+◌, ◌<◌, ◌≤◌, ◌^◌, ◌==◌, ◌↔◌, ℕ, true, false, length, drop, IsTrue, slice_set, slice_index_or};
ghost use Rattle.std.specs.Bool.{OnTrue};
ghost use Rattle.erm_model.specs.Rows.{rows_of};
ghost use Rattle.erm_record.specs.Record.{IsRecord};
ghost use Rattle.erm_node.specs.Node.{first_child};
ghost use Rattle.erm_node.specs.Tree.{Starts, first_key, times, total};
ghost use Rattle.erm_node.specs.Sound.{IsSound, levels_of};
ghost use Rattle.erm_node.specs.Walk.{IsFreeFan, IsFreeTree, marked};

use crate::{LEAST_PAIRS, LEVELS, Node, read_node};
use erm_model::{OID_LIMIT, Oid, Row, TABLES};
use erm_record::{absent, value_of};

/// Whether rows are sound: whether each table has a tree at the object of its number, no object is reached twice, over
/// all tables, and none that there may not be. It takes no memory, and reads each row once or twice.
pub fn sound(rows: &[Row]) -> bool
    requires { length rows.now ≡ OID_LIMIT }
    ensures { IsTrue result ↔ IsSound (rows_of rows.now) }
{
    let mut reached = [false; OID_LIMIT as usize];
    for table in 0..TABLES {
        let oid = Oid::from(table);
        let whole = Part {
            oid,
            levels: levels(rows, oid),
            least: 0,
            lo: 0,
            hi: 1 << 64,
        };
        if !is_tree(rows, &mut reached, whole) {
            return false;
        }
    }
    true
}

// A part of a tree: the object at its root, how many levels of nodes it has, how many pairs its root has at least, and
// the bounds of its keys, the upper one not reached.
#[derive(Clone, Copy)]
struct Part {
    oid: Oid,
    levels: usize,
    least: usize,
    lo: u64,
    hi: u128,
}

// Whether at an object stands such a tree that reaches nothing marked. It marks what it reaches.
#[cycle(walk)]
fn is_tree(rows: &[Row], reached: &mut [bool], part: Part) -> bool
    requires rows { length rows.now ≡ OID_LIMIT }
    requires reached { length reached.old ≡ OID_LIMIT }
    ensures free { IsTrue result ↔ IsFreeTree (rows_of rows.now) (marked reached.old) part.levels part.least part.oid part.lo part.hi }
    ensures marks { OnTrue result ((x : ℕ) → marked reached.new x ≡ marked reached.old x + times (rows_of rows.now) part.levels part.oid x) }
{
    if !mark(reached, part.oid) {
        return false;
    }
    let row = &rows[part.oid as usize];
    if part.levels == 0 {
        return is_record(row);
    }
    let Some(node) = read_node(row) else {
        return false;
    };
    has_form(&node, &part)
        && is_fan(
            rows,
            reached,
            node.pairs.as_slice(),
            part.levels - 1,
            part.hi,
        )
}

// Whether the pairs' objects are such trees, between their keys.
#[cycle(walk)]
fn is_fan(rows: &[Row], reached: &mut [bool], pairs: &[(u64, Oid)], levels: usize, hi: u128) -> bool
    requires rows { length rows.now ≡ OID_LIMIT }
    requires reached { length reached.old ≡ OID_LIMIT }
    ensures free { IsTrue result ↔ IsFreeFan (rows_of rows.now) (marked reached.old) levels pairs.now hi }
    ensures marks { OnTrue result ((x : ℕ) → marked reached.new x ≡ marked reached.old x + total (λ pair. times (rows_of rows.now) levels pair.1 x) pairs.now) }
{
    for i in 0..pairs.len() {
        let (lo, oid) = pairs[i];
        let hi = end_of(pairs, i, hi);
        let child = Part {
            oid,
            levels,
            least: LEAST_PAIRS,
            lo,
            hi,
        };
        if u128::from(lo) >= hi || !is_tree(rows, reached, child) {
            return false;
        }
    }
    true
}

// Where the range of the keys of a pair ends: at the next one's key, the last one's at the end of all.
fn end_of(pairs: &[(u64, Oid)], i: usize, hi: u128) -> u128
    requires { i < length pairs.now }
    ensures { result ≡ first_key (drop (i + 1) pairs.now) hi }
{
    match pairs.get(i + 1) {
        Some(next) => u128::from(next.0),
        None => hi,
    }
}

// Marks an object that there may be and that isn't marked yet, or answers `false`.
fn mark(reached: &mut [bool], oid: Oid) -> bool
    requires { length reached.old ≡ OID_LIMIT }
    ensures new { IsTrue result ↔ ((oid < OID_LIMIT) × (slice_index_or reached.old oid false ≡ false)) }
    ensures marks { OnTrue result (reached.new ≡ slice_set reached.old oid true) }
{
    let is_new = (oid as usize) < reached.len() && !reached[oid as usize];
    if is_new {
        reached[oid as usize] = true;
    }
    is_new
}

// Whether a row is a record's.
fn is_record(row: &Row) -> bool
    ensures { IsTrue result ↔ IsRecord row.now }
{
    *row == absent() || value_of(row).is_some()
}

// Whether a node is a leaf where it should be, has as many pairs as it must, and starts at its bound.
fn has_form(node: &Node, part: &Part) -> bool
    requires { 0 < part.now.levels }
    ensures { IsTrue result ↔ ((node.now.leaf ≡ (part.now.levels == 1)) × (part.now.least ≤ length node.now.pairs.items)
        × Starts node.now.leaf part.now.lo (first_key node.now.pairs.items part.now.lo)) }
{
    let first = node.pairs.first().map_or(part.lo, |pair| pair.0);
    node.leaf == (part.levels == 1)
        && node.pairs.len() >= part.least
        && (first == part.lo || (node.leaf && first > part.lo))
}

// How many levels of nodes the tree at an object has, by its first pairs.
pub(crate) fn levels(rows: &[Row], oid: Oid) -> usize
    ensures { result ≡ levels_of (rows_of rows.now) oid }
{
    let mut at = oid;
    for level in 1..LEVELS {
        match child_of(rows, at) {
            Some(child) => at = child,
            None => return level,
        }
    }
    LEVELS
}

// The first child of the inner node at an object, or `None` where no inner node stands there.
fn child_of(rows: &[Row], oid: Oid) -> Option<Oid>
    ensures { result ≡ first_child (rows_of rows.now oid) }
{
    match rows.get(oid as usize) {
        Some(row) => first_child(row),
        None => None,
    }
}

// The first child of the inner node whose row this is, or `None` where it is that of no inner node.
fn first_child(row: &Row) -> Option<Oid>
    ensures { result ≡ first_child row.now }
{
    let node = read_node(row)?;
    let pairs = node.pairs.as_slice();
    if node.leaf || pairs.is_empty() {
        return None;
    }
    Some(pairs[0].1)
}
