//! What changes as a new key is put into a tree: the rows to set, by the nodes on the way to the key.
ghost use Rattle.std.specs.Prelude.{◌≡◌, ◌<◌, ◌≤◌, ◌+◌, ◌*◌, ◌++◌, true, length, nat_eq, slice_index};
ghost use Rattle.std.specs.List.{suffix_len};
ghost use Rattle.erm_node.specs.Node.{node_row};
ghost use Rattle.erm_tree.specs.Insert.{full_run, handed_up, is_full, new_rows, objects_for, root_rows, rows_below, with_pair};
ghost use Rattle.erm_tree.specs.Step.{place_of, places_of};

use crate::walk::rank_of;
use arrayvec::ArrayVec;
use erm_model::{Oid, PUT_OBJECTS, PUT_ROWS, Row};
use erm_node::{LEAST_PAIRS, LEVELS, NODE_PAIRS, Node, row_of_node};

/// A node on the way to a key.
#[derive(Default, Drop)]
pub(crate) struct Step {
    pub oid: Oid,
    pub leaf: bool,
    pub pairs: ArrayVec<(u64, Oid), NODE_PAIRS>,
}

// A put makes one object for the record, one for each node that is cut, and one more for the root.
const _: () = prove!(PUT_OBJECTS == LEVELS + 2);

// It claims and sets the record's row, for each node its own and its right half's, and the root's left half's.
const _: () = prove!(PUT_ROWS == 2 * LEVELS + 2);

/// Rows to set, each with its object.
pub(crate) type NewRows = ArrayVec<(Oid, Row), PUT_ROWS>;

// As many pairs as a full node has, and one more.
const PAIRS_TO_CUT: usize = NODE_PAIRS + 1;

/// How many objects are made as a key is put in at the end of a path.
pub(crate) fn objects_for(path: &[Step]) -> usize
    requires { length path.now ≤ LEVELS }
    ensures { result ≡ objects_for (places_of path.now) }
{
    let full = full_run(path);
    if full == path.len() {
        full + 2
    } else {
        full + 1
    }
}

/// The rows to set as a key is put in at the end of a path, by the objects made for it.
pub(crate) fn plan(path: &[Step], made: &[Oid], key: u64, row: &Row) -> NewRows
    requires nodes { 0 < length path.now }
    requires levels { length path.now ≤ LEVELS }
    requires made { length made.now ≡ objects_for (places_of path.now) }
    ensures { result.items ≡ new_rows made.now key row.now (places_of path.now) }
{
    let Some((root, below)) = path.split_first() else {
        unreachable!()
    };
    let mut rows = NewRows::new();
    if let Some(pair) = plan_below(below, made, key, row, &mut rows) {
        plan_root(root, pair, made, below.len() + 1, &mut rows);
    }
    rows
}

// Plans the rows of the root, which a pair is handed to. A full one is cut: its halves go to the objects made from `next` on.
fn plan_root(root: &Step, pair: (u64, Oid), made: &[Oid], next: usize, rows: &mut NewRows)
    requires room { length rows.old.items + 3 ≤ PUT_ROWS }
    requires enough { is_full (place_of root.now) ≡ true → next + 1 < length made.now }
    ensures { rows.new.items ≡ rows.old.items ++ root_rows (place_of root.now) (slice_index made.now next) (slice_index made.now (next + 1)) pair }
{
    let pairs = with_pair(root, pair);
    let pairs = pairs.as_slice();
    if !root.pairs.is_full() {
        rows.push((root.oid, row_with(root.leaf, pairs)));
        return;
    }
    let (left, right) = (made[next], made[next + 1]);
    let (first, last) = pairs.split_at(LEAST_PAIRS);
    rows.push((root.oid, row_with(false, &[(0, left), (last[0].0, right)])));
    rows.push((left, row_with(root.leaf, first)));
    rows.push((right, row_with(root.leaf, last)));
}

// How many nodes at the end of a path are full, one above the other.
fn full_run(path: &[Step]) -> usize
    ensures count { result ≡ suffix_len (λ step. nat_eq (length step.pairs.items) NODE_PAIRS) path.now }
    ensures most { result ≤ length path.now }
{
    path.iter()
        .rev()
        .take_while(|step| step.pairs.is_full())
        .count()
}

// A node's pairs and one more, in its place.
fn with_pair(step: &Step, pair: (u64, Oid)) -> ArrayVec<(u64, Oid), PAIRS_TO_CUT>
    ensures { result.items ≡ with_pair pair step.now.pairs.items }
{
    let pairs = step.pairs.as_slice();
    let Ok(mut more) = ArrayVec::try_from(pairs) else {
        unreachable!()
    };
    more.insert(rank_of(pairs, pair.0), pair);
    more
}

// The row of a node with these pairs.
fn row_with(leaf: bool, pairs: &[(u64, Oid)]) -> Row
    requires { length pairs.now ≤ NODE_PAIRS }
    ensures { result ≡ node_row (record { leaf = leaf; pairs = pairs.now }) }
{
    let Ok(pairs) = ArrayVec::try_from(pairs) else {
        unreachable!()
    };
    row_of_node(&Node { leaf, pairs })
}

// Plans the rows of the last nodes of a path, and answers the pair that they hand up.
fn plan_below(
    path: &[Step],
    made: &[Oid],
    key: u64,
    row: &Row,
    rows: &mut NewRows,
) -> Option<(u64, Oid)>
    requires room { length rows.old.items + 2 * length path.now + 1 ≤ PUT_ROWS }
    requires enough { full_run (places_of path.now) < length made.now }
    ensures pair { result ≡ handed_up made.now key (places_of path.now) }
    ensures rows { rows.new.items ≡ rows.old.items ++ rows_below made.now key row.now (places_of path.now) }
    ensures grows { length rows.new.items ≤ length rows.old.items + 2 * length path.now + 1 }
{
    let Some((step, below)) = path.split_first() else {
        rows.push((made[0], *row));
        return Some((key, made[0]));
    };
    let pair = plan_below(below, made, key, row, rows)?;
    let pairs = with_pair(step, pair);
    let pairs = pairs.as_slice();
    if !step.pairs.is_full() {
        rows.push((step.oid, row_with(step.leaf, pairs)));
        return None;
    }
    let right = made[below.len() + 1];
    let (stay, go) = pairs.split_at(LEAST_PAIRS);
    rows.push((step.oid, row_with(step.leaf, stay)));
    rows.push((right, row_with(step.leaf, go)));
    Some((go[0].0, right))
}
