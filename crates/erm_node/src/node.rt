//! Nodes of trees, and their rows.
ghost use Rattle.std.specs.Prelude.{◌≡◌, ◌≤◌, ◌^◌, ℕ, List, true, false, length, option_map, MatchOption};
ghost use Rattle.erm_node.specs.NodeShape.{shape_of};
ghost use Rattle.erm_node.specs.Node.{ascends, filled, have_32_bits, is_node, keys_of, kind_of, node_of, node_row, oids_of, shape_in};

use arrayvec::ArrayVec;
use erm_model::{Oid, ROW_WORDS, Row};

/// The kind of the row of a leaf with pairs.
pub const LEAF: u64 = 3;

/// The kind of the row of an inner node.
pub const INNER: u64 = 4;

/// The most pairs that a node has.
pub const NODE_PAIRS: usize = 7;

/// The fewest pairs that a node other than a root has.
pub const LEAST_PAIRS: usize = 4;

/// The most levels of nodes that a tree has.
pub const LEVELS: usize = 12;

// Where the keys stand in a row, and where the objects do.
const KEYS: usize = 2;

const OIDS: usize = KEYS + NODE_PAIRS;

/// A node of a tree. Its pairs ascend by key: in a leaf a key with its record, in an inner node the lower bound of the
/// keys of a child with the child.
#[derive(Drop, PartialEq, Eq)]
pub struct Node {
    pub leaf: bool,
    pub pairs: ArrayVec<(u64, Oid), NODE_PAIRS>,
}

/// The node whose row this is, or `None` where it is that of no node. Reading is strict: any other word anywhere is
/// refused.
pub fn read_node(row: &Row) -> Option<Node>
    ensures { option_map shape_of result ≡ node_of row.now }
{
    let node = node_in(row)?;
    (is_node(&node) && row_of_node(&node) == *row).then_some(node)
}

/// The row of a node.
pub fn row_of_node(node: &Node) -> Row
    ensures { result ≡ node_row (shape_of node.now) }
{
    let pairs = node.pairs.as_slice();
    let mut row = [0; ROW_WORDS];
    row[0] = kind(node);
    row[1] = pairs.len() as u64;
    row[KEYS..OIDS].copy_from_slice(&keys(pairs));
    row[OIDS..].copy_from_slice(&oids(pairs));
    row
}

// The number of a node's kind.
fn kind(node: &Node) -> u64
    ensures { result ≡ kind_of node.now.leaf node.now.pairs.items }
{
    match (node.leaf, node.pairs.is_empty()) {
        (true, true) => 0,
        (true, false) => LEAF,
        (false, _) => INNER,
    }
}

// The keys, and zeros in the places that are left.
fn keys(pairs: &[(u64, Oid)]) -> [u64; NODE_PAIRS]
    requires { length pairs.now ≤ NODE_PAIRS }
    ensures { result ≡ filled (keys_of pairs.now) }
{
    let mut keys = [0; NODE_PAIRS];
    for (i, pair) in pairs.iter().enumerate() {
        keys[i] = pair.0;
    }
    keys
}

// The objects, and zeros in the places that are left.
fn oids(pairs: &[(u64, Oid)]) -> [u64; NODE_PAIRS]
    requires { length pairs.now ≤ NODE_PAIRS }
    ensures { result ≡ filled (oids_of pairs.now) }
{
    let mut oids = [0; NODE_PAIRS];
    for (i, pair) in pairs.iter().enumerate() {
        oids[i] = u64::from(pair.1);
    }
    oids
}

// What the places of a row say, or `None` where an object's number has more than 32 bits.
fn node_in(row: &Row) -> Option<Node>
    ensures { MatchOption result (have_32_bits (shape_in row.now).pairs ≡ false) (λ node. shape_of node ≡ shape_in row.now × have_32_bits node.pairs.items ≡ true) }
{
    let count = row[1].min(NODE_PAIRS as u64) as usize;
    let mut pairs = ArrayVec::new();
    for i in 0..count {
        let oid = Oid::try_from(row[OIDS + i]).ok()?;
        pairs.push((row[KEYS + i], oid));
    }
    Some(Node {
        leaf: row[0] != INNER,
        pairs,
    })
}

// Whether a node whose objects have numbers of 32 bits keeps the rules of a node.
fn is_node(node: &Node) -> bool
    ensures { have_32_bits node.now.pairs.items ≡ true → result ≡ is_node (shape_of node.now) }
{
    (node.leaf || node.pairs.len() >= 2) && ascends(node.pairs.as_slice())
}

// Whether the keys ascend strictly.
fn ascends(pairs: &[(u64, Oid)]) -> bool
    ensures { result ≡ ascends pairs.now }
{
    for i in 1..pairs.len() {
        if pairs[i - 1].0 >= pairs[i].0 {
            return false;
        }
    }
    true
}
