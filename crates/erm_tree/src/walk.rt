//! The walk from a table's root down to the leaf for a key.
ghost use Rattle.std.specs.Prelude.{◌≡◌, ◌<◌, ◌≤◌, ◌-◌, ℕ, IfOk, IfErr, IfSome, List, length, drop, nat_eq, slice_index_or};
ghost use Rattle.std.specs.Map.{lookup};
ghost use Rattle.erm_model.specs.Rows.{Rows};
ghost use Rattle.erm_model.specs.RowTransaction.{SameLaw, StopsRead, IsStopped};
ghost use Rattle.erm_node.specs.Sound.{sound_law};
ghost use Rattle.erm_node.specs.Tree.{first_key};
ghost use Rattle.erm_tree.specs.Calls.{AsksReads, IsReady, Reads, SawIn};
ghost use Rattle.erm_tree.specs.Reads.{IsOnWay};
ghost use Rattle.erm_tree.specs.Walk.{IsLeafFor, IsRecordFor, bound_of, rank};

use arrayvec::ArrayVec;
use erm_model::{OID_LIMIT, Oid, RowRead, RowStop, TABLES};
use erm_node::{LEVELS, NODE_PAIRS, nodes_are_read_back, read_node};

/// A leaf, and where its range of keys ends: at a key that isn't in it, or behind the greatest one.
#[derive(Drop)]
pub(crate) struct Leaf {
    pub pairs: ArrayVec<(u64, Oid), NODE_PAIRS>,
    pub end: Option<u64>,
}

/// Reads down from a table's root to the leaf for a key.
pub(crate) fn leaf_for<T: RowRead>(txn: &mut T, table: u8, key: u64) -> Result<Leaf, RowStop>
    requires ready { IsReady T.face txn.old }
    requires law { SameLaw T.face.law sound_law }
    requires table { table < TABLES }
    ensures ok { IfOk result (λ leaf. SawIn T.face (IsOnWay table key) txn.old txn.new (λ rows. IsLeafFor rows table key leaf.pairs.items (bound_of leaf.end))) }
    ensures err { IfErr result (λ stop. IsStopped T.face StopsRead (Reads T.face.law (IsOnWay table key)) (AsksReads (IsOnWay table key)) txn.old stop txn.new) }
{
    nodes_are_read_back();
    let mut oid = Oid::from(table);
    let mut end = None;
    for _level in 0..LEVELS {
        let row = txn.read(oid)?;
        let Some(node) = read_node(&row) else {
            unreachable!()
        };
        if node.leaf {
            return Ok(Leaf {
                pairs: node.pairs,
                end,
            });
        }
        let child = child_for(node.pairs.as_slice(), key, end);
        oid = child.oid;
        end = child.end;
    }
    unreachable!()
}

/// A child of an inner node, and where its range of keys ends.
#[derive(Clone, Copy)]
pub(crate) struct Child {
    pub oid: Oid,
    pub end: Option<u64>,
}

/// The child for a key, where the node's own range goes up to `end`.
pub(crate) fn child_for(pairs: &[(u64, Oid)], key: u64, end: Option<u64>) -> Child
    requires { 0 < rank key pairs.now }
    ensures oid { result.oid ≡ (slice_index_or pairs.now (rank key pairs.now - 1) (0, 0)).1 }
    ensures end { bound_of result.end ≡ first_key (drop (rank key pairs.now) pairs.now) (bound_of end) }
{
    let next = rank_of(pairs, key);
    Child {
        oid: pairs[next - 1].1,
        end: if next < pairs.len() {
            Some(pairs[next].0)
        } else {
            end
        },
    }
}

/// How many pairs have keys up to this one, from the first on.
pub(crate) fn rank_of(pairs: &[(u64, Oid)], key: u64) -> usize
    ensures rank { result ≡ rank key pairs.now }
    ensures range { result ≤ length pairs.now }
{
    pairs.iter().take_while(|pair| pair.0 <= key).count()
}

/// Finds the record of a key by reads down from the table's root, or none where the key has no entry.
pub(crate) fn record_for<T: RowRead>(
    txn: &mut T,
    table: u8,
    key: u64,
) -> Result<Option<Oid>, RowStop>
    requires ready { IsReady T.face txn.old }
    requires law { SameLaw T.face.law sound_law }
    requires table { table < TABLES }
    ensures ok { IfOk result (λ found. SawIn T.face (IsOnWay table key) txn.old txn.new (λ rows. IsRecordFor rows table key found)) }
    ensures object { IfOk result (λ found. IfSome found (λ oid. oid < OID_LIMIT)) }
    ensures err { IfErr result (λ stop. IsStopped T.face StopsRead (Reads T.face.law (IsOnWay table key)) (AsksReads (IsOnWay table key)) txn.old stop txn.new) }
{
    let leaf = leaf_for(txn, table, key)?;
    Ok(record_in(leaf.pairs.as_slice(), key))
}

/// The record of a key among the pairs of a leaf.
pub(crate) fn record_in(pairs: &[(u64, Oid)], key: u64) -> Option<Oid>
    ensures { result ≡ lookup (nat_eq key) pairs.now }
{
    for pair in pairs {
        if pair.0 == key {
            return Some(pair.1);
        }
    }
    None
}
