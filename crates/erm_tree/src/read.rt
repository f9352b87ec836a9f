//! Calls that read: the value and the record of a key, and the next key with a value.
ghost use Rattle.std.specs.Prelude.{◌≡◌, ◌<◌, ◌^◌, ℕ, IfOk, IfErr, IfSome};
ghost use Rattle.erm_model.specs.Database.{IsNextAt, value_at};
ghost use Rattle.erm_model.specs.RowTransaction.{SameLaw, StopsRead, IsStopped};
ghost use Rattle.erm_node.specs.Sound.{sound_law};
ghost use Rattle.erm_node.specs.TreeMap.{map_of_rows, record_in};
ghost use Rattle.erm_tree.specs.Calls.{AsksReads, IsReady, IsTold, Reads, SawIn};
ghost use Rattle.erm_tree.specs.Reads.{IsMetIn, IsOnWay, IsSought};
ghost use Rattle.erm_tree.specs.Walk.{IsFirstIn, IsLeafFor, IsMetByFirst, IsMetByNext, IsOfLeaf, bound_of, last_sought};

use crate::walk::{Leaf, leaf_for, record_for};
use erm_model::{OID_LIMIT, Oid, RowRead, RowStop, TABLES, Value};
use erm_node::map_has_values_of_records;
use erm_record::value_of;

/// The value of a key of a table.
pub fn get<T: RowRead>(txn: &mut T, table: u8, key: u64) -> Result<Option<Value>, RowStop>
    requires ready { IsReady T.face txn.old }
    requires law { SameLaw T.face.law sound_law }
    requires table { table < TABLES }
    ensures ok { IfOk result (λ value. SawIn T.face (IsSought table key) txn.old txn.new (λ rows. value ≡ value_at (map_of_rows rows) table key)) }
    ensures err { IfErr result (λ stop. IsStopped T.face StopsRead (Reads T.face.law (IsSought table key)) (AsksReads (IsSought table key)) txn.old stop txn.new) }
{
    map_has_values_of_records();
    match record_for(txn, table, key)? {
        Some(oid) => {
            let row = txn.read(oid)?;
            Ok(value_of(&row))
        }
        None => Ok(None),
    }
}

/// The object of a key's record, or none where the key has no entry. A key whose value was taken away keeps its entry.
pub fn find<T: RowRead>(txn: &mut T, table: u8, key: u64) -> Result<Option<Oid>, RowStop>
    requires ready { IsReady T.face txn.old }
    requires law { SameLaw T.face.law sound_law }
    requires table { table < TABLES }
    ensures ok { IfOk result (λ oid. SawIn T.face (IsOnWay table key) txn.old txn.new (λ rows. oid ≡ record_in rows table key)) }
    ensures object { IfOk result (λ found. IfSome found (λ oid. oid < OID_LIMIT)) }
    ensures err { IfErr result (λ stop. IsStopped T.face StopsRead (Reads T.face.law (IsOnWay table key)) (AsksReads (IsOnWay table key)) txn.old stop txn.new) }
{
    record_for(txn, table, key)
}

/// The least key of a table at or above `from` that has a value, with the value.
pub fn next<T: RowRead>(txn: &mut T, table: u8, from: u64) -> Result<Option<(u64, Value)>, RowStop>
    requires ready { IsReady T.face txn.old }
    requires law { SameLaw T.face.law sound_law }
    requires table { table < TABLES }
    ensures ok { IfOk result (λ found. SawIn T.face (λ rows x. IsMetIn rows table from (last_sought (2 ^ 64) found) x) txn.old txn.new (λ rows. IsNextAt (map_of_rows rows) table from found)) }
    ensures err { IfErr result (λ stop. IsStopped T.face StopsRead (Reads T.face.law (IsMetByNext table from)) (AsksReads (IsMetByNext table from)) txn.old stop txn.new) }
{
    map_has_values_of_records();
    let mut low = from;
    loop {
        let leaf = leaf_for(txn, table, low)?;
        if let Some(found) = first_value(txn, &leaf, low)? {
            return Ok(Some(found));
        }
        let Some(end) = leaf.end else {
            return Ok(None);
        };
        low = end;
    }
}

// The first key of a leaf at or above `low` that has a value, with the value.
fn first_value<T: RowRead>(
    txn: &mut T,
    leaf: &Leaf,
    low: u64,
) -> Result<Option<(u64, Value)>, RowStop>
    requires ready { IsReady T.face txn.old }
    requires leaf { IsTold T.face txn.old (λ rows. (table : ℕ) × IsLeafFor rows table low leaf.now.pairs.items (bound_of leaf.now.end)) }
    ensures ok { IfOk result (λ found. SawIn T.face (λ rows x. IsOfLeaf rows low leaf.now.pairs.items (bound_of leaf.now.end) (last_sought (bound_of leaf.now.end) found) x) txn.old txn.new
        (λ rows. (table : ℕ) → IsLeafFor rows table low leaf.now.pairs.items (bound_of leaf.now.end) → IsFirstIn rows table low (bound_of leaf.now.end) found)) }
    ensures err { IfErr result (λ stop. IsStopped T.face StopsRead (Reads T.face.law (IsMetByFirst low leaf.now.pairs.items (bound_of leaf.now.end))) (AsksReads (IsMetByFirst low leaf.now.pairs.items (bound_of leaf.now.end))) txn.old stop txn.new) }
{
    let pairs = leaf.pairs.as_slice();
    for pair in pairs {
        if pair.0 >= low {
            let row = txn.read(pair.1)?;
            if let Some(value) = value_of(&row) {
                return Ok(Some((pair.0, value)));
            }
        }
    }
    Ok(None)
}
