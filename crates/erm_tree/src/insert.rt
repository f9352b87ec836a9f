//! The steps of putting a new key into a tree: the nodes on the way are read, then all objects are made, then all rows are claimed, then they are set. So a refusal in the
//! middle changes no row.
ghost use Rattle.std.specs.Prelude.{◌≡◌, ◌<◌, ◌≤◌, ℕ, IfOk, OnOk, IfErr, IfSome, map, length};
ghost use Rattle.std.specs.List.{All};
ghost use Rattle.erm_model.specs.RowTransaction.{did_claim, did_make, did_write, IsPossible, SameLaw, StopsRead, StopsClaim, StopsMake, IsStopped};
ghost use Rattle.erm_node.specs.Sound.{sound_law};
ghost use Rattle.erm_tree.specs.Calls.{AreFirstMakes, AsksClaims, AsksMake, AsksReads, IsPrefixOf, IsReady, Ran, Reads, SawIn};
ghost use Rattle.erm_tree.specs.Insert.{IsPathFor};
ghost use Rattle.erm_tree.specs.Reads.{IsOnWay};
ghost use Rattle.erm_tree.specs.Step.{places_of};

use crate::plan::Step;
use crate::walk::{child_for, record_in};
use arrayvec::ArrayVec;
use erm_model::{OID_LIMIT, Oid, PUT_OBJECTS, Row, RowRead, RowStop, RowTxn, TABLES};
use erm_node::{LEVELS, nodes_are_read_back, read_node};

/// The nodes on the way to a key, the root first, and the key's record, or none where the key has no entry.
#[derive(Drop)]
pub(crate) struct Path {
    pub steps: ArrayVec<Step, LEVELS>,
    pub found: Option<Oid>,
}

/// Reads down from a table's root to the leaf for a key, keeps the nodes on the way, and finds the record.
pub(crate) fn path_for<T: RowRead>(txn: &mut T, table: u8, key: u64) -> Result<Path, RowStop>
    requires ready { IsReady T.face txn.old }
    requires law { SameLaw T.face.law sound_law }
    requires table { table < TABLES }
    ensures ok { IfOk result (λ path. SawIn T.face (IsOnWay table key) txn.old txn.new (λ rows. IsPathFor rows table key (places_of path.steps.items) path.found)) }
    ensures object { IfOk result (λ path. IfSome path.found (λ oid. oid < OID_LIMIT)) }
    ensures nodes { IfOk result (λ path. 0 < length path.steps.items) }
    ensures err { IfErr result (λ stop. IsStopped T.face StopsRead (Reads T.face.law (IsOnWay table key)) (AsksReads (IsOnWay table key)) txn.old stop txn.new) }
{
    nodes_are_read_back();
    let mut steps = ArrayVec::new();
    let mut oid = Oid::from(table);
    for _level in 0..LEVELS {
        let row = txn.read(oid)?;
        let Some(node) = read_node(&row) else {
            unreachable!()
        };
        if node.leaf {
            let found = record_in(node.pairs.as_slice(), key);
            steps.push(Step {
                oid,
                leaf: true,
                pairs: node.pairs,
            });
            return Ok(Path { steps, found });
        }
        let child = child_for(node.pairs.as_slice(), key, None);
        steps.push(Step {
            oid,
            leaf: false,
            pairs: node.pairs,
        });
        oid = child.oid;
    }
    unreachable!()
}

/// Makes so many objects.
pub(crate) fn make_all<T: RowTxn>(
    txn: &mut T,
    count: usize,
) -> Result<ArrayVec<Oid, PUT_OBJECTS>, RowStop>
    requires active { T.face.active txn.old }
    requires possible { IsPossible T.face txn.old }
    requires room { count ≤ PUT_OBJECTS }
    ensures ok { IfOk result (λ made. Ran T.face txn.old (map did_make made.items) txn.new) }
    ensures count { IfOk result (λ made. length made.items ≡ count) }
    ensures objects { IfOk result (λ made. All (λ oid. oid < OID_LIMIT) made.items) }
    ensures err { IfErr result (λ stop. IsStopped T.face StopsMake (AreFirstMakes count) (AsksMake count) txn.old stop txn.new) }
{
    let mut made = ArrayVec::new();
    for _object in 0..count {
        made.push(txn.fresh()?);
    }
    Ok(made)
}

/// Claims the objects of all rows to set.
pub(crate) fn claim_all<T: RowTxn>(txn: &mut T, rows: &[(Oid, Row)]) -> Result<(), RowStop>
    requires active { T.face.active txn.old }
    requires possible { IsPossible T.face txn.old }
    requires objects { All (λ entry. entry.0 < OID_LIMIT) rows.now }
    ensures ok { OnOk result (Ran T.face txn.old (map (λ entry. did_claim entry.0) rows.now) txn.new) }
    ensures err { IfErr result (λ stop. IsStopped T.face StopsClaim (IsPrefixOf (map (λ entry. did_claim entry.0) rows.now)) (AsksClaims rows.now) txn.old stop txn.new) }
{
    for (oid, _row) in rows {
        txn.claim(*oid)?;
    }
    Ok(())
}

/// Sets all rows, their objects being claimed.
pub(crate) fn write_all<T: RowTxn>(txn: &mut T, rows: &[(Oid, Row)])
    requires active { T.face.active txn.old }
    requires possible { IsPossible T.face txn.old }
    requires objects { All (λ entry. entry.0 < OID_LIMIT) rows.now }
    requires claimed { All (λ entry. T.face.claims txn.old entry.0) rows.now }
    ensures { Ran T.face txn.old (map (λ entry. did_write entry.0 entry.1) rows.now) txn.new }
{
    for (oid, row) in rows {
        let Ok(()) = txn.write(*oid, row) else {
            unreachable!()
        };
    }
}
