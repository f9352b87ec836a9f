//! Calls that change a table: a key's value is put, or taken away.
ghost use Rattle.std.specs.Prelude.{◌≡◌, ◌<◌, OnOk, IfErr};
ghost use Rattle.std.specs.FinMap.{insert, remove};
ghost use Rattle.erm_model.specs.Database.{at};
ghost use Rattle.erm_model.specs.RowTransaction.{SameLaw, IsStopped};
ghost use Rattle.erm_record.specs.Record.{absent_row, value_row};
ghost use Rattle.erm_node.specs.Sound.{sound_law};
ghost use Rattle.erm_node.specs.TreeMap.{map_of_rows};
ghost use Rattle.erm_tree.specs.Calls.{DidBy, IsReady, Reads};
ghost use Rattle.erm_tree.specs.Change.{AsksDel, AsksPut, IsDel, IsPrefix, IsPut, StopsChange, StopsPut};
ghost use Rattle.erm_tree.specs.Reads.{IsOnWay};

use crate::insert::{claim_all, make_all, path_for, write_all};
use crate::plan::{objects_for, plan};
use crate::walk::record_for;
use erm_model::{RowStop, RowTxn, TABLES, Value};
use erm_node::{map_has_values_of_records, nodes_are_read_back};
use erm_record::{absent, record_values, row_of};

/// Takes the value of a key of a table away. Its entry stays, without a value.
pub fn del<T: RowTxn>(txn: &mut T, table: u8, key: u64) -> Result<(), RowStop>
    requires ready { IsReady T.face txn.old }
    requires law { SameLaw T.face.law sound_law }
    requires table { table < TABLES }
    ensures ok { OnOk result (DidBy T.face (λ rows events. IsDel rows table key absent_row events) txn.old txn.new (λ old new. map_of_rows new ≡ remove (map_of_rows old) (at table key))) }
    ensures err { IfErr result (λ stop. IsStopped T.face StopsChange (Reads T.face.law (IsOnWay table key)) (AsksDel table key) txn.old stop txn.new) }
{
    map_has_values_of_records();
    nodes_are_read_back();
    record_values();
    match record_for(txn, table, key)? {
        Some(oid) => txn.write(oid, &absent()),
        None => Ok(()),
    }
}

/// Sets the value of a key of a table. A key without an entry gets one.
pub fn put<T: RowTxn>(txn: &mut T, table: u8, key: u64, value: &Value) -> Result<(), RowStop>
    requires ready { IsReady T.face txn.old }
    requires law { SameLaw T.face.law sound_law }
    requires table { table < TABLES }
    ensures ok { OnOk result (DidBy T.face (λ rows events. IsPut rows table key (value_row value.now) events) txn.old txn.new (λ old new. map_of_rows new ≡ insert (map_of_rows old) (at table key) value.now)) }
    ensures err { IfErr result (λ stop. IsStopped T.face StopsPut (IsPrefix T.face.law (IsOnWay table key) (λ rows events. IsPut rows table key (value_row value.now) events)) (AsksPut table key (value_row value.now)) txn.old stop txn.new) }
{
    map_has_values_of_records();
    nodes_are_read_back();
    record_values();
    let row = row_of(value);
    let path = path_for(txn, table, key)?;
    if let Some(oid) = path.found {
        return txn.write(oid, &row);
    }
    let made = make_all(txn, objects_for(path.steps.as_slice()))?;
    let rows = plan(path.steps.as_slice(), made.as_slice(), key, &row);
    claim_all(txn, rows.as_slice())?;
    write_all(txn, rows.as_slice());
    Ok(())
}
