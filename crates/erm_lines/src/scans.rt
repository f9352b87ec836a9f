//! A scan of a table, by looks for the next key.
ghost use Rattle.std.specs.Prelude.{◌≡◌, ◌<◌, IfOk, IfErr};
ghost use Rattle.erm_model.specs.Database.{AreFound};
ghost use Rattle.erm_model.specs.RowTransaction.{IsStopped, SameLaw, StopsRead};
ghost use Rattle.erm_node.specs.Sound.{sound_law};
ghost use Rattle.erm_node.specs.TreeMap.{map_of_rows};
ghost use Rattle.erm_tree.specs.Calls.{AsksReads, IsReady, Reads, SawIn};
ghost use Rattle.erm_lines.specs.Operations.{IsMetByScan};

use erm_model::{Pairs, RowRead, RowStop, TABLES};
use erm_tree::next;
use std::alloc::{AllocError, Global};

/// The keys of a table from `low` to `high`, these two too, that have a value, ascending, with their values; or why a look for one
/// was refused. It looks for the next key from `low` on, also where that is above `high`, and then from behind each key found, until
/// there is none, or one above `high`, or the greatest key. `Err` where the list has no room.
pub fn scan<T: RowRead>(
    alloc: Global,
    txn: &mut T,
    table: u8,
    low: u64,
    high: u64,
) -> Result<Result<Pairs, RowStop>, AllocError>
    requires ready { IsReady T.face txn.old }
    requires law { SameLaw T.face.law sound_law }
    requires table { table < TABLES }
    ensures follows { T.face.follows txn.old txn.new }
    ensures ok { IfOk result (λ told. IfOk told (λ found. SawIn T.face (IsMetByScan table low high) txn.old txn.new (λ rows. AreFound (map_of_rows rows) table low high found))) }
    ensures err { IfOk result (λ told. IfErr told (λ stop. IsStopped T.face StopsRead (Reads T.face.law (IsMetByScan table low high)) (AsksReads (IsMetByScan table low high)) txn.old stop txn.new)) }
{
    let mut found = Vec::new(alloc);
    let mut from = low;
    loop {
        let (key, value) = match next(txn, table, from) {
            Ok(Some(pair)) => pair,
            Ok(None) => return Ok(Ok(Pairs::new(found))),
            Err(stop) => return Ok(Err(stop)),
        };
        if key > high {
            return Ok(Ok(Pairs::new(found)));
        }
        found.push((key, value))?;
        if key == u64::MAX {
            return Ok(Ok(Pairs::new(found)));
        }
        from = key + 1;
    }
}
