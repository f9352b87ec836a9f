//! Transactions run singly over a map.
ghost use Rattle.std.specs.Prelude.{◌≡◌, ◌≤◌, ◌⊎◌, IfOk, OnOk, OnErr, take, length, ℕ};
ghost use Rattle.std.specs.Option.{option_copied};
ghost use Rattle.erm_model.specs.Run.{IsReply, RunsOne, after, after_all, back_to, maps, saved_as, steps_of};

use crate::{Map, Op, Reply};
use std::alloc::{AllocError, Global};

/// Runs one transaction's operations in turn, and answers the reply to each. Savepoints cost a copy of the map each, and so does
/// going back to one.
/// After an `Err` the map is that after a prefix of the operations.
pub fn run_one(alloc: Global, map: &mut Map, ops: &[Op]) -> Result<Vec<Reply>, AllocError>
    ensures replies { IfOk result (λ replies. length replies.items ≡ length ops.now) }
    ensures run { IfOk result (λ replies. RunsOne map.old (steps_of ops.now replies.items)) }
    ensures after { IfOk result (λ _. map.new ≡ after_all ops.now map.old) }
    ensures err { OnErr result ((n : ℕ) × (n ≤ length ops.now) × (map.new ≡ after_all (take n ops.now) map.old)) }
{
    let mut saved = Vec::new(alloc);
    let mut replies = Vec::with_capacity(alloc, ops.len())?;
    for op in ops {
        replies.push(answer(alloc, map, &mut saved, op)?)?;
    }
    Ok(replies)
}

// The reply to one operation, which changes the map and the maps saved as it says.
fn answer(alloc: Global, map: &mut Map, saved: &mut Vec<Map>, op: &Op) -> Result<Reply, AllocError>
    ensures reply { IfOk result (λ reply. IsReply (maps map.old saved.old.items) op.now reply) }
    ensures done { OnOk result (maps map.new saved.new.items ≡ after op.now (maps map.old saved.old.items)) }
    ensures err { OnErr result (map.new ≡ map.old) }
{
    match op {
        Op::Get { table, key } => Ok(Reply::Value(map.get(*table, *key).map(|v| v.copied()))),
        Op::Put { table, key, value } => {
            map.insert(*table, *key, value.copied())?;
            Ok(Reply::Done)
        }
        Op::Del { table, key } => {
            map.remove(*table, *key);
            Ok(Reply::Done)
        }
        Op::Next { table, from } => Ok(Reply::Pair(map.next(*table, *from))),
        Op::Scan { table, low, high } => {
            Ok(Reply::Found(map.found(alloc, *table, *low, *high)?))
        }
        Op::Save => {
            saved.push(map.copy()?)?;
            Ok(Reply::Done)
        }
        Op::Back { n } => {
            go_back(map, saved, *n)?;
            Ok(Reply::Done)
        }
    }
}

// The map becomes what was saved as the n-th, and what was saved later isn't saved any more. With no n-th nothing changes.
fn go_back(map: &mut Map, saved: &mut Vec<Map>, n: u32) -> Result<(), AllocError>
    ensures done { OnOk result (maps map.new saved.new.items ≡ back_to n (saved_as n saved.old.items) (maps map.old saved.old.items)) }
    ensures err { OnErr result (map.new ≡ map.old) }
{
    if let Some(old) = nth_saved(saved, n) {
        let copy = old.copy()?;
        saved.truncate(n as usize);
        *map = copy;
    }
    Ok(())
}

// What was saved as the n-th, from 1.
fn nth_saved(saved: &[Map], n: u32) -> Option<&Map>
    ensures { option_copied result ≡ saved_as n saved.now }
{
    saved.get(n.checked_sub(1)? as usize)
}
