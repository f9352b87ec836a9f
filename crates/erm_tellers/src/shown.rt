//! The total that an audit shows.
ghost use Rattle.std.specs.Prelude.{◌≡◌, ◌+◌, ◌*◌, ◌<◌, ◌≤◌, ◌^◌, IfNone, IfSome, length};
ghost use Rattle.erm_accounts.specs.Totals.{AddUpTo, sum_found};
ghost use Rattle.erm_tellers.specs.Denials.{AreUnreadable, HasNoTotal};

use crate::side::balance_in;
use erm_model::{Pairs, Value};

// The sum of the balances that were found in one table, each with 2 ^ 63 added; or `None` where something else than eight bytes was found.
fn sum_of(found: &[(u64, Value)]) -> Option<u128>
    ensures sum { IfSome result (λ sum. sum ≡ sum_found found.now) }
    ensures below { IfSome result (λ sum. sum < 2 ^ 127) }
    ensures none { IfNone result (AreUnreadable found.now) }
{
    let mut sum = 0;
    for pair in found {
        sum += u128::from(balance_in(&pair.1)?);
    }
    Some(sum)
}

/// The total of customers, by what an audit found of them: the sum of their balances. `None` where something else than eight bytes is kept of one of them, or
/// they owe more than they have.
///
/// ```text
/// let (current, savings) = audit(rt, client, 0, u64::MAX, 3)?;
/// let total = total_of(&current, &savings);
/// ```
pub fn total_of(current: &Pairs, savings: &Pairs) -> Option<u128>
    ensures total { IfSome result (λ total. AddUpTo current.now savings.now total) }
    ensures none { IfNone result (HasNoTotal current.now savings.now) }
{
    let (current, savings) = (current.as_slice(), savings.as_slice());
    let sum = sum_of(current)? + sum_of(savings)?;
    let zeros = (current.len() as u128 + savings.len() as u128) << 63;
    sum.checked_sub(zeros)
}
