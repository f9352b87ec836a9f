//! How far blocks lead in words.
ghost use Rattle.std.specs.Prelude.{◌+◌, ◌<◌, ◌≤◌, ℕ, IfNone, IfSome};
ghost use Rattle.erm_block.specs.declared.block.Block.{Block as AnyBlock};
ghost use Rattle.erm_block.specs.Spelling.{StandsAt};
ghost use Rattle.erm_ship.specs.Leads.{IsNext, Leads};

use erm_block::{read_block, spelling_size};
use erm_model::Stamp;
use erm_replica::LogPlace;

/// The place that blocks at the front of words lead to, one after another: the last one that isn't behind an end.
pub(crate) fn last_place(words: &[u64], start: LogPlace, end: Stamp) -> LogPlace
    requires { start.at ≤ end }
    ensures { Leads words.now start end result }
{
    spelling_size();
    let mut place = start;
    while let Some(next) = next_place(&words[(place.at - start.at) as usize..], place, end) {
        place = next;
    }
    place
}

// The place behind the block at the front of words, where that isn't behind an end.
fn next_place(words: &[u64], place: LogPlace, end: Stamp) -> Option<LogPlace>
    ensures some { IfSome result (λ next. IsNext words.now place end next) }
    ensures none { IfNone result ((block : AnyBlock) → StandsAt words.now block place.at place.run → end < place.at + block.size) }
{
    spelling_size();
    let block = read_block(words, place.at, place.run)?;
    let next = LogPlace {
        at: place.at + u64::from(block.size),
        run: block.run,
    };
    if next.at <= end { Some(next) } else { None }
}
