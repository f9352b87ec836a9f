//! Worlds of three sessions on rows of zeros, without a law of rows.
ghost use Rattle.std.specs.Prelude.{◌≡◌, IfOk};
ghost use Rattle.erm_model.specs.RowTransaction.{any_law};
ghost use Rattle.erm_plain.specs.Stands.{IsWorld, plain_view};
ghost use Rattle.erm_table_world.specs.Stands.{IsTableWorld, world_view};

use erm_model::{AnyRows, OID_LIMIT, ROW_WORDS, STOP};
use erm_plain::Plain;
use erm_rule::Opening;
use erm_table_world::{TableWorld, standing_worlds_have_laws};
use std::alloc::{AllocError, Global};

/// The world in lists, whose log goes on at 13, or at its end.
pub fn in_lists(alloc: Global, at_end: bool) -> Result<Plain<AnyRows>, AllocError>
    ensures stands { IfOk result (IsWorld any_law) }
    ensures sessions { IfOk result (λ p. (plain_view p).opening.sessions ≡ 3) }
{
    let rows = Vec::from_elem(alloc, [0; ROW_WORDS], OID_LIMIT as usize)?;
    let tail = if at_end { STOP } else { 13 };
    Plain::open(alloc, &rows, tail, 1, 16, 3)
}

/// The world over the word table, whose log goes on at 13.
pub fn over_words(alloc: Global) -> Result<TableWorld<AnyRows>, AllocError>
    ensures stands { IfOk result (IsTableWorld any_law) }
    ensures sessions { IfOk result (λ w. (world_view w).opening.sessions ≡ 3) }
{
    standing_worlds_have_laws::<AnyRows>();
    let rows = Vec::from_elem(alloc, [0; ROW_WORDS], OID_LIMIT as usize)?;
    let opening = Opening {
        sessions: 3,
        tail: 13,
        run: 1,
        first: 16,
        rows,
    };
    TableWorld::open(alloc, &opening)
}
