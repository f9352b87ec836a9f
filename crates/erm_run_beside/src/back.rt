//! What the workers of sessions leave, taken apart.
ghost use Rattle.std.specs.Prelude.{◌≡◌, ◌≤◌, ℕ, [], Some, map, vec_capacity, vec_len};
ghost use Rattle.std.specs.List.{slice_get};
ghost use Rattle.erm_threads.specs.Work.{done_of};

use crate::turns::DeskTurns;
use erm_desk::Naming;
use erm_model::RowLaw;
use erm_outside::{Disk, Gate};
use erm_shared_session::TableSession;
use erm_threads::{Done, Job};
use std::sync::Wait;
use std::sync::ledger::{Ledger, Share};

// The sessions after their workers, in order, for which there is room, and what all of these have met is put together.
pub(crate) fn take_back<'a, L: RowLaw, D: Disk + Drop, B: Naming + Ledger, G: Gate, R: Wait>(
    back: Vec<Job<TableSession<L>, DeskTurns<'a, L, D, B, G, R>>>,
    met: &mut Share<B>,
    done: &mut Vec<Done<TableSession<L>>>,
)
    requires none { done.old.items ≡ [] }
    requires room { vec_len back ≤ vec_capacity done.old }
    ensures done { done.new.items ≡ map done_of back.entry.items }
    ensures met { (k : ℕ) (b : _) → slice_get back.entry.items k ≡ Some b → b.turns.met.amount ≤ met.new.amount }
{
    let mut left = back.into_iter();
    while let Some(one) = left.next() {
        met.merge(one.turns.into_met());
        done.push_reserved(Done {
            session: one.session,
            answers: one.answers,
            closed: one.closed,
            lacked: one.lacked,
        });
    }
    left.destroy_empty();
}
