//! The objects of claims that were given up, which a tag has for proofs alone.
ghost use Rattle.std.specs.Prelude.{[], ◌∷◌, ◌++◌};
ghost use Rattle.erm_machine.specs.Core.{claim_at};
ghost use Rattle.erm_machine.specs.Seat.{last_claim};
ghost use Rattle.erm_kept.specs.Attempts.{attempt_of};

use crate::AttemptState;
use boxcar::tag::Names;

// The objects that were given up, and then that of the newest claim.
pub(crate) struct WithNewest;

impl Names<AttemptState> for WithNewest {
    ghost numbers = { λ t. t.given_up.numbers ++ (claim_at (attempt_of t) (last_claim (attempt_of t))).version.oid ∷ [] };
}
