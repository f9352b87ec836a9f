//! What the transaction has read and claimed of an object.
ghost use Rattle.std.specs.Prelude.{◌≡◌, ◌≢◌, ◌<◌, ℕ, length, slice_index_or, IfNone, IfSome};
ghost use Rattle.erm_precommit.specs.Pre.{no_claim_kept, no_read_kept};

use erm_model::Oid;
use erm_precommit::{KeptClaim, KeptRead};

/// The place of the claim of an object, if it is claimed.
pub(crate) fn find_claim(claims: &[KeptClaim], oid: Oid) -> Option<usize>
    ensures found { IfSome result (λ place. place < length claims.now × (slice_index_or claims.now place no_claim_kept).oid ≡ oid) }
    ensures none { IfNone result ((k : ℕ) → k < length claims.now → (slice_index_or claims.now k no_claim_kept).oid ≢ oid) }
{
    claims.iter().position(|claim| claim.oid == oid)
}

/// The place of the read of an object, if it was read.
pub(crate) fn find_read(reads: &[KeptRead], oid: Oid) -> Option<usize>
    ensures found { IfSome result (λ place. place < length reads.now × (slice_index_or reads.now place no_read_kept).oid ≡ oid) }
    ensures none { IfNone result ((k : ℕ) → k < length reads.now → (slice_index_or reads.now k no_read_kept).oid ≢ oid) }
{
    reads.iter().position(|read| read.oid == oid)
}
