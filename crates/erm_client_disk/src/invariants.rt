//! Laws of invariants that the commits of programs keep. Each holds for every value, and its function does nothing.
ghost use Rattle.erm_client_disk.specs.Invariants.{CrashesKeepForClients, EndsKeepForClients};

use erm_invariant::{Invariant, invariants_hold_below, invariants_last_in_order};

/// Where the map found on the disk has an invariant, and each commit that a transcript tells keeps it when it is run alone, each image that a crash leaves,
/// at any moment, recovers to a map that has it, where it shows each block and each slot whole, or none: whatever the interleaving of the programs was.
pub fn crashes_keep_for_clients<I: Invariant>()
    ensures { (invariant : I) → CrashesKeepForClients (I.holds invariant) }
{
    invariants_hold_below::<I>();
}

/// So does the disk at the end, where the programs ran to their end.
pub fn ends_keep_for_clients<I: Invariant>()
    ensures { (invariant : I) → EndsKeepForClients (I.holds invariant) }
{
    invariants_last_in_order::<I>();
}
