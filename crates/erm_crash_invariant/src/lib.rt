//! Invariants of the database map, through crashes: what each commit of a run keeps when it is run alone, each image keeps that a crash may
//! leave. Each law is the contract of a function that does nothing.
#![tactic(auto)]

ghost use Rattle.erm_crash_invariant.specs.Crashes.{CrashesKeep};

use erm_invariant::Invariant;
use erm_told_fronts::logs_keep_invariants;

/// Where the map that a run starts from has an invariant, and each commit that it tells keeps it when it is run alone, each image that a
/// crash leaves of a disk with its log recovers to a map that has it.
pub fn crashes_keep_invariants<I: Invariant>()
    ensures { (invariant : I) → CrashesKeep (I.holds invariant) }
{
    logs_keep_invariants::<I>();
}
