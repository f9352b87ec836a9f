//! Laws of the definitions. Each holds for every value, and its function does nothing.
ghost use Rattle.erm_invariant.specs.Commits.{HoldsBelow, LastsInOrder, SnapshotsSee};
ghost use Rattle.erm_invariant.specs.Invariant.{InvariantsLast, ReadersKeep};
ghost use Rattle.erm_model.specs.Database.{Database};

/// An invariant of the database map. What it asks may depend on the value, as on the map that a total is to be that of.
pub trait Invariant {
    /// The maps that have it.
    ghost holds: { Self → Database → Type 0 };
}

/// Where transactions are run one after another from a map with an invariant, and each keeps it when it is run alone, it holds in the
/// map after each of them, and each of them is answered on a map that has it.
pub fn invariants_last<I: Invariant>()
    ensures { (invariant : I) → InvariantsLast (I.holds invariant) }
{}

/// A transaction that sets no value keeps each invariant.
pub fn readers_keep_invariants<I: Invariant>()
    ensures { (invariant : I) → ReadersKeep (I.holds invariant) }
{}

/// So it is of commits that are run in their serial order.
pub fn invariants_last_in_order<I: Invariant>()
    ensures { (invariant : I) → LastsInOrder (I.holds invariant) }
{
    invariants_last::<I>();
}

/// Where the commits below each stamp are a serial run, the state below each stamp has the invariant too, and each transaction that is
/// answered from a snapshot sees it, whether or not it commits.
pub fn invariants_hold_below<I: Invariant>()
    ensures states { (invariant : I) → HoldsBelow (I.holds invariant) }
    ensures snapshots { (invariant : I) → SnapshotsSee (I.holds invariant) }
{
    invariants_last_in_order::<I>();
}
