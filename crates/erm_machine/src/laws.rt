//! Laws of the definitions. Each holds for every value, and its function does nothing.
ghost use Rattle.std.specs.Prelude.{◌≡◌, ℕ, is_some};
ghost use Rattle.erm_machine.specs.declared.event.Kind.{Kind};
ghost use Rattle.erm_machine.specs.declared.part.Part.{Part};
ghost use Rattle.erm_machine.specs.Core.{Shared};
ghost use Rattle.erm_machine.specs.Step.{part_after};

/// Guards read the seat's own part and the word that is met: whether a step is taken doesn't depend on what else is shared.
pub fn guards_read_no_object()
    ensures { (seat : ℕ) (kind : Kind) (found : ℕ) (s t : Shared) (x : Part)
        → is_some (part_after seat kind found s x) ≡ is_some (part_after seat kind found t x) }
{}
