//! What all threads agree on.
use std::marker::Brand;

/// What the desk and all passes handed to threads agree on: for proofs alone.
pub trait Naming {
    ghost use Rattle.std.specs.Prelude.{List, Option, ℕ};
    ghost use Rattle.atomic_table.specs.Seated.{TableId};
    ghost use Rattle.erm_outside.specs.Disk.{Step};
    ghost use Rattle.erm_rule.specs.declared.view.Start.{Start};

    /// The table.
    ghost table: { TableId };

    /// What the table was told when it was made.
    ghost start: { Start };

    /// What the disk told when the desk was set up.
    ghost began: { Option (List Step) };

    /// The disk's count of faults then.
    ghost faults: { ℕ };
}

impl Naming for Brand {
    ghost use Rattle.std.specs.Prelude.{None};
    ghost use Rattle.erm_desk.specs.Known.{no_table};
    ghost use Rattle.erm_rule.specs.Openings.{no_start};

    ghost table = { no_table };

    ghost start = { no_start };

    ghost began = { None };

    ghost faults = { 0 };
}
