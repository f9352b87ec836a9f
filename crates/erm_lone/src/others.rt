//! How the other sessions of a world stand while one of them is called alone.
use std::marker::Brand;

/// The sessions of a world, each as it stood before one of them was called alone: for proofs alone. A caller picks them where it passes
/// `Brand`.
pub trait Others {
    ghost use Rattle.std.specs.Prelude.{ℕ, List};
    ghost use Rattle.erm_model.specs.declared.history.VersionWritten.{VersionWritten};
    ghost use Rattle.erm_world.specs.World.{GivenUp, Session};

    /// Each session, by its seat, the claims that it gave up, and the savepoints that it holds.
    ghost standing: { ℕ → Session × List GivenUp × List (List VersionWritten) };
}

impl Others for Brand {
    ghost use Rattle.std.specs.Prelude.{[]};
    ghost use Rattle.erm_world.specs.World.{idle};

    ghost standing = { λ seat. (record { over = []; stand = idle }, [], []) };
}
