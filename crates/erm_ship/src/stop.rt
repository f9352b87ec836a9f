//! Why no more of a stream is put.
use erm_outside::Failed;
use erm_recover::RecoverStop;
use std::alloc::AllocError;

/// Why no more of a stream is put.
#[derive(Clone, Copy, Debug, PartialEq, Eq)]
pub(crate) enum ShipStop {
    /// The sink failed.
    SinkFault,
    /// The disk failed, or read otherwise a moment later.
    DiskFault,
    /// There is no place to start from.
    NoBase,
    /// Memory ran out.
    Memory,
}

impl From<RecoverStop> for ShipStop {
    ghost use Rattle.std.specs.Prelude.{◌≡◌};
    ghost use Rattle.erm_ship.specs.Stops.{ship_stop};

    ghost from_gives = { λ found stop. stop ≡ ship_stop found };

    fn from(stop: RecoverStop) -> ShipStop {
        match stop {
            RecoverStop::DiskFault => ShipStop::DiskFault,
            RecoverStop::NoBase => ShipStop::NoBase,
            RecoverStop::Memory => ShipStop::Memory,
        }
    }
}

impl From<Failed> for ShipStop {
    ghost use Rattle.std.specs.Prelude.{◌≡◌};
    ghost use Rattle.erm_ship.specs.declared.stop.ShipStop.TheVariants.{DiskFault};

    ghost from_gives = { λ _ stop. stop ≡ DiskFault };

    fn from(_error: Failed) -> ShipStop {
        ShipStop::DiskFault
    }
}

impl From<AllocError> for ShipStop {
    ghost use Rattle.std.specs.Prelude.{◌≡◌};
    ghost use Rattle.erm_ship.specs.declared.stop.ShipStop.TheVariants.{Memory};

    ghost from_gives = { λ _ stop. stop ≡ Memory };

    fn from(_error: AllocError) -> ShipStop {
        ShipStop::Memory
    }
}
