//! What workers pass.
use erm_model::Seat;
use std::sync::Wait;

/// Where a worker passes a gate.
#[derive(Clone, Copy, Debug, PartialEq, Eq)]
pub enum Place {
    /// Before a transaction begins.
    Begin,
    /// Between a transaction's seal and its settling.
    Sealed,
}

/// Something that may hold a worker up. It changes nothing.
pub trait Gate {
    /// Passes the gate, which may wait.
    fn pass<W: Wait>(&self, rt: &W, seat: Seat, place: Place);
}

/// A gate that holds nobody up.
#[derive(Clone, Copy)]
pub struct OpenGate;

impl Gate for OpenGate {
    fn pass<W: Wait>(&self, _rt: &W, _seat: Seat, _place: Place) {}
}
