//! The rules of slots and of recovery, by a law of rows.
ghost use Rattle.erm_ckpt.specs.Checkpoint.{IsCheckedSlot};
ghost use Rattle.erm_ckpt.specs.Recovered.{RecoversAt};

use erm_log_words::{RecoveryRule, SlotRule};
use erm_model::RowLaw;

/// The rules by a law of rows: which bytes are a slot that checks, and where an image recovers to.
pub struct Checkpoints<L: RowLaw> {
    /// The law.
    pub law: L,
}

impl<L: RowLaw> SlotRule for Checkpoints<L> {
    ghost is_slot = { IsCheckedSlot L.law.meets };
}

impl<L: RowLaw> RecoveryRule for Checkpoints<L> {
    ghost recovers = { RecoversAt L.law.meets };
}
