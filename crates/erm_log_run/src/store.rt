//! What keeps a world's log on a disk.
use erm_checkpoint::Checkpointer;
use erm_ckpt::Slots;
use erm_flush::Flusher;

/// What keeps a world's log on a disk.
#[derive(Drop)]
pub struct Store<D> {
    /// The disk, which no one else calls.
    pub disk: D,
    /// Writes the log to it.
    pub flusher: Flusher,
    /// Takes checkpoints of the log.
    pub checkpointer: Checkpointer,
    /// What the disk's two slots say.
    pub slots: Slots,
    /// The run in which the log's blocks are written.
    pub run: u64,
}
