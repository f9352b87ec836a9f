//! Which of the images that a crash may leave is taken.
ghost use Rattle.std.specs.Prelude.{◌≡◌, IfOk};
ghost use Rattle.erm_outside_mem.specs.Picks.{landed as landed_of};

use std::alloc::{AllocError, Global};

/// The byte that stands where a pending write left anything.
pub const MARK: u8 = 0xa5;

/// What landed of the writes and removals of each file since its last sync.
#[derive(Clone, Copy, Debug, PartialEq, Eq)]
pub enum Pick {
    /// Nothing.
    Nothing,
    /// All: the files are as they read.
    All,
    /// The byte a5 in the whole range of each write, and no removal.
    Marks,
}

/// The bytes that landed of a pending write of `count` bytes that left some.
pub fn landed(alloc: Global, pick: Pick, left: &[u8], count: usize) -> Result<Vec<u8>, AllocError>
    ensures { IfOk result (λ bytes. bytes.items ≡ landed_of pick left.now count) }
{
    match pick {
        Pick::Nothing => Ok(Vec::new(alloc)),
        Pick::All => Vec::from_slice(alloc, left),
        Pick::Marks => vec![in alloc; MARK; count],
    }
}
