//! A law of waits. It holds for every value, and its function does nothing.
ghost use Rattle.std.specs.Prelude.{◌≡◌, List};
ghost use Rattle.erm_outside.specs.Disk.{Image, IsImage, IsSettled, OnlyWaits, Step, contents};

/// Where nothing was done to a disk but to wait, it reads as before, each image that a crash may leave is one that it might have left
/// before, and where nothing was pending nothing is.
pub fn waits_add_nothing()
    ensures reads { (old new : List Step) → OnlyWaits old new → contents new ≡ contents old }
    ensures images { (old new : List Step) (image : Image) → OnlyWaits old new → IsImage new image → IsImage old image }
    ensures settled { (old new : List Step) → OnlyWaits old new → IsSettled old → IsSettled new }
{}
