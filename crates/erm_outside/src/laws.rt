//! Laws of disks, of whatever was done to them.
ghost use Rattle.std.specs.Prelude.{◌≡◌, ◌++◌, Bool, List, [], ◌∷◌, if◌then◌else◌};
ghost use Rattle.erm_outside.specs.declared.disk.File.{File as DiskFile};
ghost use Rattle.erm_outside.specs.Disk.{Step, Image, changes_of, contents, MayBe, IsImage, Same, IsFileSettled, IsSyncedLast, IsSettled, AtEachMoment};
ghost use Rattle.erm_outside.specs.Disk.Change.{Synced};

/// A disk as it reads is one of its images.
pub fn reads_are_an_image()
    ensures { (steps : List Step) → IsImage steps (contents steps) }
{}

/// A sync leaves nothing of its file pending. Where each file to which something was done was synced last, a crash
/// leaves what reads give and nothing else.
pub fn syncs_settle()
    ensures one { (steps : List Step) (file : DiskFile)
        → IsFileSettled (changes_of file (record { file = file; change = Synced } ∷ steps)) }
    ensures all { (steps : List Step) → ((file : DiskFile) → IsSyncedLast (changes_of file steps)) → IsSettled steps }
    ensures image { (steps : List Step) (image : Image) → IsSettled steps → IsImage steps image → Same image (contents steps) }
{}

/// An image after more steps has, of each file to which they did nothing, what an image had before them. And files have
/// their images each for itself: of two images one may be taken for some files and the other for the rest.
pub fn files_stand_alone()
    ensures older { (more steps : List Step) (image : Image) (file : DiskFile)
        → changes_of file more ≡ [] → IsImage (more ++ steps) image → MayBe (changes_of file steps) (image file) }
    ensures mixed { (steps : List Step) (one other : Image) (test : DiskFile → Bool)
        → IsImage steps one → IsImage steps other → IsImage steps (λ file. if test file then one file else other file) }
{}

/// A law of images.
pub trait ImageLaw {
    /// What it depends on.
    ghost Given: { Type 0 };

    /// Which images meet it, with that given.
    ghost meets: { Given → Image → Type 0 };
}

/// Moments join: where each image meets a law at each moment from one list to a second, and at each from there to a third, it
/// does so from the first to the third. Of one list there is one moment; and the first and the last are among the moments.
pub fn moments_join<L: ImageLaw>()
    ensures joined { (given : L.Given) (a b c : List Step)
        → AtEachMoment (L.meets given) a b → AtEachMoment (L.meets given) b c → AtEachMoment (L.meets given) a c }
    ensures one { (given : L.Given) (steps : List Step)
        → ((image : Image) → IsImage steps image → L.meets given image) → AtEachMoment (L.meets given) steps steps }
    ensures first { (given : L.Given) (a b : List Step) (image : Image)
        → AtEachMoment (L.meets given) a b → IsImage a image → L.meets given image }
    ensures last { (given : L.Given) (a b : List Step) (image : Image)
        → AtEachMoment (L.meets given) a b → IsImage b image → L.meets given image }
{}

/// Where the images that meet one law meet another, they do so at each moment.
pub fn weaker_laws_hold<L: ImageLaw, M: ImageLaw>()
    ensures { (strong : L.Given) (weak : M.Given) (a b : List Step)
        → ((image : Image) → L.meets strong image → M.meets weak image)
        → AtEachMoment (L.meets strong) a b → AtEachMoment (M.meets weak) a b }
{}
