//! The words of the log in an image of a disk, what a crash shows of blocks and slots that were not synced, and which disks may
//! be opened again: definitions, and laws, the contracts of functions that do nothing.
#![tactic(auto)]

ghost use Rattle.std.specs.Prelude.{◌≡◌, ℕ, List, []};
ghost use Rattle.erm_outside.specs.Disk.{Image, Step, contents, patched, AtEachMoment};
ghost use Rattle.erm_log_words.specs.Kept.{IsKept, MayOpen};
ghost use Rattle.erm_log_words.specs.Tears.{IsFresh, ShowsSlot};

use erm_outside::ImageLaw;

/// A rule of slots.
pub trait SlotRule {
    /// Which bytes are a slot that checks.
    ghost is_slot: { List ℕ → Type 0 };
}

/// A rule of recovery.
pub trait RecoveryRule {
    /// Which place of the log, behind a block of which run, an image recovers to.
    ghost recovers: { Image → ℕ → ℕ → Type 0 };
}

/// The law of images that may be opened, by a rule of recovery.
pub struct Openable<R: RecoveryRule> {
    /// The rule.
    pub rule: R,
}

impl<R: RecoveryRule> ImageLaw for Openable<R> {
    ghost Given = { Unit {0} };

    ghost meets = { λ _ image. MayOpen R.recovers image };
}

/// On a disk to which nothing was done nothing is pending, and no block reads; so it is kept for an opening, whatever the rule.
pub fn empty_disks_are_kept<R: RecoveryRule>()
    ensures fresh { (run from : ℕ) → IsFresh run (contents []) from }
    ensures kept { IsKept R.recovers [] }
{}

/// Where each image may be opened at each moment from one list of steps to a second, and at each from there to a third, each may
/// at each moment from the first to the third.
pub fn openable_moments_join<R: RecoveryRule>()
    ensures { (a b c : List Step) → AtEachMoment (MayOpen R.recovers) a b → AtEachMoment (MayOpen R.recovers) b c
        → AtEachMoment (MayOpen R.recovers) a c }
{
    erm_outside::moments_join::<Openable<R>>();
}

/// A slot's file that was written whole shows the slot, and one of which nothing landed shows what stood there.
pub fn files_show_their_slots<S: SlotRule>()
    ensures whole { (before slot : List ℕ) → ShowsSlot S.is_slot before slot (patched before 0 slot) }
    ensures nothing { (before slot : List ℕ) → ShowsSlot S.is_slot before slot before }
{}
