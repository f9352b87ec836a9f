//! Reports of sessions at once that were made with spare names: they are good reports with the script's names alone. The law is the
//! contract of a function that does nothing.
#![tactic(auto)]

ghost use Rattle.erm_spare_names.specs.Spare.{SpareNamesTellNothing};

/// A good report of sessions at once with spare names behind the script's own, of sessions that no line is of, is a good report with the
/// script's names alone, and says the same; so is one that the disk's fault cut off.
pub fn spare_names_tell_nothing()
    ensures { SpareNamesTellNothing }
{}
