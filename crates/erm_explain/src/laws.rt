//! Laws of the causes. Each holds for every value, and its function does nothing.
ghost use Rattle.erm_explain.specs.Good.{CutReportsShowCauses, GoodReportsShowCauses};

/// Each refusal of a good report of lines run in turn, and of one that a disk's fault cut off, has a cause that names lines: those of what the
/// report owes to it. No cause is missing.
pub fn good_reports_show_causes()
    ensures good { GoodReportsShowCauses }
    ensures cut { CutReportsShowCauses }
{}
