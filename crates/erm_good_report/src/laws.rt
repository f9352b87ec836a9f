//! Laws of the definitions. Each holds for every value, and its function does nothing.
ghost use Rattle.erm_good_report.specs.Determined.{ReportsAreDetermined};
ghost use Rattle.erm_good_report.specs.InReach.{CutOnesAreInReach, GoodOnesAreInReach};
ghost use Rattle.erm_good_report.specs.WriteSkew.{ItsWindowIsDetermined, WriteSkewIsExcluded};

use erm_report::texts_determine_lines;

/// Two good reports of one script that have the same bytes have the same lines.
pub fn reports_are_determined()
    ensures { ReportsAreDetermined }
{
    texts_determine_lines();
}

/// A worked report of write skew, of which the second transaction is excluded, is good; and so it is with no other window.
pub fn write_skew_is_excluded()
    ensures good { WriteSkewIsExcluded }
    ensures determined { ItsWindowIsDetermined }
{}

/// Each stamp that a good report tells of a transaction, or one that was cut off, was drawn at a line that tells it, or at a commit that waits, in reach of
/// the lines up to this one, whichever line tells it, or the end of its session.
pub fn stamps_told_are_in_reach()
    ensures good { GoodOnesAreInReach }
    ensures cut { CutOnesAreInReach }
{}
