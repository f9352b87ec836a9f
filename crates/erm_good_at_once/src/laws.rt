//! Laws of the definitions. Each holds as it stands, and its function does nothing.
ghost use Rattle.erm_good_at_once.specs.InReach.{CutOnesAreWithin};
ghost use Rattle.erm_good_at_once.specs.Cases.{BegunAtOneMet, BegunBelowItsOwner, GapIsAllowed, HoleIsRefused, OutOfPhaseIsRefused};

/// What was met says more than the good report's clause on begins and the stamps printed: of two small reports the one begins at the stamp of a commit that closed
/// its window, and the other below the begin of a transaction that kept it out; of the stamps that answers print both agree.
pub fn clauses_at_once_are_needed()
    ensures met { BegunAtOneMet }
    ensures named { BegunBelowItsOwner }
{}

/// A report whose lines have a gap may be one of sessions at once that were cut off, and isn't one of lines in turn.
pub fn gaps_are_allowed()
    ensures { GapIsAllowed }
{}

/// Two small reports of sessions that were cut off are refused: a session's second line is answered where its first isn't; and one that has no
/// transaction is told to have aborted it.
pub fn bad_cuts_are_refused()
    ensures hole { HoleIsRefused }
    ensures phase { OutOfPhaseIsRefused }
{}

/// No stamp that a report at once tells of a transaction, where the disk's fault cut it off, is further on than the script's lines can have moved the
/// log: its seal tells it, or the line that drew it, since none waits.
pub fn cut_stamps_are_in_reach()
    ensures { CutOnesAreWithin }
{}
