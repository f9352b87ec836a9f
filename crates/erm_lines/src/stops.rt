//! What a refusal is answered as.
ghost use Rattle.std.specs.Prelude.{◌≡◌, IfOk, Some};
ghost use Rattle.erm_lines.specs.Answers.{stop_told};

use erm_model::RowStop;
use erm_report::Answer;
use std::alloc::AllocError;

/// The answer that a refusal is. `Err` where memory ran out.
pub fn refusal(stop: RowStop) -> Result<Answer, AllocError>
    ensures { IfOk result (λ a. stop_told stop ≡ Some a) }
{
    match stop {
        RowStop::NotYet { seat, seen } => Ok(Answer::WaitSeat { seat, seen }),
        RowStop::ReadsFull => Ok(Answer::ReadsFull),
        RowStop::Owned { seat, number } => Ok(Answer::Owned { seat, number }),
        RowStop::Newer { stamp } => Ok(Answer::Newer { stamp }),
        RowStop::WritesFull => Ok(Answer::WritesFull),
        RowStop::CellsFull { drawn } => Ok(Answer::CellsFull { drawn }),
        RowStop::OidsFull { drawn } => Ok(Answer::OidsFull { drawn }),
        RowStop::Excluded { succ, pred } => Ok(Answer::ExcludedEarly { succ, pred }),
        RowStop::Memory => Err(AllocError),
    }
}
