//! Laws of what workers do: each holds as it stands, and its function does nothing.
ghost use Rattle.erm_worker.specs.Laws.{AbortedWorkIsACutPart, ClosedWorkIsAPart, LeftWorkIsACutPart, WholeWorkIsAPart};

/// What a worker did is its session's part of an execution of all sessions at once, where the session then stands as in the world in which
/// all end: of a whole execution where all its lines were answered, and it was closed where it wasn't idle; and else of one that was cut off.
pub fn work_is_a_part()
    ensures whole { WholeWorkIsAPart }
    ensures closed { ClosedWorkIsAPart }
    ensures left { LeftWorkIsACutPart }
    ensures aborted { AbortedWorkIsACutPart }
{}
