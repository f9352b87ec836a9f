//! Laws of what clients do: each holds as it stands, and its function does nothing.
ghost use Rattle.erm_client.specs.Laws.{AnswersRefuse, ClosedClientIsAPart, EndingRefusalsEnd, MemoryLeavesNothing, OpenClientIsAPart, OtherRefusalsLeave, StopsAreStops, StoppedClientIsACutPart, TranscriptsAreARun};

/// What a client did is its session's part of an execution of all sessions at once, whole or cut off, where the session then stands as in the
/// world in which all end.
pub fn client_is_a_part()
    ensures opened { OpenClientIsAPart }
    ensures closed { ClosedClientIsAPart }
    ensures stopped { StoppedClientIsACutPart }
{}

/// The transcripts of all sessions, one behind another, are a script that was run at once, with its answers: so what is proved of scripts is
/// proved of programs.
pub fn transcripts_are_a_run()
    ensures { TranscriptsAreARun }
{}

/// What a refused call leaves in the transcript: the line with the answer that refuses it, and nothing in progress behind a refusal that ends it, but what was
/// in progress, as it was, behind each other one; a client that has stopped, where it was told to stop; and where memory ran out nothing more, unless it was
/// a scan, of which what it found is there.
pub fn refusals_tell()
    ensures answered { AnswersRefuse }
    ensures ended { EndingRefusalsEnd }
    ensures left { OtherRefusalsLeave }
    ensures stopped { StopsAreStops }
    ensures undone { MemoryLeavesNothing }
{}
