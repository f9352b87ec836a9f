//! Laws of what workers do: each holds as it stands, and its function does nothing.
ghost use Rattle.erm_threads.specs.Merged.{OwnMovesAreOfOwnLines};

/// Of answers to the lines of a script, a session's own moves are its own lines with their answers, and then its closing.
pub fn own_moves_are_of_own_lines()
    ensures own { OwnMovesAreOfOwnLines }
{}
