//! Laws of what all sessions did: each holds as it stands, and its function does nothing.
ghost use Rattle.erm_works.specs.Cuts.{WorksAreACutRun};
ghost use Rattle.erm_works.specs.Runs.{WorksAreARun};
ghost use Rattle.erm_works.specs.Starved.{WorksAreAStarvedRun};
ghost use Rattle.erm_works.specs.Works.{CompleteWorksAreAll, WorksAreFirst};

/// Where each session was answered all its lines, and none waits in the world in which all ended, their answers put together and their
/// sessions closed are an execution of the script at once, which ends in this world.
pub fn works_are_a_run()
    ensures run { WorksAreARun }
{}

/// Wherever sessions were left, their answers put together, to the first lines of each, and their sessions that were decided at the end
/// are an execution at once that was cut off.
pub fn works_are_a_cut_run()
    ensures run { WorksAreACutRun }
{}

/// So they are where memory ran out for some sessions: of these the line in which it ran out has no answer.
pub fn works_are_a_starved_run()
    ensures run { WorksAreAStarvedRun }
{}

/// The answers of sessions are to the first lines of each, and to all of them where each work is complete: so they may be put together.
pub fn works_may_be_merged()
    ensures first { WorksAreFirst }
    ensures all { CompleteWorksAreAll }
{}
