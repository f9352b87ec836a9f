//! What is an end of following.
ghost use Rattle.erm_follow_run.specs.Ends.{FollowEnds, StarvesAtOnce, Ways};

use erm_follow::takes_go_on;

/// Where memory runs out before a byte is taken, following ends with status 8.
pub fn starving_is_an_end()
    ensures { (a : Ways) → StarvesAtOnce a → FollowEnds 8 a }
{
    takes_go_on();
}
