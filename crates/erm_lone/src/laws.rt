//! Laws of the definitions: each holds as it stands, and its function does nothing.
ghost use Rattle.std.specs.Prelude.{ℕ};
ghost use Rattle.erm_world.specs.World.{IsSession, View};
ghost use Rattle.erm_lone.specs.Later.{EndsIn};
ghost use Rattle.erm_lone.specs.Moving.{WorldsMoveOn};

use erm_world::RowWorld;

/// A world as it stands is one in which all its sessions may end. So what is said of every such world isn't empty.
pub fn worlds_may_end_as_they_stand<W: RowWorld>()
    ensures { (w : W) (seat : ℕ) → W.stands w → IsSession (W.view w) seat → EndsIn W.law (W.view w) seat (W.view w) }
{}

/// A world moves on by each call of a session, and what a safe snapshot stands on stays.
pub fn worlds_move_on()
    ensures { WorldsMoveOn }
{
    erm_safe_world::calls_move_on();
    erm_safe_world::refusals_move_on();
    erm_safe_world::safe_stamps_stay_safe();
    erm_safe_world::safe_snapshots_stay();
}
