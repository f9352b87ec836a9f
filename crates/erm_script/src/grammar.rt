//! Which scripts there are.
ghost use Rattle.std.specs.Prelude.{◌≡◌};
ghost use Rattle.erm_script.specs.Keywords.{has_command};

use crate::Keyword;
use erm_model::Seat;

/// What a program takes as a script: how many sessions, and which commands besides those of transactions on one key.
#[derive(Clone, Copy)]
pub struct Grammar {
    /// The most sessions that a script may have.
    pub sessions: Seat,
    /// Whether there are `next`, `scan` and `tidy`.
    pub index: bool,
    /// Whether there are `durable` and `flush`.
    pub log: bool,
    /// Whether there is `checkpoint`.
    pub checkpoints: bool,
    /// Whether each session runs on a thread of its own. Then the lines that name no session are nobody's: there is none.
    pub threads: bool,
}

impl Grammar {
    /// Whether there is this command.
    pub fn has(self, keyword: Keyword) -> bool
        ensures { result ≡ has_command self keyword }
    {
        match keyword {
            Keyword::Next | Keyword::Scan | Keyword::Tidy => self.index,
            Keyword::Durable | Keyword::Flush => self.log,
            Keyword::Checkpoint => self.checkpoints,
            _ => true,
        }
    }
}
