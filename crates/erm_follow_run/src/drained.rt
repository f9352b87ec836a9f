//! All items that a stream has, followed.
ghost use Rattle.std.specs.Prelude.{◌≡◌, ◌++◌, OnOk, OnErr, None};
ghost use Rattle.erm_follow_run.specs.Draining.{DrainsTo, HasFront};
ghost use Rattle.erm_follow_run.specs.Following.{IsBelow};
ghost use Rattle.erm_follow_run.specs.Texts.{lines_text};

use crate::halt::Halt;
use crate::steps::step;
use erm_block::spelling_size;
use erm_follow::{Follow, takes_go_on};
use erm_model::Commit;
use erm_replica::{Stream, parts_are_announced};
use erm_report::{Line, Text};
use std::alloc::{AllocError, Global};

/// What is told of the items that a stream has.
#[derive(Drop)]
pub(crate) struct Drained {
    /// The lines of the commits that are due.
    pub text: Text,
    /// Why there are no more.
    pub halt: Halt,
}

/// Takes all items that a stream has, and makes the lines of the commits that are due with them.
pub(crate) fn drain(alloc: Global, stream: &mut Stream, follow: &mut Follow) -> Drained
    requires below { IsBelow stream.old.log follow.old }
    requires whole { follow.old.broken ≡ None }
    ensures { DrainsTo stream.old follow.old result.text result.halt stream.new follow.new }
{
    takes_go_on();
    spelling_size();
    parts_are_announced();
    let mut text = Text::new(alloc);
    'items: loop {
        match step(alloc, stream, follow) {
            Ok(lines) => {
                match push_lines(&mut text, &lines) {
                    Ok(()) => {}
                    Err(_) => {
                        let halt = Halt::Memory;
                        return Drained { text, halt };
                    }
                }
            }
            Err(halt) => return Drained { text, halt },
        }
    }
}

// Adds the lines of commits. Where memory runs out, those of some in front were added.
fn push_lines(text: &mut Text, commits: &[Commit]) -> Result<(), AllocError>
    ensures ok { OnOk result (text.new ≡ text.old ++ lines_text commits.now) }
    ensures front { OnErr result (HasFront commits.now text.old text.new) }
{
    for commit in commits {
        text.add(&Line::LoggedCommit {
            seat: commit.seat,
            number: commit.number,
            stamp: commit.stamp,
            succ: commit.succ,
        })?;
    }
    Ok(())
}
