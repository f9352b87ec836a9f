//! What a program is.
ghost use Rattle.erm_client.specs.Clients.{GoesOn, IsClient};
ghost use Rattle.erm_client.specs.Transcripts.{IsNew};
ghost use Rattle.erm_client.specs.declared.transcript.Transcript.{Transcript as TranscriptOf};
ghost use Rattle.erm_model.specs.RowTransaction.{SameLaw};
ghost use Rattle.erm_node.specs.Sound.{sound_law};

use erm_beside::SafeSession;
use erm_client::Client;
use erm_worker::Turns;
use std::sync::Wait;

/// A program over the engine: what it does with its client. It has one session, and asks it what it likes, for as long as it likes; other programs run
/// beside it. Where it returns with a transaction in progress, this is aborted.
pub trait Program {
    /// What it promises: of itself before it runs, of itself behind that, and of the transcript that its client leaves.
    ghost promises: { Self → Self → TranscriptOf → Type 0 };

    /// Runs the program with the client of a session that was asked nothing yet.
    fn run<'a, S: SafeSession, T: Turns, R: Wait>(&mut self, rt: &R, client: &mut Client<'a, S, T>)
        requires law { SameLaw S.law sound_law }
        requires client { IsClient S.stands S.seat S.own client.old }
        requires new { IsNew (S.seat client.old.session) client.old.transcript }
        ensures on { GoesOn S.stands S.seat S.own S.ends T.told client.old client.new }
        ensures promised { promises self.old self.new client.new.transcript };
}
