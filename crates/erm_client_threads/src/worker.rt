//! What the thread of a program does.
ghost use Rattle.std.specs.Prelude.{◌≡◌, None};
ghost use Rattle.erm_beside.specs.Laws.{GoesOnward};
ghost use Rattle.erm_client.specs.Clients.{FinishesWork, HasRun, IsClient, StarvesWork};
ghost use Rattle.erm_client_threads.specs.Work.{IsJob, Worked};
ghost use Rattle.erm_model.specs.declared.outcome.Phase.TheVariants.{Active, Sealed};
ghost use Rattle.erm_model.specs.RowTransaction.{SameLaw};
ghost use Rattle.erm_node.specs.Sound.{sound_law};
ghost use Rattle.erm_world.specs.World.{View, phase_at};

use crate::{Job, Program};
use erm_beside::{SafeSession, SharedSession};
use erm_client::{Client, Finished, Standing};
use erm_worker::Turns;
use std::sync::Wait;

// Leaves the session of a client that was told to stop, which has no transaction in progress.
fn leave<'a, S: SharedSession, T>(client: Client<'a, S, T>) -> Finished<S, T>
    ensures session { result.session ≡ client.entry.session }
    ensures turns { result.turns ≡ client.entry.turns }
    ensures transcript { result.transcript ≡ client.entry.transcript }
    ensures closed { result.closed ≡ None }
{
    let Client {
        alloc: _,
        session,
        shared: _,
        turns,
        receipt: _,
        transcript,
    } = client;
    Finished {
        session,
        turns,
        transcript,
        closed: None,
    }
}

// Ends a client behind its program. It keeps what the client waited by.
fn finish<'a, S: SafeSession, T: Turns, R: Wait>(rt: &R, client: Client<'a, S, T>) -> Finished<S, T>
    requires client { IsClient S.stands S.seat S.own client }
    requires ran { (v : View) × ((f : View) → S.ends client.session f → HasRun f v client.transcript (S.own client.session)) }
    requires told { client.transcript.standing ≡ Standing.Stopped → T.told client.turns }
    ensures stands { S.stands client.entry.shared.now result.session }
    ensures onward { GoesOnward (S.seat client.entry.session) (S.seat result.session) (S.ends client.entry.session) (S.ends result.session) }
    ensures transcript { result.transcript ≡ client.entry.transcript }
    ensures rests { phase_at (S.own result.session) (S.seat client.entry.session) ≡ Active → ⊥ }
    ensures did { FinishesWork (S.ends client.entry.session) (S.own client.entry.session) (S.ends result.session) (S.own result.session) result.transcript result.closed }
    ensures starved { StarvesWork (S.ends client.entry.session) (S.own client.entry.session) (S.ends result.session) (S.own result.session) result.transcript result.closed }
    ensures waits { client.entry.transcript.standing ≡ Standing.Open → result.closed ≡ None → phase_at (S.own result.session) (S.seat client.entry.session) ≡ Sealed → T.told result.turns }
    ensures told { client.entry.transcript.standing ≡ Standing.Stopped → T.told result.turns }
{
    match client.transcript.standing {
        Standing::Stopped => leave(client),
        _ => client.close(rt),
    }
}

/// Runs a program with its client, and closes this behind it: its session, its transcript and what it waited by stand in the job.
pub fn work<'a, S: SafeSession, T: Turns, P: Program, R: Wait>(rt: &R, job: &mut Job<'a, S, T, P>)
    requires law { SameLaw S.law sound_law }
    requires job { IsJob S.stands S.seat S.own job.old }
    ensures worked { Worked S.stands S.seat S.own S.ends T.told P.promises job.old job.new }
{
    let Some(mut client) = job.client.take() else {
        unreachable!();
    };
    job.program.run(rt, &mut client);
    match job.finished.replace(finish(rt, client)) {
        None => {}
        Some(_left) => unreachable!(),
    }
}
