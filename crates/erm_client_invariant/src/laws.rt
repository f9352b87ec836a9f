//! Laws of the transcripts of clients. Each holds for every value, and its function does nothing.
ghost use Rattle.erm_client_invariant.specs.Laws.{ClientsAreSerial, ClientsAreSerialWithSnapshots, ClientsKeep, CommitsAreOfKind, InvariantLastsForClients, SnapshotsHaveTheirPlace, SnapshotsSeeInvariantsForClients, SnapshotsStandAmongCommits, ToldCommitsAreThere, ToldSnapshotsAreThere};
ghost use Rattle.erm_model.specs.Run.{Step};
ghost use Rattle.std.specs.Prelude.{List};

use erm_causes_at_once::{
    runs_at_once_are_serial_with_snapshots, runs_at_once_have_causes,
    runs_at_once_have_safe_snapshots,
};
use erm_invariant::{Invariant, invariants_last_in_order};
use erm_report_invariant::commits_keep_invariants;
use erm_told_at_once::{runs_at_once_are_serial, runs_at_once_close_sessions, runs_at_once_tell};

/// Where the transcripts of all clients are a script that was run at once, and each transaction that one of them tells to have committed keeps an
/// invariant when it is run alone, each commit of the script keeps it: no session's closing has committed another.
pub fn clients_keep_invariants<I: Invariant>()
    ensures { (invariant : I) → ClientsKeep (I.holds invariant) }
{
    runs_at_once_close_sessions();
    commits_keep_invariants::<I>();
}

/// So from a map that has the invariant it lasts: the map after each commit of the serial order has it, and each is answered on a map that has it.
pub fn invariants_last_for_clients<I: Invariant>()
    ensures { (invariant : I) → InvariantLastsForClients (I.holds invariant) }
{
    clients_keep_invariants::<I>();
    runs_at_once_are_serial();
    invariants_last_in_order::<I>();
}

/// A kind of transactions, by their operations that were answered, with the replies.
pub trait Kind {
    /// The operations that are of the kind.
    ghost has: { Self → List Step → Type 0 };
}

/// Where each transaction that a client's transcript tells to have committed is of a kind, each commit of the script of all is.
pub fn commits_are_of_kind<K: Kind>()
    ensures { (kind : K) → CommitsAreOfKind (K.has kind) }
{
    runs_at_once_close_sessions();
}

/// Each commit that a client's transcript tells is a commit of the script of all.
pub fn told_commits_are_there()
    ensures { ToldCommitsAreThere }
{}

/// The commits of all clients are a serial run: one after another, in their serial order, they give the replies that were answered.
pub fn clients_are_serial()
    ensures { ClientsAreSerial }
{
    runs_at_once_are_serial();
}

/// Each snapshot that a client's transcript tells to have ended is one of the script of all.
pub fn told_snapshots_are_there()
    ensures { ToldSnapshotsAreThere }
{}

/// The commits of all clients and their snapshots that ended are a serial run, in the serial order of all.
pub fn clients_are_serial_with_snapshots()
    ensures { ClientsAreSerialWithSnapshots }
{
    runs_at_once_are_serial_with_snapshots();
}

/// Each snapshot that a client's transcript tells to have ended stands between the commits in their serial order, where its begin stamp places it, and is
/// answered on the map that the commits before it leave.
pub fn snapshots_stand_among_commits()
    ensures { SnapshotsStandAmongCommits }
{
    runs_at_once_have_safe_snapshots();
    runs_at_once_have_causes();
}

/// That is its place in the serial order of all commits and snapshots together.
pub fn snapshots_have_their_place()
    ensures { SnapshotsHaveTheirPlace }
{
    runs_at_once_tell();
}

/// So it sees each invariant that all commits keep when they are run alone.
pub fn snapshots_see_invariants_for_clients<I: Invariant>()
    ensures { (invariant : I) → SnapshotsSeeInvariantsForClients (I.holds invariant) }
{
    snapshots_stand_among_commits();
    invariants_last_for_clients::<I>();
}
