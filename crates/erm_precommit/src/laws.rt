//! Laws of sound states: what the Serial Safety Net makes of write skew, and that snapshots of one begin stamp agree. Each holds for
//! every value, and its function does nothing.
ghost use Rattle.std.specs.Prelude.{◌≡◌, ◌≢◌, ℕ, ◌<◌, ◌≤◌, length};
ghost use Rattle.erm_machine.specs.declared.attempt.Attempt.{Attempt};
ghost use Rattle.erm_machine.specs.declared.attempt.Decision.TheVariants.{Commit};
ghost use Rattle.erm_machine.specs.Core.{Core, claim_at};
ghost use Rattle.erm_machine.specs.Facts.{all_of};
ghost use Rattle.erm_machine.specs.Seat.{read_at};
ghost use Rattle.erm_machine.specs.Sound.{Sound};
ghost use Rattle.erm_model.specs.Member.{◌∈◌};
ghost use Rattle.erm_precommit.specs.Skew.{HasPassedAll, IsSkewed};

/// Of two transactions of different seats that have each read a version that the other overwrote, one isn't committed.
pub fn skewed_commits_exclude_one_another()
    ensures { (c : Core) (p q : ℕ) (t u : Attempt) → Sound c → p ≢ q → t ∈ all_of (c.seats p) → u ∈ all_of (c.seats q)
        → IsSkewed t u → t.decision ≡ Commit → u.decision ≡ Commit → ⊥ }
{}

/// Of two sealed transactions that have each read a version that the other overwrites, at most one's settle has passed all versions
/// while neither is decided.
pub fn one_of_two_is_ready()
    ensures { (c : Core) (p q : ℕ) → Sound c → p ≢ q → IsSkewed (c.seats p).current (c.seats q).current
        → HasPassedAll (c.seats p) → HasPassedAll (c.seats q) → ⊥ }
{}

/// Where one of the two has committed and the other's settle has passed all of its versions, the other's exclusion window is closed.
pub fn ready_beside_a_commit_is_closed()
    ensures { (c : Core) (p q : ℕ) (t : Attempt) → Sound c → p ≢ q → t ∈ all_of (c.seats p) → t.decision ≡ Commit
        → IsSkewed t (c.seats q).current → HasPassedAll (c.seats q) → (c.seats q).current.succ ≤ (c.seats q).current.pred }
{}

/// Of two transactions with one begin stamp, whether they are over or not, what the one has read of an object is the version that the
/// other overwrites.
pub fn snapshots_of_one_begin_agree()
    ensures { (c : Core) (p q : ℕ) (t u : Attempt) (read write : ℕ) → Sound c → t ∈ all_of (c.seats p) → u ∈ all_of (c.seats q)
        → t.begin ≡ u.begin → read < length t.reads → write < length u.writes
        → (read_at t read).version.oid ≡ (claim_at u write).version.oid
        → (read_at t read).version.place ≡ (claim_at u write).version.place }
{}
