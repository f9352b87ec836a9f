//! Laws of following: each is the contract of a function that does nothing.
ghost use Rattle.std.specs.Prelude.{◌≡◌, ℕ, List, [], ◌∷◌, ◌++◌};
ghost use Rattle.erm_model.specs.declared.history.Commit.{Commit};
ghost use Rattle.erm_model.specs.SerialOrder.{IsSerialOrder, below_by, rank_of_commit};
ghost use Rattle.erm_follow.specs.declared.seen.Broken.{Broken};
ghost use Rattle.erm_follow.specs.declared.seen.Seen.{Seen};
ghost use Rattle.erm_follow.specs.Follow.{BreaksNow, Followed, GivesNext, MayTake, start};
ghost use Rattle.erm_follow.specs.Given.{GoesOn, HasGiven, IsShipped, commits_of};

/// At first a follower has told what is due of no log; and item by item it goes on to have told what is due.
pub fn takes_go_on()
    ensures first { (base : ℕ) → HasGiven base [] [] (start base) }
    ensures next { (base : ℕ) (log : List Seen) (lines new : List Commit) (f g : Followed) (s : Seen)
        → HasGiven base log lines f → MayTake f s → GivesNext f s new g
        → HasGiven base (log ++ s ∷ []) (lines ++ new) g }
{}

/// What was told is the serial order so far: that of the commits below the greatest safe stamp.
pub fn lines_are_the_order_so_far()
    ensures { (base : ℕ) (log : List Seen) (lines : List Commit) (f : Followed) → HasGiven base log lines f
        → IsSerialOrder rank_of_commit (below_by rank_of_commit f.safe (commits_of log)) lines }
{}

/// Where safe stamps keep what they promise, what was told is the front of the serial order of all commits, of this log and
/// of each longer one; and no safe stamp is broken.
pub fn lines_stay_in_front()
    ensures front { (base : ℕ) (log more : List Seen) (lines order : List Commit) (f : Followed)
        → HasGiven base log lines f → GoesOn f log more → IsShipped (log ++ more)
        → IsSerialOrder rank_of_commit (commits_of (log ++ more)) order
        → (rest : List Commit) × (order ≡ lines ++ rest) }
    ensures whole { (base : ℕ) (log : List Seen) (lines : List Commit) (f g : Followed) (s : Seen) (b : Broken)
        → HasGiven base log lines f → IsShipped (log ++ s ∷ []) → BreaksNow f s b g → ⊥ }
{}
