//! The laws of safe snapshots: readers at a safe stamp, which need no tracking, run among the commits in the serial order. Each law is the
//! contract of a function that does nothing.
#![tactic(auto)]

ghost use Rattle.std.specs.Prelude.{◌<◌, ℕ, List, ◌++◌};
ghost use Rattle.erm_model.specs.Committed as committed;
ghost use Rattle.erm_model.specs.Committed.{Committed, RunsInOrder};
ghost use Rattle.erm_model.specs.Database.{Database};
ghost use Rattle.erm_model.specs.History.{History, IsCertified, IsSnapshot, rank_of};
ghost use Rattle.erm_model.specs.Member.{◌∈◌};
ghost use Rattle.erm_model.specs.Rows.{Rows};
ghost use Rattle.erm_model.specs.SerialOrder.{IsSerialOrder};
ghost use Rattle.erm_model.specs.Safe.{IsSafeAt};
ghost use Rattle.erm_safe_laws.specs.Safe.{AreCommits, AreLate, IsSafeSnapshot, StandsBetween};

/// What is safe of transactions that had begun is safe of all: in a certified snapshot history each one that commits at or above a safe
/// stamp has its successor stamp there too.
pub fn safe_stamps_divide()
    ensures { (h : History) (opening : Rows) → IsSnapshot h opening → IsCertified h → (b : ℕ) → IsSafeAt h b → AreLate h b }
{}

/// At a safe stamp a reader has a place in the serial order at which it finds the rows of the snapshot there.
pub fn safe_snapshots_have_a_place()
    ensures { (h : History) (opening : Rows) → IsSnapshot h opening → IsCertified h
        → (order : History) → IsSerialOrder rank_of h order
        → (b : ℕ) → 0 < b → IsSafeAt h b → StandsBetween h opening order b }
{
    safe_stamps_divide();
    erm_core_ssn::prefixes_stand_alone();
    erm_core_ssn::serial_order_is_unique();
    erm_core_ssn::rows_run_serially();
    erm_core_ssn::versions_are_unique();
}

/// Safe snapshots run among the commits: where the commits, run in their serial order, give their replies and end in a map, so do the
/// commits and any safe snapshots beside them, run in the serial order of all.
pub fn safe_snapshots_run_among_commits()
    ensures { (commits safes serial order : List Committed) (opening m : Database) (limit : ℕ)
        → AreCommits commits limit
        → ((s : Committed) → s ∈ safes → IsSafeSnapshot commits opening limit s)
        → IsSerialOrder committed.rank_of commits serial → RunsInOrder serial opening m
        → IsSerialOrder committed.rank_of (commits ++ safes) order → RunsInOrder order opening m }
{}
