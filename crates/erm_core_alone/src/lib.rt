//! The laws of claims that stand alone: until a transaction is out, nobody else commits a version of what it has claimed, whether it
//! commits or is excluded. Each law is the contract of a function that does nothing.
#![tactic(auto)]

ghost use Rattle.std.specs.Prelude.{◌≡◌, ◌<◌, ℕ, Some};
ghost use Rattle.erm_model.specs.declared.history.TransactionRecord.{TransactionRecord};
ghost use Rattle.erm_model.specs.History.{Makes};
ghost use Rattle.erm_model.specs.Member.{◌∈◌};
ghost use Rattle.erm_model.specs.Rows.{Rows};
ghost use Rattle.erm_machine.specs.declared.attempt.Attempt.{Attempt};
ghost use Rattle.erm_machine.specs.declared.attempt.Claim.{Claim};
ghost use Rattle.erm_machine.specs.declared.event.Kind.{Kind};
ghost use Rattle.erm_machine.specs.Core.{Core, opening_state};
ghost use Rattle.erm_machine.specs.Decided.{history_of};
ghost use Rattle.erm_machine.specs.Facts.{all_of};
ghost use Rattle.erm_machine.specs.Sound.{Sound};
ghost use Rattle.erm_machine.specs.Step.{after_event};
ghost use Rattle.erm_core_alone.specs.Alone.{ClaimsStandAlone};

/// In an opening's state claims stand alone, and from a sound state in which they do each event of each seat leads to such a one.
pub fn claims_stay_alone()
    ensures opening { (sessions : ℕ) (rows : Rows) (tail run first cells : ℕ) → ClaimsStandAlone (opening_state sessions rows tail run first cells) }
    ensures event { (c d : Core) (seat : ℕ) (kind : Kind) → Sound c → ClaimsStandAlone c → after_event c seat kind ≡ Some d
        → ClaimsStandAlone d }
{}

/// Of what a transaction with a commit stamp has claimed, whether it has committed, was excluded or isn't decided yet, no commit with a
/// lesser stamp made a version from its begin on. Of one that has drawn no stamp this says nothing.
pub fn claims_are_exclusive()
    ensures { (c : Core) (seat : ℕ) (t : Attempt) (w : Claim) (u : TransactionRecord) → Sound c → ClaimsStandAlone c
        → t ∈ all_of (c.seats seat) → w ∈ t.writes → u ∈ history_of c.seats → Makes u w.version.oid → u.stamp < t.stamp
        → u.stamp < t.begin }
{
    erm_core_ssn::reads_and_claims_are_snapshots();
}
