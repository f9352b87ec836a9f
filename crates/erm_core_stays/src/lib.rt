//! The laws of what stays, over any run of events: counters and places never fall, the place flushed changes by its own store alone,
//! decided blocks stay, transactions go on, and commits stay. Each law is the contract of a function that does nothing.
#![tactic(auto)]

ghost use Rattle.std.specs.Prelude.{◌≡◌, ◌≢◌, ◌⊎◌, ◌<◌, ℕ, true, false, List, ◌++◌, Some};
ghost use Rattle.erm_model.specs.declared.history.TransactionRecord.{TransactionRecord};
ghost use Rattle.erm_model.specs.Member.{◌∈◌};
ghost use Rattle.erm_machine.specs.declared.attempt.Attempt.{Attempt};
ghost use Rattle.erm_machine.specs.declared.event.Event.{Event};
ghost use Rattle.erm_machine.specs.declared.event.Kind.{Kind};
ghost use Rattle.erm_machine.specs.declared.event.Kind.TheVariants as kind;
ghost use Rattle.erm_machine.specs.declared.limits.TheConstants.{FLUSH_SEAT, OBJECT_LIMIT};
ghost use Rattle.erm_machine.specs.Core.{Core};
ghost use Rattle.erm_machine.specs.Decided.{history_of};
ghost use Rattle.erm_machine.specs.Facts.{all_of};
ghost use Rattle.erm_machine.specs.Sound.{Sound};
ghost use Rattle.erm_machine.specs.Step.{after_event, run_from};
ghost use Rattle.erm_machine.specs.Words.{is_flusher, is_session};
ghost use Rattle.erm_core_flush.specs.Turns.{Blocks, words_of};
ghost use Rattle.erm_core_stays.specs.Runs.{Runs};
ghost use Rattle.erm_core_stays.specs.Staying.{Continues, HasClaimed, HasTried, IsOwnedBy, Rises, StoresFlushed};

/// A run from a sound state leads to a sound one. A run behind another is one run; and of steps one after another some are a run to the
/// same state, since those that aren't taken change nothing.
pub fn runs_keep_sound()
    ensures sound { (c d : Core) (es : List Event) → Sound c → Runs es c d → Sound d }
    ensures behind { (b c d : Core) (es fs : List Event) → Runs es b c → Runs fs c d → Runs (es ++ fs) b d }
    ensures steps { (c : Core) (es : List Event) → (taken : List Event) × Runs taken c (run_from c es) × ((e : Event) → e ∈ taken → e ∈ es) }
{
    erm_sound::events_keep_sound();
}

/// The end of the log, the place flushed and the counters never fall, ranges stay, and so does what the opening gave.
pub fn numbers_rise()
    ensures event { (c d : Core) (seat : ℕ) (kind : Kind) → Sound c → after_event c seat kind ≡ Some d → Rises c.shared d.shared }
    ensures run { (c d : Core) (es : List Event) → Sound c → Runs es c d → Rises c.shared d.shared }
{
    erm_sound::events_keep_sound();
}

/// The place flushed changes by its own store alone, which is the flush seat's.
pub fn flushed_is_stored()
    ensures store { (c d : Core) (seat value : ℕ) → Sound c → after_event c seat (kind.StoreFlushed value) ≡ Some d
        → (seat ≡ FLUSH_SEAT) × (d.shared.flushed ≡ value) }
    ensures event { (c d : Core) (seat : ℕ) (kind : Kind) → after_event c seat kind ≡ Some d → (StoresFlushed kind → ⊥)
        → d.shared.flushed ≡ c.shared.flushed }
    ensures run { (c d : Core) (es : List Event) → Runs es c d → ((e : Event) → e ∈ es → StoresFlushed e.kind → ⊥)
        → d.shared.flushed ≡ c.shared.flushed }
    ensures others { (c d : Core) (es : List Event) → Sound c → Runs es c d → ((e : Event) → e ∈ es → e.seat ≢ FLUSH_SEAT)
        → d.shared.flushed ≡ c.shared.flushed }
{
    erm_sound::events_keep_sound();
}

/// Decided blocks that lie end to end stay, with their words.
pub fn decided_blocks_stay()
    ensures event { (c d : Core) (seat from to : ℕ) (kind : Kind) (ts : List Attempt) → Sound c → after_event c seat kind ≡ Some d
        → Blocks c.seats from ts to → (us : List Attempt) × Blocks d.seats from us to × (words_of us ≡ words_of ts) }
    ensures run { (c d : Core) (es : List Event) (from to : ℕ) (ts : List Attempt) → Sound c → Runs es c d
        → Blocks c.seats from ts to → (us : List Attempt) × Blocks d.seats from us to × (words_of us ≡ words_of ts) }
    ensures behind { (c : Core) (from mid to : ℕ) (ts us : List Attempt) → Blocks c.seats from ts mid → Blocks c.seats mid us to
        → Blocks c.seats from (ts ++ us) to × (words_of (ts ++ us) ≡ words_of ts ++ words_of us) }
{
    erm_sound::events_keep_sound();
}

/// Each transaction of a session goes on: it is there later, in progress or over, with its number and its begin stamp, and with what it had
/// read and made, and claimed with a cell. What it had claimed or given up it has claimed or given up. From its draw on it is there with all
/// of it, and from its decision on just as it was.
pub fn transactions_go_on()
    ensures event { (c d : Core) (seat : ℕ) (kind : Kind) → Sound c → after_event c seat kind ≡ Some d
        → (q : ℕ) (t : Attempt) → is_flusher q ≡ false → t ∈ all_of (c.seats q) → 0 < t.number
        → (u : Attempt) × (u ∈ all_of (d.seats q)) × Continues t u }
    ensures run { (c d : Core) (es : List Event) → Sound c → Runs es c d
        → (q : ℕ) (t : Attempt) → is_flusher q ≡ false → t ∈ all_of (c.seats q) → 0 < t.number
        → (u : Attempt) × (u ∈ all_of (d.seats q)) × Continues t u }
{
    erm_sound::events_keep_sound();
}

/// What is committed stays so.
pub fn commits_stay()
    ensures event { (c d : Core) (seat : ℕ) (kind : Kind) → Sound c → after_event c seat kind ≡ Some d
        → (t : TransactionRecord) → t ∈ history_of c.seats → t ∈ history_of d.seats }
    ensures run { (c d : Core) (es : List Event) → Sound c → Runs es c d
        → (t : TransactionRecord) → t ∈ history_of c.seats → t ∈ history_of d.seats }
{
    erm_sound::events_keep_sound();
}

/// Who owns an entry at the end of a run owned it at its beginning, or has taken the step that claims the object, whatever became of the
/// claim in between and becomes of it then.
pub fn owners_have_claimed()
    ensures { (c d : Core) (es : List Event) (oid owner number : ℕ) → Sound c → Runs es c d → oid < OBJECT_LIMIT → 0 < owner
        → IsOwnedBy d.shared oid owner number → IsOwnedBy c.shared oid owner number ⊎ HasClaimed es owner oid number }
{
    erm_sound::events_keep_sound();
}

/// Who owns an entry at the end of a run owned it at its beginning, or is a session: the flush seat claims nothing.
pub fn owners_are_sessions()
    ensures { (c d : Core) (es : List Event) (oid owner number : ℕ) → Sound c → Runs es c d → oid < OBJECT_LIMIT → 0 < owner
        → IsOwnedBy d.shared oid owner number → IsOwnedBy c.shared oid owner number ⊎ (is_session owner ≡ true) }
{
    erm_sound::events_keep_sound();
}

/// A session that owned an entry has, in each later state, a transaction of the number that the entry named, in progress or over, that has
/// claimed the object, or had and gave the claim up for want of a cell.
pub fn owners_go_on()
    ensures { (c d : Core) (es : List Event) (oid owner number : ℕ) → Sound c → Runs es c d → oid < OBJECT_LIMIT → is_session owner ≡ true
        → IsOwnedBy c.shared oid owner number
        → (t : Attempt) × (t ∈ all_of (d.seats owner)) × (t.number ≡ number) × HasTried t oid }
{
    erm_sound::events_keep_sound();
}
