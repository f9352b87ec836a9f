//! The own view of a session of the word table, where other sessions go on: what the book of its pass tells of the worlds in which all may end.
//! Each law is the contract of a function that does nothing.
#![tactic(auto)]

ghost use Rattle.std.specs.Prelude.{◌≡◌, ◌≤◌, ℕ, List, false};
ghost use Rattle.erm_beside.specs.Laws.{IsSound};
ghost use Rattle.erm_beside.specs.Later.{IsLater};
ghost use Rattle.erm_beside.specs.Safe.{IsRowBelow};
ghost use Rattle.erm_core_safe.specs.Passed.{ArePassed};
ghost use Rattle.erm_core_view.specs.Views.{IsBetween};
ghost use Rattle.erm_machine.specs.Core.{Core};
ghost use Rattle.erm_own_view.specs.Own.{EndsIn, MayCall, own_view};
ghost use Rattle.erm_own_view.specs.Owners.{HasOwner, WasTried};
ghost use Rattle.erm_own_view.specs.SafeStamps.{HasRowBelow};
ghost use Rattle.erm_rule.specs.Books.{IsAfter, IsBookOf};
ghost use Rattle.erm_rule.specs.Views.{part_of};
ghost use Rattle.erm_rule.specs.Went.{Took};
ghost use Rattle.erm_rule.specs.declared.view.Book.{Book};
ghost use Rattle.erm_machine.specs.declared.event.Kind.{Kind};
ghost use Rattle.erm_machine.specs.declared.limits.TheConstants.{OBJECT_LIMIT};
ghost use Rattle.erm_machine.specs.Decided as machine;
ghost use Rattle.erm_model.specs.declared.history.TransactionRecord.{TransactionRecord};
ghost use Rattle.erm_model.specs.declared.limits.TheConstants.{TABLE_CELLS};
ghost use Rattle.erm_model.specs.Member.{◌∈◌};
ghost use Rattle.erm_machine.specs.Words.{is_flusher};
ghost use Rattle.erm_world.specs.Calls.{AreAllDrawn, AreAllMade};
ghost use Rattle.erm_world.specs.Laws.{IsSerializable};
ghost use Rattle.erm_world.specs.Safe.{IsSafeIn};
ghost use Rattle.erm_world.specs.World.{View};
ghost use Rattle.erm_world.specs.World as world;

use erm_model::RowLaw;

/// Where a call may begin there is a world in which all may end, and what is so of each session is so of the own view. The transactions of each
/// world in which all may end are serializable.
pub fn own_views_are_sound<L: RowLaw>()
    ensures some { (seat tail flushed : ℕ) (b : Book) → MayCall L.law seat tail flushed b
        → (f : View) × EndsIn L.law seat b (own_view seat tail flushed b) f }
    ensures sound { (seat tail flushed : ℕ) (b : Book) → MayCall L.law seat tail flushed b
        → IsSound L.law (own_view seat tail flushed b) seat }
    ensures lasting { (seat : ℕ) (b : Book) (own f : View) → EndsIn L.law seat b own f → IsSerializable L.law f }
{}

/// Where a session went on by steps of its own, whatever others did between, and its log was seen no less far, what all may end in then was
/// one in which all might end before; and a call may begin again, where the seat is between two calls and in each state of the new book the log has come as
/// far.
pub fn own_views_go_on<L: RowLaw>()
    ensures onward { (seat tail flushed then_tail then_flushed : ℕ) (b e : Book) (f : View) → IsAfter b e → e.start ≡ b.start
        → tail ≤ then_tail → flushed ≤ then_flushed
        → IsLater ((own_view seat tail flushed b).session seat) ((own_view seat then_tail then_flushed e).session seat)
        → EndsIn L.law seat e (own_view seat then_tail then_flushed e) f → EndsIn L.law seat b (own_view seat tail flushed b) f }
    ensures seen { (seat tail flushed : ℕ) (b e : Book) → MayCall L.law seat tail flushed b → IsAfter b e
        → (c : Core) → IsBookOf e c → (tail ≤ c.shared.tail) × (flushed ≤ c.shared.flushed) }
    ensures again { (seat tail flushed then_tail then_flushed : ℕ) (steps : List (Kind × ℕ)) (b e : Book) → MayCall L.law seat tail flushed b
        → Took L.law seat steps b e → IsBetween (part_of e.view seat).place (part_of e.view seat).task
        → ((c : Core) → IsBookOf e c → (then_tail ≤ c.shared.tail) × (then_flushed ≤ c.shared.flushed))
        → MayCall L.law seat then_tail then_flushed e }
    ensures start { (seat : ℕ) (steps : List (Kind × ℕ)) (b e : Book) → Took L.law seat steps b e → e.start ≡ b.start }
{
    erm_sound::events_keep_sound();
    erm_core_ring::begins_stay_at_ends();
    erm_core_stays::numbers_rise();
}

/// What is so in each state of a book stays so in each world in which all may end: what was committed is a commit there, where all objects were
/// drawn each was made, and where all cells were drawn there are as many claims as there are cells more than objects.
pub fn ends_have_what_was<L: RowLaw>()
    ensures commits { (seat : ℕ) (b : Book) (own f : View) (t : TransactionRecord) → EndsIn L.law seat b own f
        → ((c : Core) → IsBookOf b c → t ∈ machine.history_of c.seats) → t ∈ world.history_of f }
    ensures made { (seat : ℕ) (b : Book) (own f : View) → EndsIn L.law seat b own f
        → ((c : Core) → IsBookOf b c → OBJECT_LIMIT ≤ c.shared.objects_drawn) → AreAllMade f }
    ensures drawn { (seat : ℕ) (b : Book) (own f : View) → EndsIn L.law seat b own f
        → ((c : Core) → IsBookOf b c → TABLE_CELLS ≤ c.shared.cells_drawn) → AreAllDrawn f }
{
    erm_core_shown::states_show_the_history();
    erm_core_shown::sessions_alone_have_transactions();
    erm_core_shown::drawn_objects_are_shown();
    erm_core_stays::commits_stay();
    erm_core_stays::owners_are_sessions();
    erm_core_stays::numbers_rise();
}

/// A transaction that was met as the owner of an object, in each state of an earlier book, is one of its session in each world in which all may
/// end: it has claimed the object there, or gave the claim up for want of a cell, and what the own session began since began at or above its
/// begin.
pub fn ends_have_owners<L: RowLaw>()
    ensures { (seat oid other number own : ℕ) (m e : Book) (v f : View) → is_flusher other ≡ false → IsAfter m e → EndsIn L.law seat e v f
        → ((c : Core) → IsBookOf m c → HasOwner c seat oid other number own) → WasTried f seat oid other number own }
{
    erm_core_stays::numbers_rise();
}

/// A stamp that is passed in each state of a book is a safe one in each world in which all may end, and what is the newest row of an object below it in
/// each such state is so there too: whoever commits later began at the stamp or behind.
pub fn ends_keep_safe_stamps<L: RowLaw>()
    ensures safe { (seat bound : ℕ) (b : Book) (own f : View) → EndsIn L.law seat b own f
        → ((c : Core) → IsBookOf b c → ArePassed bound c) → IsSafeIn f bound }
    ensures rows { (seat bound oid : ℕ) (row : List ℕ) (b : Book) (own f : View) → EndsIn L.law seat b own f
        → ((c : Core) → IsBookOf b c → HasRowBelow c bound oid row) → IsRowBelow f bound oid row }
{
    erm_sound::events_keep_sound();
}
