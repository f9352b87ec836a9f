//! Laws of views: what seats have noted of one another, and the seats handed out. Each holds for every value, and its function does nothing.
ghost use Rattle.std.specs.Prelude.{◌≡◌, ◌≢◌, ℕ, ◌<◌, ◌≤◌, List, slice_index, Some};
ghost use Rattle.erm_machine.specs.declared.event.Kind.{Kind};
ghost use Rattle.erm_machine.specs.declared.part.Part.{Part};
ghost use Rattle.erm_machine.specs.Core.{Core, Shared};
ghost use Rattle.erm_machine.specs.Sound.{Sound};
ghost use Rattle.erm_machine.specs.Step.{part_after, after_event, run_from};
ghost use Rattle.erm_rule.specs.declared.view.Book.{Book};
ghost use Rattle.erm_rule.specs.declared.view.View.{View};
ghost use Rattle.erm_rule.specs.declared.view.Opening.{Opening};
ghost use Rattle.erm_rule.specs.Books.{Course};
ghost use Rattle.erm_rule.specs.Rule.{first_book, first_core, first_view, rest_view, HandsOut};
ghost use Rattle.erm_rule.specs.Went.{Took, events_of, IsWhole, core_of};
ghost use Rattle.erm_rule.specs.Views.{IsView, part_in};

use erm_machine::SESSIONS;
use erm_model::RowLaw;

/// No step lowers a bound that its seat has noted, and no event one that any seat has noted.
pub fn notes_are_kept()
    ensures step { (seat : ℕ) (kind : Kind) (found : ℕ) (s : Shared) (x y : Part) → part_after seat kind found s x ≡ Some y
        → (q : ℕ) → slice_index x.clear q ≤ slice_index y.clear q }
    ensures event { (c d : Core) (seat : ℕ) (kind : Kind) → after_event c seat kind ≡ Some d
        → (p q : ℕ) → slice_index (c.seats p).clear q ≤ slice_index (d.seats p).clear q }
{}

/// A seat of which another has noted a bound has no unfinished range below that, whatever sound state the view is one of.
pub fn notes_hold()
    ensures { (c : Core) (v : View) (who q bound : ℕ) (x : Part) → Sound c → IsView v c → part_in v who ≡ Some x → q ≢ who
        → bound ≤ slice_index x.clear q → 0 < (c.seats q).current.stamp → bound ≤ (c.seats q).current.stamp }
{}

/// A pass that has had all seats since the table's start, as the first one has, has one state: the one that its steps lead to from there,
/// each an event of the machine. At the start that is the opening's.
pub fn whole_books_have_one_state<L: RowLaw>()
    ensures first { (opening : Opening) → IsWhole (first_book opening) × (core_of (first_book opening) ≡ first_core opening) }
    ensures state { (b : Book) (c : Core) → IsWhole b → Course b c → c ≡ core_of b }
    ensures steps { (who : ℕ) (steps : List (Kind × ℕ)) (b e : Book) → Took L.law who steps b e → IsWhole b
        → IsWhole e × (core_of e ≡ run_from (core_of b) (events_of who steps)) }
{}

/// The first pass of an opening in which no session is idle hands out the sessions one by one, from session 1 on, each idle.
pub fn sessions_are_handed_out()
    ensures first { (opening : Opening) → rest_view opening 0 ≡ first_view opening }
    ensures more { (opening : Opening) (given : ℕ) → opening.sessions ≡ 0 → given < SESSIONS → HandsOut opening given }
{}
