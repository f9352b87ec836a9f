//! Steps of a seat in the life of a transaction, and its looks at other seats: one function for each kind of step.
ghost use Rattle.std.specs.Prelude.{◌≡◌, ℕ, true, IsSome};
ghost use Rattle.erm_machine.specs.declared.event.Kind.TheVariants.{LoadTail, AddTail, StoreBegin, StoreState, LoadBegin, LoadState, StoreBack, LoadBack, Unset};
ghost use Rattle.erm_machine.specs.Decided.{record_of};
ghost use Rattle.erm_machine.specs.Words.{is_seat, is_session};
ghost use Rattle.erm_model.specs.Lawful.{IsLawfulRecord};
ghost use Rattle.erm_rule.specs.Books.{book};
ghost use Rattle.erm_rule.specs.Steps.{Fits, Ready, ToldUnder, Booked};
ghost use Rattle.erm_rule.specs.Views.{view, part_in, part_of};

use crate::change::Change;
use crate::rule::{Pass, Table};
use crate::stepping::{pass_by, step};
use erm_layout::Word;
use erm_machine::{Kind, TailUse};
use erm_model::{RowLaw, Seat, Stamp};

/// Loads the tail.
pub fn load_tail<L: RowLaw>(t: &Table<L>, p: &mut Pass, who: Seat, purpose: TailUse) -> Stamp
    requires fits { Fits t.now.words.shared.table_id p.old }
    requires held { IsSome (part_in (view p.old) who) }
    requires ready { Ready (view p.old) who (LoadTail purpose) }
    ensures fits { Fits t.now.words.shared.table_id p.new }
    ensures told { ToldUnder L.law (view p.old) who (LoadTail purpose) result (view p.new) }
    ensures booked { Booked L.law (book p.old) who (LoadTail purpose) result (book p.new) }
{
    let kind = Kind::LoadTail { purpose };
    step(t, p, who, kind, Word::Tail, Change::Keep)
}

/// Adds to the tail: draws a range of the log for the seat's transaction, which is lawful. The range begins at the answer.
pub fn add_tail<L: RowLaw>(t: &Table<L>, p: &mut Pass, who: Seat, size: u64) -> Stamp
    requires fits { Fits t.now.words.shared.table_id p.old }
    requires held { IsSome (part_in (view p.old) who) }
    requires lawful { IsLawfulRecord L.law (record_of who (part_of (view p.old) who).current) }
    requires ready { Ready (view p.old) who (AddTail size) }
    ensures fits { Fits t.now.words.shared.table_id p.new }
    ensures told { ToldUnder L.law (view p.old) who (AddTail size) result (view p.new) }
    ensures booked { Booked L.law (book p.old) who (AddTail size) result (book p.new) }
{
    let kind = Kind::AddTail { size };
    step(t, p, who, kind, Word::Tail, Change::Add(size))
}

/// Stores the own begin word.
pub fn store_begin<L: RowLaw>(t: &Table<L>, p: &mut Pass, who: Seat, value: Stamp)
    requires fits { Fits t.now.words.shared.table_id p.old }
    requires held { IsSome (part_in (view p.old) who) }
    requires seat { is_seat who ≡ true }
    requires ready { Ready (view p.old) who (StoreBegin value) }
    ensures fits { Fits t.now.words.shared.table_id p.new }
    ensures told { (found : ℕ) × ToldUnder L.law (view p.old) who (StoreBegin value) found (view p.new) }
    ensures booked { (found : ℕ) × Booked L.law (book p.old) who (StoreBegin value) found (book p.new) }
{
    let kind = Kind::StoreBegin { value };
    step(t, p, who, kind, Word::Begin(who), Change::Set(value));
}

/// Stores the own state word.
pub fn store_state<L: RowLaw>(t: &Table<L>, p: &mut Pass, who: Seat, value: Stamp)
    requires fits { Fits t.now.words.shared.table_id p.old }
    requires held { IsSome (part_in (view p.old) who) }
    requires seat { is_seat who ≡ true }
    requires ready { Ready (view p.old) who (StoreState value) }
    ensures fits { Fits t.now.words.shared.table_id p.new }
    ensures told { (found : ℕ) × ToldUnder L.law (view p.old) who (StoreState value) found (view p.new) }
    ensures booked { (found : ℕ) × Booked L.law (book p.old) who (StoreState value) found (book p.new) }
{
    let kind = Kind::StoreState { value };
    step(t, p, who, kind, Word::State(who), Change::Set(value));
}

/// Loads the begin word of a seat.
pub fn load_begin<L: RowLaw>(t: &Table<L>, p: &mut Pass, who: Seat, seat: Seat) -> Stamp
    requires fits { Fits t.now.words.shared.table_id p.old }
    requires held { IsSome (part_in (view p.old) who) }
    requires seat { is_seat seat ≡ true }
    requires ready { Ready (view p.old) who (LoadBegin seat) }
    ensures fits { Fits t.now.words.shared.table_id p.new }
    ensures told { ToldUnder L.law (view p.old) who (LoadBegin seat) result (view p.new) }
    ensures booked { Booked L.law (book p.old) who (LoadBegin seat) result (book p.new) }
{
    let kind = Kind::LoadBegin { seat };
    step(t, p, who, kind, Word::Begin(seat), Change::Keep)
}

/// Loads the state word of a seat, to compare it with a bound.
pub fn load_state<L: RowLaw>(
    t: &Table<L>,
    p: &mut Pass,
    who: Seat,
    seat: Seat,
    bound: Stamp,
) -> Stamp
    requires fits { Fits t.now.words.shared.table_id p.old }
    requires held { IsSome (part_in (view p.old) who) }
    requires seat { is_seat seat ≡ true }
    requires ready { Ready (view p.old) who (LoadState seat bound) }
    ensures fits { Fits t.now.words.shared.table_id p.new }
    ensures told { ToldUnder L.law (view p.old) who (LoadState seat bound) result (view p.new) }
    ensures booked { Booked L.law (book p.old) who (LoadState seat bound) result (book p.new) }
{
    let kind = Kind::LoadState { seat, bound };
    step(t, p, who, kind, Word::State(seat), Change::Keep)
}

/// Stores the own back word.
pub fn store_back<L: RowLaw>(t: &Table<L>, p: &mut Pass, who: Seat, value: Stamp)
    requires fits { Fits t.now.words.shared.table_id p.old }
    requires held { IsSome (part_in (view p.old) who) }
    requires session { is_session who ≡ true }
    requires ready { Ready (view p.old) who (StoreBack value) }
    ensures fits { Fits t.now.words.shared.table_id p.new }
    ensures told { (found : ℕ) × ToldUnder L.law (view p.old) who (StoreBack value) found (view p.new) }
    ensures booked { (found : ℕ) × Booked L.law (book p.old) who (StoreBack value) found (book p.new) }
{
    let kind = Kind::StoreBack { value };
    step(t, p, who, kind, Word::Back(who), Change::Set(value));
}

/// Loads the back word of a session.
pub fn load_back<L: RowLaw>(t: &Table<L>, p: &mut Pass, who: Seat, seat: Seat) -> Stamp
    requires fits { Fits t.now.words.shared.table_id p.old }
    requires held { IsSome (part_in (view p.old) who) }
    requires session { is_session seat ≡ true }
    requires ready { Ready (view p.old) who (LoadBack seat) }
    ensures fits { Fits t.now.words.shared.table_id p.new }
    ensures told { ToldUnder L.law (view p.old) who (LoadBack seat) result (view p.new) }
    ensures booked { Booked L.law (book p.old) who (LoadBack seat) result (book p.new) }
{
    let kind = Kind::LoadBack { seat };
    step(t, p, who, kind, Word::Back(seat), Change::Keep)
}

/// Takes a row back: of a claim whose own cell has the row of the version overwritten, no write has set the row. Meets no word.
pub fn unset<L: RowLaw>(t: &Table<L>, p: &mut Pass, who: Seat, claim: usize)
    requires fits { Fits t.now.words.shared.table_id p.old }
    requires held { IsSome (part_in (view p.old) who) }
    requires seat { is_seat who ≡ true }
    requires ready { Ready (view p.old) who (Unset claim) }
    ensures fits { Fits t.now.words.shared.table_id p.new }
    ensures told { ToldUnder L.law (view p.old) who (Unset claim) 0 (view p.new) }
    ensures booked { Booked L.law (book p.old) who (Unset claim) 0 (book p.new) }
{
    pass_by(t, p, who, Kind::Unset { claim });
}
