//! Steps on entries.
ghost use Rattle.std.specs.Prelude.{◌≡◌, ◌<◌, ℕ, IsSome};
ghost use Rattle.erm_machine.specs.declared.event.Kind.TheVariants.{LoadEntry, Claim, Install};
ghost use Rattle.erm_rule.specs.Books.{book};
ghost use Rattle.erm_rule.specs.Steps.{Fits, Ready, ToldUnder, Booked};
ghost use Rattle.erm_rule.specs.Views.{view, part_in};

use erm_kept::words::claimed;
use erm_layout::Word;
use erm_machine::{Kind, OBJECT_LIMIT};
use erm_model::{Oid, RowLaw, Seat};
use erm_rule::{Change, Pass, Table, step};

/// Loads an object's entry.
pub fn load_entry<L: RowLaw>(t: &Table<L>, p: &mut Pass, who: Seat, oid: Oid) -> u64
    requires fits { Fits t.now.words.shared.table_id p.old }
    requires held { IsSome (part_in (view p.old) who) }
    requires object { oid < OBJECT_LIMIT }
    requires ready { Ready (view p.old) who (LoadEntry oid) }
    ensures fits { Fits t.now.words.shared.table_id p.new }
    ensures told { ToldUnder L.law (view p.old) who (LoadEntry oid) result (view p.new) }
    ensures booked { Booked L.law (book p.old) who (LoadEntry oid) result (book p.new) }
{
    step(
        t,
        p,
        who,
        Kind::LoadEntry { oid },
        Word::Entry(oid),
        Change::Keep,
    )
}

/// Exchanges an entry for one with the same head that the seat's transaction of this number owns, where it still is the one
/// seen. The answer is the entry found.
pub fn claim_entry<L: RowLaw>(
    t: &Table<L>,
    p: &mut Pass,
    who: Seat,
    oid: Oid,
    seen: u64,
    number: u32,
) -> u64
    requires fits { Fits t.now.words.shared.table_id p.old }
    requires held { IsSome (part_in (view p.old) who) }
    requires object { oid < OBJECT_LIMIT }
    requires ready { Ready (view p.old) who (Claim oid seen number) }
    ensures fits { Fits t.now.words.shared.table_id p.new }
    ensures told { ToldUnder L.law (view p.old) who (Claim oid seen number) result (view p.new) }
    ensures booked { Booked L.law (book p.old) who (Claim oid seen number) result (book p.new) }
{
    let kind = Kind::Claim { oid, seen, number };
    let owned = claimed(seen, who, number);
    step(
        t,
        p,
        who,
        kind,
        Word::Entry(oid),
        Change::Exchange {
            old: seen,
            new: owned,
        },
    )
}

/// Stores an entry without owner, whose head is this cell: installs a version, or releases the entry with its old head.
pub fn install<L: RowLaw>(t: &Table<L>, p: &mut Pass, who: Seat, oid: Oid, head: u32)
    requires fits { Fits t.now.words.shared.table_id p.old }
    requires held { IsSome (part_in (view p.old) who) }
    requires object { oid < OBJECT_LIMIT }
    requires ready { Ready (view p.old) who (Install oid head) }
    ensures fits { Fits t.now.words.shared.table_id p.new }
    ensures told { (found : ℕ) × ToldUnder L.law (view p.old) who (Install oid head) found (view p.new) }
    ensures booked { (found : ℕ) × Booked L.law (book p.old) who (Install oid head) found (book p.new) }
{
    let kind = Kind::Install { oid, head };
    step(
        t,
        p,
        who,
        kind,
        Word::Entry(oid),
        Change::Set(u64::from(head)),
    );
}
