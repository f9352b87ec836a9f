//! Steps of seats on words. A step is to be one that the machine takes, whatever the pass leaves open, a range of the log is to be drawn
//! for a lawful transaction, and a transaction that is decided is to be spelled. A step comes in two forms: the kind of step is passed,
//! or it is for the proof alone, as a caller on words need not know it. A step that meets no word is told of beside a word that it leaves.
ghost use Rattle.std.specs.Prelude.{◌≡◌, true, Some, IsSome};
ghost use Rattle.erm_layout.specs.Layout.{HasNumber};
ghost use Rattle.erm_layout.specs.Spots.{word_of_spot};
ghost use Rattle.erm_machine.specs.Core.{no_word, spot_of};
ghost use Rattle.erm_machine.specs.Step.{is_known};
ghost use Rattle.erm_machine.specs.Words.{is_seat};
ghost use Rattle.erm_rule.specs.Cells.{IsTold};
ghost use Rattle.erm_rule.specs.Changes.{changed};
ghost use Rattle.erm_rule.specs.Steps.{Fits, Ready, Agrees, Promises, ToldUnder, Booked};
ghost use Rattle.erm_rule.specs.Books.{book};
ghost use Rattle.erm_rule.specs.Views.{view, part_in};

use crate::change::Change;
use crate::plays::{Deed, Finds, Passes};
use crate::rule::{Pass, Table};
use erm_layout::Word;
use erm_machine::Kind;
use erm_model::{RowLaw, Seat};
use std::marker::Brand;

/// Changes the word that the seat's step meets, as the step does. The answer is the word found.
#[inline(always)]
pub fn step<L: RowLaw>(
    t: &Table<L>,
    p: &mut Pass,
    who: Seat,
    kind: Kind,
    word: Word,
    change: Change,
) -> u64
    requires fits { Fits t.now.words.shared.table_id p.old }
    requires held { IsSome (part_in (view p.old) who) }
    requires ready { Ready (view p.old) who kind }
    requires lawful { Promises L.law (view p.old) who kind }
    requires known { is_known kind ≡ true }
    requires told { IsTold kind }
    requires met { word_of_spot (spot_of who kind) ≡ Some word }
    requires numbered { HasNumber word }
    requires agrees { Agrees (view p.old) who kind (changed change) }
    ensures fits { Fits t.now.words.shared.table_id p.new }
    ensures told { ToldUnder L.law (view p.old) who kind result (view p.new) }
    ensures booked { Booked L.law (book p.old) who kind result (book p.new) }
{
    step_by::<L, Brand>(t, p, who, kind, word, change)
}

// The kind is passed for the choice of what the play tells.
#[inline(always)]
fn step_by<L: RowLaw, M: Deed>(
    t: &Table<L>,
    p: &mut Pass,
    who: Seat,
    _kind: Kind,
    word: Word,
    change: Change,
) -> u64
    requires seat { M.seat ≡ who }
    requires fits { Fits t.now.words.shared.table_id p.old }
    requires held { IsSome (part_in (view p.old) who) }
    requires ready { Ready (view p.old) who M.kind }
    requires lawful { Promises L.law (view p.old) who M.kind }
    requires known { is_known M.kind ≡ true }
    requires told { IsTold M.kind }
    requires met { word_of_spot (spot_of who M.kind) ≡ Some word }
    requires numbered { HasNumber word }
    requires agrees { Agrees (view p.old) who M.kind (changed change) }
    ensures fits { Fits t.now.words.shared.table_id p.new }
    ensures told { ToldUnder L.law (view p.old) who M.kind result (view p.new) }
    ensures booked { Booked L.law (book p.old) who M.kind result (book p.new) }
{
    step_as::<L, M>(t, p, who, word, change)
}

/// The same, where the kind of step is for the proof alone.
#[inline(always)]
pub fn step_as<L: RowLaw, M: Deed>(
    t: &Table<L>,
    p: &mut Pass,
    who: Seat,
    word: Word,
    change: Change,
) -> u64
    requires seat { M.seat ≡ who }
    requires fits { Fits t.now.words.shared.table_id p.old }
    requires held { IsSome (part_in (view p.old) who) }
    requires ready { Ready (view p.old) who M.kind }
    requires lawful { Promises L.law (view p.old) who M.kind }
    requires known { is_known M.kind ≡ true }
    requires told { IsTold M.kind }
    requires met { word_of_spot (spot_of who M.kind) ≡ Some word }
    requires numbered { HasNumber word }
    requires agrees { Agrees (view p.old) who M.kind (changed change) }
    ensures fits { Fits t.now.words.shared.table_id p.new }
    ensures told { ToldUnder L.law (view p.old) who M.kind result (view p.new) }
    ensures booked { Booked L.law (book p.old) who M.kind result (book p.new) }
{
    erm_sound::events_keep_sound();
    erm_core_lives::law_is_kept::<L>();
    erm_core_blocks::blocks_stay_spelled();
    erm_layout::one_number();
    erm_layout::numbers_below();
    let words = &t.words.shared;
    let number = erm_layout::index(word);
    match change {
        Change::Keep => words.load::<Finds<L, M>>(p, number),
        Change::Set(new) => words.swap::<Finds<L, M>>(p, number, new),
        Change::Add(more) => words.fetch_add::<Finds<L, M>>(p, number, more),
        Change::Exchange { old, new } => {
            words.compare_exchange::<Finds<L, M>>(p, number, old, new)
        }
        Change::Or(bits) => words.fetch_or::<Finds<L, M>>(p, number, bits),
        Change::And(bits) => words.fetch_and::<Finds<L, M>>(p, number, bits),
        Change::Raise(least) => words.fetch_max::<Finds<L, M>>(p, number, least),
    }
}

/// Takes a step that meets no word. The own begin word is read, which tells nothing.
#[inline(always)]
pub(crate) fn pass_by<L: RowLaw>(t: &Table<L>, p: &mut Pass, who: Seat, kind: Kind)
    requires fits { Fits t.now.words.shared.table_id p.old }
    requires held { IsSome (part_in (view p.old) who) }
    requires seat { is_seat who ≡ true }
    requires ready { Ready (view p.old) who kind }
    requires lawful { Promises L.law (view p.old) who kind }
    requires known { is_known kind ≡ true }
    requires told { IsTold kind }
    requires none { spot_of who kind ≡ no_word }
    ensures fits { Fits t.now.words.shared.table_id p.new }
    ensures told { ToldUnder L.law (view p.old) who kind 0 (view p.new) }
    ensures booked { Booked L.law (book p.old) who kind 0 (book p.new) }
{
    passes::<L, Brand>(t, p, who, kind);
}

// The kind is passed for the choice of what the play tells.
#[inline(always)]
fn passes<L: RowLaw, M: Deed>(t: &Table<L>, p: &mut Pass, who: Seat, _kind: Kind)
    requires which { (M.seat ≡ who) × (M.kind ≡ _kind) }
    requires fits { Fits t.now.words.shared.table_id p.old }
    requires held { IsSome (part_in (view p.old) who) }
    requires seat { is_seat who ≡ true }
    requires ready { Ready (view p.old) who M.kind }
    requires lawful { Promises L.law (view p.old) who M.kind }
    requires known { is_known M.kind ≡ true }
    requires told { IsTold M.kind }
    requires none { spot_of who M.kind ≡ no_word }
    ensures fits { Fits t.now.words.shared.table_id p.new }
    ensures told { ToldUnder L.law (view p.old) who M.kind 0 (view p.new) }
    ensures booked { Booked L.law (book p.old) who M.kind 0 (book p.new) }
{
    erm_sound::events_keep_sound();
    erm_core_lives::law_is_kept::<L>();
    erm_core_blocks::blocks_stay_spelled();
    erm_layout::one_number();
    erm_layout::numbers_below();
    let number = erm_layout::index(Word::Begin(who));
    t.words.shared.load::<Passes<L, M>>(p, number);
}
