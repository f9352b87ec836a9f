//! What a step on a word tells a pass.
use crate::view::Book;
use atomic_table::{Join, Play, Split};
use erm_machine::Kind;
use erm_model::RowLaw;
use std::marker::{Brand, PhantomData};

/// Which seat steps, and which kind of step it takes: for proofs alone.
pub trait Deed {
    ghost use Rattle.std.specs.Prelude.{ℕ};
    ghost use Rattle.erm_machine.specs.declared.event.Kind.{Kind};

    ghost seat: { ℕ };

    ghost kind: { Kind };
}

impl Deed for Brand {
    ghost use Rattle.erm_machine.specs.declared.event.Kind.TheVariants.{LoadFlushed};

    ghost seat = { 0 };

    ghost kind = { LoadFlushed };
}

/// The step is one of the machine, and the word is the one that it met.
pub(crate) struct Finds<L, M> {
    of: PhantomData<(L, M)>,
}

impl<L: RowLaw, M: Deed> Play<(), Book> for Finds<L, M> {
    ghost use Rattle.std.specs.Prelude.{◌≡◌};
    ghost use Rattle.erm_rule.specs.Steps.{Booked};

    ghost then = { λ _ me found after. Booked L.law me.0 M.seat M.kind found after.0 × (after.1 ≡ me.1) };
}

/// The step is one of the machine that meets no word: the word that was read tells nothing.
pub(crate) struct Passes<L, M> {
    of: PhantomData<(L, M)>,
}

impl<L: RowLaw, M: Deed> Play<(), Book> for Passes<L, M> {
    ghost use Rattle.std.specs.Prelude.{◌≡◌};
    ghost use Rattle.erm_rule.specs.Steps.{Booked};

    ghost then = { λ _ me found after. Booked L.law me.0 M.seat M.kind 0 after.0 × (after.1 ≡ me.1) };
}

/// A pass hands out its last seat. Both passes have its steps.
pub(crate) struct Cut;

impl Split<Book> for Cut {
    ghost use Rattle.erm_rule.specs.Books.{left_book, right_book};

    ghost left = { left_book };

    ghost right = { right_book };
}

/// A pass takes in the seats of another, and its book as it was.
pub(crate) struct Glue;

impl Join<Book> for Glue {
    ghost use Rattle.erm_rule.specs.Books.{both_books, spent_book};

    ghost both = { both_books };

    ghost spent = { spent_book };
}
