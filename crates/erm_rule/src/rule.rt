//! The rule of the table's words.
use crate::view::{Book, Opening};
use atomic_table::{Seat, TableRule};
use erm_model::RowLaw;
use std::alloc::Global;
use std::marker::PhantomData;

/// The words and the views of all passes stand for a sound state of the machine, whose rows keep the law `L`, and whose decided
/// blocks are spelled. The steps that each pass has taken lead from the opening's state to that one.
pub struct Standing<L> {
    law: PhantomData<L>,
}

impl<L: RowLaw> TableRule<(), Book, Opening> for Standing<L> {
    ghost use Rattle.erm_rule.specs.Rule.{KeptUnder, first_book};

    ghost holds = { KeptUnder L.law };

    ghost first = { first_book };
}

/// The words that all seats share. Nothing but the steps of this crate can change them.
#[derive(Drop)]
pub struct Table<L: RowLaw> {
    pub(crate) words: atomic_table::Table<(), Book, Opening, Standing<L>, Global>,
}

/// The right to step for some seats. It has no bytes.
pub type Pass = Seat<(), Book>;
