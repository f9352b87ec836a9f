//! The rule of the words that threads share: between any two steps on a word they stand, with what each pass knows, for a sound
//! state of the core machine, and a step on a word is a step of that machine.
#![tactic(auto)]

mod change;
mod laws;
mod life;
mod passes;
mod plays;
mod rule;
mod stepping;
mod view;
mod words;

pub use change::Change;
pub use laws::{notes_are_kept, notes_hold, sessions_are_handed_out, whole_books_have_one_state};
pub use life::{
    add_tail, load_back, load_begin, load_state, load_tail, store_back, store_begin, store_state,
    unset,
};
pub use passes::{close, join, open, split};
pub use plays::Deed;
pub use rule::{Pass, Standing, Table};
pub use stepping::{step, step_as};
pub use view::{Book, Held, Opening, Past, Start, Taken, View};
