//! What a disk recovers to, and the opening of its log.
#![tactic(auto)]

mod laws;
mod list;
mod open;
mod recovered;
mod recovery;
mod rows;
mod slots;
mod sound_rows;
mod stop;
mod tail;
mod waiting;

pub use laws::waits_add_nothing;
pub use list::{WINDOW_BYTES, WINDOW_WORDS, read_list};
pub use open::{OpenStop, open_log};
pub use recovered::Recovered;
pub use recovery::recover;
pub use rows::{ReplaceTest, set_block};
pub use slots::SLOT_BYTES;
pub use sound_rows::{SoundTest, zero_rows_are_sound};
pub use stop::RecoverStop;
pub use tail::Tail;
