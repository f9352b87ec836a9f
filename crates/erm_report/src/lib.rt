//! Reports: the lines that the program prints, and their bytes.
#![tactic(auto)]

mod answer;
mod laws;
mod line;
mod printing;
mod text;

pub use answer::Answer;
pub use laws::texts_determine_lines;
pub use line::Line;
pub use printing::{DISK_FAULT, NO_BASE, NO_MEMORY, READ_FAULT, TOO_LONG};
pub use text::Text;
