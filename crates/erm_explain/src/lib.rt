//! Why lines of a script were refused: which line of the report's is the cause.
#![tactic(auto)]

mod books;
mod cause;
mod causes;
mod commands;
mod laws;
mod links;
mod told;

pub use books::{Books, SEATS};
pub use cause::{Cause, cause_of};
pub use causes::explain;
pub use commands::{is_writer, table_of, works_on_map};
pub use laws::good_reports_show_causes;
pub use links::{Link, Sought, Touch, find_link, find_over};
pub use told::{Ending, Told};
