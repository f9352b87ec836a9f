//! Scripts: what their lines ask for, which bytes spell which lines, and the reading of them.
#![tactic(auto)]

mod fault;
mod grammar;
mod keyword;
mod laws;
mod parser;
mod script;
mod sessions;

pub use fault::{FaultKind, ScriptFault};
pub use grammar::Grammar;
pub use keyword::Keyword;
pub use laws::{first_faults_are_unique, lines_of_scripts_have_no_fault, scripts_have_one_reading};
pub use parser::{ParseError, Script, parse};
pub use script::{Command, LAST_TABLE, NO_SESSION, ScriptLine};
