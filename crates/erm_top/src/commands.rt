//! The commands that the program has.

/// The line that says how the program is used.
pub const USAGE: &[u8] =
    b"usage: erm run | threads | make --count N --sessions K [--text] | recover | audit | checkpoint | ship | follow | replica\n";
