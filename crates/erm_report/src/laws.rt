//! Laws of the texts. Each holds for every value, and its function does nothing.
ghost use Rattle.erm_report.specs.Printable.{TextsDetermineLines};

/// A text determines its lines, but for the command that a `none` answers.
pub fn texts_determine_lines()
    ensures { TextsDetermineLines }
{}
