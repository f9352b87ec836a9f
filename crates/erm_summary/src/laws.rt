//! Laws of the definitions. Each holds for every value, and its function does nothing.
ghost use Rattle.erm_summary.specs.Summary.{SummariesAreGood};
ghost use Rattle.erm_summary.specs.Tables.{SummariesAreInTables};

/// The lines of a summary are a good report, with its answers and closed sessions, where these owe what they owe, and where each serial
/// order runs to the map after it.
pub fn summaries_are_good()
    ensures { SummariesAreGood }
{}

/// The lines of a summary name tables that there are, where no other table has a key in the map that it starts from, and none is
/// named by the commands of its script.
pub fn summaries_are_in_tables()
    ensures { SummariesAreInTables }
{}
