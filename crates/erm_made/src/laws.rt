//! Laws of the counts. Each holds for every value, and its function does nothing.
ghost use Rattle.erm_made.specs.Law.{CountsAddUp, EachIsCounted, NoneMeetsNewer};

/// In each good report of a workload in which no answer is a wait or that the log has ended, each of its transactions ends once: it
/// commits, is excluded, meets an owner or meets a newer version. Where lines are run in turn none meets a newer version, and the counts
/// add up to all.
pub fn each_transaction_is_counted()
    ensures each { EachIsCounted }
    ensures newer { NoneMeetsNewer }
    ensures sum { CountsAddUp }
{}
