//! Laws of runs. Each holds for every value, and its function does nothing.
ghost use Rattle.erm_log_run.specs.Alike.{SessionsCloseAlike};

/// However all sessions of a world are closed, each is closed with the same answer.
pub fn sessions_close_alike()
    ensures { SessionsCloseAlike }
{}
