//! A world of sessions whose log a flusher sees.
ghost use Rattle.erm_model.specs.RowTransaction.{SameLaw};
ghost use Rattle.erm_world.specs.Whole.{IsLogOf, KeepsSessions};

use crate::{LogWorld, SafeWorld};

/// A world of sessions whose log a flusher sees. Its sessions may have snapshots that only read; sessions and the flusher see one state of it.
pub trait ScriptWorld: SafeWorld + LogWorld {
    /// The sessions and the flusher speak of one law of rows.
    ghost one_law: { SameLaw Self.law Self.rows_law };

    /// Between two calls of sessions a flusher may call.
    ghost may_flush: { (w : Self) → Self.stands w → Self.log_stands w };

    /// A flusher's calls leave the sessions, which may call again.
    ghost sessions_stay: { (s t : Self) → Self.stands s → Self.keeps s t → Self.log_stands t
        → Self.stands t × KeepsSessions (Self.view s) (Self.view t) };

    /// The log is that of the world's view.
    ghost one_log: { (w : Self) → Self.stands w → IsLogOf (Self.view w) (Self.log w) };
}
