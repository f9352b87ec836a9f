//! Laws of desks, and of passes with which nothing was flushed. Each holds for every value, and its function does nothing.
ghost use Rattle.std.specs.Prelude.{◌≡◌, ℕ, false, IfSome, List, Option, Result};
ghost use Rattle.erm_desk.specs.Desk.{IsDesk, PinStays, Sees, TakesIn, TurnsTo};
ghost use Rattle.erm_desk.specs.Known.{AwaitsLog, HasEnded, HasStopped, IsFlushedTo, KnowsLog};
ghost use Rattle.erm_desk.specs.Turns.{DidLook, DidStore, FlushSteps};
ghost use Rattle.erm_flush.specs.declared.stops.FlushStop.{FlushStop};
ghost use Rattle.erm_flush.specs.Over.{TurnsKnown, TurnsOver};
ghost use Rattle.erm_flush.specs.Turns.{Counts, IsReady};
ghost use Rattle.erm_outside.specs.Disk.{Step};
ghost use Rattle.erm_pin.specs.Pins.{IsUnpinned};
ghost use Rattle.erm_ring.specs.Turns.{MayGather, WasOpen};
ghost use Rattle.erm_rule.specs.declared.view.Book.{Book};
ghost use Rattle.erm_rule.specs.declared.view.Opening.{Opening};
ghost use Rattle.erm_rule.specs.declared.view.Start.{Start};
ghost use Rattle.erm_rule.specs.Books.{left_book};
ghost use Rattle.erm_rule.specs.Rule.{first_book};
ghost use Rattle.erm_rule.specs.Views.{left_of};
ghost use Rattle.erm_world.specs.Log.{Log};

use erm_model::RowLaw;
use erm_record::stored_words_tell_the_row;

/// With the first pass of a table the log is flushed where the opening begins it, and isn't pinned; it stays so while that pass hands out
/// sessions.
pub fn first_passes_are_unflushed()
    ensures unpinned { (opening : Opening) → IsUnpinned (first_book opening).view }
    ensures first { (opening : Opening) → IsFlushedTo (first_book opening) opening.tail }
    ensures left_unpinned { (b : Book) → MayGather (left_of b.view) → IsUnpinned b.view → IsUnpinned (left_book b).view }
    ensures left { (b : Book) (place : ℕ) → MayGather (left_of b.view) → IsFlushedTo b place → IsFlushedTo (left_book b) place }
{}

/// What is so of a desk is so of it once its pass has taken in others.
pub fn desks_take_in<L: RowLaw>()
    ensures { (o : Start) (began : Option (List Step)) (first : ℕ) (s : Sees) (e : Book) → IsDesk L.law o began first s → TakesIn s.book e
        → IsDesk L.law o began first (record s { book = e }) }
{
    erm_core_stays::decided_blocks_stay();
}

/// What a turn did, and what that means for the log, leaves a desk, and is what it answers.
pub(crate) fn turns_keep_desks<L: RowLaw>()
    ensures { (o : Start) (began : Option (List Step)) (first : ℕ) (s t : Sees) (answer : Result ℕ FlushStop)
        → IsDesk L.law o began first s → TurnsOver (DidLook L.law) (DidStore L.law) answer s.failed t.failed s.book t.book s.told t.told → Counts answer s.faults t.faults
        → ((l : Log) → KnowsLog L.law s.book l → (s.failed ≡ false → IfSome s.told (IsReady l))
        → TurnsKnown L.law.meets (KnowsLog L.law) (AwaitsLog L.law) HasEnded WasOpen HasStopped answer l s.book t.book s.told t.told)
        → IsDesk L.law o began first t × TurnsTo L.law o answer s t × PinStays s.book t.book × FlushSteps L.law s.book t.book }
{
    erm_core_stays::decided_blocks_stay();
    stored_words_tell_the_row();
    erm_crash::flushes_keep::<L>();
    erm_crash::moments_go_on::<L>();
    erm_crash::kept_logs_begin::<L>();
    erm_checkpoint::flushed_logs_are_held::<L>();
    erm_log_disk::writes_join();
    erm_told_log::flushed_logs_meet_more::<L>();
}
