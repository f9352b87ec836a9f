//! Laws of the calls. Each holds for every value, and its function does nothing.
ghost use Rattle.std.specs.Prelude.{◌≡◌, ℕ, List, [], Option};
ghost use Rattle.erm_model.specs.RowTransaction.{Event, did_read, did_claim, did_make, asked_read, asked_claim, asked_make, WritesNothing, GoesOn, Stays, StopsRead, StopsClaim, StopsMake};
ghost use Rattle.erm_record.specs.Record.{value_row};
ghost use Rattle.erm_node.specs.TreeMap.{record_in};
ghost use Rattle.erm_tree.specs.Calls.{AsksReads, IsReady, Reads};
ghost use Rattle.erm_tree.specs.Change.{AsksDel, AsksPut, IsPrefix, IsPut, PutsAreBounded, RefusedPutsAreBounded, StopsChange, StopsPut};
ghost use Rattle.erm_tree.specs.Operations.{AnswersStutter, CutOffsStutter, LooksStutter, OperationsAreRunOne, RefusalsStutter, StaysReady, Stutters};
ghost use Rattle.erm_tree.specs.Reads.{IsMetIn, IsOnWay, IsSought};
ghost use Rattle.erm_tree.specs.Tables.{AreReached, DelsAskOwn, DelsChangeOne, DelsClaimOwn, ObjectsHaveOneTable, OtherRootsAreOffWay, PutsAskOwn, PutsChangeOne, PutsClaimOwn, RecordsAreOffWay, RefusedPutsStayIn, RefusedStaysIn, TablesStandApart};
ghost use Rattle.erm_tree.specs.Walk.{IsMetByNext};

use erm_model::RowRead;
use erm_node::nodes_are_read_back;

/// Operations that calls of one transaction answer in turn are answered as on the database map of the rows that it saw at first,
/// one after another, and the rows that it sees at the end have the map after them. None of them is of savepoints. Calls between
/// that set no row, as those do of which the other laws tell, count as no operation. The transaction is ready for the next call.
pub fn operations_are_run_one<T: RowRead>()
    ensures run { OperationsAreRunOne T.face }
    ensures ready { StaysReady T.face }
{}

/// A call that is refused sets no row, and the transaction goes on where the refusal doesn't end it. `cut_off` is of any calls:
/// what they did sets no row, and the last one left all as it was.
pub fn refused_calls_set_no_row<T: RowRead>()
    ensures get { (table key : ℕ) → CutOffsStutter T.face StopsRead (Reads T.face.law (IsSought table key)) (AsksReads (IsSought table key)) }
    ensures next { (table from : ℕ) → CutOffsStutter T.face StopsRead (Reads T.face.law (IsMetByNext table from)) (AsksReads (IsMetByNext table from)) }
    ensures find { (table key : ℕ) → CutOffsStutter T.face StopsRead (Reads T.face.law (IsOnWay table key)) (AsksReads (IsOnWay table key)) }
    ensures del { (table key : ℕ) → CutOffsStutter T.face StopsChange (Reads T.face.law (IsOnWay table key)) (AsksDel table key) }
    ensures put { (table key : ℕ) (value : List ℕ) → CutOffsStutter T.face StopsPut (IsPrefix T.face.law (IsOnWay table key) (λ rows events. IsPut rows table key (value_row value) events)) (AsksPut table key (value_row value)) }
    ensures cut_off { (s at t : T) (events : List Event) → WritesNothing events → GoesOn T.face s events at → T.face.follows s at
        → Stays T.face at t → T.face.follows at t → Stutters T.face s t }
    ensures read { (oid : ℕ) → RefusalsStutter T.face StopsRead (asked_read oid) }
    ensures claim { (oid : ℕ) → RefusalsStutter T.face StopsClaim (asked_claim oid) }
    ensures fresh { RefusalsStutter T.face StopsMake asked_make }
{}

/// Looks for a key's object, reads, claims and calls for a new object set no row, and after calls that set no row the
/// transaction is ready for the next one.
pub fn looks_and_claims_set_no_row<T: RowRead>()
    ensures find { (table key : ℕ) (oid : Option ℕ) → LooksStutter T.face (IsOnWay table key) (λ rows. oid ≡ record_in rows table key) }
    ensures read { (oid : ℕ) (row : List ℕ) → AnswersStutter T.face (did_read oid row) }
    ensures claim { (oid : ℕ) → AnswersStutter T.face (did_claim oid) }
    ensures fresh { (oid : ℕ) → AnswersStutter T.face (did_make oid) }
    ensures ready { (s t : T) → IsReady T.face s → Stutters T.face s t → IsReady T.face t }
{}

/// The events of a put make at most `PUT_OBJECTS` objects, claim at most `PUT_ROWS` times, and set at most `PUT_ROWS`
/// rows. Those of a put that was refused do too.
pub fn puts_are_bounded<T: RowRead>()
    ensures whole { PutsAreBounded }
    ensures refused { RefusedPutsAreBounded T.face }
{}

/// Tables stand apart. A put or a del of one table leaves the tree of each other one, its rows and its values as they were, and
/// the tree of its own table reaches besides only objects that it made. No object is in the trees of two tables.
pub fn tables_stand_apart()
    ensures apart { TablesStandApart }
    ensures one { ObjectsHaveOneTable }
{
    nodes_are_read_back();
}

/// On the way to a key of a table, over sound rows, stands no other table's root, and no object that is the record of a key. So
/// a call that reads objects on the way alone reads none of these.
pub fn ways_are_of_own_nodes()
    ensures roots { OtherRootsAreOffWay }
    ensures records { RecordsAreOffWay }
{
    nodes_are_read_back();
}

/// Each put and each del of a transaction over sound rows changed the tree of its table alone, on all rows that it may have seen
/// before.
pub fn calls_change_one_table<T: RowRead>()
    ensures put { PutsChangeOne T.face }
    ensures del { DelsChangeOne T.face }
{
    tables_stand_apart();
}

/// A call stays in its own table's tree. That tree reaches each object on the way to a key, each that a look for keys meets, and
/// each that a del claims; each that a put claims, whole or cut off, it reaches or the put made. So what a refused call asked for
/// is of its table too.
pub fn calls_stay_in_their_table()
    ensures way { (table key : ℕ) → AreReached (IsOnWay table key) table }
    ensures sought { (table key : ℕ) → AreReached (IsSought table key) table }
    ensures met { (table low high : ℕ) → AreReached (λ rows x. IsMetIn rows table low high x) table }
    ensures next { (table from : ℕ) → AreReached (IsMetByNext table from) table }
    ensures put { PutsClaimOwn }
    ensures put_asks { PutsAskOwn }
    ensures del { DelsClaimOwn }
    ensures del_asks { DelsAskOwn }
{
    nodes_are_read_back();
}

/// A call that was refused claimed only objects of its own table, and what it asked for is of that table too: its tree reaches the
/// object, or the call made it.
pub fn refused_calls_stay_in_their_table<T: RowRead>()
    ensures get { (table key : ℕ) → RefusedStaysIn T.face StopsRead (Reads T.face.law (IsSought table key)) (AsksReads (IsSought table key)) table }
    ensures next { (table from : ℕ) → RefusedStaysIn T.face StopsRead (Reads T.face.law (IsMetByNext table from)) (AsksReads (IsMetByNext table from)) table }
    ensures find { (table key : ℕ) → RefusedStaysIn T.face StopsRead (Reads T.face.law (IsOnWay table key)) (AsksReads (IsOnWay table key)) table }
    ensures del { (table key : ℕ) → RefusedStaysIn T.face StopsChange (Reads T.face.law (IsOnWay table key)) (AsksDel table key) table }
    ensures put { RefusedPutsStayIn T.face }
{
    calls_stay_in_their_table();
}
