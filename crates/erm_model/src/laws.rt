//! Laws of the definitions. Each holds for every value, and its function does nothing.
ghost use Rattle.std.specs.Prelude.{◌≡◌, ◌↔◌, List, Some};
ghost use Rattle.erm_model.specs.declared.history.TransactionRecord.{TransactionRecord};
ghost use Rattle.erm_model.specs.declared.operation.Op.{Op};
ghost use Rattle.erm_model.specs.Database.{Database};
ghost use Rattle.erm_model.specs.Lawful.{AgreesWithRecord, Fits, FitsAs, IsLawfulRecord};
ghost use Rattle.erm_model.specs.RowTransaction.{IsLawful};
ghost use Rattle.erm_model.specs.Rows.{Rows};
ghost use Rattle.erm_model.specs.Member.{◌∈◌};
ghost use Rattle.erm_model.specs.Run.{AreOnMap, IsOnMap, RepliesAreDetermined, RunsFrom, RunsOn, Saving, Step, after_all, after_from, change_all, going_on, ops_of};
ghost use Rattle.erm_model.specs.Staying.{staying};

use crate::{RowLaw, RowRead};

/// One transaction's operations have one list of replies on a database map, whatever answers them.
pub fn replies_are_determined()
    ensures { RepliesAreDetermined }
{}

/// Operations on the map alone leave what is saved, and run and are answered as if there were no savepoints.
pub fn steps_on_the_map_run_alone()
    ensures run { (steps : List Step) (s : Saving Database) → AreOnMap steps → RunsFrom s steps ↔ RunsOn s.now steps }
    ensures after { (steps : List Step) (s : Saving Database) → AreOnMap steps
        → after_from (ops_of steps) s ≡ going_on (change_all (ops_of steps) s.now) s }
{}

/// The map after a transaction's operations is that after those of them that stay once it has gone back wherever it did.
pub fn what_stays_leaves_the_map()
    ensures among { (ops : List Op) (op : Op) → op ∈ staying Some ops → (op ∈ ops) × IsOnMap op }
    ensures after { (ops : List Op) (m : Database) → after_all ops m ≡ change_all (staying Some ops) m }
{}

/// An array of rows fits a record of a transaction just where it meets the law and agrees with the record's lists: with the
/// rows that were read, with those that claims found, and by reaching none of the objects made.
pub fn arrays_fit_what_they_agree_with<R: RowLaw>()
    ensures { (t : TransactionRecord) (rows : Rows) → Fits R.law t rows ↔ AgreesWithRecord R.law t rows }
{}

/// Where a transaction keeps its law, each record that tells of it is lawful.
pub fn lawful_transactions_have_lawful_records<T: RowRead>()
    ensures { (s : T) (t : TransactionRecord) → FitsAs T.face s t → IsLawful T.face s → IsLawfulRecord T.face.law t }
{}
