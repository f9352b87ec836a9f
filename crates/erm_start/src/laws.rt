//! A law of the rows on which a world starts. It holds for every value, and its function does nothing.
ghost use Rattle.std.specs.Prelude.{◌≡◌, ◌<◌, ℕ, replicate};
ghost use Rattle.std.specs.FinMap.{empty};
ghost use Rattle.erm_model.specs.Rows.{Rows};
ghost use Rattle.erm_model.specs.declared.TheConstants.{ROW_WORDS};
ghost use Rattle.erm_model.specs.declared.limits.TheConstants.{OID_LIMIT, TABLES};
ghost use Rattle.erm_node.specs.TreeMap.{map_of_rows};
ghost use Rattle.erm_lines.specs.Executions.{count_rows};
ghost use Rattle.erm_start.specs.Recovered.{IsFirstObject};

/// Rows of zeros are those of the empty map; none is in use, and the first object that a world makes on them is that behind the tables.
pub fn zero_rows_are_the_empty_map()
    ensures map { (rows : Rows) → ((oid : ℕ) → oid < OID_LIMIT → rows oid ≡ replicate ROW_WORDS 0) → map_of_rows rows ≡ empty }
    ensures rows { (rows : Rows) → ((oid : ℕ) → oid < OID_LIMIT → rows oid ≡ replicate ROW_WORDS 0) → count_rows rows ≡ 0 }
    ensures first { (rows : Rows) (first : ℕ) → ((oid : ℕ) → oid < OID_LIMIT → rows oid ≡ replicate ROW_WORDS 0) → IsFirstObject rows first → first ≡ TABLES }
{}
