//! The rows of records: that there is no value, or which value there is. How long a row is in the log.
#![tactic(auto)]

mod stored;

ghost use Rattle.std.specs.Prelude.{◌≡◌, ◌≤◌, ℕ, List, length, Some, None, IfSome};
ghost use Rattle.erm_record.specs.Record.{IsValue, absent_row, padded, record_value, value_row};

use erm_bytes::{bytes_again, read_words, words_have_bytes, write_words};
use erm_model::{ROW_WORDS, Row, VALUE_BYTES, Value};
pub use stored::{stored_length, stored_words, stored_words_tell_the_row};

/// The kind of the row of a record without a value.
pub const ABSENT: u64 = 1;

/// The kind of the row of a record with a value.
pub const PRESENT: u64 = 2;

/// The row of a record without a value.
pub fn absent() -> Row
    ensures { result ≡ absent_row }
{
    let mut row = [0; ROW_WORDS];
    row[0] = ABSENT;
    row
}

/// The row of a record with this value.
pub fn row_of(value: &Value) -> Row
    ensures row { result ≡ value_row value.now }
    ensures value { IsValue value.now }
{
    let bytes = value.as_slice();
    let mut row = [0; ROW_WORDS];
    row[0] = PRESENT;
    row[1] = bytes.len() as u64;
    read_words(&padded_bytes(bytes), &mut row[2..]);
    row
}

// The bytes with zeros after them.
fn padded_bytes(bytes: &[u8]) -> [u8; VALUE_BYTES]
    requires { length bytes.now ≤ VALUE_BYTES }
    ensures { result ≡ padded bytes.now }
{
    let mut out = [0; VALUE_BYTES];
    out[..bytes.len()].copy_from_slice(bytes);
    out
}

/// The value of a record, or `None` where the row isn't that of a value. Reading is strict: any other word anywhere is
/// refused.
pub fn value_of(row: &Row) -> Option<Value>
    ensures found { IfSome result (λ value. IsValue value × row.now ≡ value_row value) }
    ensures given { (bytes : List ℕ) → IsValue bytes → row.now ≡ value_row bytes → result ≡ Some bytes }
    ensures value { result ≡ record_value row.now }
{
    record_values();
    spelled_value(row)
}

// The value whose row this is.
fn spelled_value(row: &Row) -> Option<Value>
    ensures found { IfSome result (λ value. IsValue value × row.now ≡ value_row value) }
    ensures given { (bytes : List ℕ) → IsValue bytes → row.now ≡ value_row bytes → result ≡ Some bytes }
{
    let bytes = bytes_of_row(row);
    value_with_row(bytes.get(..row[1] as usize)?, row)
}

// The value of these bytes, or `None` where the row is another.
fn value_with_row(bytes: &[u8], row: &Row) -> Option<Value>
    ensures found { IfSome result (λ value. IsValue value × row.now ≡ value_row value) }
    ensures given { IsValue bytes.now → row.now ≡ value_row bytes.now → result ≡ Some bytes.now }
{
    let value = Value::new(bytes)?;
    (row_of(&value) == *row).then_some(value)
}

// The bytes of the words behind the length.
fn bytes_of_row(row: &Row) -> [u8; VALUE_BYTES]
    ensures { (bytes : List ℕ) → IsValue bytes → row.now ≡ value_row bytes → result ≡ padded bytes }
{
    bytes_again();
    let mut bytes = [0; VALUE_BYTES];
    write_words(&row[2..], &mut bytes);
    bytes
}

/// A row has a value exactly where it is the row of that value, and that of no value has none.
pub fn record_values()
    ensures found { (row bytes : List ℕ) → record_value row ≡ Some bytes → IsValue bytes × (row ≡ value_row bytes) }
    ensures given { (bytes : List ℕ) → IsValue bytes → record_value (value_row bytes) ≡ Some bytes }
    ensures absent { record_value absent_row ≡ None }
{
    bytes_again();
    words_have_bytes();
}

/// Two values have two rows.
pub fn one_value()
    ensures { (a b : List ℕ) → IsValue a → IsValue b → value_row a ≡ value_row b → a ≡ b }
{
    bytes_again();
}
