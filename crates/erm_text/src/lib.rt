//! Numbers and values as bytes, each behind words.
#![tactic(auto)]

ghost use Rattle.std.specs.Prelude.{◌≡◌, ◌++◌, OnOk, decimal};
ghost use Rattle.erm_model.specs.Spelling.{value_word};

use erm_model::{VALUE_BYTES, Value};
use itoa::Buffer;
use std::alloc::AllocError;

/// The most hexadecimal digits that spell a value.
const VALUE_DIGITS: usize = 2 * VALUE_BYTES;

/// Adds words, and a number in decimal digits right after.
pub fn push_count(out: &mut Vec<u8>, words: &[u8], number: u64) -> Result<(), AllocError>
    ensures { OnOk result (out.new.items ≡ out.old.items ++ (words.now ++ decimal number)) }
{
    let mut buffer = Buffer::new();
    out.extend_from_slice(words)?;
    out.extend_from_slice(buffer.format(number).as_bytes())
}

/// Adds words, and a value right after: its bytes in hexadecimal digits, or a dash where it has none.
pub fn push_value(out: &mut Vec<u8>, words: &[u8], value: &Value) -> Result<(), AllocError>
    ensures { OnOk result (out.new.items ≡ out.old.items ++ (words.now ++ value_word value.now)) }
{
    out.extend_from_slice(words)?;
    let bytes = value.as_slice();
    if bytes.is_empty() {
        return out.extend_from_slice(b"-");
    }
    let mut room = [0; VALUE_DIGITS];
    let digits = &mut room[..2 * bytes.len()];
    let written = hex::encode_to_slice(bytes, digits);
    written.unwrap();
    out.extend_from_slice(digits)
}
