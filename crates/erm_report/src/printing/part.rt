//! The parts of lines: words with a number, a name or a value behind them.
#![tactic(auto, using(crate::proofs::Fronts::take_front))]

ghost use Rattle.std.specs.Prelude.{◌≡◌, ◌++◌, OnOk, OnErr, decimal, length, take};
ghost use Rattle.erm_model.specs.Spelling.{value_word};
ghost use Rattle.erm_script.specs.Script.{IsValue};
ghost use Rattle.erm_report.specs.Texts.{stamps_text};

use erm_model::{Name, Stamp, VALUE_BYTES, Value};
use itoa::Buffer;
use std::alloc::AllocError;

/// The most hexadecimal digits that spell a value.
const VALUE_DIGITS: usize = 2 * VALUE_BYTES;

/// Adds a word or more, and the stamps of a commit right after.
pub fn push_stamps(
    out: &mut Vec<u8>,
    words: &[u8],
    stamp: Stamp,
    succ: Stamp,
    pred: Stamp,
) -> Result<(), AllocError>
    ensures ok { OnOk result (out.new.items ≡ out.old.items ++ (words.now ++ stamps_text stamp succ pred)) }
    ensures front { OnErr result (take (length out.old.items) out.new.items ≡ out.old.items) }
{
    push_count(out, words, stamp)?;
    push_count(out, b" succ ", succ)?;
    push_count(out, b" pred ", pred)
}

/// Adds a word or more, and a number right after.
pub fn push_count(out: &mut Vec<u8>, words: &[u8], number: u64) -> Result<(), AllocError>
    ensures ok { OnOk result (out.new.items ≡ out.old.items ++ (words.now ++ decimal number)) }
    ensures front { OnErr result (take (length out.old.items) out.new.items ≡ out.old.items) }
{
    let mut buffer = Buffer::new();
    out.extend_from_slice(words)?;
    out.extend_from_slice(buffer.format(number).as_bytes())
}

/// Adds a word or more, and a name right after.
pub fn push_name(out: &mut Vec<u8>, words: &[u8], name: &Name) -> Result<(), AllocError>
    ensures ok { OnOk result (out.new.items ≡ out.old.items ++ (words.now ++ name.now)) }
    ensures front { OnErr result (take (length out.old.items) out.new.items ≡ out.old.items) }
{
    out.extend_from_slice(words)?;
    out.extend_from_slice(name.as_slice())
}

/// Adds a word or more, and a value right after.
pub fn push_value(out: &mut Vec<u8>, words: &[u8], value: &Value) -> Result<(), AllocError>
    ensures ok { OnOk result (out.new.items ≡ out.old.items ++ (words.now ++ value_word value.now)) }
    ensures fits { OnOk result (IsValue value.now) }
    ensures front { OnErr result (take (length out.old.items) out.new.items ≡ out.old.items) }
{
    out.extend_from_slice(words)?;
    let bytes = value.as_slice();
    if bytes.is_empty() {
        return out.extend_from_slice(b"-");
    }
    let mut room = [0; VALUE_DIGITS];
    let digits = &mut room[..2 * bytes.len()];
    let written = hex::encode_to_slice(bytes, digits);
    written.unwrap();
    out.extend_from_slice(digits)
}
