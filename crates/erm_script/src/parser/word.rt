//! The words of a line.
ghost use Rattle.std.specs.Prelude.{◌≡◌, ◌≢◌, ℕ, ◌^◌, ◌<◌, ◌≤◌, List, ◌∷◌, [], IfNone, IfSome, decimal, length, IsTrue, ◌↔◌, ◌*◌};
ghost use Rattle.std.specs.Bool.{OnTrue, OnFalse};
ghost use Rattle.erm_script.specs.Script.{IsName, IsValue, is_name_byte};
ghost use Rattle.erm_model.specs.Spelling.{value_word};
ghost use Rattle.erm_script.specs.Words.{words_of, words_after};
ghost use Rattle.hex.specs.Hex.{encode_lower, IsBytes};

use crate::LAST_TABLE;
use erm_model::{Name, VALUE_BYTES, Value};
use itoa::Buffer;
use std::str;

/// Cuts at the first space, which goes, or answers `None` where there is none.
pub fn cut(bytes: &[u8]) -> Option<(&[u8], &[u8])>
    ensures whole { IfNone result (words_of bytes.now ≡ bytes.now ∷ []) }
    ensures cut { IfSome result (λ parts. words_of bytes.now ≡ parts.0.now ∷ words_of parts.1.now) }
{
    let space = bytes.iter().position(|b| *b == b' ')?;
    Some((&bytes[..space], &bytes[space + 1..]))
}

/// The first word, and what comes after its space, if there is one.
pub fn first(bytes: &[u8]) -> (&[u8], Option<&[u8]>)
    ensures { words_of bytes.now ≡ result.0.now ∷ words_after result.1 }
{
    match cut(bytes) {
        Some((word, rest)) => (word, Some(rest)),
        None => (bytes, None),
    }
}

/// The word, where there is one.
pub fn one(words: Option<&[u8]>) -> Option<&[u8]>
    ensures others { IfNone result (length (words_after words.entry) ≢ 1) }
    ensures word { IfSome result (λ w. words_after words.entry ≡ w.now ∷ []) }
{
    let (word, rest) = first(words?);
    match rest {
        None => Some(word),
        Some(_) => None,
    }
}

/// The words, where they are two.
pub fn two(words: Option<&[u8]>) -> Option<(&[u8], &[u8])>
    ensures others { IfNone result (length (words_after words.entry) ≢ 2) }
    ensures words { IfSome result (λ w. words_after words.entry ≡ w.0.now ∷ w.1.now ∷ []) }
{
    let (one, rest) = first(words?);
    let (two, rest) = first(rest?);
    match rest {
        None => Some((one, two)),
        Some(_) => None,
    }
}

/// The words, where they are three.
pub fn three(words: Option<&[u8]>) -> Option<(&[u8], &[u8], &[u8])>
    ensures others { IfNone result (length (words_after words.entry) ≢ 3) }
    ensures words { IfSome result (λ w. words_after words.entry ≡ w.0.now ∷ w.1.now ∷ w.2.now ∷ []) }
{
    let (one, rest) = first(words?);
    let (two, three) = two(rest)?;
    Some((one, two, three))
}

/// The name of a session: one to eight lower-case letters and digits.
pub fn name(word: &[u8]) -> Option<Name>
    ensures refused { IfNone result (IsName word.now → ⊥) }
    ensures spelled { IfSome result (λ name. (name ≡ word.now) × IsName word.now) }
{
    if word.is_empty() || !word.iter().all(|b| is_name_byte(*b)) {
        return None;
    }
    Name::new(word)
}

fn is_name_byte(byte: u8) -> bool
    ensures { result ≡ is_name_byte byte }
{
    matches!(byte, b'a'..=b'z' | b'0'..=b'9')
}

/// The number that a word spells: in decimal digits, with no sign and no zero before it.
pub fn number(word: &[u8]) -> Option<u64>
    ensures refused { IfNone result ((n : ℕ) → n < 2 ^ 64 → word.now ≢ decimal n) }
    ensures spelled { IfSome result (λ n. word.now ≡ decimal n) }
{
    let number = str::from_utf8(word).ok()?.parse::<u64>().ok()?;
    let mut buffer = Buffer::new();
    if buffer.format(number).as_bytes() == word {
        Some(number)
    } else {
        None
    }
}

/// The number of a table: 0 to 15.
pub fn table(word: &[u8]) -> Option<u8>
    ensures refused { IfNone result ((n : ℕ) → n ≤ LAST_TABLE → word.now ≢ decimal n) }
    ensures spelled { IfSome result (λ n. (n ≤ LAST_TABLE) × (word.now ≡ decimal n)) }
{
    let table = number(word)?;
    let last = u64::from(LAST_TABLE);
    if table > last {
        return None;
    }
    Some(table as u8)
}

/// The number of a savepoint: it has 32 bits.
pub fn savepoint(word: &[u8]) -> Option<u32>
    ensures refused { IfNone result ((n : ℕ) → n < 2 ^ 32 → word.now ≢ decimal n) }
    ensures spelled { IfSome result (λ n. (n < 2 ^ 32) × (word.now ≡ decimal n)) }
{
    let number = number(word)?;
    if number > u64::from(u32::MAX) {
        return None;
    }
    Some(number as u32)
}

/// A value: its bytes in lower-case hexadecimal digits, or a dash where it has none.
pub fn value(word: &[u8]) -> Option<Value>
    ensures refused { IfNone result ((bytes : List ℕ) → IsValue bytes → word.now ≢ value_word bytes) }
    ensures spelled { IfSome result (λ value. IsValue value × (word.now ≡ value_word value)) }
{
    if word == b"-".as_slice() {
        return Value::new(&[]);
    }
    let length = word.len() / 2;
    if length == 0 || length > VALUE_BYTES {
        return None;
    }
    let mut room = [0; VALUE_BYTES];
    let bytes = &mut room[..length];
    if !decode_lower(word, bytes) {
        return None;
    }
    Value::new(bytes)
}

// reads the bytes that lower-case digits spell, as many as there is room for, or answers that the word spells none
fn decode_lower(word: &[u8], bytes: &mut [u8]) -> bool
    requires { length bytes.old ≤ VALUE_BYTES }
    ensures spelled { OnTrue result (IsBytes bytes.new × (word.now ≡ encode_lower bytes.new)) }
    ensures other { OnFalse result
        ((value : List ℕ) → IsBytes value → length value ≡ length bytes.old → word.now ≢ encode_lower value) }
{
    // the decoder takes upper-case digits too
    hex::decode_to_slice(word, &mut *bytes).is_ok() && is_lower_hex(word, bytes)
}

// whether a word is the lower-case digits of some bytes
fn is_lower_hex(word: &[u8], bytes: &[u8]) -> bool
    requires { length bytes.now ≤ VALUE_BYTES }
    ensures { IsTrue result ↔ (word.now ≡ encode_lower bytes.now) }
{
    let mut room = [0; 2 * VALUE_BYTES];
    let digits = &mut room[..2 * bytes.len()];
    let written = hex::encode_to_slice(bytes, digits);
    written.unwrap();
    word == &*digits
}
