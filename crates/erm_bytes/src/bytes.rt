//! Words as bytes, the least byte first.
ghost use Rattle.std.specs.Prelude.{◌≡◌, ℕ, List, ◌*◌, length};
ghost use Rattle.erm_bytes.specs.Bytes.{AreWords, AreBytes, bytes_of, words_of};

use byteorder::{ByteOrder, LittleEndian};

/// How many bytes a word has.
pub const WORD_BYTES: usize = 8;

/// Writes the words' bytes over all of `out`.
pub fn write_words(words: &[u64], out: &mut [u8])
    requires { length out.old ≡ WORD_BYTES * length words.now }
    ensures { out.new ≡ bytes_of words.now }
{
    LittleEndian::write_u64_into(words, out);
}

/// Reads all of the bytes as words.
pub fn read_words(bytes: &[u8], out: &mut [u64])
    requires { length bytes.now ≡ WORD_BYTES * length out.old }
    ensures bytes { bytes_of out.new ≡ bytes.now }
    ensures words { out.new ≡ words_of (length out.old) bytes.now }
{
    LittleEndian::read_u64_into(bytes, out);
}

/// Words with the same bytes are the same words.
pub fn same_bytes_same_words()
    ensures { (a b : List ℕ) → AreWords a → AreWords b → bytes_of a ≡ bytes_of b → a ≡ b }
{}

/// Words written as bytes and read again are the same words.
pub fn words_again()
    ensures { (words : List ℕ) → AreWords words → words_of (length words) (bytes_of words) ≡ words }
{}

/// Words have bytes, eight each.
pub fn words_have_bytes()
    ensures count { (words : List ℕ) → length (bytes_of words) ≡ WORD_BYTES * length words }
    ensures bytes { (words : List ℕ) → AreBytes (bytes_of words) }
{}

/// Bytes read as words and written again are the same bytes.
pub fn bytes_again()
    ensures count { (n : ℕ) (bytes : List ℕ) → length (words_of n bytes) ≡ n }
    ensures same { (n : ℕ) (bytes : List ℕ) → AreBytes bytes → length bytes ≡ WORD_BYTES * n → bytes_of (words_of n bytes) ≡ bytes }
{}
