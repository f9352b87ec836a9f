//! Words of 64 bits as bytes, and the digest of words.
#![tactic(auto)]

mod bytes;
mod digest;

pub use bytes::{
    WORD_BYTES, bytes_again, read_words, same_bytes_same_words, words_again, words_have_bytes,
    write_words,
};
pub use digest::digest_word;
