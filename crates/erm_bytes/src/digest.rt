//! The digest of words.
ghost use Rattle.std.specs.Prelude.{◌≡◌};
ghost use Rattle.erm_bytes.specs.Digest.{digest_of};

use crate::WORD_BYTES;
use byteorder::{ByteOrder, LittleEndian};
use sha2::{Digest, Sha256};

/// The digest of the words: the first eight bytes of the SHA-256 of their bytes, as one word.
pub fn digest_word(words: &[u64]) -> u64
    ensures { result ≡ digest_of words.now }
{
    let mut hasher = Sha256::new();
    for word in words {
        let mut bytes = [0; WORD_BYTES];
        LittleEndian::write_u64(&mut bytes, *word);
        hasher.update(&bytes);
    }
    LittleEndian::read_u64(&hasher.finalize())
}
