//! Words and texts, put to a sink.
ghost use Rattle.std.specs.Prelude.{◌≡◌, ◌*◌, ◌≤◌, length, OnOk, OnErr};
ghost use Rattle.erm_bytes.specs.Bytes.{AreWords, bytes_of};
ghost use Rattle.erm_outside.specs.Faults.{Rose};
ghost use Rattle.erm_outside.specs.Sink.{Puts, PutsFront};
ghost use Rattle.erm_ship.specs.Ends.{PrintsTo};

use erm_bytes::{WORD_BYTES, write_words};
use erm_outside::{Failed, Sink, put_all};

/// Puts the bytes of words, or as many as the sink takes before it fails. They go through `bytes`.
pub(crate) fn put_words<K: Sink>(
    sink: &mut K,
    words: &[u64],
    bytes: &mut [u8],
) -> Result<(), Failed>
    requires room { WORD_BYTES * length words.now ≤ length bytes.old }
    ensures typed { AreWords words.now }
    ensures all { OnOk result (Puts (bytes_of words.now) (K.written sink.old) (K.written sink.new)) }
    ensures front { OnErr result (PutsFront (bytes_of words.now) (K.written sink.old) (K.written sink.new)) }
    ensures sound { OnOk result (K.faults sink.new ≡ K.faults sink.old) }
    ensures failed { OnErr result (Rose (K.faults sink.old) (K.faults sink.new)) }
{
    let bytes = &mut bytes[..WORD_BYTES * words.len()];
    write_words(words, bytes);
    put_all(sink, bytes)
}

/// Puts a text, or as much of it as the sink takes before it fails.
pub(crate) fn print<K: Sink>(sink: &mut K, text: &[u8])
    ensures { PrintsTo text.now (K.written sink.old) (K.written sink.new) (K.faults sink.old) (K.faults sink.new) }
{
    let _ = put_all(sink, text);
}
