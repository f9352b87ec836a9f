//! Words of the log, written to a disk.
ghost use Rattle.std.specs.Prelude.{◌≡◌, ◌+◌, ◌*◌, ◌<◌, ◌≤◌, ◌^◌, length, IfSome, OnOk, OnErr};
ghost use Rattle.std.specs.List.{All};
ghost use Rattle.std.specs.Option.{option_map};
ghost use Rattle.erm_outside.specs.Disk.{IsSettled};
ghost use Rattle.erm_outside.specs.Faults.{Rose};
ghost use Rattle.erm_log_disk.specs.Pieces.{HasPiece, SyncsFront, TriesPieces, synced, written};
ghost use Rattle.erm_log_disk.specs.Writes.{Lasts, OnlyWrites};

use erm_bytes::{WORD_BYTES, write_words};
use erm_model::{SEGMENT_WORDS, Stamp};
use erm_outside::{Disk, Failed};
use erm_segment::{Piece, pieces};

/// Writes words of the log from a place on, and waits until they last: each to its segment's file, and then each file that was
/// written is synced. The bytes go through `buffer`; no memory is taken.
pub fn write_log<D: Disk>(
    disk: &mut D,
    at: Stamp,
    words: &[u64],
    buffer: &mut [u8],
) -> Result<(), Failed>
    requires short { length words.now ≤ SEGMENT_WORDS }
    requires end { at + length words.now < 2 ^ 64 }
    requires room { WORD_BYTES * length words.now ≤ length buffer.old }
    requires settled { IfSome (D.told disk.old) IsSettled }

    // Whatever comes of it, nothing else is done than to write some of these words at their place, and to wait.
    ensures writes { OnlyWrites at words.now (D.told disk.old) (D.told disk.new) }
    ensures lasts { OnOk result (Lasts at words.now (D.told disk.old) (D.told disk.new)) }

    // The disk's count of faults rises exactly where the call fails.
    ensures sound { OnOk result (D.faults disk.new ≡ D.faults disk.old) }
    ensures failed { OnErr result (Rose (D.faults disk.old) (D.faults disk.new)) }
{
    let bytes = &mut buffer[..WORD_BYTES * words.len()];
    write_words(words, bytes);
    let pieces = pieces(at, words.len() as u64);
    write_pieces(disk, bytes, pieces.as_slice())?;
    sync_pieces(disk, pieces.as_slice())
}

// Writes the bytes of pieces of a run, each at its place.
fn write_pieces<D: Disk>(disk: &mut D, bytes: &[u8], pieces: &[Piece]) -> Result<(), Failed>
    requires { All (HasPiece bytes.now) pieces.now }
    ensures wrote { OnOk result (D.told disk.new ≡ option_map (written bytes.now pieces.now) (D.told disk.old)) }
    ensures tried { OnErr result (TriesPieces bytes.now pieces.now (D.told disk.old) (D.told disk.new)) }
    ensures sound { OnOk result (D.faults disk.new ≡ D.faults disk.old) }
    ensures failed { OnErr result (Rose (D.faults disk.old) (D.faults disk.new)) }
{
    for piece in pieces {
        let start = WORD_BYTES * piece.from;
        let end = WORD_BYTES * (piece.from + piece.count);
        disk.write(piece.file, piece.at, &bytes[start..end])?;
    }
    Ok(())
}

// Waits until the files of pieces last.
fn sync_pieces<D: Disk>(disk: &mut D, pieces: &[Piece]) -> Result<(), Failed>
    ensures synced { OnOk result (D.told disk.new ≡ option_map (synced pieces.now) (D.told disk.old)) }
    ensures tried { OnErr result (SyncsFront pieces.now (D.told disk.old) (D.told disk.new)) }
    ensures sound { OnOk result (D.faults disk.new ≡ D.faults disk.old) }
    ensures failed { OnErr result (Rose (D.faults disk.old) (D.faults disk.new)) }
{
    for piece in pieces {
        disk.sync(piece.file)?;
    }
    Ok(())
}
