//! Where the words of the log lie: in segments, which are files of one length.
#![tactic(auto)]

ghost use Rattle.std.specs.Prelude.{◌≡◌, ◌+◌, ◌<◌, ◌≤◌, ◌^◌, ◌%◌, length};
ghost use Rattle.erm_segment.specs.Place.{place_of};
ghost use Rattle.erm_segment.specs.Pieces.{IsRun, IsInOneSegment};

use arrayvec::ArrayVec;
use erm_model::{SEGMENT_WORDS, Stamp};
use erm_outside::File;

/// How many bytes a word has.
const WORD_BYTES: u64 = erm_bytes::WORD_BYTES as u64;

/// Words of a run that lie in one segment.
#[derive(Clone, Copy)]
pub struct Piece {
    /// The segment's file.
    pub file: File,
    /// The byte in the file at which the first word begins.
    pub at: u64,
    /// The first word, counted from the front of the run.
    pub from: usize,
    /// How many words.
    pub count: usize,
}

impl Default for Piece {
    ghost use Rattle.erm_outside.specs.declared.disk.File.TheVariants.{Segment};

    ghost is_default = { λ piece. piece ≡ record { file = Segment 0; at = 0; from = 0; count = 0 } };

    /// No words, at the front of the first segment.
    fn default() -> Piece {
        Piece {
            file: File::Segment(0),
            at: 0,
            from: 0,
            count: 0,
        }
    }
}

/// The file of a word of the log, and the byte in it at which the word begins.
pub fn place(word: Stamp) -> (File, u64)
    ensures { result ≡ place_of word }
{
    (
        File::Segment(word / SEGMENT_WORDS),
        WORD_BYTES * (word % SEGMENT_WORDS),
    )
}

/// The pieces of the `count` words from word `at` of the log on, in order. A run is at most as long as a segment, so it
/// has at most two.
pub fn pieces(at: Stamp, count: u64) -> ArrayVec<Piece, 2>
    requires short { count ≤ SEGMENT_WORDS }
    requires end { at + count < 2 ^ 64 }
    ensures run { IsRun at count result.items }
    ensures two { length result.items ≤ 2 }
{
    let first = count.min(SEGMENT_WORDS - at % SEGMENT_WORDS);
    let mut pieces = ArrayVec::new();
    if first > 0 {
        pieces.push(make_piece(at, 0, first));
    }
    if first < count {
        pieces.push(make_piece(at, first, count - first));
    }
    pieces
}

// The piece of `count` words from word `from` of a run on.
fn make_piece(at: Stamp, from: u64, count: u64) -> Piece
    requires some { 0 < count }
    requires whole { (at + from) % SEGMENT_WORDS + count ≤ SEGMENT_WORDS }
    requires border { 0 < from → (at + from) % SEGMENT_WORDS ≡ 0 }
    requires end { at + from < 2 ^ 64 }
    ensures begins { result.from ≡ from }
    ensures counts { result.count ≡ count }
    ensures one { IsInOneSegment at result }
{
    let (file, byte) = place(at + from);
    Piece {
        file,
        at: byte,
        from: from as usize,
        count: count as usize,
    }
}
