//! Where words and runs of the log lie.
use erm_model::SEGMENT_WORDS;
use erm_outside::File;
use erm_segment::{Piece, pieces, place};

#[test]
fn places(rt: HostRuntime) {
    for (word, segment, byte) in [
        (8, 0, 64),
        (65_535, 0, 524_280),
        (65_536, 1, 0),
        (131_080, 2, 64),
        (u64::MAX, 281_474_976_710_655, 524_280),
    ] {
        assert!(rt; place(word) == (File::Segment(segment), byte));
    }
}

// A run's first word and its length; and its pieces, each a segment, a byte, a place among the words, and how many these are.
type Run = (u64, u64, &'static [(u64, u64, usize, usize)]);

const RUNS: [Run; 9] = [
    (8, 0, &[]),
    (8, 5, &[(0, 64, 0, 5)]),
    (65_526, 10, &[(0, 524_208, 0, 10)]),
    (65_526, 22, &[(0, 524_208, 0, 10), (1, 0, 10, 12)]),
    (65_536, 65_536, &[(1, 0, 0, 65_536)]),
    (65_537, 65_536, &[(1, 8, 0, 65_535), (2, 0, 65_535, 1)]),
    (65_526, 2_181, &[(0, 524_208, 0, 10), (1, 0, 10, 2_171)]),
    (u64::MAX - 3, 3, &[(281_474_976_710_655, 524_256, 0, 3)]),
    (
        u64::MAX - 65_539,
        65_536,
        &[
            (281_474_976_710_654, 524_256, 0, 4),
            (281_474_976_710_655, 0, 4, 65_532),
        ],
    ),
];

// Whether these are the pieces.
fn are_pieces(found: &[Piece], want: &[(u64, u64, usize, usize)]) -> bool {
    for (piece, (segment, byte, from, words)) in found.iter().zip(want) {
        if piece.file != File::Segment(*segment) || piece.at != *byte {
            return false;
        }
        if piece.from != *from || piece.count != *words {
            return false;
        }
    }
    found.len() == want.len()
}

// Whether a run is cut into these pieces.
fn is_cut_so(at: u64, count: u64, want: &[(u64, u64, usize, usize)]) -> bool {
    if SEGMENT_WORDS < count || u64::MAX - count < at {
        return false;
    }
    are_pieces(pieces(at, count).as_slice(), want)
}

#[test]
fn runs(rt: HostRuntime) {
    for (at, count, want) in &RUNS {
        assert!(rt; is_cut_so(*at, *count, *want));
    }
}
