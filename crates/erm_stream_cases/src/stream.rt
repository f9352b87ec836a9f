//! A short stream, cut at every byte, and with each byte another.
use crate::words::{THREE, bytes_of};
use erm_ckpt::LOG_START;
use erm_replica::{Item, Stream, StreamStop};
use std::alloc::{AllocError, Global};
use std::test::*;

// The words behind each item.
const ENDS: [usize; 5] = [7, 12, 37, 46, WORDS];

// So many words are there.
const WORDS: usize = 55;

fn stamp_of(item: &Item) -> u64 {
    match item {
        Item::Base(slot) => slot.stamp,
        Item::Block(block) => block.stamp,
    }
}

// How many items the bytes that were fed have, and why there is no more; the stamps of the items add up to the sum.
fn drain(stream: &mut Stream, sum: &mut u64) -> (usize, Option<StreamStop>) {
    for count in 0..WORDS {
        match stream.next() {
            Ok(item) => *sum = sum.wrapping_add(stamp_of(&item)),
            Err(stop) => return (count, Some(stop)),
        }
    }
    (WORDS, None)
}

// How many items end within so many bytes, and how many bytes are left.
fn expected(bytes: usize) -> (usize, Option<StreamStop>) {
    let mut count = 0usize;
    let mut end = 0;
    for words in ENDS {
        if bytes / 8 >= words {
            count = count.saturating_add(1);
            end = 8 * words;
        }
    }
    (
        count,
        Some(StreamStop::NotYet {
            bytes: bytes.saturating_sub(end),
        }),
    )
}

// The first place at which a stream that is fed byte by byte doesn't have the items that end there, and the sum of the stamps.
fn first_wrong_cut(alloc: Global, bytes: &[u8]) -> Result<(Option<usize>, u64), AllocError> {
    let mut stream = Stream::new(alloc);
    let mut sum = 0;
    let mut count = 0usize;
    for (place, byte) in bytes.iter().enumerate() {
        stream.feed(&[*byte])?;
        let (more, stop) = drain(&mut stream, &mut sum);
        count = count.saturating_add(more);
        if (count, stop) != expected(place.saturating_add(1)) {
            return Ok((Some(place), sum));
        }
    }
    Ok((None, sum))
}

#[test]
fn cut_at_every_byte(rt: HostRuntime) -> Result<(), AllocError> {
    let bytes = bytes_of(rt.alloc(), THREE, 0)?;
    assert_eq!(rt; bytes.len(), 8 * WORDS);
    let sum = LOG_START + LOG_START + 13 + 38 + 47;
    assert_eq!(rt; first_wrong_cut(rt.alloc(), &bytes)?, (None, sum));
    Ok(())
}

// The bytes of the stream, one of them another.
fn bytes_but_one(alloc: Global, place: usize) -> Result<Vec<u8>, AllocError> {
    let mut bytes = bytes_of(alloc, THREE, 0)?;
    if let Some(byte) = bytes.get_mut(place) {
        *byte ^= 64;
    }
    Ok(bytes)
}

// Whether with a byte changed the items before are read, and then none, whatever follows.
fn is_cut_at(alloc: Global, place: usize) -> Result<bool, AllocError> {
    let mut stream = Stream::new(alloc);
    let mut sum = 0;
    stream.feed(&bytes_but_one(alloc, place)?)?;
    let (count, stop) = drain(&mut stream, &mut sum);
    Ok(
        count == expected(place).0
            && stop != Some(StreamStop::NotYet { bytes: 0 })
            && drain(&mut stream, &mut sum) == (0, stop),
    )
}

#[test]
fn each_byte_another(rt: HostRuntime) -> Result<(), AllocError> {
    for place in 0..8 * WORDS {
        assert!(rt; is_cut_at(rt.alloc(), place)?, "{place}");
    }
    Ok(())
}

#[test]
fn noise(rt: HostRuntime) -> Result<(), AllocError> {
    let mut stream = Stream::new(rt.alloc());
    let mut sum = 0;
    assert!(rt; drain(&mut stream, &mut sum) == (0, Some(StreamStop::NotYet { bytes: 0 })));
    stream.feed(&[0; 8])?;
    assert!(rt; drain(&mut stream, &mut sum) == (0, Some(StreamStop::Bad { place: 0 })));
    Ok(())
}
