//! Following from a source to a sink.
ghost use Rattle.std.specs.Prelude.{◌≡◌, ◌+◌, ◌≤◌, None, IfOk, IfErr, IfSome, OnOk, OnErr, length};
ghost use Rattle.erm_outside.specs.Faults.{Rose};
ghost use Rattle.erm_outside.specs.Source.{Takes};
ghost use Rattle.erm_replica.specs.Stream.{fed};
ghost use Rattle.erm_follow_run.specs.Ends.{EndsHalt, EndsPiece, EndsWith, Finishes, FollowEnds, HearsPiece, PrintsStarved, PrintsTo};
ghost use Rattle.erm_follow_run.specs.Following.{IsBelow};
ghost use Rattle.erm_follow_run.specs.Texts.{bad_text, broken_text, end_text};

use crate::drained::drain;
use crate::ends::{bad_text, broken_text, end_text};
use crate::halt::Halt;
use erm_block::spelling_size;
use erm_ckpt::LOG_START;
use erm_follow::{Broken, Follow, takes_go_on};
use erm_outside::{Failed, Sink, Source, put_all};
use erm_replica::{Stream, fronts_stay, parts_are_announced};
use erm_report::{NO_MEMORY, READ_FAULT, TOO_LONG};
use std::alloc::Global;

/// The most bytes of a stream that is followed.
pub const STREAM_BYTES: usize = 16_777_216;

/// How many bytes are asked for at a time.
pub const CHUNK_BYTES: usize = 4096;

/// Follows the stream that a source has, and puts the lines of the commits below each safe stamp in the serial order: where the
/// log keeps what its safe stamps promise, no later commit can come before them. It answers a status:
///
/// - 0 where the source was read to its end: how many commits wait was put behind the lines, and how many bytes are left, which are no whole item;
/// - 4 where the source failed;
/// - 5 where the sink failed;
/// - 8 where memory ran out;
/// - 9 where the source has more than 16,777,216 bytes;
/// - 11 where what stands in the stream is no item, whatever follows;
/// - 12 where a commit breaks a safe stamp.
///
/// With 4, 8, 9, 11 and 12 a line that says so was put behind the lines of commits. Where it ends with 5, 8, 11 or 12 nothing was
/// taken behind the piece for which it ends, of at most 4096 bytes. Where memory is lacking for the line of 11 or 12, it is 8.
pub fn follow<S: Source, K: Sink>(alloc: Global, source: &mut S, sink: &mut K) -> u8
    ensures { FollowEnds result (record {
      left_before = S.left source.old;
      left_after = S.left source.new;
      source_before = S.faults source.old;
      source_after = S.faults source.new;
      written_before = K.written sink.old;
      written_after = K.written sink.new;
      sink_before = K.faults sink.old;
      sink_after = K.faults sink.new;
    }) }
{
    takes_go_on();
    fronts_stay();
    parts_are_announced();
    let mut stream = Stream::new(alloc);
    let mut follow = Follow::new(alloc, LOG_START);
    let mut chunk = [0; CHUNK_BYTES];
    let mut taken = 0;
    let mut rest = 0;
    'chunks: while taken <= STREAM_BYTES {
        match take_chunk(source, &mut chunk, taken) {
            Ok(count) if count == 0 => return finish(alloc, sink, follow.pending(), rest),
            Ok(count) => {
                taken += count;
                match hear_piece(alloc, &mut stream, &mut follow, &chunk[..count], sink) {
                    Ok(left) => rest = left,
                    Err(status) => return status,
                }
            }
            Err(_) => {
                print(sink, READ_FAULT);
                return 4;
            }
        }
    }
    print(sink, TOO_LONG);
    9
}

/// Takes bytes of a source, of which so many were taken: no more in all than one more than a stream may have. It answers how many, 0 at the
/// source's end.
pub fn take_chunk<S: Source>(
    source: &mut S,
    chunk: &mut [u8],
    taken: usize,
) -> Result<usize, Failed>
    requires chunk { length chunk.old ≡ CHUNK_BYTES }
    requires few { taken ≤ STREAM_BYTES }
    ensures within { IfOk result (λ n. n ≤ length chunk.new) }
    ensures most { IfOk result (λ n. n ≤ CHUNK_BYTES) }
    ensures room { IfOk result (λ n. taken + n ≤ STREAM_BYTES + 1) }
    ensures takes { IfOk result (λ n. IfSome (S.left source.old) (λ bytes. Takes bytes n chunk.new (S.left source.new))) }
    ensures kept { OnErr result (S.left source.new ≡ S.left source.old) }
    ensures sound { OnOk result (S.faults source.new ≡ S.faults source.old) }
    ensures failed { OnErr result (Rose (S.faults source.old) (S.faults source.new)) }
{
    let room = CHUNK_BYTES.min(STREAM_BYTES + 1 - taken);
    source.take(&mut chunk[..room])
}

// Feeds a piece of the stream, and puts the lines of the commits that are due with it. It answers how many bytes are left; or the status, if there is
// an end.
fn hear_piece<K: Sink>(
    alloc: Global,
    stream: &mut Stream,
    follow: &mut Follow,
    piece: &[u8],
    sink: &mut K,
) -> Result<usize, u8>
    requires below { IsBelow stream.old.log follow.old }
    requires whole { follow.old.broken ≡ None }
    ensures hears { IfOk result (λ rest. HearsPiece (fed stream.old piece.now) follow.old rest stream.new follow.new (K.written sink.old) (K.written sink.new) (K.faults sink.old) (K.faults sink.new)) }
    ensures ends { IfErr result (λ status. EndsPiece (fed stream.old piece.now) follow.old status (K.written sink.old) (K.written sink.new) (K.faults sink.old) (K.faults sink.new)) }
{
    match stream.feed(piece) {
        Ok(()) => hear_fed(alloc, stream, follow, sink),
        Err(_) => Err(starve(sink)),
    }
}

// The same of a piece that was fed.
fn hear_fed<K: Sink>(
    alloc: Global,
    stream: &mut Stream,
    follow: &mut Follow,
    sink: &mut K,
) -> Result<usize, u8>
    requires below { IsBelow stream.old.log follow.old }
    requires whole { follow.old.broken ≡ None }
    ensures hears { IfOk result (λ rest. HearsPiece stream.old follow.old rest stream.new follow.new (K.written sink.old) (K.written sink.new) (K.faults sink.old) (K.faults sink.new)) }
    ensures ends { IfErr result (λ status. EndsPiece stream.old follow.old status (K.written sink.old) (K.written sink.new) (K.faults sink.old) (K.faults sink.new)) }
{
    let drained = drain(alloc, stream, follow);
    match put_all(sink, drained.text.as_slice()) {
        Ok(()) => put_halt(alloc, sink, drained.halt),
        Err(_) => Err(5),
    }
}

// What is left where the next item isn't there yet; else prints why no more is told, and answers the status.
fn put_halt<K: Sink>(alloc: Global, sink: &mut K, halt: Halt) -> Result<usize, u8>
    ensures left { IfOk result (λ rest. (halt ≡ Halt.NotYet rest) × (K.written sink.new ≡ K.written sink.old) × (K.faults sink.new ≡ K.faults sink.old)) }
    ensures ends { IfErr result (λ status. EndsHalt halt status (K.written sink.old) (K.written sink.new) (K.faults sink.old) (K.faults sink.new)) }
{
    match halt {
        Halt::NotYet { bytes } => Ok(bytes),
        Halt::Bad { place } => Err(put_bad(alloc, sink, place)),
        Halt::Broken(broken) => Err(put_broken(alloc, sink, &broken)),
        Halt::Memory => Err(starve(sink)),
    }
}

// Puts the end, and answers the status.
fn finish<K: Sink>(alloc: Global, sink: &mut K, pending: usize, rest: usize) -> u8
    ensures { Finishes (end_text pending rest) result (K.written sink.old) (K.written sink.new) (K.faults sink.old) (K.faults sink.new) }
{
    match end_text(alloc, pending, rest) {
        Ok(text) => match put_all(sink, &text) {
            Ok(()) => 0,
            Err(_) => 5,
        },
        Err(_) => starve(sink),
    }
}

/// Prints the place of what is no item, and answers the status: 11, or 8 where memory ran out.
pub fn put_bad<K: Sink>(alloc: Global, sink: &mut K, place: u64) -> u8
    ensures { EndsWith 11 (bad_text place) result (K.written sink.old) (K.written sink.new) (K.faults sink.old) (K.faults sink.new) }
{
    match bad_text(alloc, place) {
        Ok(text) => {
            print(sink, &text);
            11
        }
        Err(_) => starve(sink),
    }
}

// Prints a safe stamp that is broken, and answers the status.
fn put_broken<K: Sink>(alloc: Global, sink: &mut K, broken: &Broken) -> u8
    ensures { EndsWith 12 (broken_text broken.now.safe broken.now.stamp) result (K.written sink.old) (K.written sink.new) (K.faults sink.old) (K.faults sink.new) }
{
    match broken_text(alloc, broken) {
        Ok(text) => {
            print(sink, &text);
            12
        }
        Err(_) => starve(sink),
    }
}

/// Prints that memory ran out, and answers the status, 8.
pub fn starve<K: Sink>(sink: &mut K) -> u8
    ensures status { result ≡ 8 }
    ensures printed { PrintsStarved (K.written sink.old) (K.written sink.new) (K.faults sink.old) (K.faults sink.new) }
{
    print(sink, NO_MEMORY);
    8
}

/// Puts a text, or as much of it as the sink takes before it fails.
pub fn print<K: Sink>(sink: &mut K, text: &[u8])
    ensures { PrintsTo text.now (K.written sink.old) (K.written sink.new) (K.faults sink.old) (K.faults sink.new) }
{
    let _ = put_all(sink, text);
}
