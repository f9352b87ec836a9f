//! A replica of what a source has.
ghost use Rattle.erm_replica_rows.specs.Keeping.{shown};
ghost use Rattle.erm_replica_run.specs.Ends.{Finishes, ReplicaEnds};

use crate::texts::shown_text;
use erm_follow_run::{CHUNK_BYTES, STREAM_BYTES, print, put_bad, starve, take_chunk};
use erm_outside::{Sink, Source, put_all};
use erm_replica_rows::{FeedStop, Replica, kept_replicas_answer};
use erm_report::{READ_FAULT, TOO_LONG};
use std::alloc::Global;

/// Reads the stream that a source has to its end, and puts what a replica of it answers: the place behind the last item, the greatest safe
/// stamp, how many bytes are behind that item, and the map at that stamp. It answers a status:
///
/// - 0 where all was put;
/// - 4 where the source failed;
/// - 5 where the sink failed;
/// - 8 where memory ran out;
/// - 9 where the source has more than 16,777,216 bytes;
/// - 11 where what stands in the stream is no item, whatever follows.
///
/// With 4, 8, 9 and 11 a line that says so alone was put. With 4 and 9 nothing that is no item was met; with 8 and 11 none was met
/// before the piece that was taken last, of at most 4096 bytes. Where memory is lacking for the line of 11, it is 8.
pub fn replicate<S: Source, K: Sink>(alloc: Global, source: &mut S, sink: &mut K) -> u8
    ensures { ReplicaEnds result (record {
      left_before = S.left source.old;
      left_after = S.left source.new;
      source_before = S.faults source.old;
      source_after = S.faults source.new;
      written_before = K.written sink.old;
      written_after = K.written sink.new;
      sink_before = K.faults sink.old;
      sink_after = K.faults sink.new;
    }) }
{
    kept_replicas_answer();
    let Ok(mut replica) = Replica::new(alloc) else {
        return starve(sink);
    };
    let mut chunk = [0; CHUNK_BYTES];
    let mut taken = 0;
    'chunks: while taken <= STREAM_BYTES {
        match take_chunk(source, &mut chunk, taken) {
            Ok(count) if count == 0 => return finish(alloc, &replica, sink),
            Ok(count) => {
                taken += count;
                match replica.feed(&chunk[..count]) {
                    Ok(()) => {}
                    Err(FeedStop::Bad { place }) => return put_bad(alloc, sink, place),
                    Err(FeedStop::Memory) => return starve(sink),
                }
            }
            Err(_) => {
                print(sink, READ_FAULT);
                return 4;
            }
        }
    }
    print(sink, TOO_LONG);
    9
}

// Puts what a replica answers, and answers the status.
fn finish<K: Sink>(alloc: Global, replica: &Replica, sink: &mut K) -> u8
    ensures { Finishes (shown replica.now) result (K.written sink.old) (K.written sink.new) (K.faults sink.old) (K.faults sink.new) }
{
    match shown_text(alloc, replica) {
        Ok(text) => match put_all(sink, &text) {
            Ok(()) => 0,
            Err(_) => 5,
        },
        Err(_) => starve(sink),
    }
}
