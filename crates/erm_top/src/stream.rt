//! The commands `ship`, `follow` and `replica`.
ghost use Rattle.std.specs.Prelude.{ℕ, List, Option};
ghost use Rattle.erm_outside.specs.Disk.{Step};
ghost use Rattle.erm_top.specs.Streams.{FollowingEnds, ReplicatingEnds, ShippingEnds};

use crate::Ended;
use erm_follow_run::follow;
use erm_outside::{Disk, Sink, Source};
use erm_replica_rows::bad_streams_stay_bad;
use erm_replica_run::replicate;
use erm_ship::ship;
use std::alloc::Global;

/// Puts the stream of the disk's log, as it is read.
pub fn ship_log<K: Sink, D: Disk>(alloc: Global, sink: &mut K, disk: D) -> Ended<D>
    ensures { (left : Option (List ℕ)) (faults : ℕ) → ShippingEnds result.status (record {
      left_before = left;
      left_after = left;
      source_before = faults;
      source_after = faults;
      written_before = K.written sink.old;
      written_after = K.written sink.new;
      sink_before = K.faults sink.old;
      sink_after = K.faults sink.new;
      told_before = D.told disk;
      told_after = D.told result.disk;
      disk_before = D.faults disk;
      disk_after = D.faults result.disk;
    }) }
{
    let mut disk = disk;
    let status = ship(alloc, &mut disk, sink);
    Ended { status, disk }
}

/// Follows a stream, tells the commits that are due as they come, and answers the status.
pub fn follow_stream<S: Source, K: Sink>(alloc: Global, source: &mut S, sink: &mut K) -> u8
    ensures { (told : Option (List Step)) (faults : ℕ) → FollowingEnds result (record {
      left_before = S.left source.old;
      left_after = S.left source.new;
      source_before = S.faults source.old;
      source_after = S.faults source.new;
      written_before = K.written sink.old;
      written_after = K.written sink.new;
      sink_before = K.faults sink.old;
      sink_after = K.faults sink.new;
      told_before = told;
      told_after = told;
      disk_before = faults;
      disk_after = faults;
    }) }
{
    follow(alloc, source, sink)
}

/// Reads a stream to its end, tells what its replica answers, and answers the status.
pub fn replicate_stream<S: Source, K: Sink>(alloc: Global, source: &mut S, sink: &mut K) -> u8
    ensures { (told : Option (List Step)) (faults : ℕ) → ReplicatingEnds result (record {
      left_before = S.left source.old;
      left_after = S.left source.new;
      source_before = S.faults source.old;
      source_after = S.faults source.new;
      written_before = K.written sink.old;
      written_after = K.written sink.new;
      sink_before = K.faults sink.old;
      sink_after = K.faults sink.new;
      told_before = told;
      told_after = told;
      disk_before = faults;
      disk_after = faults;
    }) }
{
    bad_streams_stay_bad();
    replicate(alloc, source, sink)
}
