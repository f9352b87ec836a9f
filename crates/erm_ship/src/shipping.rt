//! Shipping a disk's log.
ghost use Rattle.std.specs.Prelude.{◌≡◌, ◌≢◌, ◌≤◌, length, Err, IfErr, OnOk};
ghost use Rattle.erm_node.specs.Sound.{sound_law};
ghost use Rattle.erm_recover.specs.Recovering.{RecoveredTold};
ghost use Rattle.erm_ship.specs.Ends.{ShipEnds, Shipped, Stopped};

use crate::base::{BASE_BYTES, BASE_WORDS, lay_base};
use crate::blocks::put_log;
use crate::put::{print, put_words};
use crate::stop::ShipStop;
use erm_block::{one_spelling, spelling_size};
use erm_model::OID_LIMIT;
use erm_outside::{Disk, Sink};
use erm_recover::{Recovered, SoundTest, recover, zero_rows_are_sound};
use erm_report::{DISK_FAULT, NO_BASE, NO_MEMORY};
use std::alloc::Global;

/// Puts the stream of a disk's log: the checkpoint that its recovery begins with, in format 2 and with how many words it has in front,
/// and then the words of its log list. Nothing is written to the disk. It answers a status:
///
/// - 0 where the whole stream was put;
/// - 5 where the sink failed;
/// - 6 where the disk failed, or read otherwise a moment later;
/// - 7 where there is no place to start from;
/// - 8 where memory ran out.
///
/// With 6, 7 and 8 a line that says so was put, or as much of it as the sink took; with 6 behind what was put of the stream, if anything was.
pub fn ship<D: Disk, K: Sink>(alloc: Global, disk: &mut D, sink: &mut K) -> u8
    ensures { ShipEnds result (record {
      told_before = D.told disk.old;
      told_after = D.told disk.new;
      disk_before = D.faults disk.old;
      disk_after = D.faults disk.new;
      written_before = K.written sink.old;
      written_after = K.written sink.new;
      sink_before = K.faults sink.old;
      sink_after = K.faults sink.new;
    }) }
{
    match put_stream(alloc, disk, sink) {
        Ok(()) => 0,
        Err(ShipStop::SinkFault) => 5,
        Err(ShipStop::DiskFault) => {
            print(sink, DISK_FAULT);
            6
        }
        Err(ShipStop::NoBase) => {
            print(sink, NO_BASE);
            7
        }
        Err(ShipStop::Memory) => {
            print(sink, NO_MEMORY);
            8
        }
    }
}

// Puts the stream, with buffers of its own.
fn put_stream<D: Disk, K: Sink>(alloc: Global, disk: &mut D, sink: &mut K) -> Result<(), ShipStop>
    ensures all { OnOk result (Shipped (D.told disk.old) (K.written sink.old) (K.written sink.new)) }
    ensures stops { IfErr result (λ stop. Stopped stop (D.told disk.old) (D.faults disk.old) (D.faults disk.new) (K.written sink.old) (K.written sink.new) (K.faults sink.old) (K.faults sink.new)) }
    ensures told { D.told disk.new ≡ D.told disk.old }
    ensures sound { result ≢ Err ShipStop.DiskFault → D.faults disk.new ≡ D.faults disk.old }
    ensures sink { OnOk result (K.faults sink.new ≡ K.faults sink.old) }
{
    zero_rows_are_sound();
    let mut found = recover(alloc, disk, &SoundTest)?;
    let mut words = vec![in alloc; 0; BASE_WORDS]?;
    let mut bytes = vec![in alloc; 0; BASE_BYTES]?;
    put_found(disk, sink, &mut found, &mut words, &mut bytes)
}

// Puts the stream of what was recovered. The rows are those where recovery began afterwards.
fn put_found<D: Disk, K: Sink>(
    disk: &mut D,
    sink: &mut K,
    found: &mut Recovered,
    words: &mut [u64],
    bytes: &mut [u8],
) -> Result<(), ShipStop>
    requires recovered { RecoveredTold sound_law.meets (D.told disk.old) found.old }
    requires above { found.old.base ≤ found.old.stamp }
    requires rows { length found.old.rows.items ≡ OID_LIMIT }
    requires words { length words.old ≡ BASE_WORDS }
    requires bytes { length bytes.old ≡ BASE_BYTES }
    ensures all { OnOk result (Shipped (D.told disk.old) (K.written sink.old) (K.written sink.new)) }
    ensures stops { IfErr result (λ stop. Stopped stop (D.told disk.old) (D.faults disk.old) (D.faults disk.new) (K.written sink.old) (K.written sink.new) (K.faults sink.old) (K.faults sink.new)) }
    ensures told { D.told disk.new ≡ D.told disk.old }
    ensures sound { result ≢ Err ShipStop.DiskFault → D.faults disk.new ≡ D.faults disk.old }
    ensures sink { OnOk result (K.faults sink.new ≡ K.faults sink.old) }
{
    spelling_size();
    one_spelling();
    let slots = found.slots;
    let laid = lay_base(disk, &slots, &mut found.rows, words, bytes)?;
    if laid.log.at != found.base {
        return Err(ShipStop::DiskFault);
    }
    match put_words(sink, &words[..laid.size], bytes) {
        Ok(()) => put_log(disk, sink, laid.log, found.stamp, words, bytes),
        Err(_) => Err(ShipStop::SinkFault),
    }
}
