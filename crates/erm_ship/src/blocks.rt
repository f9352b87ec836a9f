//! The blocks of a log, put to a sink.
ghost use Rattle.std.specs.Prelude.{◌≡◌, ◌≢◌, ◌≤◌, ◌<◌, length, Err, IfErr, IfOk, OnOk};
ghost use Rattle.erm_ship.specs.Sends.{SendsAll, SendsOne, StopsIn};

use crate::lead::last_place;
use crate::put::put_words;
use crate::stop::ShipStop;
use erm_block::{one_spelling, spelling_size};
use erm_log_disk::read_log;
use erm_model::Stamp;
use erm_outside::{Disk, Sink};
use erm_recover::{WINDOW_BYTES, WINDOW_WORDS};
use erm_replica::LogPlace;

// The same with room for as many words as a segment has.
fn put_blocks<D: Disk, K: Sink>(
    disk: &mut D,
    sink: &mut K,
    start: LogPlace,
    end: Stamp,
    words: &mut [u64],
    bytes: &mut [u8],
) -> Result<(), ShipStop>
    requires start { start.at ≤ end }
    requires words { length words.old ≡ WINDOW_WORDS }
    requires bytes { WINDOW_BYTES ≤ length bytes.old }
    ensures all { OnOk result (SendsAll (D.told disk.old) start end (K.written sink.old) (K.written sink.new)) }
    ensures stops { IfErr result (λ stop. StopsIn (D.told disk.old) start end stop (K.written sink.old) (K.written sink.new) (D.faults disk.old) (D.faults disk.new) (K.faults sink.old) (K.faults sink.new)) }
    ensures told { D.told disk.new ≡ D.told disk.old }
    ensures sound { result ≢ Err ShipStop.DiskFault → D.faults disk.new ≡ D.faults disk.old }
    ensures sink { OnOk result (K.faults sink.new ≡ K.faults sink.old) }
{
    spelling_size();
    one_spelling();
    let mut place = start;
    while place.at < end {
        place = put_window(disk, sink, place, end, words, bytes)?;
    }
    Ok(())
}

/// Puts the words of the blocks that lead from one place of a disk's log to another, which are read again, as many as a segment has
/// at a time. Where none goes on before the end, which was found a moment before, the disk counts as failed.
pub(crate) fn put_log<D: Disk, K: Sink>(
    disk: &mut D,
    sink: &mut K,
    start: LogPlace,
    end: Stamp,
    words: &mut [u64],
    bytes: &mut [u8],
) -> Result<(), ShipStop>
    requires start { start.at ≤ end }
    requires words { WINDOW_WORDS ≤ length words.old }
    requires bytes { WINDOW_BYTES ≤ length bytes.old }
    ensures all { OnOk result (SendsAll (D.told disk.old) start end (K.written sink.old) (K.written sink.new)) }
    ensures stops { IfErr result (λ stop. StopsIn (D.told disk.old) start end stop (K.written sink.old) (K.written sink.new) (D.faults disk.old) (D.faults disk.new) (K.faults sink.old) (K.faults sink.new)) }
    ensures told { D.told disk.new ≡ D.told disk.old }
    ensures sound { result ≢ Err ShipStop.DiskFault → D.faults disk.new ≡ D.faults disk.old }
    ensures sink { OnOk result (K.faults sink.new ≡ K.faults sink.old) }
{
    let words = &mut words[..WINDOW_WORDS];
    put_blocks(disk, sink, start, end, words, bytes)
}

// Puts the words of the blocks from a place on that stand whole in as many words as a segment has, and answers the place behind.
fn put_window<D: Disk, K: Sink>(
    disk: &mut D,
    sink: &mut K,
    place: LogPlace,
    end: Stamp,
    words: &mut [u64],
    bytes: &mut [u8],
) -> Result<LogPlace, ShipStop>
    requires place { place.at < end }
    requires words { length words.old ≡ WINDOW_WORDS }
    requires bytes { WINDOW_BYTES ≤ length bytes.old }
    ensures one { IfOk result (λ next. SendsOne (D.told disk.old) place end next (K.written sink.old) (K.written sink.new)) }
    ensures stops { IfErr result (λ stop. StopsIn (D.told disk.old) place end stop (K.written sink.old) (K.written sink.new) (D.faults disk.old) (D.faults disk.new) (K.faults sink.old) (K.faults sink.new)) }
    ensures told { D.told disk.new ≡ D.told disk.old }
    ensures sound { result ≢ Err ShipStop.DiskFault → D.faults disk.new ≡ D.faults disk.old }
    ensures sink { OnOk result (K.faults sink.new ≡ K.faults sink.old) }
{
    spelling_size();
    let count = read_log(disk, place.at, words, bytes)?;
    let window = &words[..count];
    let next = last_place(window, place, end);
    if next.at == place.at {
        return Err(ShipStop::DiskFault);
    }
    let count = (next.at - place.at) as usize;
    match put_words(sink, &window[..count], bytes) {
        Ok(()) => Ok(next),
        Err(_) => Err(ShipStop::SinkFault),
    }
}
