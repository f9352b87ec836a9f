//! Kinds of steps by their names in walks.
use crate::numbers::{Numbers, cell, seat, version};
use erm_machine::{CellWord, Counter, Kind, TailUse};

/// The kind of step of this name, with these numbers.
pub fn kind(name: &str, numbers: &Numbers) -> Option<Kind> {
    life(name, numbers)
        .or(claiming(name, numbers))
        .or(reading(name, numbers))
        .or(own(name, numbers))
        .or(flushing(name, numbers))
}

// Steps of the life of a transaction, and of seats.
fn life(name: &str, numbers: &Numbers) -> Option<Kind> {
    let value = numbers[0];
    let seat = seat(value);
    let bound = numbers[1];
    let kind = match name {
        "begin_tail" => Kind::LoadTail {
            purpose: TailUse::Begin,
        },
        "horizon_tail" => Kind::LoadTail {
            purpose: TailUse::Horizon,
        },
        "gather_tail" => Kind::LoadTail {
            purpose: TailUse::Gather,
        },
        "draw" => Kind::AddTail { size: value },
        "store_begin" => Kind::StoreBegin { value },
        "store_state" => Kind::StoreState { value },
        "load_begin" => Kind::LoadBegin { seat },
        "look" => Kind::LoadState { seat, bound },
        "store_back" => Kind::StoreBack { value },
        "load_back" => Kind::LoadBack { seat },
        "split" => Kind::Split { seat },
        "join" => Kind::Join { seat },
        _ => return None,
    };
    Some(kind)
}

// Steps of claims, of counters and of cuts.
fn claiming(name: &str, numbers: &Numbers) -> Option<Kind> {
    let oid = cell(numbers[0]);
    let seen = numbers[1];
    let head = cell(seen);
    let number = cell(numbers[2]);
    let version = version(numbers);
    let kind = match name {
        "entry" => Kind::LoadEntry { oid },
        "claim" => Kind::Claim { oid, seen, number },
        "install" => Kind::Install { oid, head },
        "objects" => Kind::LoadCounter {
            counter: Counter::Objects,
        },
        "add_object" => Kind::AddCounter {
            counter: Counter::Objects,
        },
        "cells" => Kind::LoadCounter {
            counter: Counter::Cells,
        },
        "add_cell" => Kind::AddCounter {
            counter: Counter::Cells,
        },
        "swap" => Kind::SwapLink { version },
        "detached" => Kind::LoadDetached { version },
        "unset" => Kind::Unset {
            claim: numbers[0] as usize,
        },
        _ => return None,
    };
    Some(kind)
}

// Steps that meet a word of a version.
fn reading(name: &str, numbers: &Numbers) -> Option<Kind> {
    let version = version(numbers);
    let value = numbers[3];
    let row = CellWord::Row(seat(value));
    let kind = match name {
        "stamp" => Kind::LoadCell {
            version,
            word: CellWord::Stamp,
        },
        "link" => Kind::LoadCell {
            version,
            word: CellWord::Link,
        },
        "row" => Kind::LoadCell { version, word: row },
        "set_reader" => Kind::SetReader { version },
        "clear_reader" => Kind::ClearReader { version },
        "readers" => Kind::LoadReaders { version },
        "made" => Kind::LoadStamp {
            version,
            word: CellWord::Stamp,
        },
        "reader_stamp" => Kind::LoadStamp {
            version,
            word: CellWord::ReaderStamp,
        },
        "overwriter" => Kind::LoadStamp {
            version,
            word: CellWord::Overwriter,
        },
        "successor" => Kind::LoadStamp {
            version,
            word: CellWord::OverwriterSucc,
        },
        "raise" => Kind::RaiseReader { version, value },
        "mark" => Kind::StoreOverwriter { version, value },
        "mark_successor" => Kind::StoreSucc { version, value },
        _ => return None,
    };
    Some(kind)
}

// Steps that store a word of the own cell of a claim.
fn own(name: &str, numbers: &Numbers) -> Option<Kind> {
    let word = match name {
        "own_stamp" => CellWord::Stamp,
        "own_link" => CellWord::Link,
        "own_readers" => CellWord::Readers,
        "own_reader_stamp" => CellWord::ReaderStamp,
        "own_overwriter" => CellWord::Overwriter,
        "own_successor" => CellWord::OverwriterSucc,
        "own_row" => CellWord::Row(seat(numbers[3])),
        _ => return None,
    };
    Some(Kind::StoreCell {
        claim: numbers[0] as usize,
        cell: cell(numbers[1]),
        word,
        value: numbers[2],
    })
}

// Steps that meet the ring, and the place up to which it is flushed.
fn flushing(name: &str, numbers: &Numbers) -> Option<Kind> {
    let at = numbers[0];
    let value = numbers[1];
    let kind = match name {
        "fill" => Kind::StoreRing { at, value },
        "decide" => Kind::Decide { at, header: value },
        "ring" => Kind::LoadRing { at },
        "clear" => Kind::ClearRing { at },
        "store_flushed" => Kind::StoreFlushed { value: at },
        "flushed" => Kind::LoadFlushed,
        _ => return None,
    };
    Some(kind)
}
