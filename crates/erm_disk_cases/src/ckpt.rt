//! Slots worked by another program, and what becomes of them where a word is another; which of two slots is the best.
ghost use Rattle.std.specs.Prelude.{◌≡◌, ◌≤◌, length};
ghost use Rattle.erm_model.specs.RowTransaction.{any_law};

use erm_bytes::digest_word;
use erm_ckpt::*;
use erm_model::{AnyRows, OID_LIMIT, ROW_WORDS, Row, RowLaw};
use erm_outside::File;
use std::process::Abort;
use std::test::*;

// No law of rows.
struct Lawless;

impl RowLaw for Lawless {
    ghost law = { any_law };

    fn respects_rows() {}
}

impl RowTest for Lawless {
    fn test(&self, rows: &[Row]) -> bool {
        rows.len() == OID_LIMIT as usize
    }
}

// A slot's words in hexadecimal digits, whose digest is of another implementation of SHA-256, and those in which its checkpoint
// is written. Then what else makes a slot, once the digest is put right: a mark for each word, '+' where it may be one more, '0'
// where it may be 0, '*' where it may be either, '-' where it may be neither; and values of single words, `PLACE=WORD`, that
// make one, and that make none.
struct Spelling {
    words: &'static str,
    written: &'static str,
    marks: &'static str,
    taken: &'static str,
    refused: &'static str,
}

const SPELLINGS: [Spelling; 6] = [
    // Without rows, in the old format, behind the first segment.
    Spelling {
        words: "1 11170 1 0 0 43b771ade948c522",
        written: "2 11170 1 0 0 2d1c06e54a2ce6c2",
        marks: "++++-*",
        taken: "0=2 1=2000000000000000 3=1 2=fffffffffff",
        refused: "0=3 1=7 1=2000000000000001 3=2 2=100000000000 4=ffffffffffffffff",
    },
    // Without rows, at the start of the log, of the last run.
    Spelling {
        words: "1 8 fffffffffff 0 0 44d85db0dc136c9e",
        written: "2 8 fffffffffff 0 0 f08470937fe2ad80",
        marks: "++---*",
        taken: "",
        refused: "",
    },
    // A leaf and two records, whole.
    Spelling {
        words: "1 45 1 0 3 0 3 2 a 14 0 0 0 0 0 10 11 0 0 0 0 0 10 2 1 aa 0 0 0 0 0 0 0 0 0 0 0 0 0 11 2 1 bb 0 0 0 0 0 0 0 0 0 0 0 0 0 a1ad4a2e815ef68c",
        written: "2 45 1 0 3 b00000000 3 2 a 14 0 0 0 0 0 10 11 300000010 2 1 aa 300000011 2 1 bb 4b80d615453b6839",
        marks: "-++--+****+++++**+++++-***++++++++++++++***+++++++++++++*",
        taken: "39=3fff",
        refused: "0=2 22=0 22=11 22=12 39=10 39=4000 39=100000011 3=1",
    },
    // A leaf and two records, each up to its last word that isn't 0.
    Spelling {
        words: "2 26 1 0 3 b00000000 3 2 a 14 0 0 0 0 0 10 11 300000010 2 1 aa 300000011 2 1 bb e0f3ab1799ee871b",
        written: "2 26 1 0 3 b00000000 3 2 a 14 0 0 0 0 0 10 11 300000010 2 1 aa 300000011 2 1 bb e0f3ab1799ee871b",
        marks: "-++--+****+++++*+-**++**+*",
        taken: "21=300003fff",
        refused: "0=1 5=c00000000 5=a00000000 17=300000011 17=300000012 17=10300000010 21=300000010 21=300004000",
    },
    // A row with zeros inside, one without, and the last object's, at the end of the log.
    Spelling {
        words: "2 2000000000000000 3 200000000000 3 a00000005 0 0 0 0 0 7 0 0 0 8000000000000000 1000000011 1 1 1 1 1 1 1 1 1 1 1 1 1 1 1 1 100003fff 9 3403440773c00c97",
        written: "2 2000000000000000 3 200000000000 3 a00000005 0 0 0 0 0 7 0 0 0 8000000000000000 1000000011 1 1 1 1 1 1 1 1 1 1 1 1 1 1 1 1 100003fff 9 3403440773c00c97",
        marks: "--+0-++++++*+++++***************+-+*",
        taken: "",
        refused: "5=1000000005 5=900000005 16=1100000011 16=f00000011 3=200000000001 1=1fffffffffffffff",
    },
    // The same rows, whole.
    Spelling {
        words: "1 30000 3 3 3 5 0 0 0 0 0 7 0 0 0 8000000000000000 0 0 0 0 0 0 11 1 1 1 1 1 1 1 1 1 1 1 1 1 1 1 1 3fff 9 0 0 0 0 0 0 0 0 0 0 0 0 0 0 0 77aa2c0be25d44a8",
        written: "2 30000 3 3 3 a00000005 0 0 0 0 0 7 0 0 0 8000000000000000 1000000011 1 1 1 1 1 1 1 1 1 1 1 1 1 1 1 1 100003fff 9 c2a63720037bb8dd",
        marks: "-++0-*+++++*+++*+++++++****************-++++++++++++++++*",
        taken: "",
        refused: "",
    },
];

// The most words of these spellings.
const MOST_WORDS: usize = 57;

// The words of a spelling, with zeros behind them, and how many they are.
#[derive(Clone, Copy)]
struct Words {
    all: [u64; MOST_WORDS],
    size: usize,
}

fn words_of(text: &str) -> Words {
    let mut all = [0; MOST_WORDS];
    let mut size = 0;
    for (place, word) in text.split_whitespace().enumerate() {
        all[place % MOST_WORDS] = u64::from_str_radix(word, 16).unwrap_or(0);
        size = place % MOST_WORDS + 1;
    }
    Words { all, size }
}

// The place and the word of `PLACE=WORD`.
fn change_of(text: &str) -> Option<(usize, u64)> {
    let (place, word) = text.split_once('=')?;
    Some((
        usize::from_str_radix(place, 10).ok()?,
        u64::from_str_radix(word, 16).ok()?,
    ))
}

// Whether a slot stands at the front of the words.
fn is_read(words: &[u64], rows: &mut [Row]) -> bool
    requires { length rows.old ≡ OID_LIMIT }
{
    read_slot(words, rows, &Lawless).is_some()
}

// Writes a slot into a buffer that has room for each.
fn write(out: &mut [u64], slot: &Slot, rows: &[Row]) -> usize
    requires rows { length rows.now ≡ OID_LIMIT }
    requires out { length out.old ≡ SLOT_WORDS }
    ensures { result ≤ SLOT_WORDS }
{
    slots_are_bounded();
    encode_slot(out, slot, rows)
}

// The slot is read whatever follows, and with the last word missing it isn't; its checkpoint is written so, in the new format.
fn is_written_so(spelling: &Spelling, rows: &mut [Row], out: &mut [u64]) -> bool
    requires rows { length rows.old ≡ OID_LIMIT }
    requires out { length out.old ≡ SLOT_WORDS }
{
    let words = words_of(spelling.words);
    let size = words.size;
    if size < 1 || size > MOST_WORDS || is_read(&words.all[..size - 1], rows) {
        return false;
    }
    let Some(slot) = read_slot(&words.all, rows, &Lawless) else {
        return false;
    };
    let said = Slot {
        stamp: words.all[1],
        run: words.all[2],
        first: words.all[3],
    };
    let written = words_of(spelling.written);
    let count = write(out, &slot, rows);
    slot == said
        && count == written.size
        && count <= MOST_WORDS
        && out[..count] == written.all[..count]
        && spelling.marks.len() == size
}

// With a word another, no slot stands there, and with the right digest besides one does, or not, as is said.
fn is_so_changed(words: &Words, rows: &mut [Row], change: (usize, u64), taken: bool) -> bool
    requires { length rows.old ≡ OID_LIMIT }
{
    let (place, word) = change;
    let size = words.size;
    if size > MOST_WORDS || place >= size {
        return false;
    }
    let mut other = words.all;
    other[place] = word;
    if is_read(&other[..size], rows) {
        return false;
    }
    other[size - 1] = digest_word(&other[..size - 1]);
    is_read(&other[..size], rows) == taken
}

// The first place whose word doesn't make what its mark says.
fn first_wrong_mark(spelling: &Spelling, rows: &mut [Row]) -> Option<usize>
    requires { length rows.old ≡ OID_LIMIT }
{
    let words = words_of(spelling.words);
    let marks = spelling.marks.as_bytes();
    for place in 0..words.size.min(MOST_WORDS) {
        let word = words.all[place];
        let mark = *marks.get(place).unwrap_or(&b' ');
        let more = (place, word.wrapping_add(1));
        if !is_so_changed(&words, rows, more, mark == b'+' || mark == b'*') {
            return Some(place);
        }
        if word != 0 && !is_so_changed(&words, rows, (place, 0), mark == b'0' || mark == b'*') {
            return Some(place);
        }
    }
    None
}

// The first of the changes that doesn't make a slot, or makes one, unlike what is said.
fn first_wrong(words: &Words, rows: &mut [Row], changes: &str, taken: bool) -> Option<(usize, u64)>
    requires { length rows.old ≡ OID_LIMIT }
{
    for text in changes.split_whitespace() {
        let change = change_of(text).unwrap_or((MOST_WORDS, 0));
        if !is_so_changed(words, rows, change, taken) {
            return Some(change);
        }
    }
    None
}

// Whether a spelling makes a slot, and what else makes one or none, as is said.
fn is_as_said(spelling: &Spelling, rows: &mut [Row], out: &mut [u64]) -> bool
    requires rows { length rows.old ≡ OID_LIMIT }
    requires out { length out.old ≡ SLOT_WORDS }
{
    let words = words_of(spelling.words);
    is_written_so(spelling, rows, out)
        && first_wrong_mark(spelling, rows).is_none()
        && first_wrong(&words, rows, spelling.taken, true).is_none()
        && first_wrong(&words, rows, spelling.refused, false).is_none()
}

// The first spelling that isn't as is said, by its words.
fn first_other(rows: &mut [Row], out: &mut [u64]) -> Option<&'static str>
    requires rows { length rows.old ≡ OID_LIMIT }
    requires out { length out.old ≡ SLOT_WORDS }
{
    for spelling in &SPELLINGS {
        if !is_as_said(spelling, rows, out) {
            return Some(spelling.words);
        }
    }
    None
}

#[test]
fn spellings(rt: HostRuntime) -> Result<(), Fail> {
    let mut table = vec![in rt.alloc(); [0; ROW_WORDS]; OID_LIMIT as usize]?;
    let mut buffer = vec![in rt.alloc(); 7; SLOT_WORDS]?;
    assert_eq!(rt;
        first_other(table.as_mut_slice(), buffer.as_mut_slice()),
        None
    );
    Ok(())
}

// A slot with as many whole rows as there may be. Its digest, another implementation's, tells the other words.
const GREATEST: Slot = Slot {
    stamp: 1 << 61,
    run: (1 << 44) - 1,
    first: 1 << 45,
};

// Whether it is written so, and read again.
fn is_greatest(rows: &mut [Row], out: &mut [u64], read: &mut [Row]) -> bool
    requires rows { length rows.old ≡ OID_LIMIT }
    requires out { length out.old ≡ SLOT_WORDS }
    requires read { length read.old ≡ OID_LIMIT }
{
    for (oid, row) in rows.iter_mut().enumerate() {
        *row = [oid as u64 + 1; ROW_WORDS];
    }
    let size = write(out, &GREATEST, rows);
    size == SLOT_WORDS
        && out[SLOT_WORDS - 1] == 0x7f99808e8c23047d
        && read_slot(out, read, &Lawless) == Some(GREATEST)
        && &*read == &*rows
}

#[test]
fn greatest(rt: HostRuntime) -> Result<(), Fail> {
    let mut table = vec![in rt.alloc(); [0; ROW_WORDS]; OID_LIMIT as usize]?;
    let mut buffer = vec![in rt.alloc(); 7; SLOT_WORDS]?;
    let mut copy = vec![in rt.alloc(); [7; ROW_WORDS]; OID_LIMIT as usize]?;
    assert!(rt;
        is_greatest(
            table.as_mut_slice(),
            buffer.as_mut_slice(),
            copy.as_mut_slice()
        )
    );
    Ok(())
}

// The stamp and the first segment of each slot that checks; then the best slot's stamp, the file that is written next, and the
// segments that are removed: from the first to before the last.
struct Choice {
    slot0: Option<(u64, u64)>,
    slot1: Option<(u64, u64)>,
    best: Option<u64>,
    other: File,
    from: u64,
    to: u64,
}

#[rattlefmt::skip]
const CHOICES: [Choice; 7] = [
    Choice { slot0: None, slot1: None, best: None, other: File::Slot0, from: 0, to: 0 },
    Choice { slot0: Some((70000, 0)), slot1: None, best: Some(70000), other: File::Slot1, from: 0, to: 1 },
    Choice { slot0: None, slot1: Some((200000, 1)), best: Some(200000), other: File::Slot0, from: 1, to: 3 },
    Choice { slot0: Some((70000, 0)), slot1: Some((200000, 1)), best: Some(200000), other: File::Slot0, from: 1, to: 3 },
    Choice { slot0: Some((200000, 1)), slot1: Some((140000, 0)), best: Some(200000), other: File::Slot1, from: 2, to: 3 },
    Choice { slot0: Some((200000, 3)), slot1: Some((140000, 0)), best: Some(200000), other: File::Slot1, from: 3, to: 3 },
    Choice { slot0: Some((140000, 1)), slot1: Some((140000, 2)), best: Some(140000), other: File::Slot1, from: 2, to: 2 },
];

fn slot_of((stamp, first): (u64, u64)) -> Slot {
    Slot {
        stamp,
        run: 1,
        first,
    }
}

// Whether of a choice's slots these are the best one's stamp, the other file, and the segments that are removed.
fn is_chosen(choice: &Choice) -> bool {
    let slots = Slots {
        slot0: choice.slot0.map(slot_of),
        slot1: choice.slot1.map(slot_of),
    };
    best_of(&slots).map(|slot| slot.stamp) == choice.best
        && other_of(&slots) == choice.other
        && next_first(&slots) == choice.from
        && removal_end(&slots) == choice.to
}

#[test]
fn choices(rt: HostRuntime) {
    for (place, choice) in CHOICES.iter().enumerate() {
        assert!(rt; is_chosen(choice), "choice {place}");
    }
}

#[test]
fn laws() {
    one_slot();
    files_have_the_slots_of_their_words();
    one_checkpoint::<AnyRows>();
    one_recovery::<AnyRows>();
    torn_slots_show::<AnyRows>();
    read_slots_show::<AnyRows>();
    best_slots_are_of_best_checkpoints();
    next_first_is_low();
    put_slots_are_best();
    recovery_stays::<AnyRows>();
    recovery_goes_on::<AnyRows>();
    slots_recover::<AnyRows>();
}
