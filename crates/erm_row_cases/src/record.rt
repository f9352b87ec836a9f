//! Rows of records worked by hand.
use erm_model::{ROW_WORDS, Row, VALUE_BYTES, Value};
use erm_record::{PRESENT, absent, one_value, record_values, row_of, stored_words, value_of};

const THREE: Row = [2, 3, 0x63_62_61, 0, 0, 0, 0, 0, 0, 0, 0, 0, 0, 0, 0, 0];

// Whether the value of three bytes has its row, and none has another one.
fn has_row(value: Value) -> bool {
    row_of(&value) == THREE && value_of(&THREE) == Some(value)
}

fn have_no_value() -> bool {
    absent() == [1, 0, 0, 0, 0, 0, 0, 0, 0, 0, 0, 0, 0, 0, 0, 0]
        && value_of(&absent()).is_none()
        && value_of(&[0; ROW_WORDS]).is_none()
}

#[test]
fn three_bytes(rt: HostRuntime) {
    assert!(rt; Value::new(b"abc").is_some_and(has_row) && have_no_value());
    assert!(rt; stored_words(&THREE) == 4 && stored_words(&[0; ROW_WORDS]) == 1);
    one_value();
    record_values();
}

const EIGHT: u64 = 0x68_67_66_65_64_63_62_61;

// The row of eight bytes with one word changed, and whether a value has that row. A longer value ends in zeros.
const CHANGES: [(usize, u64, bool); 13] = [
    (0, 2, true),
    (0, 3, false),
    (0, 0, false),
    (2, EIGHT - 1, true),
    (3, 1, false),
    (15, 1 << 63, false),
    (1, 0, false),
    (1, 7, false),
    (1, 9, true),
    (1, 112, true),
    (1, 113, false),
    (1, 136, false),
    (1, (1 << 63) + 8, false),
];

#[test]
fn other_rows(rt: HostRuntime) {
    for (word, changed, found) in CHANGES {
        let mut row = [0; ROW_WORDS];
        row[0] = PRESENT;
        row[1] = 8;
        row[2] = EIGHT;
        row[word % ROW_WORDS] = changed;
        assert!(rt; value_of(&row).is_some() == found);
    }
}

#[test]
fn each_length(rt: HostRuntime) {
    let bytes = [0xa5; VALUE_BYTES];
    for len in 0..=VALUE_BYTES {
        let value = Value::new(&bytes[..len]).expect(&rt, "at most 112 bytes are a value");
        let row = row_of(&value);
        assert!(rt; row[1] == len as u64);
        assert!(rt; value_of(&row) == Some(value));
    }
}
