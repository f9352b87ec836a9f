//! Nodes and their rows; sound rows, and one array for each rule that they break.
use arrayvec::ArrayVec;
use erm_model::{
    Map, OID_LIMIT, Oid, ROW_WORDS, Row, RowLaw, TABLES, arrays_fit_what_they_agree_with,
};
use erm_node::{
    Node, SoundRows, keys_ascend, map_has_values_of_records, map_of, nodes_are_read_back,
    read_node, row_of_node, sound, trees_are_low, zero_rows_are_not_reached,
};
use std::test::Fail;

const ZEROS: Row = [0; ROW_WORDS];

const ABSENT: Row = [1, 0, 0, 0, 0, 0, 0, 0, 0, 0, 0, 0, 0, 0, 0, 0];

const SEVEN: [(u64, Oid); 7] = [
    (1, 16),
    (2, 17),
    (3, 18),
    (4, 19),
    (5, 20),
    (6, 21),
    (7, 22),
];

const SEVEN_ROW: Row = [3, 7, 1, 2, 3, 4, 5, 6, 7, 16, 17, 18, 19, 20, 21, 22];

const TWO_ROW: Row = [3, 2, 1, 2, 0, 0, 0, 0, 0, 16, 17, 0, 0, 0, 0, 0];

#[test]
fn seven_keys(rt: HostRuntime) {
    let node = Node {
        leaf: true,
        pairs: ArrayVec::from(SEVEN),
    };
    assert!(rt; row_of_node(&node) == SEVEN_ROW);
    assert!(rt; read_node(&SEVEN_ROW) == Some(node));
    nodes_are_read_back();
    map_has_values_of_records();
    trees_are_low();
    keys_ascend();
    zero_rows_are_not_reached();
    SoundRows::respects_rows();
    arrays_fit_what_they_agree_with::<SoundRows>();
}

// Rows of nodes, each with whether it is a leaf's and how many pairs it has.
const NODES: [(Row, bool, usize); 4] = [
    (ZEROS, true, 0),
    (TWO_ROW, true, 2),
    ([4, 2, 0, 5, 0, 0, 0, 0, 0, 24, 25, 0, 0, 0, 0, 0], false, 2),
    (
        [
            3,
            1,
            0xffff_ffff_ffff_ffff,
            0,
            0,
            0,
            0,
            0,
            0,
            0xffff_ffff,
            0,
            0,
            0,
            0,
            0,
            0,
        ],
        true,
        1,
    ),
];

// Rows of no node: a row, and one of its words changed.
const OTHERS: [(Row, usize, u64); 22] = [
    (SEVEN_ROW, 0, 0),
    (SEVEN_ROW, 0, 1),
    (SEVEN_ROW, 0, 5),
    (SEVEN_ROW, 1, 0),
    (SEVEN_ROW, 1, 6),
    (SEVEN_ROW, 1, 8),
    // Keys that don't ascend, and an object's number of 33 bits.
    (SEVEN_ROW, 2, 2),
    (SEVEN_ROW, 8, 6),
    (SEVEN_ROW, 8, 5),
    (SEVEN_ROW, 9, 1 << 32),
    // Words that aren't named.
    (TWO_ROW, 4, 3),
    (TWO_ROW, 8, 3),
    (TWO_ROW, 11, 3),
    (TWO_ROW, 15, 3),
    (ZEROS, 1, 9),
    (ZEROS, 2, 9),
    (ZEROS, 9, 9),
    (ZEROS, 15, 9),
    // Inner nodes with too few pairs, and the rows of records.
    (ZEROS, 0, 4),
    ([4, 1, 0, 0, 0, 0, 0, 0, 0, 24, 0, 0, 0, 0, 0, 0], 2, 0),
    (ABSENT, 0, 1),
    (ABSENT, 0, 2),
];

// Whether a row is a node's, a leaf's or not, with so many pairs.
fn is_read_so(row: &Row, leaf: bool, count: usize) -> bool {
    let Some(node) = read_node(row) else {
        return false;
    };
    node.leaf == leaf && node.pairs.len() == count && row_of_node(&node) == *row
}

// Whether a row with a word changed is no node's.
fn is_refused(row: Row, word: usize, value: u64) -> bool {
    let mut other = row;
    other[word % ROW_WORDS] = value;
    read_node(&other).is_none()
}

#[test]
fn strict_reading(rt: HostRuntime) {
    for (row, leaf, count) in &NODES {
        assert!(rt; is_read_so(row, *leaf, *count));
    }
    for (row, word, value) in &OTHERS {
        assert!(rt; is_refused(*row, *word, *value));
    }
}

// Table 0 has the keys 1 to 8 in two leaves, table 1 the key 9 without a value, table 2 the keys 5 to 8 in its root, and
// table 3 three levels: the keys 1 to 4, 11 to 14, .. 31 to 34, 101 to 104, .. 131 to 134 in eight leaves below two inner
// nodes. The last three rows are reached by no tree.
const EXAMPLE: [(Oid, Row); 20] = [
    (0, [4, 2, 0, 5, 0, 0, 0, 0, 0, 24, 25, 0, 0, 0, 0, 0]),
    (24, [3, 4, 1, 2, 3, 4, 0, 0, 0, 16, 17, 18, 19, 0, 0, 0]),
    (25, [3, 4, 5, 6, 7, 8, 0, 0, 0, 20, 21, 22, 23, 0, 0, 0]),
    (1, [3, 1, 9, 0, 0, 0, 0, 0, 0, 26, 0, 0, 0, 0, 0, 0]),
    (26, ABSENT),
    (2, [3, 4, 5, 6, 7, 8, 0, 0, 0, 80, 81, 82, 83, 0, 0, 0]),
    (3, [4, 2, 0, 100, 0, 0, 0, 0, 0, 30, 31, 0, 0, 0, 0, 0]),
    (30, [4, 4, 0, 10, 20, 30, 0, 0, 0, 32, 33, 34, 35, 0, 0, 0]),
    (
        31,
        [4, 4, 100, 110, 120, 130, 0, 0, 0, 36, 37, 38, 39, 0, 0, 0],
    ),
    (32, [3, 4, 1, 2, 3, 4, 0, 0, 0, 40, 41, 42, 43, 0, 0, 0]),
    (33, [3, 4, 11, 12, 13, 14, 0, 0, 0, 44, 45, 46, 47, 0, 0, 0]),
    (34, [3, 4, 21, 22, 23, 24, 0, 0, 0, 48, 49, 50, 51, 0, 0, 0]),
    (35, [3, 4, 31, 32, 33, 34, 0, 0, 0, 52, 53, 54, 55, 0, 0, 0]),
    (
        36,
        [3, 4, 101, 102, 103, 104, 0, 0, 0, 56, 57, 58, 59, 0, 0, 0],
    ),
    (
        37,
        [3, 4, 111, 112, 113, 114, 0, 0, 0, 60, 61, 62, 63, 0, 0, 0],
    ),
    (
        38,
        [3, 4, 121, 122, 123, 124, 0, 0, 0, 64, 65, 66, 67, 0, 0, 0],
    ),
    (
        39,
        [3, 4, 131, 132, 133, 134, 0, 0, 0, 68, 69, 70, 71, 0, 0, 0],
    ),
    (100, ABSENT),
    (101, [4, 2, 0, 5, 0, 0, 0, 0, 0, 24, 25, 0, 0, 0, 0, 0]),
    (LAST, ABSENT),
];

// The last object.
const LAST: Oid = OID_LIMIT - 1;

// The first word of a row that says where a leaf's one pair leads.
const BEHIND: u64 = OID_LIMIT as u64;

// One row of the example changed, and whether it is sound then.
const CHANGES: [(bool, Oid, Row); 28] = [
    // Rows that no tree reaches may be any.
    (true, 102, [7; ROW_WORDS]),
    // The root alone may have fewer than four pairs, and the greatest key and the last object are some.
    (
        true,
        2,
        [
            3,
            1,
            0xffff_ffff_ffff_ffff,
            0,
            0,
            0,
            0,
            0,
            0,
            100,
            0,
            0,
            0,
            0,
            0,
            0,
        ],
    ),
    (
        true,
        1,
        [3, 1, 9, 0, 0, 0, 0, 0, 0, BEHIND - 1, 0, 0, 0, 0, 0, 0],
    ),
    (
        true,
        35,
        [3, 4, 31, 32, 33, 99, 0, 0, 0, 52, 53, 54, 55, 0, 0, 0],
    ),
    // Rows that are no tree's.
    (false, 0, ABSENT),
    (false, 1, [5, 1, 9, 0, 0, 0, 0, 0, 0, 26, 0, 0, 0, 0, 0, 0]),
    (false, 1, [3, 1, 9, 1, 0, 0, 0, 0, 0, 26, 0, 0, 0, 0, 0, 0]),
    (false, 26, ZEROS),
    (
        false,
        26,
        [2, 1, 256, 0, 0, 0, 0, 0, 0, 0, 0, 0, 0, 0, 0, 0],
    ),
    (false, 26, [3, 1, 9, 0, 0, 0, 0, 0, 0, 27, 0, 0, 0, 0, 0, 0]),
    // An object that is reached twice: in one table, over two, or as a root too; and one that there may not be.
    (
        false,
        25,
        [3, 4, 5, 6, 7, 8, 0, 0, 0, 20, 21, 22, 22, 0, 0, 0],
    ),
    (false, 1, [3, 1, 9, 0, 0, 0, 0, 0, 0, 16, 0, 0, 0, 0, 0, 0]),
    (false, 1, [3, 1, 9, 0, 0, 0, 0, 0, 0, 1, 0, 0, 0, 0, 0, 0]),
    (false, 0, [4, 2, 0, 5, 0, 0, 0, 0, 0, 24, 2, 0, 0, 0, 0, 0]),
    (
        false,
        1,
        [3, 1, 9, 0, 0, 0, 0, 0, 0, BEHIND, 0, 0, 0, 0, 0, 0],
    ),
    // A tree whose first child is its root again.
    (false, 0, [4, 2, 0, 5, 0, 0, 0, 0, 0, 0, 25, 0, 0, 0, 0, 0]),
    // A first key that isn't the bound, and keys outside their bounds, those of the node above too.
    (false, 0, [4, 2, 1, 5, 0, 0, 0, 0, 0, 24, 25, 0, 0, 0, 0, 0]),
    (
        false,
        24,
        [3, 4, 1, 2, 3, 5, 0, 0, 0, 16, 17, 18, 19, 0, 0, 0],
    ),
    (
        false,
        25,
        [3, 4, 4, 6, 7, 8, 0, 0, 0, 20, 21, 22, 23, 0, 0, 0],
    ),
    (
        false,
        31,
        [4, 4, 101, 110, 120, 130, 0, 0, 0, 36, 37, 38, 39, 0, 0, 0],
    ),
    (
        false,
        31,
        [4, 4, 99, 110, 120, 130, 0, 0, 0, 36, 37, 38, 39, 0, 0, 0],
    ),
    (
        false,
        35,
        [3, 4, 31, 32, 33, 100, 0, 0, 0, 52, 53, 54, 55, 0, 0, 0],
    ),
    // Too few pairs, and leaves of two depths.
    (
        false,
        24,
        [3, 3, 1, 2, 3, 0, 0, 0, 0, 16, 17, 18, 0, 0, 0, 0],
    ),
    (false, 25, ZEROS),
    (
        false,
        30,
        [4, 3, 0, 10, 20, 0, 0, 0, 0, 32, 33, 34, 0, 0, 0, 0],
    ),
    (
        false,
        3,
        [4, 2, 0, 100, 0, 0, 0, 0, 0, 32, 31, 0, 0, 0, 0, 0],
    ),
    (
        false,
        3,
        [4, 2, 0, 100, 0, 0, 0, 0, 0, 30, 36, 0, 0, 0, 0, 0],
    ),
    (false, 0, [3, 2, 1, 5, 0, 0, 0, 0, 0, 24, 25, 0, 0, 0, 0, 0]),
];

fn set(rows: &mut [Row], oid: Oid, row: Row) {
    if let Some(place) = rows.get_mut(oid as usize) {
        *place = row;
    }
}

// The example in rows, where each other record's value is one byte: its object's number.
fn set_example(rows: &mut [Row]) {
    for oid in 16..84 {
        let mut row = ZEROS;
        row[0] = 2;
        row[1] = 1;
        row[2] = u64::from(oid);
        set(rows, oid, row);
    }
    for (oid, row) in EXAMPLE {
        set(rows, oid, row);
    }
}

// The first change after which the example is sound, or isn't, unlike what is said.
fn first_wrong(rows: &mut [Row]) -> Option<usize> {
    for (place, (wanted, oid, row)) in CHANGES.iter().enumerate() {
        set_example(rows);
        set(rows, *oid, *row);
        if rows.len() != OID_LIMIT as usize || sound(rows) != *wanted {
            return Some(place);
        }
    }
    None
}

#[test]
fn soundness(rt: HostRuntime) -> Result<(), Fail> {
    let mut array = vec![in rt.alloc(); ZEROS; OID_LIMIT as usize]?;
    let rows = array.as_mut_slice();
    assert!(rt; rows.len() == OID_LIMIT as usize);
    assert!(rt; sound(rows) && first_wrong(rows).is_none());
    Ok(())
}

// Keys of the example's tables, and the byte of their values.
const VALUES: [(u8, u64, Option<u8>); 15] = [
    (0, 1, Some(16)),
    (0, 8, Some(23)),
    (2, 5, Some(80)),
    (3, 1, Some(40)),
    (3, 34, Some(55)),
    (3, 101, Some(56)),
    (3, 134, Some(71)),
    (0, 0, None),
    (0, 9, None),
    (1, 9, None),
    (1, 1, None),
    (3, 5, None),
    (3, 100, None),
    (4, 1, None),
    (TABLES, 1, None),
];

fn byte_of(map: &Map, table: u8, key: u64) -> Option<u8> {
    map.get(table, key)?.as_slice().first().copied()
}

// Whether the map has the values of the example's keys.
fn has_values(map: &Map) -> bool {
    map.len() == 44
        && VALUES
            .iter()
            .all(|(table, key, byte)| byte_of(map, *table, *key) == *byte)
}

#[test]
fn map_of_example(rt: HostRuntime) -> Result<(), Fail> {
    let mut array = vec![in rt.alloc(); ZEROS; OID_LIMIT as usize]?;
    let rows = array.as_mut_slice();
    assert!(rt; rows.len() == OID_LIMIT as usize);
    assert!(rt; map_of(rt.alloc(), rows)?.is_empty());
    set_example(rows);
    assert!(rt; rows.len() == OID_LIMIT as usize);
    assert!(rt; has_values(&map_of(rt.alloc(), rows)?));
    Ok(())
}
