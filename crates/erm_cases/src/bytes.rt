//! Words, their bytes and their digests.
use erm_bytes::{
    bytes_again, digest_word, read_words, same_bytes_same_words, words_again, words_have_bytes,
    write_words,
};

// Words and their digests, made by another implementation of SHA-256.
#[test]
fn digests(rt: HostRuntime) {
    let cases: [(&[u64], u64); 6] = [
        (&[], 0x141c_fc98_42c4_b0e3),
        (&[0], 0x7a0b_81a1_f570_55af),
        (&[1, 2, 3], 0x689d_e1e7_3a03_e2e2),
        (&[u64::MAX], 0x5dce_6156_44ae_a312),
        (&[0x0102_0304_0506_0708], 0xe7a3_b786_0898_0b38),
        (&[1048659, 8, 0, 0], 0x1f73_ff74_8bce_0b21),
    ];
    for (words, want) in cases {
        assert!(rt; digest_word(words) == want);
    }
}

const WORDS: [u64; 4] = [1048659, 1049473, 1048930, 16777985];

const BYTES: [u8; 32] = [
    0x53, 0x00, 0x10, 0, 0, 0, 0, 0, 0x81, 0x03, 0x10, 0, 0, 0, 0, 0, 0x62, 0x01, 0x10, 0, 0, 0, 0,
    0, 0x01, 0x03, 0x00, 0x01, 0, 0, 0, 0,
];

#[test]
fn words_and_bytes(rt: HostRuntime) {
    let mut written = [0; 32];
    write_words(&WORDS, &mut written);
    assert!(rt; written == BYTES);
    let mut read = [0; 4];
    read_words(&BYTES, &mut read);
    assert!(rt; read == WORDS);
    same_bytes_same_words();
    words_again();
    words_have_bytes();
    bytes_again();
}
