use crate::assertions::assert_equal_at;
use md4::{INITIAL_VALUE, Md4, code8, digest, digest_of_pieces};
use std::process::Abort;

/// The digest of a message is this number, whole, octet by octet and in three pieces.
fn has_digest(rt: &impl Abort, octets: &[u8], wanted: u128) {
    let size = octets.len();
    let whole = digest(INITIAL_VALUE, octets);
    assert_equal_at(rt, size, u128::from_be_bytes(whole), wanted);
    let code = code8(INITIAL_VALUE, octets);
    assert_equal_at(rt, size, u64::from_be_bytes(code), (wanted >> 64) as u64);
    let mut md4 = Md4::new(INITIAL_VALUE);
    for octet in octets {
        md4.update(&[*octet]);
    }
    assert_equal_at(rt, size, md4.finish(), whole);
    let (front, rest) = octets.split_at(size / 3);
    let pieces = digest_of_pieces(INITIAL_VALUE, &[front, &[], rest]);
    assert_equal_at(rt, size, pieces, whole);
}

// The seven of RFC 1320, A.5.
#[test]
fn the_digests_of_the_rfc(rt: HostRuntime) {
    let cases: [(&str, u128); 7] = [
        ("", 0x31d6cfe0d16ae931b73c59d7e0c089c0),
        ("a", 0xbde52cb31de33e46245e05fbdbd6fb24),
        ("abc", 0xa448017aaf21d8525fc10ae87aa6729d),
        ("message digest", 0xd9130a8164549fe818874806e1c7014b),
        (
            "abcdefghijklmnopqrstuvwxyz",
            0xd79e1c308aa5bbcdeea8ed63df412da9,
        ),
        (
            "ABCDEFGHIJKLMNOPQRSTUVWXYZabcdefghijklmnopqrstuvwxyz0123456789",
            0x043f8582f241db351ce627e153e7f0e4,
        ),
        (
            "12345678901234567890123456789012345678901234567890123456789012345678901234567890",
            0xe33b4ddc9c38f2199c3e7b164fcc0536,
        ),
    ];
    for (text, wanted) in cases {
        has_digest(&rt, text.as_bytes(), wanted);
    }
}

// Sizes about the end of a first and of a second block, with the digests that OpenSSL gives.
#[test]
fn octet_by_octet(rt: HostRuntime) {
    let mut octets = [0; 128];
    for i in 0..128 {
        octets[i] = (i * 7 % 251) as u8;
    }
    let cases: [(usize, u128); 7] = [
        (55, 0xe1c882f1ef3cde04f6b6d33d8f614560),
        (56, 0x4c67d8d05b3928ab1751fcba6082be11),
        (63, 0x33e1cbecf4b3307b42e9912342e9aac2),
        (64, 0x6ea91e16b6d41efaa75504b70d95fc40),
        (119, 0x27d74350da766e20b62d6e17b085e603),
        (120, 0xb05286dba83420436d7df2867714ad2f),
        (128, 0x19a2b50a497735e47bc77dbd40d3dc4e),
    ];
    for (size, wanted) in cases {
        has_digest(&rt, octets.get(..size).unwrap_or(&[]), wanted);
    }
}
