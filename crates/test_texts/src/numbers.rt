//! What numbers and bytes are hashed to. The expected states were worked out by a calculator.
use number_hash::NumberHasher;
use std::hash::Hasher;

// Numbers, and the state after each alone.
const ROWS: &[(u32, u64)] = &[
    (0, 0),
    (1, 0x9e37_79b9_7f4a_7c15),
    (2, 0x3c6e_f372_fe94_f82a),
    (4_294_967_295, 0xe113_025b_80b5_83eb),
];

// The state after a number of 32 bits.
fn after_word(number: u32) -> u64 {
    let mut hasher = NumberHasher::default();
    hasher.write_u32(number);
    hasher.finish()
}

// The state after a number of 64 bits.
fn after_long(number: u64) -> u64 {
    let mut hasher = NumberHasher::default();
    hasher.write_u64(number);
    hasher.finish()
}

// The state after bytes.
fn after_bytes(bytes: &[u8]) -> u64 {
    let mut hasher = NumberHasher::default();
    hasher.write(bytes);
    hasher.finish()
}

#[test]
fn numbers_of_either_width(rt: HostRuntime) {
    for (number, wanted) in ROWS {
        assert!(rt; after_word(*number) == *wanted);
        assert!(rt; after_long(u64::from(*number)) == *wanted);
    }
}

#[test]
fn bytes_of_a_number(rt: HostRuntime) {
    assert!(rt; after_bytes(b"\x02\0\0\0") == 0x3c6e_f372_fe94_f82a);
    assert!(rt; after_bytes(b"\x02\0\0\0\0\0\0\0") == 0x3c6e_f372_fe94_f82a);
    assert!(rt; after_bytes(b"\x02") == 0x3c6e_f372_fe94_f82a);
}

#[test]
fn bytes_of_a_text(rt: HostRuntime) {
    assert!(rt; after_bytes(b"\x01\x02\x03") == 0xf979_2455_c84f_1fde);
    assert!(rt; after_bytes(b"\x01\0\0\0\0\0\0\0\x02") == 0x3cc1_42f8_ce91_9057);
    assert!(rt;
        after_bytes(b"\0\x01\x02\x03\x04\x05\x06\x07\x08\x09\x0a\x0b\x0c\x0d\x0e\x0f")
            == 0x372e_efb4_b25e_0cdd
    );
}
