//! The hasher.
ghost use Rattle.std.specs.Prelude.{◌≡◌, ◌/◌, fold, length};
ghost use Rattle.number_hash.specs.Mixing.{mixed, mixed_bytes, mixed_words, turned, written};

use std::hash::Hasher;

// The golden ratio in 64 bits, made odd.
const FACTOR: u64 = 0x9e37_79b9_7f4a_7c15;

/// A hasher that takes a number of 32 or 64 bits by one addition and one multiplication, and eight bytes of a text by
/// these and a rotation. Its seed is fixed, so whoever picks the numbers can make them collide: it is for numbers that
/// the program made.
#[derive(Clone, Copy)]
pub struct NumberHasher {
    state: u64,
}

impl Default for NumberHasher {
    ghost is_default = { λ h. h ≡ record { state = 0 } };

    fn default() -> NumberHasher {
        NumberHasher { state: 0 }
    }
}

// The state after a number.
fn after(state: u64, number: u64) -> u64
    ensures { result ≡ mixed state number }
{
    state.wrapping_add(number).wrapping_mul(FACTOR)
}

// The state after each byte as a number.
fn after_each(state: u64, bytes: &[u8]) -> u64
    ensures { result ≡ fold mixed state bytes.now }
{
    let mut now = state;
    for byte in bytes {
        now = after(now, u64::from(*byte));
    }
    now
}

// The state after a word of a text. Of a product the lower bits depend on lower bits alone, so the halves change places.
fn after_word(state: u64, word: u64) -> u64
    ensures { result ≡ turned state word }
{
    after(state, word).rotate_left(32)
}

// The state after a text, eight bytes at once.
fn after_words(state: u64, bytes: &[u8]) -> u64
    ensures { result ≡ mixed_words (length bytes.now / 8) state bytes.now }
{
    let mut now = state;
    let mut rest = bytes;
    while let Some((word, behind)) = rest.split_first_chunk::<8>() {
        now = after_word(now, u64::from_le_bytes(*word));
        rest = behind;
    }
    after_each(now, rest)
}

// The state after bytes, of which four or eight are a number.
fn after_bytes(state: u64, bytes: &[u8]) -> u64
    ensures { result ≡ mixed_bytes state bytes.now }
{
    if bytes.len() == 4 {
        let four = [bytes[0], bytes[1], bytes[2], bytes[3]];
        return after(state, u64::from(u32::from_le_bytes(four)));
    }
    if bytes.len() == 8 {
        let eight = [
            bytes[0], bytes[1], bytes[2], bytes[3], bytes[4], bytes[5], bytes[6], bytes[7],
        ];
        return after(state, u64::from_le_bytes(eight));
    }
    after_words(state, bytes)
}

impl Hasher for NumberHasher {
    ghost write = { written };

    ghost finish = { λ h. h.state };

    fn finish(&self) -> u64 {
        self.state
    }

    fn write(&mut self, bytes: &[u8]) {
        self.state = after_bytes(self.state, bytes);
    }

    fn write_u32(&mut self, i: u32) {
        self.state = after(self.state, u64::from(i));
    }

    fn write_u64(&mut self, i: u64) {
        self.state = after(self.state, i);
    }

    fn write_usize(&mut self, i: usize) {
        self.state = after(self.state, i as u64);
    }
}
