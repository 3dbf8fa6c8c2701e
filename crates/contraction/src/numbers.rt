//! Lists of numbers, side by side and as bytes.
ghost use Rattle.std.specs.Prelude.{◌≡◌, ◌↔◌, ◌+◌, ◌*◌, ◌/◌, ◌<◌, ℕ, List, length, slice_index, IfOk, IsTrue};
ghost use Rattle.contraction.specs.Rows.{words};

use ilk_base::Memory;
use std::alloc::Global;

// Whether the numbers are the same. There are few of them, and then this takes less time than `==`.
pub(crate) fn same_numbers(a: &[u16], b: &[u16]) -> bool
    ensures { IsTrue result ↔ (a.now ≡ b.now) }
{
    if a.len() != b.len() {
        return false;
    }
    for i in 0..a.len() {
        if a[i] != b[i] {
            return false;
        }
    }
    true
}

// The number that two bytes of the list are, the higher one first.
pub(crate) fn number_at(bytes: &[u8], i: usize) -> u16
    requires { 2 * i + 1 < length bytes.now }
    ensures { (numbers : List ℕ) → bytes.now ≡ words numbers → result ≡ slice_index numbers i }
{
    u16::from(bytes[2 * i]) * 256 + u16::from(bytes[2 * i + 1])
}

// Reads the numbers of which these are the bytes into a list that has room for them.
fn read_numbers(numbers: &mut [u16], bytes: &[u8])
    requires { length numbers.old ≡ length bytes.now / 2 }
    ensures long { length numbers.new ≡ length bytes.now / 2 }
    ensures read { (list : List ℕ) → bytes.now ≡ words list → numbers.new ≡ list }
{
    for i in 0..numbers.len() {
        numbers[i] = number_at(bytes, i);
    }
}

// The numbers of which these are the bytes.
pub(crate) fn numbers_of(alloc: Global, bytes: &[u8]) -> Result<Vec<u16>, Memory>
    ensures long { IfOk result (λ v. length v.items ≡ length bytes.now / 2) }
    ensures read { IfOk result (λ v. (numbers : List ℕ) → bytes.now ≡ words numbers → v.items ≡ numbers) }
{
    let mut numbers = vec![in alloc; 0; bytes.len() / 2]?;
    read_numbers(&mut numbers, bytes);
    Ok(numbers)
}

// Whether these numbers are those of which these are the bytes. Takes no memory.
pub(crate) fn are_told(numbers: &[u16], bytes: &[u8]) -> bool
    ensures { (list : List ℕ) → bytes.now ≡ words list → IsTrue result ↔ (list ≡ numbers.now) }
{
    if numbers.len() != bytes.len() / 2 {
        return false;
    }
    for i in 0..numbers.len() {
        if numbers[i] != number_at(bytes, i) {
            return false;
        }
    }
    true
}
