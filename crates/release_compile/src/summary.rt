//! The row of an index set.
ghost use Rattle.std.specs.Prelude.{◌≡◌, ℕ, ◌+◌, ◌*◌, ◌<◌, ◌≤◌, ◌↔◌, true, length, IfOk, IsTrue};
ghost use Rattle.station_graph.specs.Diagram.{Diagram, IsStation};
ghost use Rattle.station_graph.specs.Alike.{Partner};
ghost use Rattle.central_rules.specs.Meaning.{Summarises};
ghost use Rattle.part_alphabets.specs.Alphabets.{AreAlphabets, InSet};
ghost use Rattle.judge_pool.specs.Lettered.{Lettered, lettered, index_count};
ghost use Rattle.release_compile.specs.Summaries.{has_bit, byte_count, IsIndexSet, by_indices};
ghost use Rattle.release_compile.specs.Rows.{IsBitOf, IsByteOf, IsSetRow};

use bay_contract::{IndexSet, Parts};
use double_points::Readings;
use ilk_base::{BayId, Memory, Summary};
use std::alloc::Global;

// How many bytes have a bit for each of so many indices.
fn bytes_for(size: u8) -> usize
    ensures count { result ≡ byte_count size }
    ensures few { result ≤ 32 }
{
    (usize::from(size) + 7) / 8
}

// The weight of an index that is in the set, else 0.
fn bit(set: &IndexSet, index: u8, weight: u8) -> u8
    ensures value { IsBitOf set.now index weight result }
    ensures few { result ≤ weight }
{
    if set.holds(index) { weight } else { 0 }
}

// The byte with a bit for each of eight indices from the first on, the first highest.
fn byte_of(set: &IndexSet, first: u8) -> u8
    requires { first ≤ 248 }
    ensures { IsByteOf set.now first result }
{
    let high = bit(set, first, 128)
        + bit(set, first + 1, 64)
        + bit(set, first + 2, 32)
        + bit(set, first + 3, 16);
    let low = bit(set, first + 4, 8)
        + bit(set, first + 5, 4)
        + bit(set, first + 6, 2)
        + bit(set, first + 7, 1);
    high + low
}

// The row of the set, of which bit 0 is the highest bit of the first byte: as few bytes as hold a bit for each of so
// many indices, and spare bits 0.
pub(crate) fn row_of(size: u8, set: &IndexSet) -> Summary
    requires { length set.now ≡ size }
    ensures { IsSetRow set.now result }
{
    let count = bytes_for(size);
    let mut row = [0; 32];
    for k in 0..count {
        row[k] = byte_of(set, 8 * k as u8);
    }
    Summary::new(&row[..count]).unwrap()
}

// The summary of the indices that the part can have by these words, for a bay of which it is a partner.
pub(crate) fn summary_of(
    alloc: Global,
    parts: &Parts,
    bay: BayId,
    readings: &Readings,
) -> Result<Summary, Memory>
    requires part { bay.0 < length parts.now.parts }
    requires readings { length readings.now ≡ parts.now.switches }
    ensures { IfOk result (λ s. (d : Diagram) (to : ℕ) → IsStation d → AreAlphabets d parts.now → Partner d bay.0 to
        → Summarises (by_indices (lettered d parts.now)) bay.0 to readings.now s) }
{
    let set = parts.possible(alloc, bay, readings)?;
    let size = parts.size(bay);
    let row = row_of(size, &set);
    Ok(row)
}

// Whether the row has the bit of an index.
pub(crate) fn bit_of(row: &[u8], i: usize) -> bool
    requires { i < 8 * length row.now }
    ensures { result ≡ has_bit row.now i }
{
    (row[i / 8] >> (7 - i % 8)) % 2 == 1
}

// Whether the row has the bit of one of these indices.
fn some_bit(row: &[u8], from: usize, to: usize) -> bool
    requires { to ≤ 8 * length row.now }
    ensures { IsTrue result ↔ ((i : ℕ) × (from ≤ i) × (i < to) × (has_bit row.now i ≡ true)) }
{
    for i in from..to {
        if bit_of(row, i) {
            return true;
        }
    }
    false
}

// Whether the summary is an index set of a part with so many indices.
pub(crate) fn is_index_set(size: u8, summary: &Summary) -> bool
    ensures { (a : Lettered) (b : ℕ) → index_count a b ≡ size → IsTrue result ↔ IsIndexSet a b summary.now }
{
    let row = summary.bytes();
    if row.len() != bytes_for(size) {
        return false;
    }
    let any = some_bit(row, 0, usize::from(size));
    let more = some_bit(row, usize::from(size), 8 * row.len());
    any && !more
}
