//! The alphabets of parts: least positions, where the positions of a bay lead, what its words leave open,
//! and a part with too many contractions.
ghost use Rattle.std.specs.Prelude.{◌≡◌, ◌<◌, length};
ghost use Rattle.part_alphabets.specs.Alphabets.{AreAlphabets};

use crate::words::{WORDS, WordsRow, are_words};
use bay_contract::{Parts, PartsRefusal};
use ilk_base::{BayId, SwitchId};
use part_alphabets::Target;
use station_graph::{Station, Vector};
use std::alloc::Global;
use test_stations::{Example, StationRow, row_holds};

// The least positions of a feeder, index by index. The lowest digit is the busbar disconnector, then come
// the breaker, the line disconnector, the earthing switch and the infeed.
const LEAST: &[u32] = &[
    0b00000, 0b10101, 0b01101, 0b11101, 0b00111, 0b10111, 0b01111, 0b11111,
];

// Positions, a sign for each switch of the station, and the index of the first feeder: nothing is there
// behind the open busbar disconnector, nor behind the open breaker where the line is neither earthed nor
// fed; fed behind the open breaker, earthed behind it, fed through, and all on. The other feeder does not
// matter.
const INDICES: &[(&[u8; 10], u8)] = &[
    (b"0000000000", 0),
    (b"0111100000", 0),
    (b"1010000000", 0),
    (b"1010111111", 1),
    (b"1011000000", 2),
    (b"1110100000", 5),
    (b"1111111111", 7),
];

// Whether these are the least positions of the part.
fn are_least(parts: &Parts, part: BayId, rows: &[u32]) -> bool
    requires { part.0 < length parts.now.parts }
{
    if usize::from(parts.size(part)) != rows.len() {
        return false;
    }
    for index in 0..parts.size(part) {
        if parts.example(part, index) != rows[index as usize] {
            return false;
        }
    }
    true
}

// Whether the part has no steps, and one contraction.
fn is_alone(parts: &Parts, part: BayId) -> bool
    requires { part.0 < length parts.now.parts }
{
    parts.size(part) == 1 && parts.start(part) == Target::Index(0)
}

// The index to which the steps of a part lead.
fn led(parts: &Parts, part: BayId, vector: &Vector) -> Option<u8>
    requires part { part.0 < length parts.now.parts }
    requires ten { length vector.now ≡ 10 }
{
    let mut at = parts.start(part);
    for _ in 0..6 {
        match at {
            Target::Index(index) => {
                return Some(index);
            }
            Target::Step(i) => {
                if i >= parts.steps(part) {
                    return None;
                }
                let step = parts.step(part, i);
                if step.switch.0 >= 10 {
                    return None;
                }
                at = if vector.closed(step.switch) {
                    step.on
                } else {
                    step.off
                };
            }
        }
    }
    None
}

// Puts all switches into these positions.
fn put_all(vector: &mut Vector, signs: &[u8; 10])
    requires { length vector.old ≡ 10 }
    ensures { length vector.new ≡ length vector.old }
{
    for i in 0..10u16 {
        vector.set(SwitchId(i), signs[i as usize] == b'1');
    }
}

// Whether this is the index of the first feeder in these positions, and its steps lead there.
fn is_index(alloc: Global, station: &Station, parts: &Parts, signs: &[u8; 10], index: u8) -> bool
    requires part { 1 < length parts.now.parts }
    requires switches { length station.now.switches ≡ 10 }
    requires ten { parts.now.switches ≡ 10 }
{
    let Ok(mut vector) = Vector::all_open(alloc, station) else {
        return false;
    };
    put_all(&mut vector, signs);
    parts.index_of(BayId(1), &vector) == index && led(parts, BayId(1), &vector) == Some(index)
}

fn are_indices(alloc: Global, station: &Station, parts: &Parts, rows: &[(&[u8; 10], u8)]) -> bool
    requires part { 1 < length parts.now.parts }
    requires switches { length station.now.switches ≡ 10 }
    requires ten { parts.now.switches ≡ 10 }
{
    for (signs, index) in rows {
        if !is_index(alloc, station, parts, signs, *index) {
            return false;
        }
    }
    true
}

// What is asked of the alphabets of a station.
enum Asked {
    // the least positions of both feeders; the busbar has no items and one contraction
    Least(&'static [u32]),
    // where the steps of the first feeder lead, and that there are fifteen: what comes before each of the five
    // switches is one, two, three, three and six
    Ways(&'static [(&'static [u8; 10], u8)]),
    // what words of the first feeder leave open
    Words(&'static [WordsRow]),
    // why there are none of two bays with eight earthing switches on shared nodes
    Refused(PartsRefusal),
}

// Whether the alphabets of the two feeders are as is asked.
fn is_answered(alloc: Global, station: &Station, parts: &Parts, asked: &Asked) -> bool
    requires { AreAlphabets station.now parts.now }
{
    if station.switch_count() != 10 || station.part_count() != 3 {
        return false;
    }
    match asked {
        Asked::Least(rows) => {
            are_least(parts, BayId(1), rows)
                && are_least(parts, BayId(2), rows)
                && is_alone(parts, BayId(0))
        }
        Asked::Ways(rows) => {
            are_indices(alloc, station, parts, rows) && parts.steps(BayId(1)) == 15
        }
        Asked::Words(rows) => are_words(alloc, station, parts, rows),
        Asked::Refused(_) => false,
    }
}

impl StationRow for Asked {
    fn example(&self) -> Example {
        match self {
            Asked::Refused(_) => Example::EightEarthed,
            _ => Example::TwoFeeders,
        }
    }

    fn holds(&self, alloc: Global, station: &Station) -> bool {
        match Parts::new(alloc, station) {
            Ok(parts) => is_answered(alloc, station, &parts, self),
            Err(refusal) => matches!(self, Asked::Refused(wanted) if *wanted == refusal),
        }
    }
}

#[test]
fn least_positions(rt: HostRuntime) {
    assert!(rt; row_holds(rt.alloc(), &Asked::Least(LEAST)));
}

#[test]
fn ways_to_indices(rt: HostRuntime) {
    assert!(rt; row_holds(rt.alloc(), &Asked::Ways(INDICES)));
}

#[test]
fn words_of_a_feeder(rt: HostRuntime) {
    assert!(rt; row_holds(rt.alloc(), &Asked::Words(WORDS)));
}

// Eight earthing switches on shared nodes: 256 contractions after the last.
const TOO_MANY: Asked = Asked::Refused(PartsRefusal::Many {
    part: BayId(0),
    step: 8,
});

#[test]
fn too_many_contractions(rt: HostRuntime) {
    assert!(rt; row_holds(rt.alloc(), &TOO_MANY));
}
