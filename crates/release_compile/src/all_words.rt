//! The words of all switches, and what each part can have by them.
ghost use Rattle.std.specs.Prelude.{◌≡◌, IfOk};
ghost use Rattle.double_points.specs.Words.{AreWords};
ghost use Rattle.part_alphabets.specs.Alphabets.{AreAlphabets};
ghost use Rattle.judge_pool.specs.Lettered.{lettered};
ghost use Rattle.release_compile.specs.Possible.{AreAllWords};

use bay_contract::{IndexSet, Parts};
use double_points::Readings;
use ilk_base::{BayId, Memory};
use station_graph::Station;
use std::alloc::Global;

// The words of all switches, and for each part the indices that it can have by them.
#[derive(Drop)]
pub(crate) struct AllWords<'a> {
    pub(crate) words: &'a Readings,
    pub(crate) possible: Vec<IndexSet>,
}

// The words with what each part can have by them.
pub(crate) fn possible_by<'a>(
    alloc: Global,
    station: &Station,
    parts: &Parts,
    words: &'a Readings,
) -> Result<AllWords<'a>, Memory>
    requires lettered { AreAlphabets station.now parts.now }
    requires words { AreWords station.now words.now }
    ensures words { IfOk result (λ w. w.words.now ≡ words.now) }
    ensures possible { IfOk result (AreAllWords (lettered station.now parts.now)) }
{
    let mut possible = Vec::new(alloc);
    for part in 0..station.part_count() {
        let set = parts.possible(alloc, BayId(part as u8), words)?;
        possible.push(set)?;
    }
    Ok(AllWords { words, possible })
}
