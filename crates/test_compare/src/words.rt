//! The words of operations and bays.
ghost use Rattle.station_compare.specs.Comparing.{IsComparison};

use crate::drawn::{CUT, FED, JOINED, LENGTHENED, PARTED, WHOLE};
use station_compare::{BayWord, Comparison, Found, Word, compare_stations};
use station_graph::Station;
use std::alloc::Global;
use std::test::Fail;
use test_stations::{Drawing, Example, drawing_of, station_of};

// The words of opening and of closing a switch of the new station, none where the old one has it not.
type Words = Option<(Word, Word)>;

// What is said of the stations: the words of the new one's switches and of its parts, and whether it extends the old one.
struct Said {
    words: &'static [Words],
    bays: &'static [BayWord],
    extends: bool,
}

// Whether the switch has these words.
fn has_words(found: &Found, words: Words) -> bool {
    match found {
        Found::OnlyNew => words.is_none(),
        Found::InBoth(changes) => match words {
            Some((opening, closing)) => {
                changes.opening.word() == opening && changes.closing.word() == closing
            }
            None => false,
        },
    }
}

// Whether all switches have them.
fn have_words(here: &[Found], words: &[Words]) -> bool {
    if here.len() != words.len() {
        return false;
    }
    for k in 0..here.len() {
        if !has_words(&here[k], words[k]) {
            return false;
        }
    }
    true
}

// Whether the bays have these words.
fn have_bays(
    alloc: Global,
    old: &Station,
    new: &Station,
    found: &Comparison,
    bays: &[BayWord],
) -> bool
    requires { IsComparison old.now new.now found.now }
{
    match found.bays(alloc, old, new) {
        Ok(words) => words.here.as_slice() == bays,
        Err(_) => false,
    }
}

// Whether the comparison of the stations says so.
fn says(alloc: Global, old: &Station, new: &Station, said: &Said) -> bool {
    match compare_stations(alloc, old, new) {
        Ok(found) => {
            have_words(&found.here, said.words)
                && have_bays(alloc, old, new, &found, said.bays)
                && found.extends(old, new) == said.extends
        }
        Err(_) => false,
    }
}

// Whether that of these drawings does.
fn drawn_so(alloc: Global, old: &Drawing, new: &Drawing, said: &Said) -> Result<bool, Fail> {
    let old = station_of(alloc, old)?;
    let new = station_of(alloc, new)?;
    Ok(says(alloc, &old, &new, said))
}

const SAME: Words = Some((Word::Same, Word::Same));

// The earthing switch and the infeed hinder each other in the old station whatever else stands; in the new one not while the
// disconnector is open.
const OF_PARTED: Said = Said {
    words: &[
        Some((Word::Same, Word::Changed)),
        Some((Word::Same, Word::Changed)),
        None,
    ],
    bays: &[BayWord::Common(Word::Changed)],
    extends: false,
};

#[test]
fn a_disconnector_between_changes_both(rt: HostRuntime) -> Result<(), Fail> {
    assert!(rt; drawn_so(rt.alloc(), &JOINED, &PARTED, &OF_PARTED)?);
    Ok(())
}

// The earthing switch alone is never hindered in the old station; in the new one it is while the disconnector, which it
// alone has, is closed.
const OF_FED: Said = Said {
    words: &[Some((Word::Same, Word::Kept)), None, None],
    bays: &[BayWord::Common(Word::Kept), BayWord::New],
    extends: true,
};

#[test]
fn a_feeder_that_is_open_keeps_it(rt: HostRuntime) -> Result<(), Fail> {
    assert!(rt; drawn_so(rt.alloc(), drawing_of(Example::OneEarthed), &FED, &OF_FED)?);
    Ok(())
}

// One switch alone, and the same again.
const OF_ALONE: Said = Said {
    words: &[SAME],
    bays: &[BayWord::Common(Word::Same)],
    extends: true,
};

#[test]
fn a_lone_switch_stays_the_same(rt: HostRuntime) -> Result<(), Fail> {
    let alone = drawing_of(Example::OneEarthed);
    assert!(rt; drawn_so(rt.alloc(), alone, alone, &OF_ALONE)?);
    Ok(())
}

const KEPT: Words = Some((Word::Kept, Word::Kept));

const CLOSING_KEPT: Words = Some((Word::Same, Word::Kept));

// The third feeder reaches the first two over the disconnector between the busbars, and over nothing else.
const OF_LENGTHENED: Said = Said {
    words: &[
        None,
        KEPT,
        CLOSING_KEPT,
        KEPT,
        CLOSING_KEPT,
        CLOSING_KEPT,
        KEPT,
        CLOSING_KEPT,
        KEPT,
        CLOSING_KEPT,
        CLOSING_KEPT,
        None,
        None,
        None,
        None,
        None,
    ],
    bays: &[
        BayWord::NoBay,
        BayWord::NoBay,
        BayWord::New,
        BayWord::Common(Word::Kept),
        BayWord::Common(Word::Kept),
        BayWord::New,
    ],
    extends: true,
};

#[test]
fn a_longer_busbar_keeps_the_feeders(rt: HostRuntime) -> Result<(), Fail> {
    let old = drawing_of(Example::TwoFeeders);
    assert!(rt; drawn_so(rt.alloc(), old, &LENGTHENED, &OF_LENGTHENED)?);
    Ok(())
}

const BOTH_CHANGED: Words = Some((Word::Changed, Word::Changed));

const CLOSING_CHANGED: Words = Some((Word::Same, Word::Changed));

// While the disconnector that cuts the busbar is open, the first feeder is no more hindered by the other two.
const OF_CUT: Said = Said {
    words: &[
        None,
        BOTH_CHANGED,
        CLOSING_CHANGED,
        CLOSING_CHANGED,
        CLOSING_CHANGED,
        BOTH_CHANGED,
        CLOSING_CHANGED,
        CLOSING_CHANGED,
        CLOSING_CHANGED,
        BOTH_CHANGED,
        CLOSING_CHANGED,
        CLOSING_CHANGED,
        CLOSING_CHANGED,
    ],
    bays: &[
        BayWord::NoBay,
        BayWord::NoBay,
        BayWord::New,
        BayWord::Common(Word::Changed),
        BayWord::Common(Word::Changed),
        BayWord::Common(Word::Changed),
    ],
    extends: false,
};

#[test]
fn a_cut_busbar_changes_the_feeders(rt: HostRuntime) -> Result<(), Fail> {
    assert!(rt; drawn_so(rt.alloc(), &WHOLE, &CUT, &OF_CUT)?);
    Ok(())
}
