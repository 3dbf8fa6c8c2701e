//! What is asked of the judge of a worked station.
use ilk_base::Rule;
use test_stations::Example;

// A switch of the earthed line, whether the other one is closed, and the answer of closing it.
pub(crate) type Answer = (u16, bool, Option<Rule>);

// Two parts, and the size that the first is told of the second.
pub(crate) type Bits = (u8, u8, Option<u8>);

// What is asked.
pub(crate) enum Asked {
    // the text of its equations
    Text(&'static [u8]),
    // what its equations answer
    Answers(&'static [Answer]),
    // the text of its plan, and for pairs of parts the size that the first is told of the second
    Plan(&'static [u8], &'static [Bits]),
}

// A station, and what is asked of its judge.
pub(crate) struct Row {
    pub(crate) drawing: Example,
    pub(crate) asked: Asked,
}
