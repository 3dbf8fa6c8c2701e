//! What labels tell of an operation, and of its change.
use change_search::{answer, tells};
use graph_walks::Codes;
use ilk_base::{Direction, Rule};
use station_changes::Change;

// The label of a gap graph, that of a load graph, and the rule that closing and opening then break.
const ANSWERS: &[(u32, u32, Option<Rule>, Option<Rule>)] = &[
    (0, 0, None, None),
    (1, 1, Some(Rule::R1), Some(Rule::R3)),
    (2, 0, Some(Rule::R2), None),
    (0, 1, Some(Rule::R3), Some(Rule::R3)),
];

#[test]
fn labels_answer(rt: HostRuntime) {
    for (gap, load, closing, opening) in ANSWERS {
        assert!(rt; answer(Direction::ToOn, *gap, *load) == *closing);
        assert!(rt; answer(Direction::ToOff, *gap, *load) == *opening);
    }
}

// The old station releases the closing, and in the new one it breaks R2; the other way round it is looser.
#[test]
fn labels_tell(rt: HostRuntime) {
    let stricter = Codes {
        first: 0,
        second: 2,
        third: 0,
        fourth: 0,
    };
    assert!(rt; tells(Direction::ToOn, Change::Stricter, Rule::R2, stricter));
    assert!(rt; !tells(Direction::ToOn, Change::Stricter, Rule::R1, stricter));
    assert!(rt; !tells(Direction::ToOn, Change::Looser, Rule::R2, stricter));
    let looser = Codes {
        first: 2,
        second: 0,
        third: 0,
        fourth: 0,
    };
    assert!(rt; tells(Direction::ToOn, Change::Looser, Rule::R2, looser));
    assert!(rt; !tells(Direction::ToOff, Change::Looser, Rule::R2, looser));
}
