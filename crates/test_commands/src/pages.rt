//! What a page is answered of the line with an earthing switch and an infeed at one node. The texts are worked by hand
//! from the rules: with the earthing switch closed, closing the infeed breaks R2.
use ilk_base::{Direction, InputFault, InputRefusal};
use page_questions::{
    Answer, check_answer, explain_answer, order_answer, state_answer, why_answer,
};
use release_compile::GraphJudge;
use station_graph::Station;
use std::alloc::Global;
use test_stations::{Example, StationRow, rows_hold};

const EARTHED: &[u8] = b"S/V1/Q1/QC9,on\nS/V1/Q1/E1,off\n";

const UNSURE: &[u8] = b"S/V1/Q1/QC9,bad\nS/V1/Q1/E1,off\n";

// One node carries the infeed and the closed earthing switch.
const CLOSING: &str = "denied R2 close S/V1/Q1/E1
live
node S/V1/Q1/a
by S/V1/Q1/E1
earthed
node S/V1/Q1/a
by S/V1/Q1/QC9
";

// What a page asks.
enum Question {
    Check,
    State,
    Explain(&'static [u8]),
    Why(&'static [u8]),
    Order(&'static [u8]),
}

// A question by these positions, and its answer: whether what is judged differs from the rules and the text, or the
// number of a refusal.
struct Row {
    positions: &'static [u8],
    question: Question,
    answer: Result<(bool, &'static str), u8>,
}

const ROWS: &[Row] = &[
    Row {
        positions: EARTHED,
        question: Question::Check,
        answer: Ok((false, "1 1 - - S/V1/Q1/QC9\n1 0 - R2 S/V1/Q1/E1\n")),
    },
    Row {
        positions: EARTHED,
        question: Question::State,
        answer: Ok((false, "dead earthed S/V1/Q1/a\n")),
    },
    Row {
        positions: EARTHED,
        question: Question::Explain(b"S/V1/Q1/E1"),
        answer: Ok((false, CLOSING)),
    },
    Row {
        positions: EARTHED,
        question: Question::Explain(b"S/V1/Q1"),
        answer: Err(11),
    },
    Row {
        positions: EARTHED,
        question: Question::Why(b"S/V1/Q1/E1"),
        answer: Ok((false, CLOSING)),
    },
    Row {
        positions: EARTHED,
        question: Question::Order(b"open S/V1/Q1/QC9\nclose S/V1/Q1/E1\n"),
        answer: Ok((
            false,
            "1 ok open S/V1/Q1/QC9\n2 ok close S/V1/Q1/E1\naccepted 2\nback accepted\n",
        )),
    },
    Row {
        positions: EARTHED,
        question: Question::Order(b"close S/V1/Q1/E1\n"),
        answer: Ok((true, "1 denied R2 close S/V1/Q1/E1\n")),
    },
    Row {
        positions: UNSURE,
        question: Question::Order(b"close S/V1/Q1/E1\n"),
        answer: Err(14),
    },
];

// The answer to a question of closing a switch, or to one of the station.
fn answer_of(alloc: Global, judge: &GraphJudge, row: &Row) -> Result<Answer, InputFault> {
    let (station, positions) = (judge.station(), row.positions);
    match row.question {
        Question::Check => check_answer(alloc, judge, positions),
        Question::State => state_answer(alloc, station, positions),
        Question::Explain(path) => explain_answer(alloc, judge, positions, Direction::ToOn, path),
        Question::Why(path) => why_answer(alloc, judge, positions, Direction::ToOn, path),
        Question::Order(order) => order_answer(alloc, station, positions, order),
    }
}

// Whether the row's question has its answer.
fn is_answered(alloc: Global, judge: &GraphJudge, row: &Row) -> bool {
    match (answer_of(alloc, judge, row), row.answer) {
        (Ok(answer), Ok((differs, text))) => {
            answer.text.bytes() == text.as_bytes() && answer.differs == differs
        }
        (Err(fault), Err(number)) => {
            fault == InputFault::Refused(InputRefusal { number, line: 0 })
        }
        _ => false,
    }
}

impl StationRow for Row {
    fn example(&self) -> Example {
        Example::EarthedLine
    }

    fn holds(&self, alloc: Global, station: &Station) -> bool {
        match GraphJudge::build(alloc, station) {
            Ok(judge) => is_answered(alloc, &judge, self),
            Err(_) => false,
        }
    }
}

#[test]
fn answers_of_a_page(rt: HostRuntime) {
    assert!(rt; rows_hold(rt.alloc(), ROWS));
}
