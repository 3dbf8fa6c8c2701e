//! Calls of the program over files that are there: what each writes, and how it ends.
#![tactic(auto)]

use ilk_base::{StdIn, StdOut};
use program_edge::run_words;
use std::alloc::Global;
use std::fs;
use std::io::Result;

// One call: the words of its command line, and what it is given on its input.
struct Call {
    words: &'static str,
    input: &'static str,
}

// The file that the stored sessions make.
const DEVICE: &str = "test_run_q1.bin";

const CLOSE: &str = "command close S/V1/Q1/QB1\n";

// A drawing whose second feeder stands behind 70,000 bytes of a comment; a drawing and positions that are refused; a
// file that is missing; an order with a denied step; a log that breaks a premise; words of no command; a generated
// station; and two sessions over one device, of which the second goes on where the first ended.
const CALLS: &[Call] = &[
    Call {
        words: "check long.ssd through.csv",
        input: "",
    },
    Call {
        words: "check torn.ssd through.csv",
        input: "",
    },
    Call {
        words: "check feeders.ssd twice.csv",
        input: "",
    },
    Call {
        words: "check feeders.ssd missing.csv",
        input: "",
    },
    Call {
        words: "order feeders.ssd off.csv order.txt",
        input: "",
    },
    Call {
        words: "replay feeders.ssd stops.log",
        input: "",
    },
    Call {
        words: "check feeders.ssd",
        input: "",
    },
    Call {
        words: "work 2",
        input: "",
    },
    Call {
        words: "stored feeders.ssd S/V1/Q1 test_run_q1.bin",
        input: CLOSE,
    },
    Call {
        words: "stored feeders.ssd S/V1/Q1 test_run_q1.bin",
        input: CLOSE,
    },
];

// The words of a line.
fn words_of(alloc: Global, line: &str) -> Result<Vec<String>> {
    let mut words = Vec::new(alloc);
    for word in line.split_whitespace() {
        words.push(String::from_str(alloc, word)?)?;
    }
    Ok(words)
}

// Makes the call, with what it says of its end on the output too.
fn make_call(rt: &HostRuntime, call: &Call) -> Result<()> {
    let alloc = rt.alloc();
    let words = words_of(alloc, call.words)?;
    let mut input = StdIn::new(call.input.as_bytes());
    let mut out = StdOut::new(rt.stdout());
    let mut err = StdOut::new(rt.stdout());
    let status = run_words(alloc, &words, rt, &mut input, &mut out, &mut err);
    println!(rt; "status {}", status as u8)
}

fn main(rt: HostRuntime) -> Result<()> {
    for call in CALLS {
        make_call(&rt, call)?;
    }
    fs::remove_file(&rt, DEVICE)
}
