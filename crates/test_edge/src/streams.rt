//! Streams that fail, that are interrupted, and that give or take a part.
use ilk_base::{Failed, Sink, Source, StdIn, StdOut, write_all};
use std::io::{Error, ErrorKind, Read, Result as IoResult, Write};

// What a stream does at one call.
#[derive(Clone, Copy)]
enum Act {
    // it gives or takes so many bytes
    Moves(usize),
    // a signal interrupts it
    Interrupted,
    // it fails
    Fails,
}

// Does the next of these acts for a piece of so many bytes; past them all, it moves nothing.
fn next_act(acts: &mut &[Act], len: usize) -> IoResult<usize> {
    let Some((first, rest)) = acts.split_first() else {
        return Ok(0);
    };
    let act = *first;
    *acts = rest;
    match act {
        Act::Moves(count) => Ok(count.min(len)),
        Act::Interrupted => Err(Error::from(ErrorKind::Interrupted)),
        Act::Fails => Err(Error::from(ErrorKind::BrokenPipe)),
    }
}

// A reader that gives the byte `x` by these acts.
#[derive(Drop)]
struct Gives<'a> {
    acts: &'a [Act],
}

impl Read for Gives<'_> {
    fn read(&mut self, buf: &mut [u8]) -> IoResult<usize> {
        let count = next_act(&mut self.acts, buf.len())?;
        if count > buf.len() {
            return Ok(0);
        }
        buf[..count].fill(b'x');
        Ok(count)
    }
}

// A writer that takes bytes by these acts, and flushes by the others; it counts what it took and what was flushed.
#[derive(Drop)]
struct Takes<'a> {
    acts: &'a [Act],
    flushes: &'a [Act],
    waiting: usize,
    shown: &'a mut usize,
}

impl Write for Takes<'_> {
    fn write(&mut self, buf: &[u8]) -> IoResult<usize> {
        let count = next_act(&mut self.acts, buf.len())?;
        if count > buf.len() {
            return Ok(0);
        }
        self.waiting = self.waiting.saturating_add(count);
        Ok(count)
    }

    fn flush(&mut self) -> IoResult<()> {
        next_act(&mut self.flushes, 1)?;
        *self.shown = self.shown.saturating_add(self.waiting);
        self.waiting = 0;
        Ok(())
    }
}

// How many of up to eight bytes are read; none where the read fails.
fn next<S: Source>(source: &mut S) -> Option<usize> {
    let mut into = [0; 8];
    source.read(&mut into).ok()
}

// Whether the source gives so many bytes, read by read.
fn gives_counts<S: Source>(source: &mut S, counts: &[Option<usize>]) -> bool {
    for count in counts {
        if next(source) != *count {
            return false;
        }
    }
    true
}

// A byte at a time, with a signal before each; a fault in between is no end, and what comes after it is given.
const GIVEN: &[Act] = &[
    Act::Moves(1),
    Act::Interrupted,
    Act::Moves(1),
    Act::Fails,
    Act::Interrupted,
    Act::Interrupted,
    Act::Moves(3),
];

#[test]
fn an_input_that_fails(rt: HostRuntime) {
    let mut input = StdIn::new(Gives { acts: GIVEN });
    assert!(rt; gives_counts(&mut input, &[Some(1), Some(1), None, Some(3), Some(0)]));
}

// A reader in memory tells what is left of it, and is read to its end.
#[test]
fn an_input_in_memory(rt: HostRuntime) {
    let mut input = StdIn::new(b"ten bytes.".as_slice());
    assert!(rt; gives_counts(&mut input, &[Some(8), Some(2), Some(0)]));
}

// Whether ten bytes are written, by these acts and flushes, and how many are then shown.
fn written(acts: &[Act], flushes: &[Act]) -> (Result<(), Failed>, usize) {
    let mut shown = 0;
    let mut out = StdOut::new(Takes {
        acts,
        flushes,
        waiting: 0,
        shown: &mut shown,
    });
    let result = write_all(&mut out, b"ten bytes.");
    (result, shown)
}

// What a writer does: how it takes bytes, how it flushes, how the writing of ten bytes ends, and how many are shown.
struct Row {
    acts: &'static [Act],
    flushes: &'static [Act],
    ends: Result<(), Failed>,
    shown: usize,
}

// Whether each row is written so.
fn are_written(rows: &[Row]) -> bool {
    for row in rows {
        if written(row.acts, row.flushes) != (row.ends, row.shown) {
            return false;
        }
    }
    true
}

// All that is written is shown, whatever parts it is taken in.
const IN_PARTS: &[Row] = &[
    Row {
        acts: &[Act::Moves(20)],
        flushes: &[],
        ends: Ok(()),
        shown: 10,
    },
    Row {
        acts: &[
            Act::Moves(3),
            Act::Interrupted,
            Act::Moves(1),
            Act::Moves(20),
        ],
        flushes: &[Act::Interrupted, Act::Moves(0)],
        ends: Ok(()),
        shown: 10,
    },
];

#[test]
fn an_output_that_takes_parts(rt: HostRuntime) {
    assert!(rt; are_written(IN_PARTS));
}

// A fault of a write or of a flush is one of the output, and so it is where nothing is taken.
const FAILING: &[Row] = &[
    Row {
        acts: &[Act::Moves(4), Act::Fails],
        flushes: &[],
        ends: Err(Failed),
        shown: 4,
    },
    Row {
        acts: &[Act::Moves(4), Act::Moves(0)],
        flushes: &[],
        ends: Err(Failed),
        shown: 4,
    },
    Row {
        acts: &[Act::Moves(20)],
        flushes: &[Act::Fails],
        ends: Err(Failed),
        shown: 0,
    },
    Row {
        acts: &[Act::Moves(4), Act::Moves(20)],
        flushes: &[Act::Moves(0), Act::Fails],
        ends: Err(Failed),
        shown: 4,
    },
];

#[test]
fn an_output_that_fails(rt: HostRuntime) {
    assert!(rt; are_written(FAILING));
}

// A stream that is interrupted for ever is a fault.
#[test]
fn a_stream_that_never_goes_on(rt: HostRuntime) {
    let acts = [Act::Interrupted; 1_000];
    let mut input = StdIn::new(Gives { acts: &acts });
    assert!(rt; next(&mut input) == None);
    assert!(rt; written(&acts, &[]) == (Err(Failed), 0));
}
