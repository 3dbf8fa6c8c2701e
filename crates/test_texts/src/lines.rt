//! Which lines a text has. The expected lines are written out by hand.
use text_lines::{Lines, after, decimal_number};

// The texts and their lines that are not empty, with their numbers.
const ROWS: &[(&[u8], &[(u32, &[u8])])] = &[
    (b"", &[]),
    (b"\n\r\n\n", &[]),
    (b"a", &[(1, b"a")]),
    (b"a\nb\n", &[(1, b"a"), (2, b"b")]),
    (b"\r\na\r\n\nb\r", &[(2, b"a"), (4, b"b\r")]),
    (b"\r", &[(1, b"\r")]),
    (b"a\r\r\n", &[(1, b"a\r")]),
];

// Whether these are the lines of a short text.
fn has_lines(text: &[u8], wanted: &[(u32, &[u8])]) -> bool {
    if text.len() > 100 {
        return false;
    }
    let mut lines = Lines::new(text);
    for (number, line) in wanted {
        if lines.next_filled() != Some((*number, *line)) {
            return false;
        }
    }
    lines.next_filled() == None
}

#[test]
fn filled_lines(rt: HostRuntime) {
    for (text, wanted) in ROWS {
        assert!(rt; has_lines(text, wanted));
    }
}

// Lines and what follows `open ` in them.
const HEADS: &[(&[u8], Option<&[u8]>)] = &[
    (b"open a b", Some(b"a b")),
    (b"open \ra", Some(b"\ra")),
    (b"open a\r", None),
    (b"open ", None),
    (b"ope", None),
    (b"close a", None),
];

#[test]
fn what_follows_a_head(rt: HostRuntime) {
    for (line, wanted) in HEADS {
        assert!(rt; after(line, b"open ") == *wanted);
    }
}

// Words, and the numbers that they are.
const WORDS: &[(&[u8], Option<u32>)] = &[
    (b"0", Some(0)),
    (b"10", Some(10)),
    (b"4294967295", Some(4_294_967_295)),
    (b"4294967296", None),
    (b"00", None),
    (b"01", None),
    (b"+1", None),
    (b"-0", None),
    (b"1 ", None),
    (b"x1", None),
    (b"\xff", None),
    (b"", None),
];

#[test]
fn numbers(rt: HostRuntime) {
    for (word, wanted) in WORDS {
        assert!(rt; decimal_number(word) == *wanted);
    }
}
