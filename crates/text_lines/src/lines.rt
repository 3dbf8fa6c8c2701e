//! A reader of lines.
ghost use Rattle.std.specs.Prelude.{◌≡◌, ◌<◌, ◌≤◌, ◌==◌, [], ◌∷◌, length, position, IfSome, IfNone};
ghost use Rattle.std.specs.Str.Lines.{lines, strip_carriage_return};
ghost use Rattle.text_lines.specs.Lines.{filled_left, line_count};
ghost use Rattle.text_lines.specs.declared.lines.TheConstants.{MOST_BYTES};

use std::marker::Model;

/// The most bytes of a text whose lines are read.
pub const MOST_BYTES: usize = 4_294_967_294;

// The line without the one CR at its end.
fn without_return(line: &[u8]) -> &[u8]
    ensures { result.now ≡ strip_carriage_return line.now }
{
    match line {
        [front @ .., b'\r'] => front,
        _ => line,
    }
}

// The place of the first LF.
fn first_feed(text: &[u8]) -> Option<usize>
    ensures { result ≡ position (λ byte. byte == 10) text.now }
{
    text.iter().position(|byte| *byte == b'\n')
}

// The first line, and what follows it.
fn first_line(text: &[u8]) -> (&[u8], &[u8])
    requires { 0 < length text.now }
    ensures lines { lines text.now ≡ result.0.now ∷ lines result.1.now }
    ensures shorter { length result.1.now < length text.now }
{
    match first_feed(text) {
        Some(end) => (without_return(&text[..end]), &text[end + 1..]),
        None => (text, &text[text.len()..]),
    }
}

/// The lines of a text that are left to be read, seen as how many were passed and the list of those that
/// are left. A line ends with LF or CR LF, and the last may end with the text; a CR is part of the end only
/// before LF.
#[derive(Drop)]
pub struct Lines<'a> {
    left: &'a [u8],
    passed: u32,
}

impl<'a> Model for Lines<'a> {
    ghost use Rattle.std.specs.Prelude.{◌≤◌};
    ghost use Rattle.std.specs.Str.Lines.{lines};
    ghost use Rattle.text_lines.specs.Lines.{Unread, line_count};
    ghost use Rattle.text_lines.specs.declared.lines.TheConstants.{MOST_BYTES};

    ghost Value = { Unread };

    ghost view = { λ l. record { passed = l.passed; left = lines l.left.now } };

    ghost invariant = { λ l. line_count (record { passed = l.passed; left = lines l.left.now }) ≤ MOST_BYTES };
}

impl<'a> Lines<'a> {
    /// All lines of the text, none passed. At once.
    pub fn new(text: &'a [u8]) -> Lines<'a>
        requires { length text.now ≤ MOST_BYTES }
        ensures { result ≡ record { passed = 0; left = lines text.now } }
    {
        Lines {
            left: text,
            passed: 0,
        }
    }

    /// Passes the lines up to the next that is not empty, and gives that one with its number in the text,
    /// from 1; none where no such line is left, and then all are passed. Time: the bytes passed.
    pub fn next_filled(&mut self) -> Option<(u32, &'a [u8])>
        ensures some { IfSome result (λ p. filled_left self.old ≡ (p.0, p.1.now) ∷ filled_left self.new) }
        ensures none { IfNone result (filled_left self.old ≡ []) }
        ensures all_passed { IfNone result (self.new.left ≡ []) }
        ensures count { line_count self.new ≡ line_count self.old }
    {
        while !self.left.is_empty() {
            let (line, rest) = first_line(self.left);
            self.left = rest;
            self.passed += 1;
            if !line.is_empty() {
                return Some((self.passed, line));
            }
        }
        None
    }

    /// How many lines were passed, at once.
    pub fn passed(&self) -> u32
        ensures passed { result ≡ self.now.passed }
        ensures few { line_count self.now ≤ MOST_BYTES }
    {
        self.passed
    }
}
