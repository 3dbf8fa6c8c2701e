//! The lines of a text before those of the parts.
ghost use Rattle.std.specs.Prelude.{◌≡◌, ◌≢◌, ◌++◌, ◌∷◌, List, ℕ, IfOk, IfSome, IfNone, IsTrue, IsFalse};
ghost use Rattle.equation_text.specs.Reading.{front_text};
ghost use Rattle.equation_text.specs.Faults.{EndsInLf};
ghost use Rattle.equation_text.specs.Stops.{StopsIn};

use crate::reading::Left;
use crate::words::{behind, cut_line};
use ilk_base::{Memory, Text};
use station_equations::push_switches;
use station_graph::Station;
use std::alloc::Global;

// The lines before those of the parts.
pub(crate) fn front_of(alloc: Global, station: &Station) -> Result<Text, Memory>
    ensures { IfOk result (λ t. t ≡ front_text station.now) }
{
    let mut front = Text::new(alloc);
    front.push(b"equations\n")?;
    push_switches(&mut front, station)?;
    Ok(front)
}

// What follows the line in the text.
fn behind_line<'a>(text: &'a [u8], line: &[u8]) -> Option<&'a [u8]>
    ensures some { IfSome result (λ rest. text.now ≡ line.now ++ 10 ∷ rest.now) }
    ensures none { IfNone result ((rest : List ℕ) → text.now ≢ line.now ++ 10 ∷ rest) }
{
    let Some(rest) = behind(text, line) else {
        return None;
    };
    let Some(rest) = behind(rest, b"\n") else {
        return None;
    };
    Some(rest)
}

// Passes these lines, up to the first that does not follow.
fn pass_lines(left: &mut Left<'_>, lines: &[u8]) -> bool
    requires { EndsInLf lines.now }
    ensures passed { IsTrue result → left.old.text.now ≡ lines.now ++ left.new.text.now }
    ensures stops { IsFalse result → StopsIn lines.now left.old.text.now left.new.text.now }
{
    let mut wanted = lines;
    while let Some((line, more)) = cut_line(wanted) {
        let Some(rest) = behind_line(left.text, line) else {
            return false;
        };
        left.text = rest;
        wanted = more;
    }
    true
}

// Passes the lines before those of the parts.
pub(crate) fn read_front(
    alloc: Global,
    left: &mut Left<'_>,
    station: &Station,
) -> Result<bool, Memory>
    ensures front { IfOk result (λ b. IsTrue b → left.old.text.now ≡ front_text station.now ++ left.new.text.now) }
    ensures stops { IfOk result (λ b. IsFalse b →
        StopsIn (front_text station.now) left.old.text.now left.new.text.now) }
{
    let front = front_of(alloc, station)?;
    Ok(pass_lines(left, front.bytes()))
}
