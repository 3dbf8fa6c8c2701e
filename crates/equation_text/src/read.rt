//! Equations, read from a text.
ghost use Rattle.std.specs.Prelude.{◌≡◌, ◌≤◌, ◌↔◌, length, min, IfOk, IfErr, IfSome, IsTrue, MatchOption};
ghost use Rattle.station_graph.specs.Diagram.{IsStation};
ghost use Rattle.text_lines.specs.declared.lines.TheConstants.{MOST_BYTES};
ghost use Rattle.station_equations.specs.EquationLines.{EquationLines};
ghost use Rattle.station_equations.specs.EquationText.{IsTextOf};
ghost use Rattle.equation_text.specs.Defined.{PartsMay, AreThere};
ghost use Rattle.equation_text.specs.Faults.{IsFirstFault};
ghost use Rattle.ilk_base.specs.Inputs.{ForRefused};
ghost use Rattle.equation_text.specs.ReadText.{AreLines};
ghost use Rattle.equation_text.specs.Stops.{StopsWrong};

use crate::defined::{index_counts, nodes_there, ops_there, parts_there};
use crate::front::read_front;
use crate::reading::{Left, read_all_steps, read_nodes, read_ops, read_starts};
use crate::undefined::{line_behind, undefined_line};
use ilk_base::Memory;
use station_equations::{Equations, Node, PartSteps, SwitchGoals};
use station_graph::Station;
use std::alloc::Global;

/// Why a text gave no equations.
pub use ilk_base::InputFault as EquationsFault;

// The lines of a text but for those that name the switches.
#[derive(Drop)]
struct Lines {
    parts: Vec<PartSteps>,
    ops: Vec<SwitchGoals>,
    nodes: Vec<Node>,
}

// The lines of a text, of which nothing is left then.
fn read_lines(
    alloc: Global,
    left: &mut Left<'_>,
    station: &Station,
) -> Result<Option<Lines>, Memory>
    requires { length left.old.text.now ≤ MOST_BYTES }
    ensures { IfOk result (λ o. MatchOption o (StopsWrong station.now left.old.text.now left.new.text.now)
        (λ v. AreLines station.now left.old.text.now v.parts.items v.ops.items v.nodes.items)) }
{
    let _parts = station.part_count();
    let passed = read_front(alloc, left, station)?;
    if !passed {
        return Ok(None);
    }
    let starts_read = read_starts(alloc, left, station.part_count())?;
    let Some(starts) = starts_read else {
        return Ok(None);
    };
    let parts = read_all_steps(alloc, left, station, &starts)?;
    let counts = index_counts(alloc, &parts)?;
    let ops_read = read_ops(alloc, left, station.switch_count())?;
    let Some(ops) = ops_read else {
        return Ok(None);
    };
    let nodes_read = read_nodes(alloc, left, station.switch_count(), &counts)?;
    let Some(nodes) = nodes_read else {
        return Ok(None);
    };
    if !left.text.is_empty() {
        return Ok(None);
    }
    Ok(Some(Lines { parts, ops, nodes }))
}

// Whether each step and node that the lines name is there.
fn are_there(lines: &Lines) -> bool
    requires { PartsMay lines.now.parts.items }
    ensures { IsTrue result ↔ AreThere lines.now.parts.items lines.now.ops.items lines.now.nodes.items }
{
    parts_there(&lines.parts)
        && ops_there(&lines.ops, lines.nodes.len())
        && nodes_there(&lines.nodes)
}

// The lesser line, where there are two.
fn least(wrong: u32, undefined: Option<u32>) -> u32
    ensures { MatchOption undefined (result ≡ wrong) (λ line. result ≡ min line wrong) }
{
    match undefined {
        Some(line) => line.min(wrong),
        None => wrong,
    }
}

// The line, where there is one.
fn line_of(undefined: Option<u32>) -> u32
    ensures { IfSome undefined (λ line. result ≡ line) }
{
    undefined.unwrap_or(0)
}

/// Reads the text of a station's equations (docs/FORMATS.md). Accepted are exactly the texts of the form, each
/// as the lines that it says; so what `Equations::text` writes is read again as the same lines. Any other text
/// is refused with 10, at its first line with a fault: the one that cannot stand where it does, or the line
/// behind a text that ends too early, or a line that names a step or node that no line defines. Time: the text
/// times the logarithm of its lines; memory: the text.
pub fn read_equations(
    alloc: Global,
    station: &Station,
    bytes: &[u8],
) -> Result<Equations, EquationsFault>
    requires { length bytes.now ≤ MOST_BYTES }
    ensures ok { IfOk result (IsTextOf station.now bytes.now) }
    ensures once { IfOk result (λ e. (other : EquationLines) → IsTextOf station.now bytes.now other → other ≡ e) }
    ensures number { IfErr result (λ f. ForRefused f (λ r. r.number ≡ 10)) }
    ensures none { IfErr result (λ f. ForRefused f (λ _. (e : EquationLines) → ¬ IsTextOf station.now bytes.now e)) }
    ensures line { IfErr result (λ f. ForRefused f (λ r. IsFirstFault station.now bytes.now r.line)) }
{
    let _parts = station.part_count();
    let mut left = Left { text: bytes };
    let read = read_lines(alloc, &mut left, station)?;
    let Some(lines) = read else {
        let wrong = line_behind(&bytes[..bytes.len() - left.text.len()]);
        let undefined = undefined_line(alloc, station, bytes)?;
        return Err(EquationsFault::refused(10, least(wrong, undefined)));
    };
    if !are_there(&lines) {
        let undefined = undefined_line(alloc, station, bytes)?;
        return Err(EquationsFault::refused(10, line_of(undefined)));
    }
    Ok(Equations::new(lines.parts, lines.ops, lines.nodes))
}
