//! The lines of formulas.
ghost use Rattle.std.specs.Prelude.{◌≡◌, length, IfOk};
ghost use Rattle.station_graph.specs.Diagram.{Diagram};
ghost use Rattle.structured_text.specs.Within.{LinesWithin};
ghost use Rattle.program_text.specs.Places.{ArePlaced};
ghost use Rattle.program_text.specs.TermLines.{leaf_in, inside_in, operand_in, side_in, formula_in, MeansTerms};

use crate::place::Place;
use crate::places::{is_named, place_at};
use crate::reading::{Reading, name_of};
use ilk_base::{Memory, SwitchId};
use interlock_terms::{Term, Terms};
use std::alloc::Global;
use structured_text::{Formula, Line, Operand};

// That the switch counts as closed; never where there is no such switch.
fn leaf_of(reading: Reading, count: u16, switch: SwitchId) -> Formula
    ensures { result ≡ leaf_in reading count switch }
{
    if switch.0 < count {
        match reading {
            Reading::May => Formula::MayBeClosed(switch),
            Reading::Sure => Formula::IsClosed(switch),
        }
    } else {
        Formula::Never
    }
}

// What a formula that has no line says, in the variables of two.
fn inside_of(reading: Reading, term: Term, number: usize) -> Operand
    ensures { result ≡ inside_in reading term number }
{
    match term {
        Term::Both(a, b) => Operand::Product(name_of(reading, a), name_of(reading, b)),
        Term::Either(a, b) => Operand::Sum(name_of(reading, a), name_of(reading, b)),
        Term::Always | Term::Closed(_) => Operand::Variable(name_of(reading, number)),
    }
}

// What stands for a formula at this place.
fn operand_of(reading: Reading, place: Place, term: Term, number: usize) -> Operand
    ensures { result ≡ operand_in reading place term number }
{
    match place {
        Place::Inside => inside_of(reading, term, number),
        Place::Named | Place::Nowhere => Operand::Variable(name_of(reading, number)),
    }
}

// What stands for the formula of this number: its variable, or what it says.
fn side_of(reading: Reading, terms: &Terms, places: &[Place], number: usize) -> Operand
    ensures { result ≡ side_in reading terms.now places.now number }
{
    let term = terms.term(number).unwrap_or(Term::Always);
    operand_of(reading, place_at(places, number), term, number)
}

// What a formula says, in the variables of earlier ones.
fn formula_of(reading: Reading, count: u16, terms: &Terms, places: &[Place], term: Term) -> Formula
    ensures { result ≡ formula_in reading count terms.now places.now term }
{
    match term {
        Term::Always => Formula::Always,
        Term::Closed(switch) => leaf_of(reading, count, switch),
        Term::Both(a, b) => Formula::Both(
            side_of(reading, terms, places, a),
            side_of(reading, terms, places, b),
        ),
        Term::Either(a, b) => Formula::Either(
            side_of(reading, terms, places, a),
            side_of(reading, terms, places, b),
        ),
    }
}

/// A line for each formula that has one, in order.
pub(crate) fn term_lines(
    alloc: Global,
    terms: &Terms,
    reading: Reading,
    count: u16,
    places: &[Place],
) -> Result<Vec<Line>, Memory>
    requires { ArePlaced terms.now places.now }
    ensures means { IfOk result (λ r. MeansTerms reading count terms.now places.now (length terms.now) r.items) }
    ensures within { IfOk result (λ r. (d : Diagram) → length d.switches ≡ count → LinesWithin d r.items) }
{
    let mut lines = Vec::new(alloc);
    for k in 0..terms.len() {
        if is_named(places, k) {
            let term = terms.get(k);
            let name = name_of(reading, k);
            let formula = formula_of(reading, count, terms, places, term);
            lines.push(Line {
                heading: None,
                name,
                formula,
            })?;
        }
    }
    Ok(lines)
}
