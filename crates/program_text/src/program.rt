//! The interlocking of a station as lines.
ghost use Rattle.std.specs.Prelude.{◌≡◌, ◌<◌, ◌^◌, ◌++◌, length, IfOk, OnOk};
ghost use Rattle.station_graph.specs.Diagram.{Diagram};
ghost use Rattle.structured_text.specs.Meaning.{after};
ghost use Rattle.structured_text.specs.Order.{IsInput, AreInOrder};
ghost use Rattle.structured_text.specs.Within.{LinesWithin};
ghost use Rattle.short_equations.specs.Pairs.{AreExactPairs};
ghost use Rattle.short_equations.specs.declared.view.View.TheVariants.{Gap, Load, Bond};
ghost use Rattle.program_text.specs.TermLines.{ServesReleases};
ghost use Rattle.program_text.specs.declared.reading.Reading.TheVariants.{May as AsClosed, Sure as AsOpen};
ghost use Rattle.program_text.specs.Sections.{AreReordered};
ghost use Rattle.program_text.specs.Interlocking.{IsInterlocking, SetsReleases};

use crate::places::places_of;
use crate::reading::Reading;
use crate::release::release_lines;
use crate::section_keys::section_keys;
use crate::sections::in_sections;
use crate::term_lines::term_lines;
use ilk_base::Memory;
use interlock_terms::Terms;
use short_equations::{TermPair, View, view_pairs};
use station_graph::Station;
use std::alloc::Global;
use structured_text::Line;

/// The lines of an interlocking, by what they say.
#[derive(Drop)]
pub struct Program {
    /// what may be coupled, joined, live, earthed and tapped
    pub may: Vec<Line>,
    /// what is bonded for certain
    pub sure: Vec<Line>,
    /// the releases
    pub releases: Vec<Line>,
    /// how many formulas there are of what may be
    pub may_count: usize,
    /// how many there are of what is certain
    pub sure_count: usize,
}

// The lines of formulas of a reading that the lines of the releases need.
fn reading_lines(
    alloc: Global,
    terms: &Terms,
    reading: Reading,
    count: u16,
    releases: &[Line],
) -> Result<Vec<Line>, Memory>
    ensures serves { IfOk result (λ r. ServesReleases reading count terms.now releases.now r.items) }
    ensures within { IfOk result (λ r. (d : Diagram) → length d.switches ≡ count → LinesWithin d r.items) }
{
    let places = places_of(alloc, terms, reading, releases)?;
    let lines = term_lines(alloc, terms, reading, count, &places)?;
    Ok(lines)
}

// The formulas of what may be, and the two terms of each switch in the two views that rest on them.
#[derive(Drop)]
struct MayFormulas {
    terms: Terms,
    gap: Vec<TermPair>,
    load: Vec<TermPair>,
}

// The formulas of what is certain, and the two terms of each switch.
#[derive(Drop)]
struct SureFormulas {
    terms: Terms,
    bond: Vec<TermPair>,
}

// The formulas of what may be coupled, joined, live, earthed and tapped.
fn may_formulas(alloc: Global, station: &Station) -> Result<MayFormulas, Memory>
    ensures gap_len { IfOk result (λ f. length f.gap.items ≡ length station.now.switches) }
    ensures load_len { IfOk result (λ f. length f.load.items ≡ length station.now.switches) }
    ensures gap { IfOk result (λ f. AreExactPairs Gap station.now f.terms f.gap.items) }
    ensures load { IfOk result (λ f. AreExactPairs Load station.now f.terms f.load.items) }
{
    let mut terms = Terms::new(alloc);
    let gap = view_pairs(alloc, &mut terms, station, View::Gap)?;
    let load = view_pairs(alloc, &mut terms, station, View::Load)?;
    Ok(MayFormulas { terms, gap, load })
}

// The formulas of what is bonded for certain.
fn sure_formulas(alloc: Global, station: &Station) -> Result<SureFormulas, Memory>
    ensures bond_len { IfOk result (λ f. length f.bond.items ≡ length station.now.switches) }
    ensures bond { IfOk result (λ f. AreExactPairs Bond station.now f.terms f.bond.items) }
{
    let mut terms = Terms::new(alloc);
    let bond = view_pairs(alloc, &mut terms, station, View::Bond)?;
    Ok(SureFormulas { terms, bond })
}

// The lines of both readings with those of the releases.
fn with_readings(
    alloc: Global,
    may: &Terms,
    sure: &Terms,
    count: u16,
    releases: Vec<Line>,
) -> Result<Program, Memory>
    ensures releases { IfOk result (λ p. p.releases.items ≡ releases.items) }
    ensures may { IfOk result (λ p. ServesReleases AsClosed count may.now releases.items p.may.items) }
    ensures sure { IfOk result (λ p. ServesReleases AsOpen count sure.now releases.items p.sure.items) }
    ensures may_within { IfOk result (λ p. (d : Diagram) → length d.switches ≡ count → LinesWithin d p.may.items) }
    ensures sure_within { IfOk result (λ p. (d : Diagram) → length d.switches ≡ count → LinesWithin d p.sure.items) }
{
    let first = reading_lines(alloc, may, Reading::May, count, &releases)?;
    let second = reading_lines(alloc, sure, Reading::Sure, count, &releases)?;
    Ok(Program {
        may: first,
        sure: second,
        releases,
        may_count: may.len(),
        sure_count: sure.len(),
    })
}

// The interlocking by these formulas.
fn program_by(
    alloc: Global,
    station: &Station,
    may: &MayFormulas,
    sure: &SureFormulas,
) -> Result<Program, Memory>
    requires gap_len { length may.now.gap.items ≡ length station.now.switches }
    requires load_len { length may.now.load.items ≡ length station.now.switches }
    requires bond_len { length sure.now.bond.items ≡ length station.now.switches }
    requires gap { AreExactPairs Gap station.now may.now.terms may.now.gap.items }
    requires load { AreExactPairs Load station.now may.now.terms may.now.load.items }
    requires bond { AreExactPairs Bond station.now sure.now.terms sure.now.bond.items }
    ensures interlocks { IfOk result (λ p. IsInterlocking station.now
        (after (p.may.items ++ (p.sure.items ++ p.releases.items)))) }
    ensures order { IfOk result (λ p. AreInOrder IsInput (p.may.items ++ (p.sure.items ++ p.releases.items))) }
    ensures sets { IfOk result (λ p. SetsReleases station.now
        (p.may.items ++ (p.sure.items ++ p.releases.items))) }
    ensures may { IfOk result (λ p. LinesWithin station.now p.may.items) }
    ensures sure { IfOk result (λ p. LinesWithin station.now p.sure.items) }
    ensures releases { IfOk result (λ p. LinesWithin station.now p.releases.items) }
{
    let count = station.switch_count();
    let may_count = may.terms.len();
    let sure_count = sure.terms.len();
    let releases = release_lines(
        alloc, station, &may.gap, &may.load, &sure.bond, may_count, sure_count,
    )?;
    let program = with_readings(alloc, &may.terms, &sure.terms, count, releases)?;
    Ok(program)
}

// The interlocking by these formulas of what may be.
fn program_with(alloc: Global, station: &Station, may: &MayFormulas) -> Result<Program, Memory>
    requires gap_len { length may.now.gap.items ≡ length station.now.switches }
    requires load_len { length may.now.load.items ≡ length station.now.switches }
    requires gap { AreExactPairs Gap station.now may.now.terms may.now.gap.items }
    requires load { AreExactPairs Load station.now may.now.terms may.now.load.items }
    ensures interlocks { IfOk result (λ p. IsInterlocking station.now
        (after (p.may.items ++ (p.sure.items ++ p.releases.items)))) }
    ensures order { IfOk result (λ p. AreInOrder IsInput (p.may.items ++ (p.sure.items ++ p.releases.items))) }
    ensures sets { IfOk result (λ p. SetsReleases station.now
        (p.may.items ++ (p.sure.items ++ p.releases.items))) }
    ensures may { IfOk result (λ p. LinesWithin station.now p.may.items) }
    ensures sure { IfOk result (λ p. LinesWithin station.now p.sure.items) }
    ensures releases { IfOk result (λ p. LinesWithin station.now p.releases.items) }
{
    let sure = sure_formulas(alloc, station)?;
    program_by(alloc, station, may, &sure)
}

/// The interlocking of a station.
pub fn interlocking(alloc: Global, station: &Station) -> Result<Program, Memory>
    ensures interlocks { IfOk result (λ p. IsInterlocking station.now
        (after (p.may.items ++ (p.sure.items ++ p.releases.items)))) }
    ensures order { IfOk result (λ p. AreInOrder IsInput (p.may.items ++ (p.sure.items ++ p.releases.items))) }
    ensures sets { IfOk result (λ p. SetsReleases station.now
        (p.may.items ++ (p.sure.items ++ p.releases.items))) }
    ensures may { IfOk result (λ p. LinesWithin station.now p.may.items) }
    ensures sure { IfOk result (λ p. LinesWithin station.now p.sure.items) }
    ensures releases { IfOk result (λ p. LinesWithin station.now p.releases.items) }
    ensures few { OnOk result (length station.now.switches < 2 ^ 16) }
{
    // called for its clause alone: how many switches a station has
    station.switch_count();
    let may = may_formulas(alloc, station)?;
    program_with(alloc, station, &may)
}

// The lines, one list behind the other.
fn all_lines(alloc: Global, program: &Program) -> Result<Vec<Line>, Memory>
    ensures { IfOk result (λ r. r.items
        ≡ program.now.may.items ++ (program.now.sure.items ++ program.now.releases.items)) }
{
    let mut lines = Vec::from_slice(alloc, &program.may)?;
    lines.extend_from_slice(&program.sure)?;
    lines.extend_from_slice(&program.releases)?;
    Ok(lines)
}

/// The lines as the text has them: the signals of each bay, what bays are together, and the releases of each bay.
pub(crate) fn lines_by_bays(
    alloc: Global,
    station: &Station,
    program: &Program,
) -> Result<Vec<Line>, Memory>
    requires order { AreInOrder IsInput
        (program.now.may.items ++ (program.now.sure.items ++ program.now.releases.items)) }
    requires within { LinesWithin station.now
        (program.now.may.items ++ (program.now.sure.items ++ program.now.releases.items)) }
    ensures reordered { IfOk result (λ r. AreReordered
        (program.now.may.items ++ (program.now.sure.items ++ program.now.releases.items)) r.items) }
    ensures within { IfOk result (λ r. LinesWithin station.now r.items) }
{
    let lines = all_lines(alloc, program)?;
    let keys = section_keys(
        alloc,
        station,
        &lines,
        program.may_count,
        program.sure_count,
    )?;
    let sorted = in_sections(alloc, station, &lines, &keys)?;
    Ok(sorted)
}
