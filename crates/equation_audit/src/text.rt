//! The text of `audit`.
ghost use Rattle.std.specs.Prelude.{◌≡◌, ◌<◌, ◌++◌, [], length, codes, slice_index_or, Some, IfOk, OnOk};
ghost use Rattle.station_graph.specs.Alike.{IsVector};
ghost use Rattle.central_rules.specs.Names.{direction_name};
ghost use Rattle.equation_audit.specs.Findings.{IsShown, AreShown};
ghost use Rattle.equation_audit.specs.AuditText.{closed_at, closed_lines, loose_part, own_at, own_lines, strict_part};
ghost use Rattle.equation_audit.specs.AuditText.{finding_text, audit_text};

use crate::draft::is_among;
use crate::finding::{Finding, Loose};
use crate::findings::Audit;
use central_rules::{direction_name, position_name, rule_name};
use ilk_base::{Memory, Op, SwitchId, Text};
use piece_writer::NamedText;
use station_graph::{Station, Vector};
use station_names::switch_names;
use std::alloc::Global;

// Appends `open PATH` or `close PATH`, and the end of the line.
fn push_operation(text: &mut NamedText, op: Op) -> Result<(), Memory>
    ensures ok { OnOk result (text.new.text ≡ text.old.text
        ++ (direction_name op.direction ++ codes " " ++ slice_index_or text.old.names op.switch.0 [] ++ codes "\n")) }
    ensures names { text.new.names ≡ text.old.names }
{
    text.word(direction_name(op.direction))?;
    text.word(b" ")?;
    text.name(op.switch.0)?;
    text.word(b"\n")
}

// Appends `with PATH` where the switch is closed and not the moved one.
fn push_closed_switch(
    text: &mut NamedText,
    station: &Station,
    moved: SwitchId,
    vector: &Vector,
    id: SwitchId,
) -> Result<(), Memory>
    requires names { text.old.names ≡ station.now.switch_paths }
    requires vector { IsVector station.now vector.now }
    requires id { id.0 < length station.now.switches }
    ensures ok { OnOk result (text.new.text ≡ text.old.text ++ closed_at station.now moved.0 vector.now id.0) }
    ensures names { text.new.names ≡ text.old.names }
{
    if id.0 == moved.0 || !vector.closed(id) {
        return Ok(());
    }
    text.word(b"with ")?;
    text.name(id.0)?;
    text.word(b"\n")
}

// Appends `with PATH` for each switch that is closed, but for the moved one.
fn push_closed(
    text: &mut NamedText,
    station: &Station,
    moved: SwitchId,
    vector: &Vector,
) -> Result<(), Memory>
    requires names { text.old.names ≡ station.now.switch_paths }
    requires vector { IsVector station.now vector.now }
    ensures ok { OnOk result (text.new.text ≡ text.old.text ++ closed_lines station.now moved.0 vector.now) }
    ensures names { text.new.names ≡ text.old.names }
{
    for i in 0..station.switch_count() {
        push_closed_switch(text, station, moved, vector, SwitchId(i))?;
    }
    Ok(())
}

// Appends where a block is loose.
fn push_loose(text: &mut NamedText, station: &Station, op: Op, loose: &Loose) -> Result<(), Memory>
    requires names { text.old.names ≡ station.now.switch_paths }
    requires vector { IsVector station.now loose.now.vector }
    ensures ok { OnOk result (text.new.text ≡ text.old.text ++ loose_part station.now op (Some loose.now)) }
    ensures names { text.new.names ≡ text.old.names }
{
    text.word(b"loose ")?;
    text.word(rule_name(loose.rule))?;
    text.word(b" ")?;
    push_operation(text, op)?;
    push_closed(text, station, op.switch, &loose.vector)
}

// Appends `with on PATH` or `with off PATH` where the switch is one of these.
fn push_own_switch(
    text: &mut NamedText,
    station: &Station,
    own: &[SwitchId],
    vector: &Vector,
    id: SwitchId,
) -> Result<(), Memory>
    requires names { text.old.names ≡ station.now.switch_paths }
    requires vector { IsVector station.now vector.now }
    requires id { id.0 < length station.now.switches }
    ensures ok { OnOk result (text.new.text ≡ text.old.text ++ own_at station.now own.now vector.now id.0) }
    ensures names { text.new.names ≡ text.old.names }
{
    if !is_among(own, id) {
        return Ok(());
    }
    text.word(b"with ")?;
    text.word(position_name(vector.closed(id)))?;
    text.word(b" ")?;
    text.name(id.0)?;
    text.word(b"\n")
}

// Appends `with on PATH` or `with off PATH` for each of these switches, in document order.
fn push_own(
    text: &mut NamedText,
    station: &Station,
    own: &[SwitchId],
    vector: &Vector,
) -> Result<(), Memory>
    requires names { text.old.names ≡ station.now.switch_paths }
    requires vector { IsVector station.now vector.now }
    ensures ok { OnOk result (text.new.text ≡ text.old.text ++ own_lines station.now own.now vector.now) }
    ensures names { text.new.names ≡ text.old.names }
{
    for i in 0..station.switch_count() {
        push_own_switch(text, station, own, vector, SwitchId(i))?;
    }
    Ok(())
}

// Appends where a block is strict.
fn push_strict(
    text: &mut NamedText,
    station: &Station,
    op: Op,
    own: &[SwitchId],
    vector: &Vector,
) -> Result<(), Memory>
    requires names { text.old.names ≡ station.now.switch_paths }
    requires vector { IsVector station.now vector.now }
    ensures ok { OnOk result (text.new.text ≡ text.old.text ++ strict_part station.now op own.now (Some vector.now)) }
    ensures names { text.new.names ≡ text.old.names }
{
    text.word(b"strict ")?;
    push_operation(text, op)?;
    push_own(text, station, own, vector)
}

// Appends what is found of a block.
fn push_finding(text: &mut NamedText, station: &Station, finding: &Finding) -> Result<(), Memory>
    requires names { text.old.names ≡ station.now.switch_paths }
    requires shown { IsShown station.now finding.now }
    ensures ok { OnOk result (text.new.text ≡ text.old.text ++ finding_text station.now finding.now) }
    ensures names { text.new.names ≡ text.old.names }
{
    match (&finding.loose, &finding.strict) {
        (None, None) => {
            text.word(b"same ")?;
            push_operation(text, finding.op)
        }
        (Some(loose), None) => push_loose(text, station, finding.op, loose),
        (None, Some(vector)) => { push_strict(text, station, finding.op, &finding.own, vector) }
        (Some(loose), Some(vector)) => {
            push_loose(text, station, finding.op, loose)?;
            push_strict(text, station, finding.op, &finding.own, vector)
        }
    }
}

impl Audit {
    /// The lines for each block in order (docs/FORMATS.md): `same open PATH` (or `close`); or
    /// `loose RULE open PATH` and `with PATH` for each other switch that is closed in the vector, or
    /// `strict open PATH` and `with on PATH` or `with off PATH` for each own switch in the position, or the
    /// one after the other. The audit is of the station. Each path is held once, however often the lines name it.
    /// Time: the switches for each block. Memory: the paths, and some bytes a line.
    pub fn lines(&self, alloc: Global, station: &Station) -> Result<NamedText, Memory>
        requires { AreShown station.now self.now }
        ensures { IfOk result (λ t. t.text ≡ audit_text station.now self.now) }
    {
        let names = switch_names(alloc, station)?;
        let mut text = NamedText::new(alloc, names);
        for finding in &self.findings {
            push_finding(&mut text, station, finding)?;
        }
        Ok(text)
    }

    /// The same lines at once, in memory of their length.
    pub fn text(&self, alloc: Global, station: &Station) -> Result<Text, Memory>
        requires { AreShown station.now self.now }
        ensures { IfOk result (λ t. t ≡ audit_text station.now self.now) }
    {
        self.lines(alloc, station)?.whole(alloc)
    }
}
