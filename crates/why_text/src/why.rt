//! The text of `why`.
ghost use Rattle.std.specs.Prelude.{◌≡◌, ◌++◌, [], codes, Some, IfOk, OnOk};
ghost use Rattle.ilk_base.specs.declared.words.Rule.{Rule as AnyRule};
ghost use Rattle.station_graph.specs.Alike.{IsVector};
ghost use Rattle.station_graph.specs.CentralRules.{Breaks, IsOperation};
ghost use Rattle.double_points.specs.Words.{AreWords};
ghost use Rattle.central_rules.specs.Readings.{Decides, IsReading};
ghost use Rattle.denial_explain.specs.Explained.{Explains};
ghost use Rattle.denial_explain.specs.ExplanationText.{denied_line, operation, position_lines, ExplanationFits};
ghost use Rattle.why_text.specs.WhyText.{counted_in, shown_in, TellsDenial, TellsWhy, WalksIn};

use crate::ways::ways_text;
use central_rules::{Judge, Verdict, rule_name};
use denial_explain::{Explanation, explain, operation_text, positions_text};
use double_points::Readings;
use ilk_base::{Memory, Op, Rule, Text};
use station_graph::{Station, Vector};
use std::alloc::Global;
use whatever_text::whatever_text;

// Appends the operation.
fn push_operation(text: &mut Text, alloc: Global, station: &Station, op: Op) -> Result<(), Memory>
    requires { IsOperation station.now op }
    ensures { OnOk result (text.new ≡ text.old ++ operation station.now op) }
{
    text.push(operation_text(alloc, station, op)?.bytes())?;
    Ok(())
}

// The line of a release, or the first line of a denial: the head, and the operation.
fn headed(alloc: Global, head: &[u8], station: &Station, op: Op) -> Result<Text, Memory>
    requires { IsOperation station.now op }
    ensures { IfOk result (λ t. t ≡ head.now ++ operation station.now op) }
{
    let mut text = Text::new(alloc);
    text.push(head)?;
    push_operation(&mut text, alloc, station, op)?;
    Ok(text)
}

// Appends the line with the rule, and those of the reading.
fn push_denied(
    text: &mut Text,
    alloc: Global,
    station: &Station,
    readings: &Readings,
    op: Op,
    rule: Rule,
    reading: &Vector,
) -> Result<(), Memory>
    requires words { AreWords station.now readings.now }
    requires op { IsOperation station.now op }
    requires reading { IsVector station.now reading.now }
    ensures { OnOk result (text.new ≡ text.old ++ denied_line station.now rule op
        ++ position_lines (codes "with ") op.switch.0 readings.now reading.now station.now) }
{
    text.push(b"denied ")?;
    text.push(rule_name(rule))?;
    text.push(b" ")?;
    push_operation(text, alloc, station, op)?;
    text.push(positions_text(alloc, b"with ", station, readings, reading, op.switch)?.bytes())?;
    Ok(())
}

// Why the operation breaks a rule in this reading: a law on the ways of the explanation.
fn explained(
    alloc: Global,
    station: &Station,
    op: Op,
    reading: &Vector,
) -> Result<Explanation, Memory>
    requires reading { IsVector station.now reading.now }
    requires op { IsOperation station.now op }
    requires broken { (rule : AnyRule) × Breaks station.now reading.now op (Some rule) }
    ensures explains { IfOk result (Explains station.now reading.now op) }
    ensures fits { IfOk result (ExplanationFits station.now) }
    ensures walks { IfOk result (λ e. WalksIn station.now
        (counted_in e.rule station.now (shown_in e.rule reading.now e.op)) e) }
{
    explain(alloc, station, op, reading)
}

// Puts the text of a denial with this explanation in an empty text.
fn tell_denial<J: Judge>(
    text: &mut Text,
    alloc: Global,
    station: &Station,
    judge: &J,
    readings: &Readings,
    op: Op,
    reading: &Vector,
    explanation: &Explanation,
) -> Result<(), Memory>
    requires empty { text.old ≡ [] }
    requires same { (J.meaning judge.now).diagram ≡ station.now }
    requires words { AreWords station.now readings.now }
    requires op { IsOperation station.now op }
    requires reading { IsVector station.now reading.now }
    requires explains { Explains station.now reading.now op explanation.now }
    requires fits { ExplanationFits station.now explanation.now }
    requires walks { WalksIn station.now (counted_in explanation.now.rule station.now
        (shown_in explanation.now.rule reading.now explanation.now.op)) explanation.now }
    ensures { OnOk result (TellsDenial station.now readings.now reading.now op text.new) }
{
    push_denied(
        text,
        alloc,
        station,
        readings,
        op,
        explanation.rule,
        reading,
    )?;
    text.push(whatever_text(alloc, station, judge, readings, op)?.bytes())?;
    text.push(ways_text(alloc, station, reading, explanation)?.bytes())?;
    Ok(())
}

// Why the operation is denied: puts the text of a denial with this reading in an empty text.
fn explain_denial<J: Judge>(
    text: &mut Text,
    alloc: Global,
    station: &Station,
    judge: &J,
    readings: &Readings,
    op: Op,
    reading: &Vector,
) -> Result<(), Memory>
    requires empty { text.old ≡ [] }
    requires same { (J.meaning judge.now).diagram ≡ station.now }
    requires words { AreWords station.now readings.now }
    requires op { IsOperation station.now op }
    requires reading { IsVector station.now reading.now }
    requires broken { (rule : AnyRule) × Breaks station.now reading.now op (Some rule) }
    ensures { OnOk result (TellsDenial station.now readings.now reading.now op text.new) }
{
    let explanation = explained(alloc, station, op, reading)?;
    tell_denial(
        text,
        alloc,
        station,
        judge,
        readings,
        op,
        reading,
        &explanation,
    )
}

// The text of a denial with this reading.
fn denial_text<J: Judge>(
    alloc: Global,
    station: &Station,
    judge: &J,
    readings: &Readings,
    op: Op,
    reading: &Vector,
) -> Result<Text, Memory>
    requires same { (J.meaning judge.now).diagram ≡ station.now }
    requires words { AreWords station.now readings.now }
    requires op { IsOperation station.now op }
    requires reading { IsVector station.now reading.now }
    requires broken { (rule : AnyRule) × Breaks station.now reading.now op (Some rule) }
    ensures { IfOk result (TellsDenial station.now readings.now reading.now op) }
{
    let mut text = Text::new(alloc);
    explain_denial(&mut text, alloc, station, judge, readings, op, reading)?;
    Ok(text)
}

// The verdict on the operation, over every reading of the words.
fn judged<J: Judge>(
    alloc: Global,
    station: &Station,
    judge: &J,
    readings: &Readings,
    op: Op,
) -> Result<Verdict, Memory>
    requires same { (J.meaning judge.now).diagram ≡ station.now }
    requires words { AreWords station.now readings.now }
    requires op { IsOperation station.now op }
    ensures { IfOk result (Decides station.now (IsReading readings.now) op) }
{
    let _ = station;
    judge.judge_all(alloc, op, readings)
}

/// The text of `why`: that the operation is released over every reading of the words, or why it is denied in one of them:
/// `denied RULE open PATH` (or `close`); the reading, as `explain` shows it; a line `whatever PATH` for each switch whose
/// word is neither off nor on and with which the operation is denied both where it is off and where it is on; and the ways
/// of the explanation, with a line `over PATH`, `over open PATH` or `over link PATH` for what joins each two neighbouring
/// nodes. Time: that of `explain`, two verdicts of the judge for each switch whose position is not known, and for each
/// node of a way the switches and the links.
pub fn why_text<J: Judge>(
    alloc: Global,
    station: &Station,
    judge: &J,
    readings: &Readings,
    op: Op,
) -> Result<Text, Memory>
    requires same { (J.meaning judge.now).diagram ≡ station.now }
    requires words { AreWords station.now readings.now }
    requires op { IsOperation station.now op }
    ensures { IfOk result (TellsWhy station.now readings.now op) }
{
    match judged(alloc, station, judge, readings, op)? {
        Verdict::Release => headed(alloc, b"released ", station, op),
        Verdict::Denied { reading, .. } => denial_text(
            alloc, station, judge, readings, op, &reading,
        ),
    }
}
