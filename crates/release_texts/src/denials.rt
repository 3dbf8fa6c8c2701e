//! The text of `explain` where no operation is named.
ghost use Rattle.std.specs.Prelude.{◌≡◌, ◌<◌, length, Some, IfOk, OnOk};
ghost use Rattle.ilk_base.specs.declared.words.Rule.{Rule as AnyRule};
ghost use Rattle.station_graph.specs.Alike.{IsVector};
ghost use Rattle.station_graph.specs.CentralRules.{Breaks, IsOperation};
ghost use Rattle.double_points.specs.Words.{AreWords};
ghost use Rattle.central_rules.specs.Readings.{Decides, IsReading};
ghost use Rattle.release_compile.specs.Reaches.{AreVerdictsOf};
ghost use Rattle.release_texts.specs.CheckText.{ShowsVector};
ghost use Rattle.release_texts.specs.DenialsText.{Adds, TellsIfDenied, SwitchDenials, IsDenialsText};
ghost use Rattle.release_texts.specs.ExplainText.{TellsReading};
ghost use Rattle.path_names.specs.Tables.{paths_of_items};

use crate::check::told;
use crate::lines::push_explanation;
use central_rules::Verdict;
use denial_explain::explain;
use double_points::Readings;
use ilk_base::{Direction, Memory, Op, SwitchId};
use path_names::item_paths;
use piece_writer::NamedText;
use release_compile::{GraphJudge, SwitchVerdicts};
use station_graph::{Station, Vector};
use std::alloc::Global;

// Appends why the operation breaks a rule in this reading.
fn push_reading(
    alloc: Global,
    text: &mut NamedText,
    station: &Station,
    readings: &Readings,
    op: Op,
    reading: &Vector,
) -> Result<(), Memory>
    requires names { text.old.names ≡ paths_of_items station.now }
    requires words { AreWords station.now readings.now }
    requires op { IsOperation station.now op }
    requires reading { IsVector station.now reading.now }
    requires broken { (rule : AnyRule) × Breaks station.now reading.now op (Some rule) }
    ensures ok { OnOk result (Adds (TellsReading station.now readings.now op reading.now) text.old.text text.new.text) }
    ensures names { text.new.names ≡ text.old.names }
{
    let explanation = explain(alloc, station, op, reading)?;
    push_explanation(text, station, readings, reading, &explanation)
}

// Appends why the operation is denied, where it is.
fn push_verdict(
    alloc: Global,
    text: &mut NamedText,
    station: &Station,
    readings: &Readings,
    op: Op,
    verdict: &Verdict,
) -> Result<(), Memory>
    requires names { text.old.names ≡ paths_of_items station.now }
    requires words { AreWords station.now readings.now }
    requires op { IsOperation station.now op }
    requires decides { Decides station.now (IsReading readings.now) op verdict.now }
    requires shown { ShowsVector station.now verdict.now }
    ensures ok { OnOk result (Adds (TellsIfDenied station.now readings.now op) text.old.text text.new.text) }
    ensures names { text.new.names ≡ text.old.names }
{
    match verdict {
        Verdict::Release => Ok(()),
        Verdict::Denied { reading, .. } => {
            push_reading(alloc, text, station, readings, op, reading)
        }
    }
}

// Appends why the operations of one switch are denied.
fn push_switch(
    alloc: Global,
    text: &mut NamedText,
    station: &Station,
    readings: &Readings,
    switch: SwitchId,
    verdicts: &SwitchVerdicts,
) -> Result<(), Memory>
    requires names { text.old.names ≡ paths_of_items station.now }
    requires words { AreWords station.now readings.now }
    requires switch { switch.0 < length station.now.switches }
    requires verdicts { AreVerdictsOf station.now readings.now switch.0 verdicts.now }
    ensures ok { OnOk result (Adds (SwitchDenials station.now readings.now switch.0) text.old.text text.new.text) }
    ensures names { text.new.names ≡ text.old.names }
{
    let open = Op {
        switch,
        direction: Direction::ToOff,
    };
    let close = Op {
        switch,
        direction: Direction::ToOn,
    };
    // Its clauses say that each denial shows a vector.
    told(station, readings, switch, verdicts);
    push_verdict(alloc, text, station, readings, open, &verdicts.opening)?;
    push_verdict(alloc, text, station, readings, close, &verdicts.closing)
}

/// What `explain` writes where no operation is named: for each operation that is denied, in document order and opening
/// before closing, why it is denied in one reading of the words, as `explain_text` tells it. Each path is held once.
/// Time: the verdicts of all switches at once, and for each denial that of `explain` and the switches; memory: theirs,
/// the paths, and a few words for each line.
pub fn denial_lines(
    alloc: Global,
    station: &Station,
    judge: &GraphJudge,
    readings: &Readings,
) -> Result<NamedText, Memory>
    requires same { judge.now.diagram ≡ station.now }
    requires words { AreWords station.now readings.now }
    ensures { IfOk result (λ t. IsDenialsText station.now readings.now t.text) }
{
    let verdicts = judge.judge_station(alloc, readings)?;
    let names = item_paths(alloc, station)?;
    let mut text = NamedText::new(alloc, names);
    for i in 0..station.switch_count() {
        let place = usize::from(i);
        let both = &verdicts[place];
        push_switch(alloc, &mut text, station, readings, SwitchId(i), both)?;
    }
    Ok(text)
}
