//! The lines that show an outcome.
ghost use Rattle.std.specs.Prelude.{◌≡◌, ◌<◌, ◌++◌, length, codes, IfOk, OnOk};
ghost use Rattle.std.specs.Fmt.{decimal};
ghost use Rattle.station_graph.specs.Alike.{IsVector};
ghost use Rattle.station_graph.specs.CentralRules.{IsOperation};
ghost use Rattle.central_rules.specs.Names.{rule_name, texts_below};
ghost use Rattle.bay_protocol.specs.OutcomeLines.{line, operation, with_line, outcome_lines, OutcomeFits};
ghost use Rattle.station_graph.specs.Diagram.{switch_path};

use crate::values::Outcome;
use central_rules::{direction_name, rule_name};
use ilk_base::{BayId, Memory, Op, Rule, SwitchId, Text};
use station_graph::{Station, Vector};
use std::alloc::Global;

// The path of a switch, in bytes.
#[tactic(auto, using(std::proofs::lemmas::Option::get_or_from_slice_get))]
fn path_of(station: &Station, id: SwitchId) -> &[u8]
    requires { id.0 < length station.now.switches }
    ensures { result.now ≡ switch_path station.now id.0 }
{
    station.switch_path(id).as_bytes()
}

// Appends some words and the number of a bay.
fn push_bay(text: &mut Text, words: &[u8], bay: BayId) -> Result<(), Memory>
    ensures { OnOk result (text.new ≡ text.old ++ words.now ++ decimal bay.0) }
{
    text.push(words)?;
    text.push_decimal(usize::from(bay.0))
}

// Appends a line of words alone.
fn push_words(text: &mut Text, prefix: &[u8], words: &[u8]) -> Result<(), Memory>
    ensures { OnOk result (text.new ≡ text.old ++ line prefix.now words.now) }
{
    text.push(prefix)?;
    text.push(words)?;
    text.push(b"\n")
}

// Appends a line of words and a round.
fn push_round(text: &mut Text, prefix: &[u8], words: &[u8], round: u32) -> Result<(), Memory>
    ensures { OnOk result (text.new ≡ text.old ++ line prefix.now (words.now ++ decimal round)) }
{
    text.push(prefix)?;
    text.push(words)?;
    text.push_decimal(round as usize)?;
    text.push(b"\n")
}

// Appends `open PATH` or `close PATH`.
fn push_operation(text: &mut Text, station: &Station, op: Op) -> Result<(), Memory>
    requires { IsOperation station.now op }
    ensures { OnOk result (text.new ≡ text.old ++ operation station.now op) }
{
    text.push(direction_name(op.direction))?;
    text.push(b" ")?;
    text.push(path_of(station, op.switch))
}

fn push_granted(
    text: &mut Text,
    prefix: &[u8],
    station: &Station,
    round: u32,
    op: Op,
) -> Result<(), Memory>
    requires { IsOperation station.now op }
    ensures { OnOk result (text.new ≡ text.old
        ++ line prefix.now (codes "granted " ++ decimal round ++ codes " " ++ operation station.now op)) }
{
    text.push(prefix)?;
    text.push(b"granted ")?;
    text.push_decimal(round as usize)?;
    text.push(b" ")?;
    push_operation(text, station, op)?;
    text.push(b"\n")
}

// Appends `denied R RULE` and a blank.
fn push_rule(text: &mut Text, round: u32, rule: Rule) -> Result<(), Memory>
    ensures { OnOk result (text.new ≡ text.old
        ++ (codes "denied " ++ decimal round ++ codes " " ++ rule_name rule ++ codes " ")) }
{
    text.push(b"denied ")?;
    text.push_decimal(round as usize)?;
    text.push(b" ")?;
    text.push(rule_name(rule))?;
    text.push(b" ")
}

// Appends the first line of a denial.
fn push_denied(
    text: &mut Text,
    prefix: &[u8],
    station: &Station,
    round: u32,
    op: Op,
    rule: Rule,
) -> Result<(), Memory>
    requires { IsOperation station.now op }
    ensures { OnOk result (text.new ≡ text.old
        ++ line prefix.now (codes "denied " ++ decimal round ++ codes " " ++ rule_name rule ++ codes " "
        ++ operation station.now op)) }
{
    text.push(prefix)?;
    push_rule(text, round, rule)?;
    push_operation(text, station, op)?;
    text.push(b"\n")
}

// Appends the line of a switch that is closed in a reading.
fn push_with(
    text: &mut Text,
    prefix: &[u8],
    station: &Station,
    reading: &Vector,
    moved: SwitchId,
    id: SwitchId,
) -> Result<(), Memory>
    requires reading { IsVector station.now reading.now }
    requires id { id.0 < length station.now.switches }
    ensures { OnOk result (text.new ≡ text.old ++ with_line prefix.now station.now reading.now moved.0 id.0) }
{
    if id.0 == moved.0 {
        return Ok(());
    }
    let path = path_of(station, id);
    if !reading.closed(id) {
        return Ok(());
    }
    text.push(prefix)?;
    text.push(b"with ")?;
    text.push(path)?;
    text.push(b"\n")
}

// Appends the lines of the other switches that are closed in a reading.
fn push_reading(
    text: &mut Text,
    prefix: &[u8],
    station: &Station,
    reading: &Vector,
    moved: SwitchId,
) -> Result<(), Memory>
    requires { IsVector station.now reading.now }
    ensures { OnOk result (text.new ≡ text.old
        ++ texts_below (with_line prefix.now station.now reading.now moved.0) (length station.now.switches)) }
{
    for i in 0..station.switch_count() {
        push_with(text, prefix, station, reading, moved, SwitchId(i))?;
    }
    Ok(())
}

// Appends some words, a bay and its round.
fn push_holder(text: &mut Text, words: &[u8], bay: BayId, round: u32) -> Result<(), Memory>
    ensures { OnOk result (text.new ≡ text.old ++ (words.now ++ decimal bay.0 ++ codes " round " ++ decimal round)) }
{
    push_bay(text, words, bay)?;
    text.push(b" round ")?;
    text.push_decimal(round as usize)
}

fn push_held(text: &mut Text, prefix: &[u8], bay: BayId, round: u32) -> Result<(), Memory>
    ensures { OnOk result (text.new ≡ text.old
        ++ line prefix.now (codes "held " ++ decimal bay.0 ++ codes " round " ++ decimal round)) }
{
    text.push(prefix)?;
    push_holder(text, b"held ", bay, round)?;
    text.push(b"\n")
}

fn push_busy(
    text: &mut Text,
    prefix: &[u8],
    round: u32,
    bay: BayId,
    holder: BayId,
    holder_round: u32,
) -> Result<(), Memory>
    ensures { OnOk result (text.new ≡ text.old
        ++ line prefix.now (codes "busy " ++ decimal round ++ codes " from " ++ decimal bay.0 ++ codes " holder "
        ++ decimal holder.0 ++ codes " round " ++ decimal holder_round)) }
{
    text.push(prefix)?;
    text.push(b"busy ")?;
    text.push_decimal(round as usize)?;
    push_bay(text, b" from ", bay)?;
    push_holder(text, b" holder ", holder, holder_round)?;
    text.push(b"\n")
}

impl Outcome {
    /// The lines that show the outcome in a report (docs/FORMATS.md), each begun with the prefix and ended by
    /// a line feed; none for `Quiet`. Time: the length of the text, and for a denial the switches of the
    /// station. Memory: the text.
    pub fn lines(&self, alloc: Global, station: &Station, prefix: &[u8]) -> Result<Text, Memory>
        requires { OutcomeFits station.now self.now }
        ensures { IfOk result (λ t. t ≡ outcome_lines prefix.now station.now self.now) }
    {
        let mut text = Text::new(alloc);
        self.push_to(&mut text, station, prefix)?;
        Ok(text)
    }

    // Appends the lines.
    fn push_to(&self, text: &mut Text, station: &Station, prefix: &[u8]) -> Result<(), Memory>
        requires { OutcomeFits station.now self.now }
        ensures { OnOk result (text.new ≡ text.old ++ outcome_lines prefix.now station.now self.now) }
    {
        match self {
            Outcome::Collecting { round } => push_round(text, prefix, b"collecting ", *round),
            Outcome::Granted { round, op } => push_granted(text, prefix, station, *round, *op),
            Outcome::Denied {
                round,
                op,
                rule,
                reading,
            } => {
                push_denied(text, prefix, station, *round, *op, *rule)?;
                push_reading(text, prefix, station, reading, op.switch)
            }
            Outcome::BusyBy {
                round,
                bay,
                holder,
                holder_round,
            } => push_busy(text, prefix, *round, *bay, *holder, *holder_round),
            Outcome::HeldBy { bay, round } => push_held(text, prefix, *bay, *round),
            Outcome::UnderWay { round } => push_round(text, prefix, b"underway ", *round),
            Outcome::There => push_words(text, prefix, b"there"),
            Outcome::Spent => push_words(text, prefix, b"spent"),
            Outcome::Finished { round } => push_round(text, prefix, b"finished ", *round),
            Outcome::Withdrawn { round } => push_round(text, prefix, b"withdrawn ", *round),
            Outcome::Stopped { round } => push_round(text, prefix, b"stopped ", *round),
            Outcome::Quiet => Ok(()),
        }
    }
}
