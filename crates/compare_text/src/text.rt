//! The text of `compare`.
ghost use Rattle.std.specs.Prelude.{◌≡◌, ◌<◌, ◌++◌, [], length, slice_index_or, IfOk, IfErr, OnOk};
ghost use Rattle.ilk_base.specs.declared.words.Direction.TheVariants.{ToOff, ToOn};
ghost use Rattle.station_graph.specs.CentralRules.{IsOperation};
ghost use Rattle.central_rules.specs.Names.{texts_below};
ghost use Rattle.path_names.specs.Tables.{paths_of_both};
ghost use Rattle.station_compare.specs.Comparing.{IsComparison, IsRefusal};
ghost use Rattle.compare_text.specs.CompareText.{moved_line, part_lines, rule_lines, judged_lines};
ghost use Rattle.compare_text.specs.CompareText.{found_lines, found_at, gone_lines, gone_at, comparison_lines};
ghost use Rattle.compare_text.specs.CompareText.{IsComparisonText, IsCompareReport};

use crate::bay_lines::push_bays;
use crate::names::{change_name, judged_name};
use crate::vector_lines::push_vector;
use central_rules::{direction_name, rule_name};
use change_search::Shown;
use ilk_base::{Direction, Memory, Op, Rule, SwitchId};
use path_names::{both_paths, new_switch_name, old_switch_name};
use piece_writer::NamedText;
use station_changes::Change;
use station_compare::{
    CompareRefusal, Comparison, Found, OperationChanges, RuleChanges, compare_stations,
};
use station_graph::Station;
use std::alloc::Global;

/// What is told of two stations.
#[derive(Drop)]
pub struct CompareReport {
    /// the lines
    pub lines: NamedText,
    /// whether the new station extends the old one
    pub extends: bool,
}

// Appends the line of an operation of the switch of this name, behind a word.
fn push_operation(
    text: &mut NamedText,
    word: &'static [u8],
    direction: Direction,
    name: u16,
) -> Result<(), Memory>
    ensures ok { OnOk result (text.new.text ≡ text.old.text
        ++ moved_line word.now direction (slice_index_or text.old.names name [])) }
    ensures names { text.new.names ≡ text.old.names }
{
    text.word(word)?;
    text.word(b" ")?;
    text.word(direction_name(direction))?;
    text.word(b" ")?;
    text.name(name)?;
    text.word(b"\n")
}

// Appends the lines of a change by a rule, where there is one.
fn push_part(
    text: &mut NamedText,
    old: &Station,
    new: &Station,
    found: &Comparison,
    moved: SwitchId,
    change: Change,
    rule: Rule,
    part: &Option<Shown>,
) -> Result<(), Memory>
    requires names { text.old.names ≡ paths_of_both old.now new.now }
    requires comparison { IsComparison old.now new.now found.now }
    ensures ok { OnOk result (text.new.text ≡ text.old.text
        ++ part_lines old.now new.now found.now moved.0 change rule part.now) }
    ensures names { text.new.names ≡ text.old.names }
{
    match part {
        None => Ok(()),
        Some(shown) => {
            text.word(change_name(change))?;
            text.word(b" ")?;
            text.word(rule_name(rule))?;
            text.word(b"\n")?;
            push_vector(text, old, new, found, moved, shown)
        }
    }
}

// Appends those of a change by each rule.
fn push_rules(
    text: &mut NamedText,
    old: &Station,
    new: &Station,
    found: &Comparison,
    moved: SwitchId,
    change: Change,
    changes: &RuleChanges,
) -> Result<(), Memory>
    requires names { text.old.names ≡ paths_of_both old.now new.now }
    requires comparison { IsComparison old.now new.now found.now }
    ensures ok { OnOk result (text.new.text ≡ text.old.text
        ++ rule_lines old.now new.now found.now moved.0 change changes.now) }
    ensures names { text.new.names ≡ text.old.names }
{
    push_part(
        text,
        old,
        new,
        found,
        moved,
        change,
        Rule::R1,
        &changes.by_r1,
    )?;
    push_part(
        text,
        old,
        new,
        found,
        moved,
        change,
        Rule::R2,
        &changes.by_r2,
    )?;
    push_part(
        text,
        old,
        new,
        found,
        moved,
        change,
        Rule::R3,
        &changes.by_r3,
    )
}

// Appends the lines of an operation that both stations have.
fn push_judged(
    text: &mut NamedText,
    old: &Station,
    new: &Station,
    found: &Comparison,
    op: Op,
    changes: &OperationChanges,
) -> Result<(), Memory>
    requires names { text.old.names ≡ paths_of_both old.now new.now }
    requires comparison { IsComparison old.now new.now found.now }
    requires operation { IsOperation new.now op }
    ensures ok { OnOk result (text.new.text ≡ text.old.text
        ++ judged_lines old.now new.now found.now op changes.now) }
    ensures names { text.new.names ≡ text.old.names }
{
    let name = new_switch_name(old, new, op.switch);
    push_operation(text, judged_name(changes.word()), op.direction, name)?;
    push_rules(
        text,
        old,
        new,
        found,
        op.switch,
        Change::Stricter,
        &changes.stricter,
    )?;
    push_rules(
        text,
        old,
        new,
        found,
        op.switch,
        Change::Looser,
        &changes.looser,
    )
}

// Appends the lines of both operations of the switch of this name, behind a word.
fn push_two(text: &mut NamedText, word: &'static [u8], name: u16) -> Result<(), Memory>
    ensures ok { OnOk result (text.new.text ≡ text.old.text
        ++ (moved_line word.now ToOff (slice_index_or text.old.names name [])
        ++ moved_line word.now ToOn (slice_index_or text.old.names name []))) }
    ensures names { text.new.names ≡ text.old.names }
{
    push_operation(text, word, Direction::ToOff, name)?;
    push_operation(text, word, Direction::ToOn, name)
}

// Appends the lines of a switch of the new station.
fn push_found(
    text: &mut NamedText,
    old: &Station,
    new: &Station,
    found: &Comparison,
    of_switch: &Found,
    id: SwitchId,
) -> Result<(), Memory>
    requires names { text.old.names ≡ paths_of_both old.now new.now }
    requires comparison { IsComparison old.now new.now found.now }
    requires within { id.0 < length new.now.switches }
    ensures ok { OnOk result (text.new.text ≡ text.old.text
        ++ found_lines old.now new.now found.now of_switch.now id.0) }
    ensures names { text.new.names ≡ text.old.names }
{
    match of_switch {
        Found::OnlyNew => push_two(text, b"new", new_switch_name(old, new, id)),
        Found::InBoth(changes) => {
            let open = Op {
                switch: id,
                direction: Direction::ToOff,
            };
            push_judged(text, old, new, found, open, &changes.opening)?;
            let close = Op {
                switch: id,
                direction: Direction::ToOn,
            };
            push_judged(text, old, new, found, close, &changes.closing)
        }
    }
}

// Appends those of all its switches.
fn push_here(
    text: &mut NamedText,
    old: &Station,
    new: &Station,
    found: &Comparison,
) -> Result<(), Memory>
    requires names { text.old.names ≡ paths_of_both old.now new.now }
    requires comparison { IsComparison old.now new.now found.now }
    ensures ok { OnOk result (text.new.text ≡ text.old.text
        ++ texts_below (found_at old.now new.now found.now) (length new.now.switches)) }
    ensures names { text.new.names ≡ text.old.names }
{
    for k in 0..new.switch_count() {
        let of_switch = &found.here[usize::from(k)];
        push_found(text, old, new, found, of_switch, SwitchId(k))?;
    }
    Ok(())
}

// Appends the lines of a switch of the old station, where the new one has it not.
fn push_gone(
    text: &mut NamedText,
    old: &Station,
    new: &Station,
    gone: bool,
    id: SwitchId,
) -> Result<(), Memory>
    requires names { text.old.names ≡ paths_of_both old.now new.now }
    requires within { id.0 < length old.now.switches }
    ensures ok { OnOk result (text.new.text ≡ text.old.text ++ gone_lines old.now gone id.0) }
    ensures names { text.new.names ≡ text.old.names }
{
    if !gone {
        return Ok(());
    }
    push_two(text, b"gone", old_switch_name(old, new, id))
}

// Appends those of all its switches.
fn push_all_gone(
    text: &mut NamedText,
    old: &Station,
    new: &Station,
    gone: &[bool],
) -> Result<(), Memory>
    requires names { text.old.names ≡ paths_of_both old.now new.now }
    requires count { length gone.now ≡ length old.now.switches }
    ensures ok { OnOk result (text.new.text ≡ text.old.text
        ++ texts_below (gone_at old.now gone.now) (length old.now.switches)) }
    ensures names { text.new.names ≡ text.old.names }
{
    for i in 0..old.switch_count() {
        push_gone(text, old, new, gone[usize::from(i)], SwitchId(i))?;
    }
    Ok(())
}

// The lines of a comparison of two stations.
fn comparison_text(
    alloc: Global,
    old: &Station,
    new: &Station,
    found: &Comparison,
) -> Result<NamedText, Memory>
    requires { IsComparison old.now new.now found.now }
    ensures { IfOk result (λ t. IsComparisonText old.now new.now found.now t.text) }
{
    let bays = found.bays(alloc, old, new)?;
    let names = both_paths(alloc, old, new)?;
    let mut text = NamedText::new(alloc, names);
    push_here(&mut text, old, new, found)?;
    push_all_gone(&mut text, old, new, &found.gone)?;
    push_bays(&mut text, old, new, &bays)?;
    Ok(text)
}

/// The text of `compare`: for each switch of the new station in document order, and for it open and then close, `new open
/// PATH` where the old station has it not, else `same open PATH`, `kept open PATH` or `changed open PATH` with the changes
/// that some position of all switches shows, each with the other switches that are closed in one such position; then `gone
/// open PATH` of the old station's switches that the new one has not; then a line for each bay. Each path is held once, however
/// often the lines name it. Time: that of `compare_stations`, and the lines. Memory: that of `compare_stations`, the paths of
/// both stations, and some bytes a line.
pub fn compare_text(
    alloc: Global,
    old: &Station,
    new: &Station,
) -> Result<CompareReport, CompareRefusal>
    ensures report { IfOk result (IsCompareReport old.now new.now) }
    ensures refusal { IfErr result (IsRefusal old.now new.now) }
{
    let found = compare_stations(alloc, old, new)?;
    let lines = comparison_text(alloc, old, new, &found)?;
    let extends = found.extends(old, new);
    Ok(CompareReport { lines, extends })
}
