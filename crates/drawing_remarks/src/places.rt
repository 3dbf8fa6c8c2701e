//! By what path a remark names an element.
ghost use Rattle.std.specs.Prelude.{◌≡◌, ◌<◌, ◌++◌, length, nat_lt, IfOk, OnOk, codes};
ghost use Rattle.ssd_read.specs.Drawn.{IsDrawn};
ghost use Rattle.ssd_read.specs.Elements.{element_at, element_name};
ghost use Rattle.station_lines.specs.Lines.{shown_word};
ghost use Rattle.drawing_remarks.specs.Places.{path_above, or_other, behind, remark_path};

use ilk_base::{Memory, Text};
use ssd_read::{Drawing, Role};
use ssd_text::limits::DEPTH;
use station_lines::shown_word;
use std::alloc::Global;

// Whether a path is not empty.
fn is_there(path: &str) -> bool
    ensures { result ≡ nat_lt 0 (length path.now) }
{
    !path.is_empty()
}

// The path of an element, or of the innermost one with a path in which it stands, so many levels upward.
#[tactic(auto, using(crate::proofs::Parents::parent_in))]
fn path_above<'a>(drawing: &'a Drawing<'_>, levels: u32, i: u32) -> &'a str
    requires { i < length drawing.now }
    ensures { result.now ≡ path_above drawing.now levels i }
{
    // Its clause says that they are those of a tree.
    let _count = drawing.count();
    if levels == 0 {
        return "";
    }
    let path = drawing.path(i);
    if is_there(path) {
        return path;
    }
    match drawing.parent(i) {
        Some(parent) => path_above(drawing, levels - 1, parent),
        None => "",
    }
}

// Appends the name of an element as it is shown.
fn push_name(alloc: Global, drawing: &Drawing<'_>, i: u32, text: &mut Text) -> Result<(), Memory>
    requires { i < length drawing.now }
    ensures { OnOk result (text.new ≡ text.old ++ shown_word (element_name (element_at drawing.now i).entry)) }
{
    match drawing.attribute(alloc, i, "name")? {
        Some(name) => text.push(shown_word(name.as_str().as_bytes())),
        None => text.push(b"-"),
    }
}

// The path by which a remark names an element that is passed over, in one of this path.
fn skipped_path(alloc: Global, drawing: &Drawing<'_>, i: u32, outer: &[u8]) -> Result<Text, Memory>
    requires { i < length drawing.now }
    ensures { IfOk result (λ path. path ≡ behind outer.now (shown_word (element_name (element_at drawing.now i).entry))) }
{
    let mut text = Text::new(alloc);
    if !outer.is_empty() {
        text.push(outer)?;
        text.push(b"/")?;
    }
    push_name(alloc, drawing, i, &mut text)?;
    Ok(text)
}

// A path, or a dash where it is empty.
fn path_or_dash(alloc: Global, outer: &[u8]) -> Result<Text, Memory>
    ensures { IfOk result (λ path. path ≡ or_other outer.now (codes "-")) }
{
    let mut text = Text::new(alloc);
    if outer.is_empty() {
        text.push(b"-")?;
    } else {
        text.push(outer)?;
    }
    Ok(text)
}

// The path by which a remark names an element.
pub(crate) fn remark_path(alloc: Global, drawing: &Drawing<'_>, i: u32) -> Result<Text, Memory>
    requires { i < length drawing.now }
    ensures { IfOk result (λ path. path ≡ remark_path drawing.now i) }
{
    let outer = path_above(drawing, DEPTH as u32, i).as_bytes();
    if drawing.role(i) == Role::Skipped {
        skipped_path(alloc, drawing, i, outer)
    } else {
        path_or_dash(alloc, outer)
    }
}
