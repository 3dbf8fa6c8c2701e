//! Texts and the trees that they spell.
use ilk_base::{Memory, Text};
use ssd_text::{TextRefusal, Tree, read_text};
use std::alloc::Global;

// Number and place of the refusal, or 0 and the count of elements.
fn outcome(alloc: Global, bytes: &[u8]) -> (u8, u32) {
    if bytes.len() > 8_388_608 {
        return (99, 0);
    }
    match read_text(alloc, bytes) {
        Ok(tree) => (0, tree.count()),
        Err(TextRefusal::Encoding { at }) => (1, at),
        Err(TextRefusal::Syntax { at }) => (2, at),
        Err(TextRefusal::Doctype { at }) => (3, at),
        Err(TextRefusal::Deep { at }) => (4, at),
        Err(TextRefusal::Mismatch { at }) => (5, at),
        Err(TextRefusal::Unclosed { at }) => (6, at),
        Err(TextRefusal::Many { at }) => (7, at),
        Err(TextRefusal::Memory) => (8, 0),
    }
}

// A line with a bay of one earthing switch and one infeed, as a tool writes it.
const BAY: &str = r#"<?xml version="1.0" encoding="utf-8"?>
<!-- one line bay -->
<SCL xmlns="http://www.iec.ch/61850/2003/SCL" xmlns:sxy="urn:draw" version="2007">
  <Header id="demo"/>
  <Substation name='S'>
    <Private type="vendor"><x:y xmlns:x="urn:x">a &amp; b</x:y></Private>
    <VoltageLevel name="V1" sxy:x="4">
      <Voltage multiplier="k" unit="V">110</Voltage>
      <Bay name="Q&#49;">
        <ConductingEquipment name="QC9" type="DIS" sxy:x="1" sxy:y="9">
          <LNode iedName="None" lnClass="XSWI" lnInst="1"/>
          <Terminal name="T1" connectivityNode="S/V1/Q1/a" cNodeName="a"/>
          <Terminal name="T2" connectivityNode="S/V1/Q1/grounded" cNodeName="grounded"/>
        </ConductingEquipment>
        <ConductingEquipment name="E1" type="IFL">
          <Terminal substationName="S" voltageLevelName="V1" bayName="Q1" cNodeName="a"/>
        </ConductingEquipment>
        <ConnectivityNode name="a" pathName="S/V1/Q1/a"/>
      </Bay>
    </VoltageLevel>
  </Substation>
</SCL>
"#;

// Texts with the number and the place of their refusal, or 0 and the count of their elements.
const TEXTS: &[(&[u8], (u8, u32))] = &[
    (b"", (2, 0)),
    (b"<SCL><Substation name=\"S\"", (2, 5)),
    (b"<SCL><Substation name=\"S\">", (6, 5)),
    (b"\xFF\xFE<\x00", (1, 0)),
    (b"<!DOCTYPE SCL><SCL/>", (3, 0)),
    (b"<SCL></SLC>", (5, 5)),
    (b"<SCL/>", (0, 1)),
    (b"<SCL></scl>", (5, 5)),
    (b"</a>", (5, 0)),
    (b"<a/></a>", (5, 4)),
    (b"<a><b></a></b>", (5, 6)),
    (b"<a/><a/>", (2, 4)),
    (b"<a/> x", (2, 4)),
    (b"x<a/>", (2, 0)),
    (b"<a/><!DOCTYPE a>", (3, 4)),
    (b"<!doctype a><a/>", (2, 0)),
    (b"<![CDATA[x]]><a/>", (2, 0)),
    (b"<a><b>", (6, 3)),
    (b" \t\r\n", (2, 4)),
    (b"<!-- -->", (2, 8)),
    (b"\xEF\xBB\xBF", (2, 3)),
    (b"\xEF\xBB\xBF<a></b>", (5, 6)),
    (
        b"\xEF\xBB\xBF<?xml version=\"1.0\"?>\r\n<a x = '1'\ty=\">\"><b/>t&<![CDATA[ ]] ]]></a >\n",
        (0, 2),
    ),
    (b"<a/>\xEF\xBB\xBF", (2, 4)),
    (b"<a>\xC0\xAF</a>", (1, 3)),
    (b"<a>\xED\xA0\x80</a>", (1, 3)),
    (b"<a/>\xE2\x82", (1, 4)),
    (b"<!DOCTYPE \xFF", (1, 10)),
    (b"<a\x00/>", (2, 0)),
    (b"\x00<a/>", (2, 0)),
    (b"<a>\x00</a>", (0, 1)),
    (b"<a/><", (2, 4)),
    (b"<a>]]></a>", (0, 1)),
    (b"<!-- a -- b --><a/>", (0, 1)),
    (b"<!----><a/>", (0, 1)),
    (b"<!--><a/>", (2, 0)),
    (b"<!---><a/>", (2, 0)),
    (b"<?><a/>", (2, 0)),
    (b"<a><![CDATA[]]></a>", (0, 1)),
    (b"<a><![CDATA[]></a>", (2, 3)),
    (b"<!-- --><a/> -->", (2, 12)),
    (b"< a/>", (2, 0)),
    (b"</ a>", (2, 0)),
    (b"<a/ >", (2, 0)),
    (b"<1/>", (2, 0)),
    (b"<a x='1'y='2'/>", (2, 0)),
    (b"<a x='1' x='2'/>", (2, 0)),
    (b"<a x='1' X='2'/>", (0, 1)),
    (b"<\xC3\xA4 \xE2\x82\xAC='1'/>", (0, 1)),
    (b"<a x='<'/>", (2, 0)),
    (b"<a x='1\"/>", (2, 0)),
    (b"<a x='&#0;'/>", (2, 0)),
    (b"<a x='&#xD800;'/>", (2, 0)),
    (b"<a x='&#1114112;'/>", (2, 0)),
    (b"<a x='&#X41;'/>", (2, 0)),
    (b"<a x='&nbsp;'/>", (2, 0)),
    (b"<a>&nbsp; &</a>", (0, 1)),
];

// Whether each text has its outcome.
fn have_outcomes(alloc: Global, rows: &[(&[u8], (u8, u32))]) -> bool {
    for (text, want) in rows {
        if outcome(alloc, text) != *want {
            return false;
        }
    }
    true
}

#[test]
fn texts(rt: HostRuntime) {
    assert!(rt; have_outcomes(rt.alloc(), TEXTS));
    assert!(rt; outcome(rt.alloc(), BAY.as_bytes()) == (0, 15));
}

// Whether each front of a drawing, cut off before its last `>`, ends in a tag or in an element.
fn are_cut(alloc: Global, text: &[u8]) -> bool {
    for i in 0..text.len().saturating_sub(1) {
        let (front, _) = text.split_at(i);
        let (number, _) = outcome(alloc, front);
        if number != 2 && number != 6 {
            return false;
        }
    }
    true
}

#[test]
fn fronts(rt: HostRuntime) {
    assert!(rt; are_cut(rt.alloc(), BAY.as_bytes()));
}

// Pieces of a text, each with how often it stands there.
type Pieces = &'static [(&'static str, u32)];

fn push_often(text: &mut Text, piece: &str, times: u32) -> Result<(), Memory> {
    for _ in 0..times {
        text.push(piece.as_bytes())?;
    }
    Ok(())
}

fn repeated(alloc: Global, pieces: &[(&str, u32)]) -> Result<Text, Memory> {
    let mut text = Text::new(alloc);
    for (piece, times) in pieces {
        push_often(&mut text, piece, *times)?;
    }
    Ok(text)
}

// Texts with their outcomes: too deep, and just not too deep; not ended; long references; one element past the limit,
// and as many as there may be.
const LIMITS: &[(Pieces, (u8, u32))] = &[
    (&[("<SCL>", 1), ("<a>", 64)], (4, 194)),
    (&[("<a>", 64)], (6, 189)),
    (&[("<a x='&#", 1), ("0", 5_000), ("65;'/>", 1)], (0, 1)),
    (&[("<a x='&#", 1), ("9", 5_000), (";'/>", 1)], (2, 0)),
    (
        &[("<SCL>", 1), ("<a>", 63), ("</a>", 63), ("</SCL>", 1)],
        (0, 64),
    ),
    (
        &[("<SCL>", 1), ("<a/>", 200_000), ("</SCL>", 1)],
        (7, 800_001),
    ),
    (
        &[("<SCL>", 1), ("<a/>", 199_999), ("</SCL>", 1)],
        (0, 200_000),
    ),
];

fn has_outcome(alloc: Global, pieces: &[(&str, u32)], want: (u8, u32)) -> bool {
    match repeated(alloc, pieces) {
        Ok(text) => outcome(alloc, text.bytes()) == want,
        Err(_) => false,
    }
}

// Whether each of the texts has its outcome.
fn keep_limits(alloc: Global, rows: &[(Pieces, (u8, u32))]) -> bool {
    for (pieces, want) in rows {
        if !has_outcome(alloc, pieces, *want) {
            return false;
        }
    }
    true
}

#[test]
fn limits(rt: HostRuntime) {
    assert!(rt; keep_limits(rt.alloc(), LIMITS));
}

// The elements of the bay, each with its place, the element around it and its name.
const ELEMENTS: &[(u32, Option<u32>, &str)] = &[
    (61, None, "SCL"),
    (146, Some(0), "Header"),
    (168, Some(0), "Substation"),
    (194, Some(2), "Private"),
    (217, Some(3), "x:y"),
    (268, Some(2), "VoltageLevel"),
    (309, Some(5), "Voltage"),
    (362, Some(5), "Bay"),
    (390, Some(7), "ConductingEquipment"),
    (464, Some(8), "LNode"),
    (524, Some(8), "Terminal"),
    (599, Some(8), "Terminal"),
    (717, Some(7), "ConductingEquipment"),
    (770, Some(12), "Terminal"),
    (889, Some(7), "ConnectivityNode"),
];

fn is_element(tree: &Tree<'_>, i: u32, want: (u32, Option<u32>, &str)) -> bool {
    if i >= tree.count() {
        return false;
    }
    let element = tree.element(i);
    (element.at, element.parent, element.name) == want
}

fn has_attribute(tree: &Tree<'_>, i: u32, name: &str, raw: &str) -> bool {
    if i >= tree.count() {
        return false;
    }
    match tree.attr(i, name) {
        Some(attribute) => attribute.raw == raw,
        None => false,
    }
}

// Whether the tree has these elements.
fn has_elements(tree: &Tree<'_>, rows: &[(u32, Option<u32>, &str)]) -> bool {
    if tree.count() as usize != rows.len() {
        return false;
    }
    for i in 0..tree.count() {
        if !is_element(tree, i, rows[i as usize]) {
            return false;
        }
    }
    true
}

// Whether a text has these elements, and the type of the first equipment.
fn is_bay(alloc: Global, text: &str, rows: &[(u32, Option<u32>, &str)]) -> bool {
    if text.len() > 8_388_608 {
        return false;
    }
    match read_text(alloc, text.as_bytes()) {
        Ok(tree) => {
            has_elements(&tree, rows)
                && has_attribute(&tree, 8, "type", "DIS")
                && tree.count() > 8
                && tree.attr(8, "Type").is_none()
        }
        Err(_) => false,
    }
}

#[test]
fn elements(rt: HostRuntime) {
    assert!(rt; is_bay(rt.alloc(), BAY, ELEMENTS));
}
