//! Values of attributes as they are written, and what they stand for.
use crate::pieces::joined;
use ssd_text::{Tree, read_text};
use std::alloc::Global;

// Whether this is the value of the attribute of the first element, or it has none.
fn is_value(alloc: Global, tree: &Tree<'_>, want: Option<&str>) -> bool {
    if tree.count() == 0 {
        return false;
    }
    match tree.attr(0, "x") {
        Some(attribute) => match attribute.value(alloc) {
            Ok(value) => want == Some(value.as_str()),
            Err(_) => want.is_none(),
        },
        None => want.is_none(),
    }
}

// Whether this is the value of the attribute of a text, or it has none.
fn has_value(alloc: Global, text: &[u8], want: Option<&str>) -> bool {
    if text.len() > 8_388_608 {
        return false;
    }
    match read_text(alloc, text) {
        Ok(tree) => is_value(alloc, &tree, want),
        Err(_) => want.is_none(),
    }
}

// Whether the attribute that is written so stands for this, or for nothing.
fn stands_for(alloc: Global, raw: &str, want: Option<&str>) -> bool {
    match joined(alloc, &["<a x=\"", raw, "\" y='7'/>"]) {
        Ok(text) => has_value(alloc, text.bytes(), want),
        Err(_) => false,
    }
}

// Values as they are written, and what they stand for.
const VALUES: &[(&str, Option<&str>)] = &[
    ("", Some("")),
    ("S/V1/Q1", Some("S/V1/Q1")),
    ("Q&#49;", Some("Q1")),
    ("a&lt;b&gt;c&amp;d&apos;e&quot;f", Some("a<b>c&d'e\"f")),
    ("&#x41;&#0000066;&#x1F600;", Some("AB\u{1F600}")),
    ("&#1114111;", Some("\u{10FFFF}")),
    ("&amp;lt;", Some("&lt;")),
    ("a\r\nb\rc\nd\te", Some("a b c d e")),
    ("\r\n\r\n\n\r", Some("    ")),
    ("&#13;&#10;&#9;", Some("\r\n\t")),
    ("\u{E4}'\u{20AC}>", Some("\u{E4}'\u{20AC}>")),
    ("&apos", None),
    ("&#xD800;", None),
];

// Whether each value stands for what is said.
fn stand_for(alloc: Global, rows: &[(&str, Option<&str>)]) -> bool {
    for (raw, want) in rows {
        if !stands_for(alloc, raw, *want) {
            return false;
        }
    }
    true
}

#[test]
fn values(rt: HostRuntime) {
    assert!(rt; stand_for(rt.alloc(), VALUES));
}
