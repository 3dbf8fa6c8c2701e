//! A small drawing in pieces, of which tests put together drawings that are right or misread.
use ilk_base::{Memory, Text};
use std::alloc::Global;

// A busbar in a bay of its own, and a bay with a busbar disconnector, a breaker, a line disconnector, an earthing
// switch and an infeed.
pub(crate) const START: &str = "<SCL><Substation name=\"S\"><VoltageLevel name=\"V\">";

pub(crate) const BUS: &str = "<Bay name=\"W\"><ConnectivityNode name=\"b\"/></Bay>";

pub(crate) const BAY: &str =
    "<Bay name=\"Q\"><ConnectivityNode name=\"n1\"/><ConnectivityNode name=\"n2\"/>\
<ConnectivityNode name=\"n3\"/>";

pub(crate) const QB1: &str =
    "<ConductingEquipment name=\"QB1\" type=\"DIS\"><Terminal connectivityNode=\"S/V/W/b\"/>\
<Terminal connectivityNode=\"S/V/Q/n1\"/></ConductingEquipment>";

pub(crate) const QA1: &str =
    "<ConductingEquipment name=\"QA1\" type=\"CBR\"><Terminal connectivityNode=\"S/V/Q/n1\"/>\
<Terminal connectivityNode=\"S/V/Q/n2\"/></ConductingEquipment>";

pub(crate) const QB9: &str =
    "<ConductingEquipment name=\"QB9\" type=\"DIS\"><Terminal connectivityNode=\"S/V/Q/n2\"/>\
<Terminal connectivityNode=\"S/V/Q/n3\"/></ConductingEquipment>";

pub(crate) const QC9: &str =
    "<ConductingEquipment name=\"QC9\" type=\"DIS\"><Terminal connectivityNode=\"S/V/Q/n3\"/>\
<Terminal connectivityNode=\"S/V/Q/grounded\"/></ConductingEquipment>";

pub(crate) const E1: &str =
    "<ConductingEquipment name=\"E1\" type=\"IFL\"><Terminal connectivityNode=\"S/V/Q/n3\"/>\
</ConductingEquipment>";

pub(crate) const END: &str = "</Bay></VoltageLevel></Substation></SCL>";

pub(crate) const RIGHT: &[&str] = &[START, BUS, BAY, QB1, QA1, QB9, QC9, E1, END];
// The pieces as one text.
pub(crate) fn joined(alloc: Global, pieces: &[&str]) -> Result<Text, Memory> {
    let mut text = Text::new(alloc);
    for piece in pieces {
        text.push(piece.as_bytes())?;
    }
    Ok(text)
}
