//! The whole text of `station` for two small drawings, worked out by hand.
use crate::pieces::{RIGHT, joined};
use drawing_remarks::station_text;
use ssd_read::{WholeDrawing, read_whole};
use std::alloc::Global;

// The text of the right drawing.
const RIGHT_TEXT: &str = "part\tS/V/W
node\tS/V/W/b
part\tS/V/Q
node\tS/V/Q/n1
node\tS/V/Q/n2
node\tS/V/Q/n3
disconnector\tS/V/Q/QB1\tS/V/W/b\tS/V/Q/n1
breaker\tS/V/Q/QA1\tS/V/Q/n1\tS/V/Q/n2
disconnector\tS/V/Q/QB9\tS/V/Q/n2\tS/V/Q/n3
earthing\tS/V/Q/QC9\tS/V/Q/n3
infeed\tS/V/Q/E1\tS/V/Q/n3
tap\tIFL\tS/V/Q/E1\tS/V/Q/n3
count\tparts\t2
count\tnodes\t4
count\tbreakers\t1
count\tdisconnectors\t2
count\tearthings\t1
count\tinfeeds\t1
count\tlinks\t0
count\tbonds\t0
count\ttaps\t1
count\tremarks\t0
";

// A transformer outside the bays between two nodes of one bay, where a current transformer stands beside it, and
// equipment whose type is empty.
const TRANSFORMER: &str = "<SCL><Substation name=\"S\"><PowerTransformer name=\"T1\">\
<TransformerWinding name=\"A\"><Terminal connectivityNode=\"S/V/Q/a\"/></TransformerWinding>\
<TransformerWinding name=\"B\"><Terminal connectivityNode=\"S/V/Q/b\"/></TransformerWinding></PowerTransformer>\
<VoltageLevel name=\"V\"><Bay name=\"Q\"><ConnectivityNode name=\"a\"/><ConnectivityNode name=\"b\"/>\
<ConductingEquipment name=\"BI1\" type=\"CTR\"><Terminal connectivityNode=\"S/V/Q/a\"/>\
<Terminal connectivityNode=\"S/V/Q/b\"/></ConductingEquipment>\
<ConductingEquipment name=\"X\" type=\"\"><Terminal connectivityNode=\"S/V/Q/b\"/></ConductingEquipment>\
</Bay></VoltageLevel></Substation></SCL>";

const TRANSFORMER_TEXT: &str = "part\tS/T1
link\tPTR\tS/T1\tS/V/Q/a\tS/V/Q/b
tap\tPTR\tS/T1\tS/V/Q/a
tap\tPTR\tS/T1\tS/V/Q/b
part\tS/V/Q
node\tS/V/Q/a
node\tS/V/Q/b
bond\tCTR\tS/V/Q/BI1\tS/V/Q/a\tS/V/Q/b
tap\t-\tS/V/Q/X\tS/V/Q/b
remark\tno-switch\t-
remark\tno-infeed\t-
remark\tunknown-type\tS/V/Q/X
count\tparts\t2
count\tnodes\t2
count\tbreakers\t0
count\tdisconnectors\t0
count\tearthings\t0
count\tinfeeds\t0
count\tlinks\t1
count\tbonds\t1
count\ttaps\t3
count\tremarks\t3
";

// Whether this is told of a whole drawing, with so many remarks.
fn says(alloc: Global, whole: &WholeDrawing, want: &str, remarks: u32) -> bool {
    match station_text(alloc, whole) {
        Ok(report) => report.remarks == remarks && report.text.bytes() == want.as_bytes(),
        Err(_) => false,
    }
}

// Whether the drawing is accepted, and this is told of it.
fn is_told(alloc: Global, drawing: &[u8], want: &str, remarks: u32) -> bool {
    match read_whole(alloc, drawing) {
        Ok(whole) => says(alloc, &whole, want, remarks),
        Err(_) => false,
    }
}

// Whether this is told of a drawing in pieces.
fn is_told_of(alloc: Global, pieces: &[&str], want: &str, remarks: u32) -> bool {
    match joined(alloc, pieces) {
        Ok(drawing) => is_told(alloc, drawing.bytes(), want, remarks),
        Err(_) => false,
    }
}

#[test]
fn text_of_a_right_drawing(rt: HostRuntime) {
    assert!(rt; is_told_of(rt.alloc(), RIGHT, RIGHT_TEXT, 0));
}

#[test]
fn text_of_a_transformer(rt: HostRuntime) {
    assert!(rt; is_told(rt.alloc(), TRANSFORMER.as_bytes(), TRANSFORMER_TEXT, 3));
}
