//! What `station` writes, and how it ends.
use crate::rows::expect;
use interlock_cli::Status;
use std::test::Fail;
use test_stations::AS_A_TOOL_WRITES;

// The line with an earthing switch and an infeed at one node, drawn before the node. No breaker and no disconnector
// is there to which the infeed leads.
const LINE: &str = "part\tS/V1/Q1
earthing\tS/V1/Q1/QC9\tS/V1/Q1/a
infeed\tS/V1/Q1/E1\tS/V1/Q1/a
tap\tIFL\tS/V1/Q1/E1\tS/V1/Q1/a
node\tS/V1/Q1/a
remark\tlone-infeed\tS/V1/Q1/E1
count\tparts\t1
count\tnodes\t1
count\tbreakers\t0
count\tdisconnectors\t0
count\tearthings\t1
count\tinfeeds\t1
count\tlinks\t0
count\tbonds\t0
count\ttaps\t1
count\tremarks\t1
";

// A drawing of which nothing is read.
const NOTHING: &str = "remark\tno-switch\t-
remark\tno-infeed\t-
count\tparts\t0
count\tnodes\t0
count\tbreakers\t0
count\tdisconnectors\t0
count\tearthings\t0
count\tinfeeds\t0
count\tlinks\t0
count\tbonds\t0
count\ttaps\t0
count\tremarks\t2
";

// A breaker between two infeeds.
const TWO_LINES: &str = "<SCL><Substation name=\"S\"><VoltageLevel name=\"V\"><Bay name=\"Q\">\
<ConnectivityNode name=\"a\"/><ConnectivityNode name=\"b\"/>\
<ConductingEquipment name=\"QA1\" type=\"CBR\"><Terminal connectivityNode=\"S/V/Q/a\"/>\
<Terminal connectivityNode=\"S/V/Q/b\"/></ConductingEquipment>\
<ConductingEquipment name=\"E1\" type=\"IFL\"><Terminal connectivityNode=\"S/V/Q/a\"/></ConductingEquipment>\
<ConductingEquipment name=\"G1\" type=\"GEN\"><Terminal connectivityNode=\"S/V/Q/b\"/></ConductingEquipment>\
</Bay></VoltageLevel></Substation></SCL>";

const TWO_LINES_TEXT: &str = "part\tS/V/Q
node\tS/V/Q/a
node\tS/V/Q/b
breaker\tS/V/Q/QA1\tS/V/Q/a\tS/V/Q/b
infeed\tS/V/Q/E1\tS/V/Q/a
tap\tIFL\tS/V/Q/E1\tS/V/Q/a
infeed\tS/V/Q/G1\tS/V/Q/b
tap\tGEN\tS/V/Q/G1\tS/V/Q/b
count\tparts\t1
count\tnodes\t2
count\tbreakers\t1
count\tdisconnectors\t0
count\tearthings\t0
count\tinfeeds\t2
count\tlinks\t0
count\tbonds\t0
count\ttaps\t2
count\tremarks\t0
";

#[test]
fn as_read(rt: HostRuntime) -> Result<(), Fail> {
    let alloc = rt.alloc();
    for (drawing, status, text, line) in [
        (AS_A_TOOL_WRITES, Status::Differs, LINE, ""),
        ("<SCL/>", Status::Differs, NOTHING, ""),
        (TWO_LINES, Status::Done, TWO_LINES_TEXT, ""),
        (
            "<SSD/>",
            Status::StationRefused,
            "",
            "interlock: station refused 8 at 0\n",
        ),
    ] {
        expect(
            &rt,
            alloc,
            "station a.ssd",
            drawing.as_bytes(),
            b"",
            (status, text.as_bytes(), line),
        )?;
    }
    Ok(())
}
