//! What `why` writes on the drawings. The devices are read off the drawings by hand.
use crate::drawings::DOUBLE_BUSBAR;
use crate::rows::{coupled, expect};
use interlock_cli::Status;
use std::test::Fail;

// With the coupler's breaker on, feeder 1 on the first busbar and feeder 2 on the second: opening the disconnector to
// the first busbar breaks load, and that to the second may be closed.
const COUPLED: &[(&str, &str)] = &[
    (
        "why a.ssd a.csv open S/V1/Q1/QB1",
        "denied R3 open S/V1/Q1/QB1
live
node S/V1/W1/B
over S/V1/K0/QB1
node S/V1/K0/k1
over S/V1/K0/QA1
node S/V1/K0/k2
over S/V1/K0/QB2
node S/V1/W2/B
over S/V1/Q2/QB2
node S/V1/Q2/n1
over S/V1/Q2/QA1
node S/V1/Q2/n2
over S/V1/Q2/QB9
node S/V1/Q2/n3
by S/V1/Q2/E1
tap
node S/V1/W1/B
over S/V1/K0/QB1
node S/V1/K0/k1
over S/V1/K0/QA1
node S/V1/K0/k2
over S/V1/K0/QB2
node S/V1/W2/B
over S/V1/Q2/QB2
node S/V1/Q2/n1
over S/V1/Q2/QA1
node S/V1/Q2/n2
over S/V1/Q2/QB9
node S/V1/Q2/n3
tap
node S/V1/Q1/n1
over S/V1/Q1/QA1
node S/V1/Q1/n2
over S/V1/Q1/QB9
node S/V1/Q1/n3
bonded
node S/V1/W1/B
node S/V1/W2/B
node S/V1/K0/k1
node S/V1/K0/k2
node S/V1/Q2/n1
node S/V1/Q2/n2
node S/V1/Q2/n3
",
    ),
    (
        "why a.ssd a.csv close S/V1/Q1/QB2",
        "released close S/V1/Q1/QB2\n",
    ),
];

#[test]
fn devices_of_a_coupler(rt: HostRuntime) -> Result<(), Fail> {
    let alloc = rt.alloc();
    let positions = coupled(alloc, "on")?;
    for (words, text) in COUPLED {
        let want = (Status::Done, text.as_bytes(), "");
        let station = DOUBLE_BUSBAR.as_bytes();
        expect(&rt, alloc, words, station, positions.bytes(), want)?;
    }
    Ok(())
}
