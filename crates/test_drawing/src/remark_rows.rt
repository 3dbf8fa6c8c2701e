//! What is remarked of small drawings, as rows. Each line is worked out by hand from the drawing.
use crate::pieces::{BAY, BUS, E1, END, QA1, QB1, QB9, QC9, RIGHT, START};

// A drawing in pieces, and what is remarked of it.
pub(crate) type Row = (&'static [&'static str], &'static str);

// Of lines.
pub(crate) const OF_LINES: &[Row] = &[
    (RIGHT, ""),
    // the line as a line, in lower case, as a battery
    (
        &[
            START,
            BUS,
            BAY,
            QB1,
            QA1,
            QB9,
            QC9,
            "<ConductingEquipment name=\"E1\" type=\"LIN\"><Terminal connectivityNode=\"S/V/Q/n3\"/></ConductingEquipment>",
            END,
        ],
        "remark\tno-infeed\t-\n",
    ),
    (
        &[
            START,
            BUS,
            BAY,
            QB1,
            QA1,
            QB9,
            QC9,
            "<ConductingEquipment name=\"E1\" type=\"ifl\"><Terminal connectivityNode=\"S/V/Q/n3\"/></ConductingEquipment>",
            END,
        ],
        "remark\tno-infeed\t-\nremark\ttype-case\tS/V/Q/E1\n",
    ),
    (
        &[
            START,
            BUS,
            BAY,
            QB1,
            QA1,
            QB9,
            QC9,
            "<ConductingEquipment name=\"E1\" type=\"BAT\"><Terminal connectivityNode=\"S/V/Q/n3\"/></ConductingEquipment>",
            END,
        ],
        "remark\tno-infeed\t-\n",
    ),
];

// Of earthing switches, and of what else stands at earth.
pub(crate) const OF_EARTHING: &[Row] = &[
    // an earthing switch with a type of the tool's own, and one in lower case
    (
        &[
            START,
            BUS,
            BAY,
            QB1,
            QA1,
            QB9,
            "<ConductingEquipment name=\"QC9\" type=\"ESW\"><Terminal connectivityNode=\"S/V/Q/n3\"/>\
<Terminal connectivityNode=\"S/V/Q/grounded\"/></ConductingEquipment>",
            E1,
            END,
        ],
        "remark\tunknown-type\tS/V/Q/QC9\nremark\tgrounded\tS/V/Q/QC9\n",
    ),
    (
        &[
            START,
            BUS,
            BAY,
            QB1,
            QA1,
            QB9,
            "<ConductingEquipment name=\"QC9\" type=\"dis\"><Terminal connectivityNode=\"S/V/Q/n3\"/>\
<Terminal connectivityNode=\"S/V/Q/grounded\"/></ConductingEquipment>",
            E1,
            END,
        ],
        "remark\ttype-case\tS/V/Q/QC9\nremark\tgrounded\tS/V/Q/QC9\n",
    ),
    // an arrester stands at earth by its nature
    (
        &[
            START,
            BUS,
            BAY,
            QB1,
            QA1,
            QB9,
            QC9,
            "<ConductingEquipment name=\"F1\" type=\"SAR\"><Terminal connectivityNode=\"S/V/Q/n3\"/>\
<Terminal connectivityNode=\"S/V/Q/grounded\"/></ConductingEquipment>",
            E1,
            END,
        ],
        "",
    ),
    // the earth node in capitals, drawn as a node: the earthing switch is a disconnector to nowhere
    (
        &[
            START,
            BUS,
            BAY,
            "<ConnectivityNode name=\"GROUNDED\"/>",
            QB1,
            QA1,
            QB9,
            "<ConductingEquipment name=\"QC9\" type=\"DIS\"><Terminal connectivityNode=\"S/V/Q/n3\"/>\
<Terminal connectivityNode=\"S/V/Q/GROUNDED\"/></ConductingEquipment>",
            E1,
            END,
        ],
        "remark\tearth-name\tS/V/Q/GROUNDED\nremark\tloose-end\tS/V/Q/GROUNDED\n",
    ),
    // a terminal that says a node and earth: the line disconnector is an earthing switch, and the line is parted
    (
        &[
            START,
            BUS,
            BAY,
            QB1,
            QA1,
            "<ConductingEquipment name=\"QB9\" type=\"DIS\"><Terminal connectivityNode=\"S/V/Q/n2\"/>\
<Terminal connectivityNode=\"S/V/Q/n3\" cNodeName=\"grounded\"/></ConductingEquipment>",
            QC9,
            E1,
            END,
        ],
        "remark\tapart\tS/V/Q/n3\nremark\ttwo-nodes\tS/V/Q/QB9\nremark\tlone-infeed\tS/V/Q/E1\n",
    ),
];

// Of where equipment is drawn.
pub(crate) const OF_PLACES: &[Row] = &[
    // all of it in a process; the breaker in a function; no substation; children without the root's prefix
    (
        &[
            "<SCL><Process name=\"P\"><Substation name=\"S\"><VoltageLevel name=\"V\">",
            BUS,
            BAY,
            QB1,
            QA1,
            QB9,
            QC9,
            E1,
            "</Bay></VoltageLevel></Substation></Process></SCL>",
        ],
        "remark\tno-switch\t-\nremark\tno-infeed\t-\nremark\tpassed-over\tS\n",
    ),
    (
        &[
            START,
            BUS,
            BAY,
            QB1,
            "<Function name=\"F\">",
            QA1,
            "</Function>",
            QB9,
            QC9,
            E1,
            END,
        ],
        "remark\tloose-end\tS/V/Q/n1\nremark\tloose-end\tS/V/Q/n2\nremark\tapart\tS/V/Q/n2\n\
remark\tpassed-over\tS/V/Q/QA1\n",
    ),
    (
        &["<SCL><IED name=\"A\"/></SCL>"],
        "remark\tno-switch\t-\nremark\tno-infeed\t-\n",
    ),
    (
        &["<scl:SCL><Substation name=\"S\"/></scl:SCL>"],
        "remark\tno-switch\t-\nremark\tno-infeed\t-\nremark\tpassed-over\tS\n",
    ),
];

// Of what stands in a way, and of a transformer.
pub(crate) const OF_WAYS: &[Row] = &[
    // a breaker with a type of the tool's own; a bushing in the way
    (
        &[
            START,
            BUS,
            BAY,
            QB1,
            "<ConductingEquipment name=\"QA1\" type=\"LBS\"><Terminal connectivityNode=\"S/V/Q/n1\"/>\
<Terminal connectivityNode=\"S/V/Q/n2\"/></ConductingEquipment>",
            QB9,
            QC9,
            E1,
            END,
        ],
        "remark\tunknown-type\tS/V/Q/QA1\n",
    ),
    (
        &[
            START,
            BUS,
            BAY,
            QB1,
            "<ConductingEquipment name=\"QA1\" type=\"BSH\"><Terminal connectivityNode=\"S/V/Q/n1\"/>\
<Terminal connectivityNode=\"S/V/Q/n2\"/></ConductingEquipment>",
            QB9,
            QC9,
            E1,
            END,
        ],
        "remark\tno-bond\tS/V/Q/QA1\n",
    ),
    // a transformer's neutral as a second terminal of its winding, with a neutral earthing switch
    (
        &[
            START,
            BUS,
            BAY,
            "<ConnectivityNode name=\"n4\"/>",
            QB1,
            QA1,
            QB9,
            QC9,
            E1,
            "<ConductingEquipment name=\"QC8\" type=\"DIS\"><Terminal connectivityNode=\"S/V/Q/n4\"/>\
<Terminal connectivityNode=\"S/V/Q/grounded\"/></ConductingEquipment>\
<PowerTransformer name=\"T1\" type=\"PTR\"><TransformerWinding name=\"A\"><Terminal connectivityNode=\"S/V/W/b\"/>\
<Terminal connectivityNode=\"S/V/Q/n4\"/></TransformerWinding></PowerTransformer>",
            END,
        ],
        "remark\twinding\tS/V/Q/T1\n",
    ),
];
