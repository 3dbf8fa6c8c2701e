//! Drawings as texts of an SSD file, for tests of the program.

/// A busbar, and two feeders with a busbar disconnector, a breaker, a line disconnector, an earthing
/// switch and an infeed each.
pub const TWO_FEEDERS: &str = "<SCL>
<Substation name=\"S\">
<VoltageLevel name=\"V1\">
<Bay name=\"W1\">
<ConnectivityNode name=\"B\" pathName=\"S/V1/W1/B\"/>
</Bay>
<Bay name=\"Q1\">
<ConnectivityNode name=\"n1\" pathName=\"S/V1/Q1/n1\"/>
<ConnectivityNode name=\"n2\" pathName=\"S/V1/Q1/n2\"/>
<ConnectivityNode name=\"n3\" pathName=\"S/V1/Q1/n3\"/>
<ConductingEquipment name=\"QB1\" type=\"DIS\"><Terminal connectivityNode=\"S/V1/W1/B\" cNodeName=\"B\"/>\
    <Terminal connectivityNode=\"S/V1/Q1/n1\" cNodeName=\"n1\"/></ConductingEquipment>
<ConductingEquipment name=\"QA1\" type=\"CBR\"><Terminal connectivityNode=\"S/V1/Q1/n1\" cNodeName=\"n1\"/>\
    <Terminal connectivityNode=\"S/V1/Q1/n2\" cNodeName=\"n2\"/></ConductingEquipment>
<ConductingEquipment name=\"QB9\" type=\"DIS\"><Terminal connectivityNode=\"S/V1/Q1/n2\" cNodeName=\"n2\"/>\
    <Terminal connectivityNode=\"S/V1/Q1/n3\" cNodeName=\"n3\"/></ConductingEquipment>
<ConductingEquipment name=\"QC9\" type=\"DIS\"><Terminal connectivityNode=\"S/V1/Q1/n3\" cNodeName=\"n3\"/>\
    <Terminal connectivityNode=\"S/V1/Q1/grounded\" cNodeName=\"grounded\"/></ConductingEquipment>
<ConductingEquipment name=\"E1\" type=\"IFL\">\
    <Terminal connectivityNode=\"S/V1/Q1/n3\" cNodeName=\"n3\"/></ConductingEquipment>
</Bay>
<Bay name=\"Q2\">
<ConnectivityNode name=\"n1\" pathName=\"S/V1/Q2/n1\"/>
<ConnectivityNode name=\"n2\" pathName=\"S/V1/Q2/n2\"/>
<ConnectivityNode name=\"n3\" pathName=\"S/V1/Q2/n3\"/>
<ConductingEquipment name=\"QB1\" type=\"DIS\"><Terminal connectivityNode=\"S/V1/W1/B\" cNodeName=\"B\"/>\
    <Terminal connectivityNode=\"S/V1/Q2/n1\" cNodeName=\"n1\"/></ConductingEquipment>
<ConductingEquipment name=\"QA1\" type=\"CBR\"><Terminal connectivityNode=\"S/V1/Q2/n1\" cNodeName=\"n1\"/>\
    <Terminal connectivityNode=\"S/V1/Q2/n2\" cNodeName=\"n2\"/></ConductingEquipment>
<ConductingEquipment name=\"QB9\" type=\"DIS\"><Terminal connectivityNode=\"S/V1/Q2/n2\" cNodeName=\"n2\"/>\
    <Terminal connectivityNode=\"S/V1/Q2/n3\" cNodeName=\"n3\"/></ConductingEquipment>
<ConductingEquipment name=\"QC9\" type=\"DIS\"><Terminal connectivityNode=\"S/V1/Q2/n3\" cNodeName=\"n3\"/>\
    <Terminal connectivityNode=\"S/V1/Q2/grounded\" cNodeName=\"grounded\"/></ConductingEquipment>
<ConductingEquipment name=\"E1\" type=\"IFL\">\
    <Terminal connectivityNode=\"S/V1/Q2/n3\" cNodeName=\"n3\"/></ConductingEquipment>
</Bay>
</VoltageLevel>
</Substation>
</SCL>
";

/// The same feeders, each on a busbar of its own.
pub const FEEDERS_APART: &str = "<SCL>
<Substation name=\"S\">
<VoltageLevel name=\"V1\">
<Bay name=\"W1\">
<ConnectivityNode name=\"B\" pathName=\"S/V1/W1/B\"/>
</Bay>
<Bay name=\"W2\">
<ConnectivityNode name=\"B\" pathName=\"S/V1/W2/B\"/>
</Bay>
<Bay name=\"Q1\">
<ConnectivityNode name=\"n1\" pathName=\"S/V1/Q1/n1\"/>
<ConnectivityNode name=\"n2\" pathName=\"S/V1/Q1/n2\"/>
<ConnectivityNode name=\"n3\" pathName=\"S/V1/Q1/n3\"/>
<ConductingEquipment name=\"QB1\" type=\"DIS\"><Terminal connectivityNode=\"S/V1/W1/B\" cNodeName=\"B\"/>\
    <Terminal connectivityNode=\"S/V1/Q1/n1\" cNodeName=\"n1\"/></ConductingEquipment>
<ConductingEquipment name=\"QA1\" type=\"CBR\"><Terminal connectivityNode=\"S/V1/Q1/n1\" cNodeName=\"n1\"/>\
    <Terminal connectivityNode=\"S/V1/Q1/n2\" cNodeName=\"n2\"/></ConductingEquipment>
<ConductingEquipment name=\"QB9\" type=\"DIS\"><Terminal connectivityNode=\"S/V1/Q1/n2\" cNodeName=\"n2\"/>\
    <Terminal connectivityNode=\"S/V1/Q1/n3\" cNodeName=\"n3\"/></ConductingEquipment>
<ConductingEquipment name=\"QC9\" type=\"DIS\"><Terminal connectivityNode=\"S/V1/Q1/n3\" cNodeName=\"n3\"/>\
    <Terminal connectivityNode=\"S/V1/Q1/grounded\" cNodeName=\"grounded\"/></ConductingEquipment>
<ConductingEquipment name=\"E1\" type=\"IFL\">\
    <Terminal connectivityNode=\"S/V1/Q1/n3\" cNodeName=\"n3\"/></ConductingEquipment>
</Bay>
<Bay name=\"Q2\">
<ConnectivityNode name=\"n1\" pathName=\"S/V1/Q2/n1\"/>
<ConnectivityNode name=\"n2\" pathName=\"S/V1/Q2/n2\"/>
<ConnectivityNode name=\"n3\" pathName=\"S/V1/Q2/n3\"/>
<ConductingEquipment name=\"QB1\" type=\"DIS\"><Terminal connectivityNode=\"S/V1/W2/B\" cNodeName=\"B\"/>\
    <Terminal connectivityNode=\"S/V1/Q2/n1\" cNodeName=\"n1\"/></ConductingEquipment>
<ConductingEquipment name=\"QA1\" type=\"CBR\"><Terminal connectivityNode=\"S/V1/Q2/n1\" cNodeName=\"n1\"/>\
    <Terminal connectivityNode=\"S/V1/Q2/n2\" cNodeName=\"n2\"/></ConductingEquipment>
<ConductingEquipment name=\"QB9\" type=\"DIS\"><Terminal connectivityNode=\"S/V1/Q2/n2\" cNodeName=\"n2\"/>\
    <Terminal connectivityNode=\"S/V1/Q2/n3\" cNodeName=\"n3\"/></ConductingEquipment>
<ConductingEquipment name=\"QC9\" type=\"DIS\"><Terminal connectivityNode=\"S/V1/Q2/n3\" cNodeName=\"n3\"/>\
    <Terminal connectivityNode=\"S/V1/Q2/grounded\" cNodeName=\"grounded\"/></ConductingEquipment>
<ConductingEquipment name=\"E1\" type=\"IFL\">\
    <Terminal connectivityNode=\"S/V1/Q2/n3\" cNodeName=\"n3\"/></ConductingEquipment>
</Bay>
</VoltageLevel>
</Substation>
</SCL>
";

/// A drawing of one bay as a tool writes it, with line ends of two bytes.
pub const AS_A_TOOL_WRITES: &str =
    "<?xml version=\"1.0\" encoding=\"utf-8\"?>\r\n<!-- one line bay -->\r\n\
        <SCL xmlns=\"http://www.iec.ch/61850/2003/SCL\" xmlns:sxy=\"urn:draw\" version=\"2007\">\r\n  \
        <Header id=\"demo\"/>\r\n  <Substation name='S'>\r\n    \
        <Private type=\"vendor\"><x:y xmlns:x=\"urn:x\">a &amp; b</x:y></Private>\r\n    \
        <VoltageLevel name=\"V1\" sxy:x=\"4\">\r\n      <Voltage multiplier=\"k\" unit=\"V\">110</Voltage>\r\n      \
        <Bay name=\"Q&#49;\">\r\n        \
        <ConductingEquipment name=\"QC9\" type=\"DIS\" sxy:x=\"1\" sxy:y=\"9\">\r\n          \
        <LNode iedName=\"None\" lnClass=\"XSWI\" lnInst=\"1\"/>\r\n          \
        <Terminal name=\"T1\" connectivityNode=\"S/V1/Q1/a\" cNodeName=\"a\"/>\r\n          \
        <Terminal name=\"T2\" connectivityNode=\"S/V1/Q1/grounded\" cNodeName=\"grounded\"/>\r\n        \
        </ConductingEquipment>\r\n        <ConductingEquipment name=\"E1\" type=\"IFL\">\r\n          \
        <Terminal substationName=\"S\" voltageLevelName=\"V1\" bayName=\"Q1\" cNodeName=\"a\"/>\r\n        \
        </ConductingEquipment>\r\n        <ConnectivityNode name=\"a\" pathName=\"S/V1/Q1/a\"/>\r\n      </Bay>\r\n    \
        </VoltageLevel>\r\n  </Substation>\r\n</SCL>\r\n";
