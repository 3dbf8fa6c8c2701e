//! The drawings of the rows, as texts of an SSD file.

// A double busbar with a coupler and two feeders.
pub(crate) const DOUBLE_BUSBAR: &str = "<SCL>
<Substation name=\"S\">
<VoltageLevel name=\"V1\">
<Bay name=\"W1\">
<ConnectivityNode name=\"B\" pathName=\"S/V1/W1/B\"/>
</Bay>
<Bay name=\"W2\">
<ConnectivityNode name=\"B\" pathName=\"S/V1/W2/B\"/>
</Bay>
<Bay name=\"K0\">
<ConnectivityNode name=\"k1\" pathName=\"S/V1/K0/k1\"/>
<ConnectivityNode name=\"k2\" pathName=\"S/V1/K0/k2\"/>
<ConductingEquipment name=\"QB1\" type=\"DIS\"><Terminal connectivityNode=\"S/V1/W1/B\" cNodeName=\"B\"/>\
    <Terminal connectivityNode=\"S/V1/K0/k1\" cNodeName=\"k1\"/></ConductingEquipment>
<ConductingEquipment name=\"QA1\" type=\"CBR\"><Terminal connectivityNode=\"S/V1/K0/k1\" cNodeName=\"k1\"/>\
    <Terminal connectivityNode=\"S/V1/K0/k2\" cNodeName=\"k2\"/></ConductingEquipment>
<ConductingEquipment name=\"QB2\" type=\"DIS\"><Terminal connectivityNode=\"S/V1/K0/k2\" cNodeName=\"k2\"/>\
    <Terminal connectivityNode=\"S/V1/W2/B\" cNodeName=\"B\"/></ConductingEquipment>
</Bay>
<Bay name=\"Q1\">
<ConnectivityNode name=\"n1\" pathName=\"S/V1/Q1/n1\"/>
<ConnectivityNode name=\"n2\" pathName=\"S/V1/Q1/n2\"/>
<ConnectivityNode name=\"n3\" pathName=\"S/V1/Q1/n3\"/>
<ConductingEquipment name=\"QB1\" type=\"DIS\"><Terminal connectivityNode=\"S/V1/W1/B\" cNodeName=\"B\"/>\
    <Terminal connectivityNode=\"S/V1/Q1/n1\" cNodeName=\"n1\"/></ConductingEquipment>
<ConductingEquipment name=\"QB2\" type=\"DIS\"><Terminal connectivityNode=\"S/V1/W2/B\" cNodeName=\"B\"/>\
    <Terminal connectivityNode=\"S/V1/Q1/n1\" cNodeName=\"n1\"/></ConductingEquipment>
<ConductingEquipment name=\"QA1\" type=\"CBR\"><Terminal connectivityNode=\"S/V1/Q1/n1\" cNodeName=\"n1\"/>\
    <Terminal connectivityNode=\"S/V1/Q1/n2\" cNodeName=\"n2\"/></ConductingEquipment>
<ConductingEquipment name=\"QB9\" type=\"DIS\"><Terminal connectivityNode=\"S/V1/Q1/n2\" cNodeName=\"n2\"/>\
    <Terminal connectivityNode=\"S/V1/Q1/n3\" cNodeName=\"n3\"/></ConductingEquipment>
<ConductingEquipment name=\"QC9\" type=\"DIS\"><Terminal connectivityNode=\"S/V1/Q1/n3\" cNodeName=\"n3\"/>\
    <Terminal connectivityNode=\"S/V1/Q1/grounded\" cNodeName=\"grounded\"/></ConductingEquipment>
<ConductingEquipment name=\"E1\" type=\"IFL\">\
    <Terminal connectivityNode=\"S/V1/Q1/n3\" cNodeName=\"n3\"/></ConductingEquipment>
</Bay>
<Bay name=\"Q2\">
<ConnectivityNode name=\"n1\" pathName=\"S/V1/Q2/n1\"/>
<ConnectivityNode name=\"n2\" pathName=\"S/V1/Q2/n2\"/>
<ConnectivityNode name=\"n3\" pathName=\"S/V1/Q2/n3\"/>
<ConductingEquipment name=\"QB1\" type=\"DIS\"><Terminal connectivityNode=\"S/V1/W1/B\" cNodeName=\"B\"/>\
    <Terminal connectivityNode=\"S/V1/Q2/n1\" cNodeName=\"n1\"/></ConductingEquipment>
<ConductingEquipment name=\"QB2\" type=\"DIS\"><Terminal connectivityNode=\"S/V1/W2/B\" cNodeName=\"B\"/>\
    <Terminal connectivityNode=\"S/V1/Q2/n1\" cNodeName=\"n1\"/></ConductingEquipment>
<ConductingEquipment name=\"QA1\" type=\"CBR\"><Terminal connectivityNode=\"S/V1/Q2/n1\" cNodeName=\"n1\"/>\
    <Terminal connectivityNode=\"S/V1/Q2/n2\" cNodeName=\"n2\"/></ConductingEquipment>
<ConductingEquipment name=\"QB9\" type=\"DIS\"><Terminal connectivityNode=\"S/V1/Q2/n2\" cNodeName=\"n2\"/>\
    <Terminal connectivityNode=\"S/V1/Q2/n3\" cNodeName=\"n3\"/></ConductingEquipment>
<ConductingEquipment name=\"QC9\" type=\"DIS\"><Terminal connectivityNode=\"S/V1/Q2/n3\" cNodeName=\"n3\"/>\
    <Terminal connectivityNode=\"S/V1/Q2/grounded\" cNodeName=\"grounded\"/></ConductingEquipment>
<ConductingEquipment name=\"E1\" type=\"IFL\">\
    <Terminal connectivityNode=\"S/V1/Q2/n3\" cNodeName=\"n3\"/></ConductingEquipment>
</Bay>
</VoltageLevel>
</Substation>
</SCL>
";

// A fed busbar and a stub on it by two disconnectors in parallel.
pub(crate) const BARE_STUB: &str = "<SCL>
<Substation name=\"S\">
<VoltageLevel name=\"V1\">
<Bay name=\"W1\">
<ConnectivityNode name=\"B\" pathName=\"S/V1/W1/B\"/>
</Bay>
<Bay name=\"Q1\">
<ConnectivityNode name=\"s\" pathName=\"S/V1/Q1/s\"/>
<ConductingEquipment name=\"QB1\" type=\"DIS\"><Terminal connectivityNode=\"S/V1/W1/B\" cNodeName=\"B\"/>\
    <Terminal connectivityNode=\"S/V1/Q1/s\" cNodeName=\"s\"/></ConductingEquipment>
<ConductingEquipment name=\"QB2\" type=\"DIS\"><Terminal connectivityNode=\"S/V1/W1/B\" cNodeName=\"B\"/>\
    <Terminal connectivityNode=\"S/V1/Q1/s\" cNodeName=\"s\"/></ConductingEquipment>
<ConductingEquipment name=\"E1\" type=\"IFL\">\
    <Terminal connectivityNode=\"S/V1/W1/B\" cNodeName=\"B\"/></ConductingEquipment>
</Bay>
</VoltageLevel>
</Substation>
</SCL>
";

// Two busbars of one voltage with a disconnector between them, each with a transformer to the same
// busbar of another voltage.
pub(crate) const TWO_TRANSFORMERS: &str = "<SCL>
<Substation name=\"S\">
<PowerTransformer name=\"T1\" type=\"PTR\">
<TransformerWinding name=\"1\" type=\"PTW\">\
    <Terminal connectivityNode=\"S/V1/W1/H\" cNodeName=\"H\"/></TransformerWinding>
<TransformerWinding name=\"2\" type=\"PTW\">\
    <Terminal connectivityNode=\"S/V2/W1/L\" cNodeName=\"L\"/></TransformerWinding>
</PowerTransformer>
<PowerTransformer name=\"T2\" type=\"PTR\">
<TransformerWinding name=\"1\" type=\"PTW\">\
    <Terminal connectivityNode=\"S/V1/W2/H\" cNodeName=\"H\"/></TransformerWinding>
<TransformerWinding name=\"2\" type=\"PTW\">\
    <Terminal connectivityNode=\"S/V2/W1/L\" cNodeName=\"L\"/></TransformerWinding>
</PowerTransformer>
<VoltageLevel name=\"V1\">
<Bay name=\"W1\">
<ConnectivityNode name=\"H\" pathName=\"S/V1/W1/H\"/>
</Bay>
<Bay name=\"W2\">
<ConnectivityNode name=\"H\" pathName=\"S/V1/W2/H\"/>
</Bay>
<Bay name=\"Q1\">
<ConductingEquipment name=\"QB1\" type=\"DIS\"><Terminal connectivityNode=\"S/V1/W1/H\" cNodeName=\"H\"/>\
    <Terminal connectivityNode=\"S/V1/W2/H\" cNodeName=\"H\"/></ConductingEquipment>
<ConductingEquipment name=\"E1\" type=\"IFL\">\
    <Terminal connectivityNode=\"S/V1/W1/H\" cNodeName=\"H\"/></ConductingEquipment>
</Bay>
</VoltageLevel>
<VoltageLevel name=\"V2\">
<Bay name=\"W1\">
<ConnectivityNode name=\"L\" pathName=\"S/V2/W1/L\"/>
</Bay>
</VoltageLevel>
</Substation>
</SCL>
";

// Three lines with an earthing switch and an infeed at one node: the third has the infeed first.
pub(crate) const THREE_LINES: &str = "<SCL>
<Substation name=\"S\">
<VoltageLevel name=\"V1\">
<Bay name=\"Q1\">
<ConnectivityNode name=\"a\" pathName=\"S/V1/Q1/a\"/>
<ConductingEquipment name=\"QC9\" type=\"DIS\"><Terminal connectivityNode=\"S/V1/Q1/a\" cNodeName=\"a\"/>\
    <Terminal connectivityNode=\"S/V1/Q1/grounded\" cNodeName=\"grounded\"/></ConductingEquipment>
<ConductingEquipment name=\"E1\" type=\"IFL\">\
    <Terminal connectivityNode=\"S/V1/Q1/a\" cNodeName=\"a\"/></ConductingEquipment>
</Bay>
<Bay name=\"Q2\">
<ConnectivityNode name=\"a\" pathName=\"S/V1/Q2/a\"/>
<ConductingEquipment name=\"QC9\" type=\"DIS\"><Terminal connectivityNode=\"S/V1/Q2/a\" cNodeName=\"a\"/>\
    <Terminal connectivityNode=\"S/V1/Q2/grounded\" cNodeName=\"grounded\"/></ConductingEquipment>
<ConductingEquipment name=\"E1\" type=\"IFL\">\
    <Terminal connectivityNode=\"S/V1/Q2/a\" cNodeName=\"a\"/></ConductingEquipment>
</Bay>
<Bay name=\"Q3\">
<ConnectivityNode name=\"a\" pathName=\"S/V1/Q3/a\"/>
<ConductingEquipment name=\"E1\" type=\"IFL\">\
    <Terminal connectivityNode=\"S/V1/Q3/a\" cNodeName=\"a\"/></ConductingEquipment>
<ConductingEquipment name=\"QC9\" type=\"DIS\"><Terminal connectivityNode=\"S/V1/Q3/a\" cNodeName=\"a\"/>\
    <Terminal connectivityNode=\"S/V1/Q3/grounded\" cNodeName=\"grounded\"/></ConductingEquipment>
</Bay>
</VoltageLevel>
</Substation>
</SCL>
";
