//! Small drawings, and what the station of each has.
use ilk_base::Kind;

// Kind, ends, part and path of a switch.
pub(crate) type SwitchRow = (Kind, u16, Option<u16>, u8, &'static str);

// Ends of a link, whether it is a bond, and its part.
pub(crate) type LinkRow = (u16, u16, bool, u8);

// A drawing, and what its station has.
#[derive(Clone, Copy)]
pub(crate) struct Drawn {
    pub(crate) text: &'static str,
    pub(crate) switches: &'static [SwitchRow],
    pub(crate) links: &'static [LinkRow],
    // node and part
    pub(crate) taps: &'static [(u16, u8)],
}

// A busbar with two feeders.
pub(crate) static ONE_BUSBAR: Drawn = Drawn {
    text: r#"<SCL>
<Substation name="S">
<VoltageLevel name="V1">
<Bay name="W1">
<ConnectivityNode name="B" pathName="S/V1/W1/B"/>
</Bay>
<Bay name="Q1">
<ConnectivityNode name="n1" pathName="S/V1/Q1/n1"/>
<ConnectivityNode name="n2" pathName="S/V1/Q1/n2"/>
<ConnectivityNode name="n3" pathName="S/V1/Q1/n3"/>
<ConductingEquipment name="QB1" type="DIS">
  <Terminal connectivityNode="S/V1/W1/B" cNodeName="B"/>
  <Terminal connectivityNode="S/V1/Q1/n1" cNodeName="n1"/>
</ConductingEquipment>
<ConductingEquipment name="QA1" type="CBR">
  <Terminal connectivityNode="S/V1/Q1/n1" cNodeName="n1"/>
  <Terminal connectivityNode="S/V1/Q1/n2" cNodeName="n2"/>
</ConductingEquipment>
<ConductingEquipment name="QB9" type="DIS">
  <Terminal connectivityNode="S/V1/Q1/n2" cNodeName="n2"/>
  <Terminal connectivityNode="S/V1/Q1/n3" cNodeName="n3"/>
</ConductingEquipment>
<ConductingEquipment name="QC9" type="DIS">
  <Terminal connectivityNode="S/V1/Q1/n3" cNodeName="n3"/>
  <Terminal connectivityNode="S/V1/Q1/grounded" cNodeName="grounded"/>
</ConductingEquipment>
<ConductingEquipment name="E1" type="IFL"><Terminal connectivityNode="S/V1/Q1/n3" cNodeName="n3"/></ConductingEquipment>
</Bay>
<Bay name="Q2">
<ConnectivityNode name="n1" pathName="S/V1/Q2/n1"/>
<ConnectivityNode name="n2" pathName="S/V1/Q2/n2"/>
<ConnectivityNode name="n3" pathName="S/V1/Q2/n3"/>
<ConductingEquipment name="QB1" type="DIS">
  <Terminal connectivityNode="S/V1/W1/B" cNodeName="B"/>
  <Terminal connectivityNode="S/V1/Q2/n1" cNodeName="n1"/>
</ConductingEquipment>
<ConductingEquipment name="QA1" type="CBR">
  <Terminal connectivityNode="S/V1/Q2/n1" cNodeName="n1"/>
  <Terminal connectivityNode="S/V1/Q2/n2" cNodeName="n2"/>
</ConductingEquipment>
<ConductingEquipment name="QB9" type="DIS">
  <Terminal connectivityNode="S/V1/Q2/n2" cNodeName="n2"/>
  <Terminal connectivityNode="S/V1/Q2/n3" cNodeName="n3"/>
</ConductingEquipment>
<ConductingEquipment name="QC9" type="DIS">
  <Terminal connectivityNode="S/V1/Q2/n3" cNodeName="n3"/>
  <Terminal connectivityNode="S/V1/Q2/grounded" cNodeName="grounded"/>
</ConductingEquipment>
<ConductingEquipment name="E1" type="IFL"><Terminal connectivityNode="S/V1/Q2/n3" cNodeName="n3"/></ConductingEquipment>
</Bay>
</VoltageLevel>
</Substation>
</SCL>
"#,
    switches: &[
        (Kind::Disconnector, 0, Some(1), 1, "S/V1/Q1/QB1"),
        (Kind::Breaker, 1, Some(2), 1, "S/V1/Q1/QA1"),
        (Kind::Disconnector, 2, Some(3), 1, "S/V1/Q1/QB9"),
        (Kind::Earthing, 3, None, 1, "S/V1/Q1/QC9"),
        (Kind::Infeed, 3, None, 1, "S/V1/Q1/E1"),
        (Kind::Disconnector, 0, Some(4), 2, "S/V1/Q2/QB1"),
        (Kind::Breaker, 4, Some(5), 2, "S/V1/Q2/QA1"),
        (Kind::Disconnector, 5, Some(6), 2, "S/V1/Q2/QB9"),
        (Kind::Earthing, 6, None, 2, "S/V1/Q2/QC9"),
        (Kind::Infeed, 6, None, 2, "S/V1/Q2/E1"),
    ],
    links: &[],
    taps: &[(3, 1), (6, 2)],
};

// Two busbars with a feeder each.
pub(crate) static TWO_BUSBARS: Drawn = Drawn {
    text: r#"<SCL>
<Substation name="S">
<VoltageLevel name="V1">
<Bay name="W1">
<ConnectivityNode name="B" pathName="S/V1/W1/B"/>
</Bay>
<Bay name="W2">
<ConnectivityNode name="B" pathName="S/V1/W2/B"/>
</Bay>
<Bay name="Q1">
<ConnectivityNode name="n1" pathName="S/V1/Q1/n1"/>
<ConnectivityNode name="n2" pathName="S/V1/Q1/n2"/>
<ConnectivityNode name="n3" pathName="S/V1/Q1/n3"/>
<ConductingEquipment name="QB1" type="DIS">
  <Terminal connectivityNode="S/V1/W1/B" cNodeName="B"/>
  <Terminal connectivityNode="S/V1/Q1/n1" cNodeName="n1"/>
</ConductingEquipment>
<ConductingEquipment name="QA1" type="CBR">
  <Terminal connectivityNode="S/V1/Q1/n1" cNodeName="n1"/>
  <Terminal connectivityNode="S/V1/Q1/n2" cNodeName="n2"/>
</ConductingEquipment>
<ConductingEquipment name="QB9" type="DIS">
  <Terminal connectivityNode="S/V1/Q1/n2" cNodeName="n2"/>
  <Terminal connectivityNode="S/V1/Q1/n3" cNodeName="n3"/>
</ConductingEquipment>
<ConductingEquipment name="QC9" type="DIS">
  <Terminal connectivityNode="S/V1/Q1/n3" cNodeName="n3"/>
  <Terminal connectivityNode="S/V1/Q1/grounded" cNodeName="grounded"/>
</ConductingEquipment>
<ConductingEquipment name="E1" type="IFL"><Terminal connectivityNode="S/V1/Q1/n3" cNodeName="n3"/></ConductingEquipment>
</Bay>
<Bay name="Q2">
<ConnectivityNode name="n1" pathName="S/V1/Q2/n1"/>
<ConnectivityNode name="n2" pathName="S/V1/Q2/n2"/>
<ConnectivityNode name="n3" pathName="S/V1/Q2/n3"/>
<ConductingEquipment name="QB1" type="DIS">
  <Terminal connectivityNode="S/V1/W2/B" cNodeName="B"/>
  <Terminal connectivityNode="S/V1/Q2/n1" cNodeName="n1"/>
</ConductingEquipment>
<ConductingEquipment name="QA1" type="CBR">
  <Terminal connectivityNode="S/V1/Q2/n1" cNodeName="n1"/>
  <Terminal connectivityNode="S/V1/Q2/n2" cNodeName="n2"/>
</ConductingEquipment>
<ConductingEquipment name="QB9" type="DIS">
  <Terminal connectivityNode="S/V1/Q2/n2" cNodeName="n2"/>
  <Terminal connectivityNode="S/V1/Q2/n3" cNodeName="n3"/>
</ConductingEquipment>
<ConductingEquipment name="QC9" type="DIS">
  <Terminal connectivityNode="S/V1/Q2/n3" cNodeName="n3"/>
  <Terminal connectivityNode="S/V1/Q2/grounded" cNodeName="grounded"/>
</ConductingEquipment>
<ConductingEquipment name="E1" type="IFL"><Terminal connectivityNode="S/V1/Q2/n3" cNodeName="n3"/></ConductingEquipment>
</Bay>
</VoltageLevel>
</Substation>
</SCL>
"#,
    switches: &[
        (Kind::Disconnector, 0, Some(2), 2, "S/V1/Q1/QB1"),
        (Kind::Breaker, 2, Some(3), 2, "S/V1/Q1/QA1"),
        (Kind::Disconnector, 3, Some(4), 2, "S/V1/Q1/QB9"),
        (Kind::Earthing, 4, None, 2, "S/V1/Q1/QC9"),
        (Kind::Infeed, 4, None, 2, "S/V1/Q1/E1"),
        (Kind::Disconnector, 1, Some(5), 3, "S/V1/Q2/QB1"),
        (Kind::Breaker, 5, Some(6), 3, "S/V1/Q2/QA1"),
        (Kind::Disconnector, 6, Some(7), 3, "S/V1/Q2/QB9"),
        (Kind::Earthing, 7, None, 3, "S/V1/Q2/QC9"),
        (Kind::Infeed, 7, None, 3, "S/V1/Q2/E1"),
    ],
    links: &[],
    taps: &[(4, 2), (7, 3)],
};

// Two disconnectors in parallel onto a stub.
pub(crate) static STUB: Drawn = Drawn {
    text: r#"<SCL>
<Substation name="S">
<VoltageLevel name="V1">
<Bay name="W1">
<ConnectivityNode name="B" pathName="S/V1/W1/B"/>
</Bay>
<Bay name="Q1">
<ConnectivityNode name="s" pathName="S/V1/Q1/s"/>
<ConductingEquipment name="QB1" type="DIS">
  <Terminal connectivityNode="S/V1/W1/B" cNodeName="B"/>
  <Terminal connectivityNode="S/V1/Q1/s" cNodeName="s"/>
</ConductingEquipment>
<ConductingEquipment name="QB2" type="DIS">
  <Terminal connectivityNode="S/V1/W1/B" cNodeName="B"/>
  <Terminal connectivityNode="S/V1/Q1/s" cNodeName="s"/>
</ConductingEquipment>
<ConductingEquipment name="E1" type="IFL"><Terminal connectivityNode="S/V1/W1/B" cNodeName="B"/></ConductingEquipment>
</Bay>
</VoltageLevel>
</Substation>
</SCL>
"#,
    switches: &[
        (Kind::Disconnector, 0, Some(1), 1, "S/V1/Q1/QB1"),
        (Kind::Disconnector, 0, Some(1), 1, "S/V1/Q1/QB2"),
        (Kind::Infeed, 0, None, 1, "S/V1/Q1/E1"),
    ],
    links: &[],
    taps: &[(0, 1)],
};

// Two transformers in parallel beside a disconnector.
pub(crate) static TRANSFORMERS: Drawn = Drawn {
    text: r#"<SCL>
<Substation name="S">
<PowerTransformer name="T1" type="PTR">
<TransformerWinding name="1" type="PTW"><Terminal connectivityNode="S/V1/W1/H" cNodeName="H"/></TransformerWinding>
<TransformerWinding name="2" type="PTW"><Terminal connectivityNode="S/V2/W1/L" cNodeName="L"/></TransformerWinding>
</PowerTransformer>
<PowerTransformer name="T2" type="PTR">
<TransformerWinding name="1" type="PTW"><Terminal connectivityNode="S/V1/W2/H" cNodeName="H"/></TransformerWinding>
<TransformerWinding name="2" type="PTW"><Terminal connectivityNode="S/V2/W1/L" cNodeName="L"/></TransformerWinding>
</PowerTransformer>
<VoltageLevel name="V1">
<Bay name="W1">
<ConnectivityNode name="H" pathName="S/V1/W1/H"/>
</Bay>
<Bay name="W2">
<ConnectivityNode name="H" pathName="S/V1/W2/H"/>
</Bay>
<Bay name="Q1">
<ConductingEquipment name="QB1" type="DIS">
  <Terminal connectivityNode="S/V1/W1/H" cNodeName="H"/>
  <Terminal connectivityNode="S/V1/W2/H" cNodeName="H"/>
</ConductingEquipment>
<ConductingEquipment name="E1" type="IFL"><Terminal connectivityNode="S/V1/W1/H" cNodeName="H"/></ConductingEquipment>
</Bay>
</VoltageLevel>
<VoltageLevel name="V2">
<Bay name="W1">
<ConnectivityNode name="L" pathName="S/V2/W1/L"/>
</Bay>
</VoltageLevel>
</Substation>
</SCL>
"#,
    switches: &[
        (Kind::Disconnector, 0, Some(1), 4, "S/V1/Q1/QB1"),
        (Kind::Infeed, 0, None, 4, "S/V1/Q1/E1"),
    ],
    links: &[(0, 2, false, 0), (1, 2, false, 1)],
    taps: &[(0, 0), (2, 0), (1, 1), (2, 1), (0, 4)],
};

// A bay with an earthing switch and an infeed, as a tool writes it.
pub(crate) static LINE_BAY: Drawn = Drawn {
    text: r#"<?xml version="1.0" encoding="utf-8"?>
<!-- one line bay -->
<SCL xmlns="http://www.iec.ch/61850/2003/SCL" xmlns:sxy="urn:draw" version="2007">
  <Header id="demo"/>
  <Substation name='S'>
    <Private type="vendor"><x:y xmlns:x="urn:x">a &amp; b</x:y></Private>
    <VoltageLevel name="V1" sxy:x="4">
      <Voltage multiplier="k" unit="V">110</Voltage>
      <Bay name="Q&#49;">
        <ConductingEquipment name="QC9" type="DIS" sxy:x="1" sxy:y="9">
          <LNode iedName="None" lnClass="XSWI" lnInst="1"/>
          <Terminal name="T1" connectivityNode="S/V1/Q1/a" cNodeName="a"/>
          <Terminal name="T2" connectivityNode="S/V1/Q1/grounded" cNodeName="grounded"/>
        </ConductingEquipment>
        <ConductingEquipment name="E1" type="IFL">
          <Terminal substationName="S" voltageLevelName="V1" bayName="Q1" cNodeName="a"/>
        </ConductingEquipment>
        <ConnectivityNode name="a" pathName="S/V1/Q1/a"/>
      </Bay>
    </VoltageLevel>
  </Substation>
</SCL>
"#,
    switches: &[
        (Kind::Earthing, 0, None, 0, "S/V1/Q1/QC9"),
        (Kind::Infeed, 0, None, 0, "S/V1/Q1/E1"),
    ],
    links: &[],
    taps: &[(0, 0)],
};
