//! A drawing as an engineering tool exports it.
use crate::drawings::Drawn;
use ilk_base::Kind;

// A drawing as an engineering tool exports it; it is that of examples/vendor.ssd.
pub(crate) static EXPORTED: Drawn = Drawn {
    text: r#"<?xml version="1.0" encoding="UTF-8"?>
<!-- exported by an engineering tool -->
<SCL xmlns="http://www.iec.ch/61850/2003/SCL" xmlns:sxy="http://www.iec.ch/61850/2003/SCLcoordinates"
    xmlns:eng="urn:vendor:engineering" version="2007" revision="B" release="4">
  <Private type="vendor:project"><eng:Project id="4711" editor="Jäger &amp; Söhne"/></Private>
  <Header id="Süd" version="3" revision="a" toolID="Editor 5.2">
    <Text>Single-line diagram of the substation Süd</Text>
    <History><Hitem version="3" revision="a" when="2026-03-02T10:15:00Z" who="ej" what="Q02 added"/></History>
  </Header>
  <Substation name="Süd" desc="Umspannwerk Süd" sxy:x="0" sxy:y="0">
    <Private type="vendor:layout" eng:page="1"/>
    <LNode iedName="None" ldInst="" lnClass="ITCI" lnInst="1"/>
    <PowerTransformer name="T1" type="PTR" desc="110/20 kV, 40 MVA" sxy:x="12" sxy:y="30" sxy:dir="vertical">
      <LNode iedName="None" ldInst="" lnClass="YPTR" lnInst="1"/>
      <TransformerWinding name="HV" type="PTW">
        <TapChanger name="TC" type="LTC"><LNode iedName="None" ldInst="" lnClass="ATCC" lnInst="1"/></TapChanger>
        <Terminal name="T1_1" connectivityNode="Süd/110kV/Q02/K3" substationName="Süd" voltageLevelName="110kV"
            bayName="Q02" cNodeName="K3"/>
        <NeutralPoint name="N" connectivityNode="Süd/110kV/Q02/grounded" cNodeName="grounded"/>
      </TransformerWinding>
      <TransformerWinding name="LV" type="PTW">
        <Terminal name="T1_2" connectivityNode="Süd/20kV/K01/B" substationName="Süd" voltageLevelName="20kV"
            bayName="K01" cNodeName="B"/>
      </TransformerWinding>
    </PowerTransformer>
    <VoltageLevel name="110kV" nomFreq="50" numPhases="3">
      <Voltage unit="V" multiplier="k">110</Voltage>
      <Bay name="W1" desc="Sammelschiene" sxy:x="2" sxy:y="2" sxy:dir="horizontal">
        <ConnectivityNode name="B" pathName="Süd/110kV/W1/B" sxy:x="2" sxy:y="2"/>
      </Bay>
      <Bay name="Q01 Löwen" sxy:x="4" sxy:y="6">
        <LNode iedName="Q01A1" ldInst="CTRL" lnClass="CILO" lnInst="1" prefix="QB1"/>
        <ConductingEquipment name="QB1" type="DIS" sxy:x="4" sxy:y="8" sxy:dir="vertical">
          <LNode iedName="None" ldInst="" lnClass="XSWI" lnInst="1"/>
          <Terminal name="T1" connectivityNode="Süd/110kV/W1/B" substationName="Süd" voltageLevelName="110kV"
              bayName="W1" cNodeName="B"/>
          <Terminal name="T2" connectivityNode="Süd/110kV/Q01 Löwen/K1" substationName="Süd" voltageLevelName="110kV"
              bayName="Q01 Löwen" cNodeName="K1"/>
        </ConductingEquipment>
        <ConductingEquipment name="QA1" type="CBR" sxy:x="4" sxy:y="10">
          <Terminal name="T1" connectivityNode="Süd/110kV/Q01 Löwen/K1" cNodeName="K1"/>
          <Terminal name="T2" connectivityNode="Süd/110kV/Q01 Löwen/K2" cNodeName="K2"/>
          <SubEquipment name="L1" phase="A"><LNode iedName="None" ldInst="" lnClass="XCBR" lnInst="1"/></SubEquipment>
          <SubEquipment name="L2" phase="B"/>
          <SubEquipment name="L3" phase="C"/>
        </ConductingEquipment>
        <ConductingEquipment name="BI1" type="CTR">
          <Terminal name="T1" connectivityNode="Süd/110kV/Q01 Löwen/K2" cNodeName="K2"/>
          <Terminal name="T2" connectivityNode="Süd/110kV/Q01 Löwen/K3" cNodeName="K3"/>
        </ConductingEquipment>
        <ConductingEquipment name="QB9" type="DIS">
          <Terminal name="T1" connectivityNode="Süd/110kV/Q01 Löwen/K3" cNodeName="K3"/>
          <Terminal name="T2" connectivityNode="Süd/110kV/Q01 Löwen/K4" cNodeName="K4"/>
        </ConductingEquipment>
        <ConductingEquipment name="QC9" type="DIS" desc="Erdungsschalter">
          <Terminal name="T1" connectivityNode="Süd/110kV/Q01 Löwen/K4" cNodeName="K4"/>
          <Terminal name="T2" connectivityNode="Süd/110kV/Q01 Löwen/grounded" cNodeName="grounded"/>
        </ConductingEquipment>
        <ConductingEquipment name="BU1" type="VTR">
          <Terminal name="T1" connectivityNode="Süd/110kV/Q01 Löwen/K4" cNodeName="K4"/>
        </ConductingEquipment>
        <ConductingEquipment name="F1" type="SAR">
          <Terminal name="T1" connectivityNode="Süd/110kV/Q01 Löwen/K4" cNodeName="K4"/>
          <Terminal name="T2" connectivityNode="Süd/110kV/Q01 Löwen/grounded" cNodeName="grounded"/>
        </ConductingEquipment>
        <ConductingEquipment name="WA1" type="CAB">
          <Terminal name="T1" connectivityNode="Süd/110kV/Q01 Löwen/K4" cNodeName="K4"/>
          <Terminal name="T2" connectivityNode="Süd/110kV/Q01 Löwen/K5" cNodeName="K5"/>
        </ConductingEquipment>
        <ConductingEquipment name="E1" type="IFL" desc="Leitung Löwen">
          <Terminal name="T1" substationName="Süd" voltageLevelName="110kV" bayName="Q01 Löwen" cNodeName="K5"/>
        </ConductingEquipment>
        <ConnectivityNode name="K1" pathName="Süd/110kV/Q01 Löwen/K1"/>
        <ConnectivityNode name="K2" pathName="Süd/110kV/Q01 Löwen/K2"/>
        <ConnectivityNode name="K3" pathName="Süd/110kV/Q01 Löwen/K3"/>
        <ConnectivityNode name="K4" pathName="Süd/110kV/Q01 Löwen/K4"/>
        <ConnectivityNode name="K5" pathName="Süd/110kV/Q01 Löwen/K5"/>
        <ConnectivityNode name="grounded" pathName="Süd/110kV/Q01 Löwen/grounded"/>
        <Function name="Distance protection" type="21">
          <SubFunction name="Zone 1"><LNode iedName="None" ldInst="" lnClass="PDIS" lnInst="1"/></SubFunction>
        </Function>
      </Bay>
      <Bay name="Q02" sxy:x="12" sxy:y="6">
        <ConnectivityNode name="K1" pathName="Süd/110kV/Q02/K1"/>
        <ConnectivityNode name="K2" pathName="Süd/110kV/Q02/K2"/>
        <ConnectivityNode name="K3" pathName="Süd/110kV/Q02/K3"/>
        <ConductingEquipment name="QB1" type="DIS">
          <Terminal name="T1" connectivityNode="Süd/110kV/W1/B" cNodeName="B"/>
          <Terminal name="T2" connectivityNode="Süd/110kV/Q02/K1" cNodeName="K1"/>
        </ConductingEquipment>
        <ConductingEquipment name="QA1" type="CBR">
          <Terminal name="T1" connectivityNode="Süd/110kV/Q02/K1" cNodeName="K1"/>
          <Terminal name="T2" connectivityNode="Süd/110kV/Q02/K2" cNodeName="K2"/>
        </ConductingEquipment>
        <ConductingEquipment name="BI1" type="CTR">
          <Terminal name="T1" connectivityNode="Süd/110kV/Q02/K2" cNodeName="K2"/>
          <Terminal name="T2" connectivityNode="Süd/110kV/Q02/K3" cNodeName="K3"/>
        </ConductingEquipment>
      </Bay>
    </VoltageLevel>
    <VoltageLevel name="20kV">
      <Voltage unit="V" multiplier="k">20</Voltage>
      <Bay name="K01">
        <ConnectivityNode name="B" pathName="Süd/20kV/K01/B"/>
        <ConductingEquipment name="QA1" type="CBR">
          <Terminal name="T1" connectivityNode="Süd/20kV/K01/B" cNodeName="B"/>
          <Terminal name="T2" connectivityNode="Süd/20kV/K01/K1" cNodeName="K1"/>
        </ConductingEquipment>
        <ConductingEquipment name="M1" type="MOT">
          <Terminal name="T1" connectivityNode="Süd/20kV/K01/K1" cNodeName="K1"/>
        </ConductingEquipment>
        <ConductingEquipment name="G1" type="GEN">
          <Terminal name="T1" connectivityNode="Süd/20kV/K01/K1" cNodeName="K1"/>
        </ConductingEquipment>
        <ConductingEquipment name="C1" type="CAP">
          <Terminal name="T1" connectivityNode="Süd/20kV/K01/K1" cNodeName="K1"/>
          <Terminal name="T2" connectivityNode="Süd/20kV/K01/grounded" cNodeName="grounded"/>
        </ConductingEquipment>
        <ConnectivityNode name="K1" pathName="Süd/20kV/K01/K1"/>
      </Bay>
    </VoltageLevel>
  </Substation>
  <Communication><SubNetwork name="Station bus" type="8-MMS"/></Communication>
  <IED name="Q01A1" manufacturer="Vendor" type="Bay controller">
    <AccessPoint name="P1"><Server><Authentication none="true"/><LDevice inst="CTRL"><LN0 lnClass="LLN0" inst=""
        lnType="LLN0"/></LDevice></Server></AccessPoint>
  </IED>
  <DataTypeTemplates>
    <LNodeType id="LLN0" lnClass="LLN0"><DO name="Mod" type="ENC"/></LNodeType>
    <DOType id="ENC" cdc="ENC"><DA name="stVal" fc="ST" bType="Enum" type="Mod"/></DOType>
    <EnumType id="Mod"><EnumVal ord="1">on</EnumVal></EnumType>
  </DataTypeTemplates>
</SCL>
"#,
    switches: &[
        (Kind::Disconnector, 0, Some(1), 2, "Süd/110kV/Q01 Löwen/QB1"),
        (Kind::Breaker, 1, Some(2), 2, "Süd/110kV/Q01 Löwen/QA1"),
        (Kind::Disconnector, 3, Some(4), 2, "Süd/110kV/Q01 Löwen/QB9"),
        (Kind::Earthing, 4, None, 2, "Süd/110kV/Q01 Löwen/QC9"),
        (Kind::Infeed, 5, None, 2, "Süd/110kV/Q01 Löwen/E1"),
        (Kind::Disconnector, 0, Some(6), 3, "Süd/110kV/Q02/QB1"),
        (Kind::Breaker, 6, Some(7), 3, "Süd/110kV/Q02/QA1"),
        (Kind::Breaker, 9, Some(10), 4, "Süd/20kV/K01/QA1"),
        (Kind::Infeed, 10, None, 4, "Süd/20kV/K01/G1"),
    ],
    links: &[
        (8, 9, false, 0),
        (2, 3, true, 2),
        (4, 5, true, 2),
        (7, 8, true, 3),
    ],
    taps: &[(8, 0), (9, 0), (5, 2), (10, 4), (10, 4), (10, 4)],
};
