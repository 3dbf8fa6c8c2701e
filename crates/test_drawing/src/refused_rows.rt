//! Texts, and what each is refused with.

pub(crate) const P: &str = r#"<SCL><Substation name="S"><VoltageLevel name="V"><Bay name="Q">"#;

pub(crate) const N: &str = r#"<ConnectivityNode name="a"/>"#;

pub(crate) const CBR: &str = r#"<ConductingEquipment name="E" type="CBR">"#;

pub(crate) const DIS: &str = r#"<ConductingEquipment name="E" type="DIS">"#;

pub(crate) const IFL: &str = r#"<ConductingEquipment name="E" type="IFL">"#;

pub(crate) const A: &str = r#"<Terminal connectivityNode="S/V/Q/a" cNodeName="a"/>"#;

pub(crate) const B: &str = r#"<Terminal connectivityNode="S/V/Q/b" cNodeName="b"/>"#;

pub(crate) const EARTH: &str =
    r#"<Terminal connectivityNode="S/V/Q/grounded" cNodeName="grounded"/>"#;

pub(crate) const E: &str = "</ConductingEquipment>";

pub(crate) const Z: &str = "</Bay></VoltageLevel></Substation></SCL>";

// A text in pieces, and the number, the place and the count with which it is refused, or 0.
pub(crate) type Row = (&'static [&'static str], (u8, u32, u32));

// Each refusal of a text, and those of names.
pub(crate) const REFUSED: &[Row] = &[
    (&[], (2, 0, 0)),
    (&["<SCL><Substation name=\"S\""], (2, 5, 0)),
    (&["<SCL><Substation name=\"S\">"], (6, 5, 0)),
    (&["<!DOCTYPE SCL><SCL/>"], (3, 0, 0)),
    (&["<SCL></SLC>"], (5, 5, 0)),
    (&["<A/>"], (8, 0, 0)),
    (&["<SCL><Substation/></SCL>"], (9, 5, 0)),
    (
        &["<SCL><Substation name=\"S\"/><Substation name=\"S\"/></SCL>"],
        (10, 27, 0),
    ),
    (&[P, N, IFL, B, E, Z], (11, 132, 0)),
    (&[P, N, DIS, A, E, Z], (12, 91, 1)),
    (&[P, N, CBR, A, EARTH, E, Z], (13, 91, 0)),
    (&[P, N, CBR, A, A, E, Z], (14, 91, 0)),
    // the empty station, and prefixes
    (&["<SCL/>"], (0, 0, 0)),
    (
        &[
            "<a:SCL xmlns:a=\"urn:a\"><a:Substation name=\"S\"/><Substation/><b:Substation/></a:SCL>",
        ],
        (0, 0, 0),
    ),
    (&["<a:SCL><a:Substation/></a:SCL>"], (9, 7, 0)),
    (&["<a:SLC/>"], (8, 0, 0)),
    (&["<:SCL><Substation/></:SCL>"], (0, 0, 0)),
    (&["<:SCL><:Substation/></:SCL>"], (9, 6, 0)),
    // names
    (&["<SCL><Substation name=\"\"/></SCL>"], (9, 5, 0)),
    (&["<SCL><Substation name=\"a&#31;\"/></SCL>"], (9, 5, 0)),
    (&["<SCL><Substation name=\"a&#x7F;\"/></SCL>"], (9, 5, 0)),
    (&["<SCL><Substation name=\"&#128;\"/></SCL>"], (0, 0, 0)),
    (&["<SCL><Substation x:name=\"S\"/></SCL>"], (9, 5, 0)),
    (
        &[P, N, "<ConductingEquipment name=\"E\">", A, E, Z],
        (9, 91, 0),
    ),
    (
        &[P, N, "<ConductingEquipment name=\"E\" type=\"\">", A, E, Z],
        (0, 0, 0),
    ),
];

// Those of keys, and of which of two is told.
pub(crate) const REFUSED_KEYS: &[Row] = &[
    // two of one path or one key; a bay and a transformer are of one kind
    (
        &[
            P,
            "</Bay><PowerTransformer name=\"Q\"/></VoltageLevel></Substation></SCL>",
        ],
        (10, 69, 0),
    ),
    (&[P, N, N, Z], (10, 91, 0)),
    (
        &[
            P,
            "<ConnectivityNode name=\"a\" pathName=\"k\"/><ConnectivityNode name=\"b\" pathName=\"k\"/>",
            Z,
        ],
        (10, 104, 0),
    ),
    (
        &[
            P,
            "<ConnectivityNode name=\"grounded\"/><ConnectivityNode name=\"grounded\"/>",
            Z,
        ],
        (0, 0, 0),
    ),
    // the key is the path name where there is one, also an empty one
    (
        &[
            P,
            "<ConnectivityNode name=\"a\" pathName=\"k\"/>",
            IFL,
            A,
            E,
            Z,
        ],
        (11, 145, 0),
    ),
    (
        &[
            P,
            "<ConnectivityNode name=\"a\" pathName=\"\"/>",
            IFL,
            "<Terminal connectivityNode=\"\"/>",
            E,
            Z,
        ],
        (0, 0, 0),
    ),
    // the four names, where there is no key
    (
        &[
            P,
            N,
            IFL,
            "<Terminal substationName=\"S\" voltageLevelName=\"V\" bayName=\"Q\" cNodeName=\"a\"/>",
            E,
            Z,
        ],
        (0, 0, 0),
    ),
    (
        &[
            P,
            N,
            IFL,
            "<Terminal substationName=\"S\" voltageLevelName=\"V\" cNodeName=\"a\"/>",
            E,
            Z,
        ],
        (11, 132, 0),
    ),
    // grounded by its last name, whatever its key
    (
        &[
            P,
            N,
            IFL,
            "<Terminal connectivityNode=\"S/V/Q/a\" cNodeName=\"grounded\"/>",
            E,
            Z,
        ],
        (12, 91, 0),
    ),
    (&[P, N, IFL, A, EARTH, E, Z], (0, 0, 0)),
    // 13 before 14, and 10 before what stands earlier with 11
    (&[P, N, DIS, EARTH, EARTH, E, Z], (13, 91, 0)),
    (&[P, IFL, B, E, IFL, E, Z], (10, 178, 0)),
    (
        &[
            P,
            "<PowerTransformer name=\"T\"><TransformerWinding>",
            B,
            "</TransformerWinding></PowerTransformer>",
            Z,
        ],
        (11, 110, 0),
    ),
];
