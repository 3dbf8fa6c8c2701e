//! The words of a command.

// The commands, each with how many words follow its name: at least, and at most.
pub(crate) const ROWS: [(&str, usize, usize); 18] = [
    // STATION POSITIONS
    ("check", 2, 2),
    // STATION
    ("compile", 1, 1),
    // STATION
    ("plan", 1, 1),
    // STATION, or STATION BAY
    ("program", 1, 2),
    // STATION LOG
    ("replay", 2, 2),
    // STATION POSITIONS, or STATION POSITIONS open SWITCH, or close
    ("explain", 2, 4),
    // STATION POSITIONS open SWITCH, or close
    ("why", 4, 4),
    // STATION POSITIONS
    ("state", 2, 2),
    // STATION BAY
    ("node", 2, 2),
    // NUMBER station, or positions, or log
    ("make", 2, 2),
    // NUMBER
    ("work", 1, 1),
    // STATION LOG
    ("trips", 2, 2),
    // STATION EQUATIONS
    ("audit", 2, 2),
    // STATION POSITIONS ORDER
    ("order", 3, 3),
    // STATION BAY FILE
    ("stored", 3, 3),
    // STATION
    ("station", 1, 1),
    // OLD NEW
    ("compare", 2, 2),
    // STATION, or STATION BAY
    ("tests", 1, 2),
];

/// The words of a command that are of the written form.
#[derive(Drop)]
pub struct Row<'a> {
    /// the name of the command
    pub name: &'a str,
    /// the words after it, in order
    pub words: Vec<&'a str>,
}
