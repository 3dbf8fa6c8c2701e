//! How many edges a walk may have.
use change_search::walk_limit;

// How many switches are walked, and how many edges each walk may have: up to 35 switches more than 8,000,000 would be
// theirs, and 512 have a 512th each.
const LIMITS: &[(u16, usize)] = &[
    (0, 8_000_000),
    (1, 8_000_000),
    (35, 8_000_000),
    (36, 7_777_777),
    (512, 546_875),
];

#[test]
fn walks_share_edges(rt: HostRuntime) {
    for (switches, edges) in LIMITS {
        assert!(rt; walk_limit(*switches) == *edges);
    }
}
