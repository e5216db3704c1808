//! Graphs by hand, by ranks and by walks.
use crate::by_walks::redundant_by_walks;
use crate::{are_within, redundant_edges};
use std::alloc::{AllocError, Global};
use std::test::Fail;

/// The flags of a graph as the crate gives them, and by walks alone.
fn flags_of(
    alloc: Global,
    node_count: u32,
    edges: &[(u32, u32)],
) -> Result<(Vec<bool>, Vec<bool>), AllocError> {
    if !are_within(node_count, edges) || edges.len() > 100 {
        return Err(AllocError);
    }
    let flags = redundant_edges(alloc, node_count, edges)?;
    let by_walks = redundant_by_walks(alloc, node_count, edges)?;
    Ok((flags, by_walks))
}

/// The count of nodes, the edges, and the places of those that are redundant.
#[test]
fn graphs_by_hand(rt: HostRuntime) -> Result<(), Fail> {
    for (graph, node_count, edges, wanted) in [
        ("no edges", 3, [].as_slice(), [].as_slice()),
        ("a loop", 1, [(0, 0)].as_slice(), [true].as_slice()),
        (
            "a double edge",
            2,
            [(0, 1), (0, 1)].as_slice(),
            [false, false].as_slice(),
        ),
        (
            "a triangle",
            3,
            [(0, 1), (1, 2), (0, 2), (0, 2)].as_slice(),
            [false, false, true, true].as_slice(),
        ),
        (
            "a diamond",
            4,
            [(0, 1), (0, 2), (1, 3), (2, 3), (0, 3)].as_slice(),
            [false, false, false, false, true].as_slice(),
        ),
        (
            "a member of the cycle alone is between",
            3,
            [(0, 1), (1, 0), (0, 2), (1, 2)].as_slice(),
            [false, false, false, false].as_slice(),
        ),
        (
            "a chord of a cycle",
            3,
            [(0, 1), (1, 2), (2, 0), (0, 2)].as_slice(),
            [false, false, false, false].as_slice(),
        ),
        (
            "a cycle above one and below another",
            4,
            [(0, 1), (1, 2), (2, 1), (0, 2), (1, 3), (0, 3)].as_slice(),
            [false, false, false, false, false, true].as_slice(),
        ),
        (
            "two cycles with edges between",
            4,
            [(0, 1), (1, 0), (2, 3), (3, 2), (1, 2), (0, 3)].as_slice(),
            [false, false, false, false, false, false].as_slice(),
        ),
        (
            "three cycles in a row",
            6,
            [
                (0, 1),
                (1, 0),
                (2, 3),
                (3, 2),
                (4, 5),
                (5, 4),
                (1, 2),
                (3, 4),
                (0, 5),
            ]
            .as_slice(),
            [false, false, false, false, false, false, false, false, true].as_slice(),
        ),
    ] {
        let (flags, by_walks) = flags_of(rt.alloc(), node_count, edges)?;
        assert_eq!(rt; flags.as_slice(), wanted, "{graph}");
        assert_eq!(rt; by_walks.as_slice(), wanted, "{graph} by walks");
    }
    Ok(())
}
