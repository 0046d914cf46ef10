ghost use Rattle.std.specs.Prelude.{◌≡◌};

use crate::{Bipartite, Edge, EdgeList};
use std::test::Fail;

// The fundamental graph of the Fano plane's basis 0, 1, 2.
const FANO: [Edge; 9] = [
    Edge { row: 0, col: 3 },
    Edge { row: 0, col: 4 },
    Edge { row: 0, col: 6 },
    Edge { row: 1, col: 3 },
    Edge { row: 1, col: 5 },
    Edge { row: 1, col: 6 },
    Edge { row: 2, col: 4 },
    Edge { row: 2, col: 5 },
    Edge { row: 2, col: 6 },
];

const FOREST: [Edge; 6] = [
    Edge { row: 0, col: 3 },
    Edge { row: 0, col: 4 },
    Edge { row: 0, col: 6 },
    Edge { row: 1, col: 3 },
    Edge { row: 1, col: 5 },
    Edge { row: 2, col: 4 },
];

fn fano() -> Bipartite
    ensures size { (result.rows ≡ 3) × (result.cols ≡ 7) }
{
    let mut graph = Bipartite::new(3, 7);
    for edge in FANO {
        if edge.row < 3 && edge.col < 7 {
            graph.add(edge);
        }
    }
    graph
}

#[test]
fn the_fano_planes_forest_has_six_edges(rt: HostRuntime) -> Result<(), Fail> {
    let graph = fano();
    let forest = graph.first_forest(rt.alloc())?;
    assert_eq!(rt; forest.as_slice(), FOREST.as_slice());
    Ok(())
}

#[test]
fn the_fano_planes_forest_is_in_order_already(rt: HostRuntime) -> Result<(), Fail> {
    let graph = fano();
    let forest = graph.first_forest(rt.alloc())?;
    let order = graph.forest_order(rt.alloc(), &forest)?;
    assert_eq!(rt; order.as_slice(), FOREST.as_slice());
    Ok(())
}

#[test]
fn the_columns_of_a_basis_are_components_of_their_own(rt: HostRuntime) -> Result<(), Fail> {
    let components = fano().components(rt.alloc())?;
    assert_eq!(rt; components.rows.as_slice(), [0, 0, 0].as_slice());
    assert_eq!(rt;
        components.cols.as_slice(),
        [1, 2, 3, 0, 0, 0, 0].as_slice()
    );
    assert_eq!(rt; components.count, 4);
    Ok(())
}

// Two rows that a third one joins: its second edge comes last in the forest's own order.
#[test]
fn an_edge_waits_until_one_end_is_touched(rt: HostRuntime) -> Result<(), Fail> {
    let mut graph = Bipartite::new(3, 2);
    graph.add(Edge { row: 0, col: 0 });
    graph.add(Edge { row: 1, col: 1 });
    graph.add(Edge { row: 2, col: 0 });
    graph.add(Edge { row: 2, col: 1 });
    let forest = graph.first_forest(rt.alloc())?;
    let order = graph.forest_order(rt.alloc(), &forest)?;
    let expected = [
        Edge { row: 0, col: 0 },
        Edge { row: 2, col: 0 },
        Edge { row: 2, col: 1 },
        Edge { row: 1, col: 1 },
    ];
    assert_eq!(rt; order.as_slice(), expected.as_slice());
    Ok(())
}

#[test]
fn a_list_has_its_edges_in_the_order_of_pushing(rt: HostRuntime) -> Result<(), Fail> {
    let mut edges = EdgeList::new(rt.alloc());
    for edge in FOREST {
        edges.push(edge)?;
    }
    assert_eq!(rt; edges.as_slice(), FOREST.as_slice());
    Ok(())
}
