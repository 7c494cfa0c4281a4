use super::*;
use std::alloc::{AllocError, Global};
use std::test::Fail;
use xn_graph::Graph;
use xn_list::Sequence;

/// Lists of one number each.
fn singles(alloc: Global, numbers: &[u32]) -> Result<Vec<Vec<u32>>, AllocError> {
    let mut lists = Vec::new(alloc);
    for number in numbers {
        lists.push([*number].to_vec(alloc)?)?;
    }
    Ok(lists)
}

/// The numbers below ten: the edges of K5, and the segments of its web.
const TEN: [u32; 10] = [0, 1, 2, 3, 4, 5, 6, 7, 8, 9];

#[test]
fn drawings_are_copied(rt: HostRuntime) -> Result<(), Fail> {
    let orders = Orders::new(singles(rt.alloc(), &[9, 0])?);
    let next = Sequence::new([6, 22, 21, 14].to_vec(rt.alloc())?);
    let copy = Drawing { orders, next }.copy(rt.alloc())?;
    assert_eq!(rt; copy.orders.len(), 2);
    assert_eq!(rt; copy.orders.at(0), [9].as_slice());
    assert_eq!(rt; copy.next.as_slice(), [6, 22, 21, 14].as_slice());
    Ok(())
}

#[test]
fn rows_are_copied(rt: HostRuntime) -> Result<(), Fail> {
    let edges = Sequence::new(TEN.to_vec(rt.alloc())?);
    let orders = Orders::new(Vec::new(rt.alloc()));
    let evidence = Evidence::Five {
        branch: [0, 1, 2, 3, 4],
        paths: Paths::new(singles(rt.alloc(), &TEN)?),
    };
    let copy = Row {
        edges,
        orders,
        evidence,
    }
    .copy(rt.alloc())?;
    assert_eq!(rt; copy.edges.as_slice(), TEN.as_slice());
    if let Evidence::Five { branch, paths } = &copy.evidence {
        assert_eq!(rt; branch.as_slice(), [0, 1, 2, 3, 4].as_slice());
        assert_eq!(rt; paths.len(), 10);
        assert_eq!(rt; paths.at(9), [9].as_slice());
        return Ok(());
    }
    Err("another kind of evidence")?
}

#[test]
fn three_against_three_is_copied(rt: HostRuntime) -> Result<(), Fail> {
    let three = Evidence::ThreeThree {
        branch: [0, 1, 2, 3, 4, 5],
        paths: Paths::new(singles(rt.alloc(), &[7, 8])?),
    };
    let copy = three.copy(rt.alloc())?;
    if let Evidence::ThreeThree { branch, paths } = &copy {
        assert_eq!(rt; branch.as_slice(), [0, 1, 2, 3, 4, 5].as_slice());
        assert_eq!(rt; paths.len(), 2);
        assert_eq!(rt; paths.at(1), [8].as_slice());
        return Ok(());
    }
    Err("another kind of evidence")?
}

#[test]
fn an_extension_is_copied(rt: HostRuntime) -> Result<(), Fail> {
    let list = Sequence::new([4, 2].to_vec(rt.alloc())?);
    let copy = Evidence::Extension { list }.copy(rt.alloc())?;
    if let Evidence::Extension { list } = &copy {
        assert_eq!(rt; list.as_slice(), [4, 2].as_slice());
        return Ok(());
    }
    Err("another kind of evidence")?
}

#[test]
fn orders_grow(rt: HostRuntime) -> Result<(), Fail> {
    let mut orders = Orders::new(Vec::new(rt.alloc()));
    orders.push([9].to_vec(rt.alloc())?)?;
    orders.push(Vec::new(rt.alloc()))?;
    assert_eq!(rt; orders.len(), 2);
    assert_eq!(rt; orders.at(0), [9].as_slice());
    Ok(())
}

#[test]
fn each_node_is_copied(rt: HostRuntime) -> Result<(), Fail> {
    let pair = Node::Pair(10, 11).copy(rt.alloc())?;
    assert!(rt; matches!(&pair, Node::Pair(10, 11)));
    let place = Node::Place(10, 11).copy(rt.alloc())?;
    assert!(rt; matches!(&place, Node::Place(10, 11)));
    Ok(())
}

#[test]
fn trees_are_copied(rt: HostRuntime) -> Result<(), Fail> {
    let parts = Sequence::new([(0, 1)].to_vec(rt.alloc())?);
    let tree = Tree::new(vec![in rt.alloc(); Node::Pair(10, 11), Node::Leaf { d: 1, parts }]?);
    let copy = tree.copy(rt.alloc())?;
    assert_eq!(rt; copy.len(), 2);
    assert!(rt; matches!(copy.at(0), Node::Pair(10, 11)));
    if let Node::Leaf { d: 1, parts } = copy.at(1) {
        assert_eq!(rt; parts.as_slice(), [(0, 1)].as_slice());
        return Ok(());
    }
    Err("another kind of node")?
}

#[test]
fn answers_are_copied(rt: HostRuntime) -> Result<(), Fail> {
    let Ok(graph) = Graph::make(2, [(0, 1)].to_vec(rt.alloc())?) else {
        return Err("no graph")?;
    };
    let orders = Orders::new(Vec::new(rt.alloc()));
    let next = Sequence::new([0, 1].to_vec(rt.alloc())?);
    let copy = Answer {
        graph,
        loops: 3,
        lower: 1,
        upper: 2,
        spent: 4,
        budget: 5,
        drawing: Drawing { orders, next },
        rows: Sequence::new(Vec::new(rt.alloc())),
        tree: Tree::new(vec![in rt.alloc(); Node::Pair(10, 11)]?),
    }
    .copy(rt.alloc())?;
    assert_eq!(rt; copy.graph.edges(), 1);
    assert_eq!(rt; copy.upper, 2);
    assert_eq!(rt; copy.drawing.next.as_slice(), [0, 1].as_slice());
    assert_eq!(rt; copy.rows.len(), 0);
    assert_eq!(rt; copy.tree.len(), 1);
    Ok(())
}
