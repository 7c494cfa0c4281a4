//! Walks through stated trees over three edges apart from each other.
use super::*;
use xn_kinds::Node;

/// Whether the nodes are a tree and none is left. A node is a kind and two edges.
fn is_tree(alloc: Global, nodes: &[(char, u32, u32)]) -> Result<bool, Fail> {
    let graph = Graph::make(6, [(0, 1), (2, 3), (4, 5)].to_vec(alloc)?)?;
    let mut walk = TreeWalk::new(alloc, &graph)?;
    for (kind, e, f) in nodes {
        let node = match *kind {
            'p' => Node::Pair(*e, *f),
            'i' => Node::Place(*e, *f),
            _ => Node::Leaf {
                d: 1,
                parts: Sequence::new(Vec::new(alloc)),
            },
        };
        if !walk.open(&node)? {
            return Ok(false);
        }
    }
    Ok(walk.is_finished())
}

#[test]
fn a_place_has_a_child_for_each_position(rt: HostRuntime) -> Result<(), Fail> {
    let nodes = [
        ('p', 0, 1),
        ('l', 0, 0),
        ('p', 0, 2),
        ('l', 0, 0),
        ('i', 0, 1),
        ('i', 0, 2),
        ('l', 0, 0),
        ('l', 0, 0),
    ];
    assert!(rt; is_tree(rt.alloc(), &nodes)?);
    assert!(rt; !is_tree(rt.alloc(), &nodes[..7])?);
    assert!(rt; !is_tree(rt.alloc(), &nodes[..4])?);
    Ok(())
}

#[test]
fn only_a_crossing_edge_is_placed(rt: HostRuntime) -> Result<(), Fail> {
    assert!(rt; !is_tree(rt.alloc(), &[('i', 0, 1), ('l', 0, 0)])?);
    assert!(rt; !is_tree(rt.alloc(), &[('p', 1, 0), ('l', 0, 0), ('l', 0, 0)])?);
    assert!(rt; is_tree(rt.alloc(), &[('l', 0, 0)])?);
    Ok(())
}
