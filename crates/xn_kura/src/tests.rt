ghost use Rattle.std.specs.Prelude.{◌≡◌, IfOk, length};

use super::*;
use std::alloc::{AllocError, Global};
use std::test::Fail;
use xn_graph::{Web, WebErr};
use xn_kinds::{Evidence, EvidenceFlaw, Paths};

const K5: [(u32, u32); 10] = [
    (0, 1),
    (0, 2),
    (0, 3),
    (0, 4),
    (1, 2),
    (1, 3),
    (1, 4),
    (2, 3),
    (2, 4),
    (3, 4),
];

const K4: [(u32, u32); 6] = [(0, 1), (0, 2), (0, 3), (1, 2), (1, 3), (2, 3)];

const K33: [(u32, u32); 9] = [
    (0, 3),
    (0, 4),
    (0, 5),
    (1, 3),
    (1, 4),
    (1, 5),
    (2, 3),
    (2, 4),
    (2, 5),
];

/// The paths of one segment each, but that the paths at some places are others.
fn paths_but(alloc: Global, count: u32, others: &[(u32, &[u32])]) -> Result<Paths, AllocError>
    ensures { IfOk result (λ paths. length paths ≡ count) }
{
    let mut lists = Vec::new(alloc);
    for s in 0..count {
        lists.push(path_at(alloc, s, others)?)?;
    }
    Ok(Paths::new(lists))
}

/// The path at a place: the other that is given for it, or one segment.
fn path_at(alloc: Global, place: u32, others: &[(u32, &[u32])]) -> Result<Vec<u32>, AllocError> {
    for (other, path) in others {
        if *other == place {
            return path.to_vec(alloc);
        }
    }
    [place].to_vec(alloc)
}

/// The web of these segments with more of them.
fn web_with(
    alloc: Global,
    nodes: u32,
    ends: &[(u32, u32)],
    more: &[(u32, u32)],
) -> Result<Result<Web, WebErr>, AllocError> {
    let mut all = ends.to_vec(alloc)?;
    all.extend_from_slice(more)?;
    Ok(Web::make(nodes, all))
}

#[test]
fn a_five_with_one_other_path(rt: HostRuntime) -> Result<(), Fail> {
    let web = web_with(
        rt.alloc(),
        6,
        &K5,
        &[(0, 2), (2, 1), (0, 5), (5, 1), (2, 5), (5, 3), (0, 0)],
    )?
    .expect(&rt, "a web");
    let mut marks = Marks::new(rt.alloc(), &web)?;
    let rows: [(u32, &[u32], Result<(), EvidenceFlaw>); 10] = [
        (0, &[0], Ok(())),
        (0, &[10, 11], Err(EvidenceFlaw::Inner(2))),
        (0, &[10], Err(EvidenceFlaw::Ends(0))),
        (0, &[12, 13], Ok(())),
        (7, &[14, 15], Ok(())),
        (0, &[16, 0], Err(EvidenceFlaw::Inner(0))),
        (0, &[17], Err(EvidenceFlaw::Broken(0))),
        (0, &[13], Err(EvidenceFlaw::Broken(0))),
        (0, &[], Err(EvidenceFlaw::Ends(0))),
        (0, &[1, 4], Err(EvidenceFlaw::Twice(1))),
    ];
    for (place, path, wanted) in rows {
        let paths = paths_but(rt.alloc(), 10, &[(place, path)])?;
        let evidence = Evidence::Five {
            branch: [0, 1, 2, 3, 4],
            paths,
        };
        assert!(rt; holds(&web, &evidence, &mut marks) == wanted);
    }
    Ok(())
}

#[test]
fn two_paths_that_share_an_inner_node(rt: HostRuntime) -> Result<(), Fail> {
    let web = web_with(rt.alloc(), 6, &K5, &[(0, 5), (5, 1), (2, 5), (5, 3)])?.expect(&rt, "a web");
    let mut marks = Marks::new(rt.alloc(), &web)?;
    let paths = paths_but(rt.alloc(), 10, &[(0, &[10, 11]), (7, &[12, 13])])?;
    let evidence = Evidence::Five {
        branch: [0, 1, 2, 3, 4],
        paths,
    };
    assert!(rt; holds(&web, &evidence, &mut marks) == Err(EvidenceFlaw::Inner(5)));
    Ok(())
}

#[test]
fn branch_nodes(rt: HostRuntime) -> Result<(), Fail> {
    let web = web_with(rt.alloc(), 6, &K33, &[])?.expect(&rt, "a web");
    let mut marks = Marks::new(rt.alloc(), &web)?;
    let rows = [
        ([0, 1, 2, 3, 4, 5], Ok(())),
        ([1, 0, 2, 3, 4, 5], Err(EvidenceFlaw::Broken(0))),
        ([0, 1, 2, 3, 4, 6], Err(EvidenceFlaw::Branch(5))),
        ([0, 1, 0, 3, 4, 4], Err(EvidenceFlaw::Branch(2))),
        ([0, 1, 2, 3, 5, 4], Err(EvidenceFlaw::Ends(1))),
    ];
    for (branch, wanted) in rows {
        let paths = paths_but(rt.alloc(), 9, &[])?;
        let evidence = Evidence::ThreeThree { branch, paths };
        assert!(rt; holds(&web, &evidence, &mut marks) == wanted);
    }
    Ok(())
}

/// The kind of the evidence that uses the whole web, if there is one that does.
fn kind_of(
    alloc: Global,
    nodes: u32,
    ends: &[(u32, u32)],
    more: &[(u32, u32)],
) -> Result<&'static str, AllocError> {
    let Ok(web) = web_with(alloc, nodes, ends, more)? else {
        return Ok("no web");
    };
    match find_kind(alloc, &web)? {
        Some(Evidence::Five { .. }) => Ok("five"),
        Some(Evidence::ThreeThree { .. }) => Ok("three against three"),
        _ => Ok("none"),
    }
}

#[test]
fn kinds(rt: HostRuntime) -> Result<(), Fail> {
    let alloc = rt.alloc();
    assert!(rt; kind_of(alloc, 5, &K5, &[])? == "five");
    assert!(rt; kind_of(alloc, 4, &K4, &[])? == "none");
    assert!(rt; kind_of(alloc, 6, &K33, &[])? == "three against three");
    assert!(rt; kind_of(alloc, 7, &K5[1..], &[(5, 0), (5, 1)])? == "five");
    assert!(rt; kind_of(alloc, 5, &K5, &[(0, 1)])? == "none");
    assert!(rt; kind_of(alloc, 6, &K5, &[(5, 5)])? == "none");
    Ok(())
}

/// Whether this is the Five of these branch nodes in which path number s is segment s alone.
fn is_plain_five(found: &Option<Evidence>, wanted: [u32; 5]) -> bool {
    match found {
        Some(Evidence::Five { branch, paths }) => {
            *branch == wanted && (0..paths.len()).all(|s| is_alone(paths.at(s), s))
        }
        _ => false,
    }
}

/// Whether this number stands alone in the list.
fn is_alone(list: &[u32], number: usize) -> bool {
    list.len() == 1 && list[0] as usize == number
}

#[test]
fn the_five_of_k5(rt: HostRuntime) -> Result<(), Fail> {
    let web = web_with(rt.alloc(), 5, &K5, &[])?.expect(&rt, "a web");
    let mut marks = Marks::new(rt.alloc(), &web)?;
    let plain = Evidence::Five {
        branch: [0, 1, 2, 3, 4],
        paths: paths_but(rt.alloc(), 10, &[])?,
    };
    assert!(rt; holds(&web, &plain, &mut marks) == Ok(()));
    let found = find_kind(rt.alloc(), &web)?;
    assert!(rt; is_plain_five(&found, [0, 1, 2, 3, 4]));
    Ok(())
}
