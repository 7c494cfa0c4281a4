use super::texts::{K4, K5, K5_AND_TWO, K5_AND_TWO_GRAPH, K5_GRAPH, K33, K33_GRAPH};
use super::*;

// Whether `check` of the graph and the text, in which one piece is another, writes this and ends so.
fn checks_so(
    alloc: Global,
    graph: &str,
    text: &str,
    changed: (&str, &str),
    want: &str,
    code: u8,
) -> Result<bool, Fail> {
    ends_so(
        alloc,
        "xnum check graph answer",
        graph,
        text,
        changed,
        want,
        code,
    )
}

// The answer for K5 and two far edges, with this tree.
fn branched(alloc: Global, tree: &str) -> Result<String, Fail> {
    let text = K5_AND_TWO.replacen(alloc, "row 12", "row 10", 1)?;
    let text = text.replacen(alloc, "over 10 1 11\nover 11 1 10\n", "", 1)?;
    let old = "pair 10 11\nleaf 1 1 0 9223372036854775807\nleaf 1 0\n";
    Ok(text.replacen(alloc, old, tree, 1)?)
}

#[test]
fn a_proof_of_k5_is_checked(rt: HostRuntime) -> Result<(), Fail> {
    let alloc = rt.alloc();
    assert!(rt; checks_so(alloc, K5_GRAPH, K5, ("", ""), "accepted 1 1\n", 0)?);
    let more = ("bounds 1 1", "bounds 2 1");
    assert!(rt; checks_so(alloc, K5_GRAPH, K5, more, "refused 63 weak 1 1\n", 1)?);
    let other_way = ("path 1 0", "path 1 1");
    let refused = "refused 61 row 0 evidence ends 0\n";
    assert!(rt; checks_so(alloc, K5_GRAPH, K5, other_way, refused, 1)?);
    Ok(())
}

#[test]
fn a_proof_of_k33_is_checked(rt: HostRuntime) -> Result<(), Fail> {
    let alloc = rt.alloc();
    assert!(rt; checks_so(alloc, K33_GRAPH, K33, ("", ""), "accepted 1 1\n", 0)?);
    let paths = "three 0 1 2 3 4 5\npath 1 0\npath 1 1\npath 1 2\npath 1 3\npath 1 4\npath 1 5\n\
        path 1 6\npath 1 7\npath 1 8\n";
    let list = (paths, "extension 9 0 1 2 3 4 5 6 7 8\n");
    assert!(rt; checks_so(alloc, K33_GRAPH, K33, list, "accepted 1 1\n", 0)?);
    Ok(())
}

#[test]
fn a_list_of_insertions_is_checked(rt: HostRuntime) -> Result<(), Fail> {
    let alloc = rt.alloc();
    let paths = "five 0 1 2 3 4\npath 1 0\npath 1 1\npath 1 2\npath 1 3\npath 1 4\npath 1 5\n\
        path 1 6\npath 1 7\npath 1 8\npath 1 9\n";
    let short = (paths, "extension 1 0\n");
    assert!(rt; checks_so(alloc, K5_GRAPH, K5, short, "refused 51 row 0 extends\n", 1)?);
    let whole = (paths, "extension 10 0 1 2 3 4 5 6 7 8 9\n");
    assert!(rt; checks_so(alloc, K5_GRAPH, K5, whole, "accepted 1 1\n", 0)?);
    Ok(())
}

#[test]
fn a_weak_leaf_is_refused(rt: HostRuntime) -> Result<(), Fail> {
    let alloc = rt.alloc();
    let graph = K5_AND_TWO_GRAPH;
    let refused = "refused 72 weak -322818021289917153210 0\n";
    assert!(rt; checks_so(alloc, graph, K5_AND_TWO, ("", ""), refused, 1)?);
    let larger = ("9223372036854775807", "9223372036854775808");
    assert!(rt; checks_so(alloc, graph, K5_AND_TWO, larger, "refused 72 number\n", 1)?);
    let one = ("9223372036854775807", "1");
    assert!(rt; checks_so(alloc, graph, K5_AND_TWO, one, "refused 72 weak 0 0\n", 1)?);
    Ok(())
}

#[test]
fn a_branched_proof_is_checked(rt: HostRuntime) -> Result<(), Fail> {
    let alloc = rt.alloc();
    let graph = K5_AND_TWO_GRAPH;
    let tree = "pair 10 11\nleaf 1 1 0 1\npair 0 10\nleaf 1 1 0 1\nplace 10 11\nplace 10 0\n\
        leaf 1 1 0 1\nleaf 1 1 0 1\n";
    let text = branched(alloc, tree)?;
    assert!(rt; checks_so(alloc, graph, text.as_str(), ("", ""), "accepted 1 1\n", 0)?);
    let short = ("leaf 1 1 0 1\nend", "end");
    assert!(rt; checks_so(alloc, graph, text.as_str(), short, "refused 76 tree 7\n", 1)?);
    let long = ("\nend\n", "\nend\nend\n");
    assert!(rt;
        checks_so(
            alloc,
            graph,
            text.as_str(),
            long,
            "refused 78 trailing\n",
            1
        )?
    );
    Ok(())
}

#[test]
fn an_answer_is_of_the_graph(rt: HostRuntime) -> Result<(), Fail> {
    let alloc = rt.alloc();
    let turned = ("edge 0 1", "edge 1 0");
    let with_loop = K5_GRAPH.replacen(alloc, "edge", "edge [ source 0 target 0 ] edge", 1)?;
    for line in ["xnum check graph answer", "xnum draw graph answer"] {
        let refused = "refused 2 size-differs\n";
        assert!(rt; ends_so(alloc, line, K5_GRAPH, K4, ("", ""), refused, 1)?);
        let refused = "refused 4 edge-differs 0\n";
        assert!(rt; ends_so(alloc, line, K5_GRAPH, K5, turned, refused, 1)?);
        let refused = "refused 3 size-differs\n";
        assert!(rt; ends_so(alloc, line, with_loop.as_str(), K5, ("", ""), refused, 1)?);
    }
    Ok(())
}

#[test]
fn a_touching_crossing_is_refused_by_check(rt: HostRuntime) -> Result<(), Fail> {
    let alloc = rt.alloc();
    let text = K5.replacen(alloc, "6 22\nturn 21 14", "6 21\nturn 1 14", 1)?;
    let last = ("turn 13 1", "turn 13 22");
    let refused = "refused 38 touch 0 9\n";
    assert!(rt; checks_so(alloc, K5_GRAPH, text.as_str(), last, refused, 1)?);
    Ok(())
}
