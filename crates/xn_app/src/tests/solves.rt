use super::texts::{K5_CUT_GRAPH, K5_GRAPH, K33_GRAPH};
use super::*;

/// The graph K4.
const K4_GRAPH: &str = "graph [ \
    node [ id 0 ] \
    node [ id 1 ] \
    node [ id 2 ] \
    node [ id 3 ] \
    edge [ source 0 target 1 ] \
    edge [ source 0 target 2 ] \
    edge [ source 0 target 3 ] \
    edge [ source 1 target 2 ] \
    edge [ source 1 target 3 ] \
    edge [ source 2 target 3 ] \
    ]";

// Whether the command ends with this code and writes an answer with this line, of which `check` says so much.
fn solves_so(
    alloc: Global,
    line: &str,
    graph: &str,
    code: u8,
    part: &str,
    want: &str,
) -> Result<bool, Fail> {
    let (written, status) = ended(alloc, line, graph, "")?;
    let (verdict, _) = ended(alloc, "xnum check graph answer", graph, written.as_str())?;
    Ok(status.code() == code && written.as_str().contains(part) && verdict.as_str() == want)
}

#[test]
fn an_empty_graph_is_solved(rt: HostRuntime) -> Result<(), Fail> {
    let text = "crossing-answer 1\n\
        graph 0 0\n\
        loops 0\n\
        bounds 0 0\n\
        effort 0 10000\n\
        drawn\n\
        rows 0\n\
        tree\n\
        leaf 1 0\n\
        end\n";
    let (written, status) = ended(rt.alloc(), "xnum solve graph", "graph [ ]", "")?;
    assert_eq!(rt; written.as_str(), text);
    assert_eq!(rt; status, Status::Done);
    Ok(())
}

#[test]
fn graphs_without_a_crossing_are_solved(rt: HostRuntime) -> Result<(), Fail> {
    let alloc = rt.alloc();
    let line = "xnum solve graph";
    assert!(rt;
        solves_so(
            alloc,
            line,
            K4_GRAPH,
            0,
            "\neffort 0 10000\n",
            "accepted 0 0\n"
        )?
    );
    let line = "xnum solve graph --budget 0";
    assert!(rt; solves_so(alloc, line, K4_GRAPH, 0, "\neffort 0 0\n", "accepted 0 0\n")?);
    Ok(())
}

#[test]
fn graphs_with_one_crossing_are_solved(rt: HostRuntime) -> Result<(), Fail> {
    let alloc = rt.alloc();
    let line = "xnum solve graph --budget 300";
    assert!(rt; solves_so(alloc, line, K5_GRAPH, 0, "\nbounds 1 1\n", "accepted 1 1\n")?);
    let line = "xnum solve graph --budget 82208";
    assert!(rt; solves_so(alloc, line, K5_GRAPH, 0, "\nbounds 1 1\n", "accepted 1 1\n")?);
    let line = "xnum solve graph";
    assert!(rt;
        solves_so(
            alloc,
            line,
            K33_GRAPH,
            0,
            "\nbounds 1 1\n",
            "accepted 1 1\n"
        )?
    );
    assert!(rt;
        solves_so(
            alloc,
            line,
            K5_CUT_GRAPH,
            0,
            "\nbounds 1 1\n",
            "accepted 1 1\n"
        )?
    );
    Ok(())
}

#[test]
fn parallel_edges_and_loops_are_solved(rt: HostRuntime) -> Result<(), Fail> {
    let alloc = rt.alloc();
    let last = "source 2 target 5 ]";
    let more = "source 2 target 5 ] edge [ source 0 target 3 ] edge [ source 0 target 0 ]";
    let graph = K33_GRAPH.replacen(alloc, last, more, 1)?;
    let line = "xnum solve graph";
    let bounds = "\nbounds 1 1\n";
    assert!(rt; solves_so(alloc, line, graph.as_str(), 0, bounds, "accepted 1 1\n")?);
    Ok(())
}

#[test]
fn a_spent_budget_leaves_k5_undecided(rt: HostRuntime) -> Result<(), Fail> {
    let alloc = rt.alloc();
    let line = "xnum solve graph --budget 0";
    assert!(rt; solves_so(alloc, line, K5_GRAPH, 5, "\neffort 0 0\n", "accepted 0 1\n")?);
    let (_, status) = ended(alloc, line, K5_GRAPH, "")?;
    let undecided = Status::Undecided {
        lower: 0,
        upper: 1,
        spent: 0,
    };
    assert_eq!(rt; status, undecided);
    Ok(())
}

#[test]
fn a_text_without_a_graph_is_not_solved(rt: HostRuntime) -> Result<(), Fail> {
    let (written, status) = ended(rt.alloc(), "xnum solve graph", "", "")?;
    assert_eq!(rt; written.as_str(), "");
    assert_eq!(rt; status.code(), 3);
    Ok(())
}
