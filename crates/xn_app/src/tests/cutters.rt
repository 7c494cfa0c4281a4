// Searches with the three cutters.
use super::texts::{K5_CUT_GRAPH, K5_GRAPH, K33_GRAPH};
use super::*;
use xn_cut::{OnesCutter, OrderCutter, RoundCutter};
use xn_cutter::Cutter;

/// The graph K6.
const K6_GRAPH: &str = "graph [ \
    node [ id 0 ] node [ id 1 ] node [ id 2 ] node [ id 3 ] node [ id 4 ] node [ id 5 ] \
    edge [ source 0 target 1 ] edge [ source 0 target 2 ] edge [ source 0 target 3 ] \
    edge [ source 0 target 4 ] edge [ source 0 target 5 ] edge [ source 1 target 2 ] \
    edge [ source 1 target 3 ] edge [ source 1 target 4 ] edge [ source 1 target 5 ] \
    edge [ source 2 target 3 ] edge [ source 2 target 4 ] edge [ source 2 target 5 ] \
    edge [ source 3 target 4 ] edge [ source 3 target 5 ] edge [ source 4 target 5 ] \
    ]";

/// The graph of Petersen.
const PETERSEN_GRAPH: &str = "graph [ \
    node [ id 0 ] node [ id 1 ] node [ id 2 ] node [ id 3 ] node [ id 4 ] node [ id 5 ] node [ id 6 ] \
    node [ id 7 ] node [ id 8 ] node [ id 9 ] edge [ source 0 target 1 ] edge [ source 1 target 2 ] \
    edge [ source 2 target 3 ] edge [ source 3 target 4 ] edge [ source 4 target 0 ] \
    edge [ source 0 target 5 ] edge [ source 1 target 6 ] edge [ source 2 target 7 ] \
    edge [ source 3 target 8 ] edge [ source 4 target 9 ] edge [ source 5 target 7 ] \
    edge [ source 6 target 8 ] edge [ source 7 target 9 ] edge [ source 8 target 5 ] \
    edge [ source 9 target 6 ] \
    ]";

/// The graph K3,4.
const K34_GRAPH: &str = "graph [ \
    node [ id 0 ] node [ id 1 ] node [ id 2 ] node [ id 3 ] node [ id 4 ] node [ id 5 ] node [ id 6 ] \
    edge [ source 0 target 3 ] edge [ source 0 target 4 ] edge [ source 0 target 5 ] \
    edge [ source 0 target 6 ] edge [ source 1 target 3 ] edge [ source 1 target 4 ] \
    edge [ source 1 target 5 ] edge [ source 1 target 6 ] edge [ source 2 target 3 ] \
    edge [ source 2 target 4 ] edge [ source 2 target 5 ] edge [ source 2 target 6 ] \
    ]";

/// Two graphs K5 that share a node.
const TWO_K5_GRAPH: &str = "graph [ \
    node [ id 0 ] node [ id 1 ] node [ id 2 ] node [ id 3 ] node [ id 4 ] node [ id 5 ] node [ id 6 ] \
    node [ id 7 ] node [ id 8 ] edge [ source 0 target 1 ] edge [ source 0 target 2 ] \
    edge [ source 0 target 3 ] edge [ source 0 target 4 ] edge [ source 1 target 2 ] \
    edge [ source 1 target 3 ] edge [ source 1 target 4 ] edge [ source 2 target 3 ] \
    edge [ source 2 target 4 ] edge [ source 3 target 4 ] edge [ source 0 target 5 ] \
    edge [ source 0 target 6 ] edge [ source 0 target 7 ] edge [ source 0 target 8 ] \
    edge [ source 5 target 6 ] edge [ source 5 target 7 ] edge [ source 5 target 8 ] \
    edge [ source 6 target 7 ] edge [ source 6 target 8 ] edge [ source 7 target 8 ] \
    ]";

// What a search of the graph with the three cutters writes, and how it ends.
fn searched(alloc: Global, line: &str, graph: &str) -> Result<(String, Status), Fail> {
    let words = words_of(alloc, line)?;
    let mut cutters: Vec<Box<dyn Cutter>> = Vec::new(alloc);
    cutters.push(Box::new(alloc, OnesCutter::new())?)?;
    cutters.push(Box::new(alloc, RoundCutter::new())?)?;
    cutters.push(Box::new(alloc, OrderCutter::new())?)?;
    let mut input = MemInput::new(files_of(alloc, graph, "")?, 1000, Vec::new(alloc));
    let mut out = MemSink::new(alloc, 1_000_000, 1000, Vec::new(alloc))?;
    let status = top(alloc, &words, &mut input, &mut out, &mut cutters);
    let written = String::from_utf8(list_of_bytes(alloc, out.bytes())?)?;
    Ok((written, status))
}

// Whether a search of the graph is done, and `check` says so much of its answer.
fn finds(alloc: Global, line: &str, graph: &str, want: &str) -> Result<bool, Fail> {
    let (written, status) = searched(alloc, line, graph)?;
    let (verdict, _) = ended(alloc, "xnum check graph answer", graph, written.as_str())?;
    Ok(status == Status::Done && verdict.as_str() == want)
}

#[test]
fn graphs_with_one_crossing_are_solved_with_cutters(rt: HostRuntime) -> Result<(), Fail> {
    let alloc = rt.alloc();
    let line = "xnum solve graph --budget 300";
    assert!(rt; finds(alloc, line, K5_GRAPH, "accepted 1 1\n")?);
    let line = "xnum solve graph";
    assert!(rt; finds(alloc, line, K33_GRAPH, "accepted 1 1\n")?);
    assert!(rt; finds(alloc, line, K5_CUT_GRAPH, "accepted 1 1\n")?);
    Ok(())
}

#[test]
fn graphs_with_two_crossings_are_solved(rt: HostRuntime) -> Result<(), Fail> {
    let alloc = rt.alloc();
    let line = "xnum solve graph --budget 500";
    assert!(rt; finds(alloc, line, PETERSEN_GRAPH, "accepted 2 2\n")?);
    let line = "xnum solve graph";
    assert!(rt; finds(alloc, line, K34_GRAPH, "accepted 2 2\n")?);
    assert!(rt; finds(alloc, line, TWO_K5_GRAPH, "accepted 2 2\n")?);
    Ok(())
}

#[test]
fn k6_has_three_crossings(rt: HostRuntime) -> Result<(), Fail> {
    let line = "xnum solve graph --budget 2000";
    assert!(rt; finds(rt.alloc(), line, K6_GRAPH, "accepted 3 3\n")?);
    Ok(())
}
