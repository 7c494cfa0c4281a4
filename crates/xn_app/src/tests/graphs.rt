use super::*;
use xn_gml::GmlErr;

const TWO_NODES: &str = "graph [ node [ id 4 ] node [ id 9 ] edge [ source 4 target 9 ] ]";

const ONE_EDGE: &str = "crossing-answer 1\n\
    graph 2 1\n\
    loops 0\n\
    edge 0 1\n\
    bounds 0 0\n\
    effort 0 10000\n\
    along 0\n\
    turn 0 1\n\
    drawn\n\
    rows 0\n\
    tree\n\
    leaf 1 0\n\
    end\n";

const SHOWN: &str = "graph [\n  directed 0\n\
    \x20 node [ id 0 label \"4\" kind \"input\" turn \"0\" ]\n\
    \x20 node [ id 1 label \"9\" kind \"input\" turn \"1\" ]\n\
    \x20 edge [ id 0 source 0 target 1 of 0 ]\n\
    ]\n";

// Whether `draw` of the graph's text ends so, with nothing written.
fn is_refused(alloc: Global, graph: &str, want: Status) -> Result<bool, Fail> {
    let (written, status) = ended(alloc, "xnum draw graph answer", graph, ONE_EDGE)?;
    Ok(written.as_str() == "" && status == want)
}

// A text, then another one so many times, then a last one.
fn repeated(
    alloc: Global,
    first: &str,
    middle: &str,
    count: u32,
    last: &str,
) -> Result<String, Fail> {
    let mut text = String::from_str(alloc, first)?;
    for _ in 0..count {
        text.push_str(middle)?;
    }
    text.push_str(last)?;
    Ok(text)
}

#[test]
fn two_nodes_and_an_edge_are_shown(rt: HostRuntime) -> Result<(), Fail> {
    let alloc = rt.alloc();
    let line = "xnum draw graph answer";
    assert!(rt; ends_so(alloc, line, TWO_NODES, ONE_EDGE, ("", ""), SHOWN, 0)?);
    Ok(())
}

#[test]
fn texts_without_a_graph_are_refused(rt: HostRuntime) -> Result<(), Fail> {
    let alloc = rt.alloc();
    let text = "graph [ node [ id 1 label \"ab";
    assert!(rt; is_refused(alloc, text, Status::Graph(GmlErr::Syntax(29)))?);
    let text = "graph [ node [ id ] ]";
    assert!(rt; is_refused(alloc, text, Status::Graph(GmlErr::Syntax(18)))?);
    let text = "graph [ node [ id 1 ] edge [ source 1 target 2 ] ]";
    assert!(rt; is_refused(alloc, text, Status::Graph(GmlErr::Unknown(45)))?);
    let text = "graph [ node [ label \"a\" ] ]";
    assert!(rt; is_refused(alloc, text, Status::Graph(GmlErr::NoId(13)))?);
    let text = "graph [ node [ id 1 ] node [ id 1 ] ]";
    assert!(rt; is_refused(alloc, text, Status::Graph(GmlErr::Repeated(32)))?);
    let text = "graph [ node [ id 1.5 ] ]";
    assert!(rt; is_refused(alloc, text, Status::Graph(GmlErr::Range(18)))?);
    let text = "graph [ ] graph [ ]";
    assert!(rt; is_refused(alloc, text, Status::Graph(GmlErr::SecondGraph(10)))?);
    assert!(rt; is_refused(alloc, "", Status::Graph(GmlErr::NoGraph))?);
    Ok(())
}

#[test]
fn deep_and_large_graphs_are_refused(rt: HostRuntime) -> Result<(), Fail> {
    let alloc = rt.alloc();
    let text = repeated(alloc, "graph [ ", "a [ ", 64, "")?;
    assert!(rt; is_refused(alloc, text.as_str(), Status::Graph(GmlErr::Deep(262)))?);
    let mut text = String::from_str(alloc, "graph [ ")?;
    for id in 0..1001 {
        text.push_str(format!(in alloc; "node [ id {id} ] ")?.as_str())?;
    }
    text.push_str("]")?;
    assert!(rt; is_refused(alloc, text.as_str(), Status::Limit(Limit::Nodes))?);
    let nodes = "graph [ node [ id 4 ] node [ id 9 ] ";
    let text = repeated(alloc, nodes, "edge [ source 4 target 9 ] ", 1001, "]")?;
    assert!(rt; is_refused(alloc, text.as_str(), Status::Limit(Limit::Edges))?);
    Ok(())
}
