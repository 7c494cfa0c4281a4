use super::*;
use std::alloc::Global;
use std::test::Fail;

/// Why a text has no graph.
fn refusal(alloc: Global, text: &str) -> Result<GmlErr, Fail> {
    Ok(
        read_graph(alloc, text.as_bytes())
            .err()
            .ok_or("a graph was read")?,
    )
}

/// The numbers of nodes, edges and loops of the graph of a text.
fn sizes(alloc: Global, text: &[u8]) -> Result<(u32, u32, u64), Fail> {
    let read = read_graph(alloc, text)?;
    Ok((read.graph.nodes(), read.graph.edges(), read.loops))
}

/// A text, then another one so many times, then a last one.
fn repeated(
    alloc: Global,
    first: &str,
    middle: &str,
    count: u32,
    last: &str,
) -> Result<String, Fail> {
    let mut text = String::new(alloc);
    text.push_str(first)?;
    for _ in 0..count {
        text.push_str(middle)?;
    }
    text.push_str(last)?;
    Ok(text)
}

/// The text of a graph of so many nodes with ids from 0 on, then a last piece.
fn nodes(alloc: Global, count: u32, last: &str) -> Result<String, Fail> {
    let mut text = String::new(alloc);
    text.push_str("graph [ ")?;
    for id in 0..count {
        text.push_str(format!(in alloc; "node [ id {id} ] ")?.as_str())?;
    }
    text.push_str(last)?;
    Ok(text)
}

#[test]
fn an_edge_may_come_before_its_nodes(rt: HostRuntime) -> Result<(), Fail> {
    let text = "Creator \"yFiles\"
Version \"2.17\"
# made for a test
graph
[
  hierarchic 1
  label \"\"
  directed 1
  edge
  [
    source 7
    target 3
    graphics [ fill \"#000000\" targetArrow \"standard\" ]
  ]
  node
  [
    id 3
    label \"a [ b\"
    graphics [ x 10.5 y -2.0E1 w 30.0 type \"rectangle\" ]
  ]
  node
  [
    id 7
    LabelGraphics [ text \"7\" fontSize 12 ]
  ]
]
";
    let read = read_graph(rt.alloc(), text.as_bytes())?;
    assert_eq!(rt; read.graph.nodes(), 2);
    assert_eq!(rt; read.graph.edges(), 1);
    assert_eq!(rt; read.graph.end(0), (1, 0));
    assert_eq!(rt; read.loops, 0);
    assert_eq!(rt; read.ids.get(&3).copied(), Some(0));
    assert_eq!(rt; read.ids.get(&7).copied(), Some(1));
    Ok(())
}

#[test]
fn the_first_refusal_is_given(rt: HostRuntime) -> Result<(), Fail> {
    let alloc = rt.alloc();
    assert_eq!(rt;
        refusal(alloc, "graph [ node [ id 1 label \"ab")?,
        GmlErr::Syntax(29)
    );
    assert_eq!(rt;
        refusal(alloc, "graph [ node [ id ] ]")?,
        GmlErr::Syntax(18)
    );
    assert_eq!(rt;
        refusal(alloc, "graph [ node [ id 1 ] edge [ source 1 target 2 ] ]")?,
        GmlErr::Unknown(45)
    );
    assert_eq!(rt;
        refusal(alloc, "graph [ node [ label \"a\" ] ]")?,
        GmlErr::NoId(13)
    );
    assert_eq!(rt;
        refusal(alloc, "graph [ node [ id 1 ] node [ id 1 ] ]")?,
        GmlErr::Repeated(32)
    );
    assert_eq!(rt;
        refusal(alloc, "graph [ node [ id 1.5 ] ]")?,
        GmlErr::Range(18)
    );
    assert_eq!(rt;
        refusal(alloc, "graph [ ] graph [ ]")?,
        GmlErr::SecondGraph(10)
    );
    assert_eq!(rt;
        refusal(alloc, "graph 1 list [ graph [ ] ]")?,
        GmlErr::NoGraph
    );
    assert_eq!(rt; refusal(alloc, "")?, GmlErr::NoGraph);
    Ok(())
}

#[test]
fn places_and_orders_of_refusals(rt: HostRuntime) -> Result<(), Fail> {
    let alloc = rt.alloc();
    assert_eq!(rt; refusal(alloc, "graph [ ] \"ab")?, GmlErr::Syntax(13));
    assert_eq!(rt; refusal(alloc, "graph [ a#b ]")?, GmlErr::Syntax(8));
    assert_eq!(rt; refusal(alloc, "graph [ ] 5.5 a")?, GmlErr::Syntax(10));
    assert_eq!(rt; refusal(alloc, "graph [ x . ]")?, GmlErr::Syntax(10));
    assert_eq!(rt;
        refusal(alloc, "\u{FEFF}\u{FEFF}graph[]")?,
        GmlErr::Syntax(3)
    );
    assert_eq!(rt;
        refusal(alloc, "graph [ node [ id \"1\" id 1 ] ]")?,
        GmlErr::Range(18)
    );
    assert_eq!(rt;
        refusal(alloc, "graph [ node [ id 9223372036854775808 ] ]")?,
        GmlErr::Range(18)
    );
    assert_eq!(rt;
        refusal(alloc, "graph [ node [ id +5 ] node [ id 05 ] ]")?,
        GmlErr::Repeated(33)
    );
    assert_eq!(rt;
        refusal(alloc, "graph [ edge [ source 1 ] ]")?,
        GmlErr::NoId(13)
    );
    assert_eq!(rt;
        refusal(alloc, "graph [ edge [ source 1 target x ] ]")?,
        GmlErr::Range(31)
    );
    assert_eq!(rt;
        refusal(alloc, "graph [ node [ id [ ] id 1 ] ]")?,
        GmlErr::Range(18)
    );
    assert_eq!(rt;
        refusal(alloc, "graph [ node [ id 1 ] edge [ source 2 target x ] ]")?,
        GmlErr::Range(45)
    );
    assert_eq!(rt;
        refusal(alloc, "graph [ node [ id 1 ] edge [ source 2 target 3 ] ]")?,
        GmlErr::Unknown(36)
    );
    assert_eq!(rt;
        refusal(alloc, "graph [ edge [ source 1 target 1 ] node [ ] ]")?,
        GmlErr::NoId(40)
    );
    Ok(())
}

#[test]
fn texts_with_a_graph(rt: HostRuntime) -> Result<(), Fail> {
    let alloc = rt.alloc();
    assert_eq!(rt; sizes(alloc, b"\xEF\xBB\xBFgraph[]".as_slice())?, (0, 0, 0));
    assert_eq!(rt;
        sizes(alloc, b"s \"a\"#\"\r\ngraph[#]\r]graph 1".as_slice())?,
        (0, 0, 0)
    );
    assert_eq!(rt;
        sizes(alloc, b"x .5 y 5. z +1e-5 s \"a\nb\"graph[]#".as_slice())?,
        (0, 0, 0)
    );
    assert_eq!(rt;
        sizes(
            alloc,
            b"Graph [ node [ ] ] graph [ node 1 edge a ]".as_slice()
        )?,
        (0, 0, 0)
    );
    assert_eq!(rt;
        sizes(
            alloc,
            b"graph [ node [ id -0 ] edge [ source 0 target 0 ] ]".as_slice()
        )?,
        (1, 0, 1)
    );
    Ok(())
}

#[test]
fn limits_are_kept(rt: HostRuntime) -> Result<(), Fail> {
    let alloc = rt.alloc();
    let pair = "graph [ node [ id 1 ] node [ id 2 ] ";
    let edge = "edge [ source 1 target 2 ] ";
    let full = repeated(alloc, pair, edge, 1000, "edge [ source 2 target 2 ] ]")?;
    assert_eq!(rt; sizes(alloc, full.as_bytes())?, (2, 1000, 1));
    let more = repeated(alloc, pair, edge, 1001, "]")?;
    assert_eq!(rt; refusal(alloc, more.as_str())?, GmlErr::TooManyEdges);
    assert_eq!(rt;
        sizes(alloc, nodes(alloc, 1000, "]")?.as_bytes())?,
        (1000, 0, 0)
    );
    assert_eq!(rt;
        refusal(alloc, nodes(alloc, 1001, "]")?.as_str())?,
        GmlErr::TooManyNodes
    );
    assert_eq!(rt;
        refusal(alloc, nodes(alloc, 1000, "node [ ] ]")?.as_str())?,
        GmlErr::TooManyNodes
    );
    let unknown = repeated(alloc, pair, edge, 1000, "edge [ source 1 target 3 ] ]")?;
    assert_eq!(rt; refusal(alloc, unknown.as_str())?, GmlErr::Unknown(27_059));
    let deep = repeated(alloc, "graph [ ", "a [ ", 64, "")?;
    assert_eq!(rt; refusal(alloc, deep.as_str())?, GmlErr::Deep(262));
    let less = repeated(alloc, "graph [ ", "a [ ", 63, "")?;
    assert_eq!(rt; refusal(alloc, less.as_str())?, GmlErr::Syntax(260));
    let key = repeated(alloc, "graph [ ", "a [ ", 63, "[")?;
    assert_eq!(rt; refusal(alloc, key.as_str())?, GmlErr::Syntax(260));
    Ok(())
}

#[test]
fn refusals_have_texts(rt: HostRuntime) -> Result<(), Fail> {
    assert_eq!(rt;
        format!(in rt.alloc(); "{}", GmlErr::Syntax(29))?.as_str(),
        "syntax at 29"
    );
    assert_eq!(rt;
        format!(in rt.alloc(); "{}", GmlErr::SecondGraph(10))?.as_str(),
        "second graph at 10"
    );
    assert_eq!(rt;
        format!(in rt.alloc(); "{}", GmlErr::TooManyNodes)?.as_str(),
        "more than 1000 nodes"
    );
    Ok(())
}
