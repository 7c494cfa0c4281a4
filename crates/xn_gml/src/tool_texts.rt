use super::read_graph;
use std::alloc::Global;
use std::test::Fail;

/// The ends of the edges of the graph of a text that has so many nodes and loops.
fn ends(alloc: Global, text: &str, nodes: u32, loops: u64) -> Result<Vec<(u32, u32)>, Fail> {
    let read = read_graph(alloc, text.as_bytes())?;
    if read.graph.nodes() != nodes || read.loops != loops {
        return Err(Fail::from("other nodes or loops"));
    }
    let mut list = Vec::new(alloc);
    for e in 0..read.graph.edges() {
        list.push(read.graph.end(e))?;
    }
    Ok(list)
}

#[test]
fn a_text_of_networkx(rt: HostRuntime) -> Result<(), Fail> {
    let text = "graph [
  multigraph 1
  node [
    id 0
    label \"0\"
  ]
  node [
    id 1
    label \"1\"
  ]
  node [
    id 2
    label \"2\"
  ]
  edge [
    source 0
    target 1
    key 0
  ]
  edge [
    source 0
    target 1
    key 1
  ]
  edge [
    source 1
    target 2
    key 0
  ]
  edge [
    source 2
    target 2
    key 0
  ]
]
";
    assert_eq!(rt;
        ends(rt.alloc(), text, 3, 1)?.as_slice(),
        [(0, 1), (0, 1), (1, 2)].as_slice()
    );
    Ok(())
}

#[test]
fn a_text_of_igraph(rt: HostRuntime) -> Result<(), Fail> {
    let text = "Creator \"igraph version 0.10.15 Tue Nov 12 10:14:07 2024\"
Version 1
graph
[
  directed 0
  node
  [
    id 0
    name \"Alice\"
    age 25
  ]
  node
  [
    id 1
    name \"Bob\"
    age 31
  ]
  node
  [
    id 2
    name \"Claire [1]\"
    age 18
  ]
  edge
  [
    source 1
    target 0
    weight 0.5
  ]
  edge
  [
    source 2
    target 0
    weight 1e-05
  ]
  edge
  [
    source 2
    target 2
    weight -1.25
  ]
]
";
    assert_eq!(rt;
        ends(rt.alloc(), text, 3, 1)?.as_slice(),
        [(1, 0), (2, 0)].as_slice()
    );
    Ok(())
}

#[test]
fn a_text_of_yed(rt: HostRuntime) -> Result<(), Fail> {
    let text = "Creator\t\"yFiles\"
Version\t\"2.17\"
graph
[
\thierarchic\t1
\tlabel\t\"\"
\tdirected\t1
\tnode
\t[
\t\tid\t0
\t\tlabel\t\"A &#34;1&#34;\"
\t\tgraphics
\t\t[
\t\t\tx\t75.0
\t\t\ty\t120.5
\t\t\ttype\t\"rectangle\"
\t\t\tfill\t\"#FFCC00\"
\t\t]
\t\tLabelGraphics
\t\t[
\t\t\ttext\t\"A [
1]\"
\t\t\tfontSize\t12
\t\t\tanchor\t\"c\"
\t\t]
\t]
\tnode
\t[
\t\tid\t1
\t\tgraphics
\t\t[
\t\t\tx\t-12.75
\t\t\ty\t2.0E-4
\t\t\ttype\t\"roundrectangle\"
\t\t]
\t\tisGroup\t1
\t]
\tnode
\t[
\t\tid\t2
\t\tgid\t1
\t]
\tedge
\t[
\t\tsource\t2
\t\ttarget\t0
\t\tgraphics
\t\t[
\t\t\ttargetArrow\t\"standard\"
\t\t\tLine
\t\t\t[
\t\t\t\tpoint
\t\t\t\t[
\t\t\t\t\tx\t75.0
\t\t\t\t\ty\t300.0
\t\t\t\t]
\t\t\t]
\t\t]
\t\tedgeAnchor
\t\t[
\t\t\tySource\t-1.0
\t\t]
\t]
\tedge
\t[
\t\tsource\t0
\t\ttarget\t2
\t\tlabel\t\"back\"
\t]
]
";
    assert_eq!(rt;
        ends(rt.alloc(), text, 3, 0)?.as_slice(),
        [(2, 0), (0, 2)].as_slice()
    );
    Ok(())
}

#[test]
fn a_text_of_ogdf(rt: HostRuntime) -> Result<(), Fail> {
    let text = "Creator \"ogdf::GraphIO::writeGML\"
graph [
  directed 1
  node [
    id 0
    template \"oreas:std:rect\"
    label \"\"
    graphics [
      x 0.0000000000
      y -31.2500000000
      fill \"#FFFFFF\"
      type \"rectangle\"
    ]
  ]
  node [
    id 1
    template \"oreas:std:rect\"
    label \"\"
  ]
  edge [
    source 0
    target 1
    generalization 0
    graphics [
      type \"line\"
      arrow \"none\"
      Line [
        point [ x 0.0000000000 y 0.0000000000 ]
        point [ x 57.5000000000 y -31.2500000000 ]
      ]
    ]
  ]
  edge [
    source 1
    target 1
    generalization 0
  ]
  edge [
    source 1
    target 0
    generalization 1
  ]
]
";
    assert_eq!(rt;
        ends(rt.alloc(), text, 2, 1)?.as_slice(),
        [(0, 1), (1, 0)].as_slice()
    );
    Ok(())
}
