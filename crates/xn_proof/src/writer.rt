// The text of an answer, written line by line. After want of memory a part of it may have been appended.
ghost use Rattle.std.specs.Prelude.{◌≡◌, ◌++◌, IfOk, OnOk, All, length};
ghost use Rattle.xn_proof.specs.Spelling.{along_line, bounds_text, drawing_text, each, edge_line, evidence_text, graph_text, node_line, over_line, overs_of, path_line, proof_text, row_text, text_of, turn_line, turns_of};
ghost use Rattle.xn_proof.specs.WellFormed.{HasLists, WellFormed};

use crate::writing::{put_line, put_list_line, put_pairs_line};
use std::alloc::{AllocError, Global};
use xn_graph::Graph;
use xn_kinds::{Answer, Drawing, Evidence, Node, Orders, Paths, Row, Tree};

fn put_edges(to: &mut Vec<u8>, graph: &Graph) -> Result<(), AllocError>
    ensures { OnOk result (to.new.items ≡ to.old.items ++ each edge_line graph.now.ends) }
{
    for e in 0..graph.edges() {
        let (u, v) = graph.end(e);
        put_line(to, b"edge".as_slice(), &[u64::from(u), u64::from(v)])?;
    }
    Ok(())
}

// The header, the graph and the loops that were left aside.
fn put_graph(to: &mut Vec<u8>, graph: &Graph, loops: u64) -> Result<(), AllocError>
    ensures { OnOk result (to.new.items ≡ to.old.items ++ graph_text graph.now loops) }
{
    let size = [u64::from(graph.nodes()), u64::from(graph.edges())];
    put_line(to, b"crossing-answer".as_slice(), &[1])?;
    put_line(to, b"graph".as_slice(), &size)?;
    put_line(to, b"loops".as_slice(), &[loops])?;
    put_edges(to, graph)?;
    Ok(())
}

// The bounds and the effort.
fn put_bounds(to: &mut Vec<u8>, answer: &Answer) -> Result<(), AllocError>
    ensures { let a = answer.now in
        OnOk result (to.new.items ≡ to.old.items ++ bounds_text a.lower a.upper a.spent a.budget) }
{
    let bounds = [u64::from(answer.lower), u64::from(answer.upper)];
    put_line(to, b"bounds".as_slice(), &bounds)?;
    put_line(to, b"effort".as_slice(), &[answer.spent, answer.budget])?;
    Ok(())
}

// For each edge those that cross it, along it.
fn put_orders(to: &mut Vec<u8>, orders: &Orders) -> Result<(), AllocError>
    ensures { OnOk result (to.new.items ≡ to.old.items ++ each along_line orders.now) }
{
    for i in 0..orders.len() {
        let list = orders.at(i);
        put_list_line(to, b"along".as_slice(), &[list.len() as u64], list)?;
    }
    Ok(())
}

// For each segment what follows its two darts.
fn put_turns(to: &mut Vec<u8>, next: &[u32]) -> Result<(), AllocError>
    ensures { OnOk result (to.new.items ≡ to.old.items ++ each turn_line (turns_of next.now)) }
{
    for s in 0..next.len() / 2 {
        let turn = [u64::from(next[2 * s]), u64::from(next[2 * s + 1])];
        put_line(to, b"turn".as_slice(), &turn)?;
    }
    Ok(())
}

fn put_drawing(to: &mut Vec<u8>, drawing: &Drawing) -> Result<(), AllocError>
    ensures { OnOk result (to.new.items ≡ to.old.items ++ drawing_text drawing.now) }
{
    put_orders(to, &drawing.orders)?;
    put_turns(to, drawing.next.as_slice())?;
    put_line(to, b"drawn".as_slice(), &[])?;
    Ok(())
}

// Each edge of a row with those that cross it, along it.
fn put_overs(to: &mut Vec<u8>, edges: &[u32], orders: &Orders) -> Result<(), AllocError>
    requires { length orders.now ≡ length edges.now }
    ensures { OnOk result (to.new.items ≡ to.old.items ++ each over_line (overs_of edges.now orders.now)) }
{
    for i in 0..edges.len() {
        let list = orders.at(i);
        let front = [u64::from(edges[i]), list.len() as u64];
        put_list_line(to, b"over".as_slice(), &front, list)?;
    }
    Ok(())
}

fn put_paths(to: &mut Vec<u8>, paths: &Paths) -> Result<(), AllocError>
    ensures { OnOk result (to.new.items ≡ to.old.items ++ each path_line paths.now) }
{
    for i in 0..paths.len() {
        let list = paths.at(i);
        put_list_line(to, b"path".as_slice(), &[list.len() as u64], list)?;
    }
    Ok(())
}

fn put_evidence(to: &mut Vec<u8>, evidence: &Evidence) -> Result<(), AllocError>
    ensures { OnOk result (to.new.items ≡ to.old.items ++ evidence_text evidence.now) }
{
    match evidence {
        Evidence::Five { branch, paths } => {
            put_list_line(to, b"five".as_slice(), &[], branch.as_slice())?;
            put_paths(to, paths)?;
        }
        Evidence::ThreeThree { branch, paths } => {
            put_list_line(to, b"three".as_slice(), &[], branch.as_slice())?;
            put_paths(to, paths)?;
        }
        Evidence::Extension { list } => {
            let segments = list.as_slice();
            let count = [segments.len() as u64];
            put_list_line(to, b"extension".as_slice(), &count, segments)?;
        }
    }
    Ok(())
}

fn put_row(to: &mut Vec<u8>, row: &Row) -> Result<(), AllocError>
    requires { HasLists row.now }
    ensures { OnOk result (to.new.items ≡ to.old.items ++ row_text row.now) }
{
    put_line(to, b"row".as_slice(), &[row.edges.len() as u64])?;
    put_overs(to, row.edges.as_slice(), &row.orders)?;
    put_evidence(to, &row.evidence)?;
    Ok(())
}

fn put_rows(to: &mut Vec<u8>, rows: &[Row]) -> Result<(), AllocError>
    requires { All HasLists rows.now }
    ensures { OnOk result (to.new.items ≡ to.old.items ++ each row_text rows.now) }
{
    for row in rows {
        put_row(to, row)?;
    }
    Ok(())
}

fn put_node(to: &mut Vec<u8>, node: &Node) -> Result<(), AllocError>
    ensures { OnOk result (to.new.items ≡ to.old.items ++ node_line node.now) }
{
    match node {
        Node::Pair(e, f) => put_line(to, b"pair".as_slice(), &[u64::from(*e), u64::from(*f)]),
        Node::Place(e, f) => put_line(to, b"place".as_slice(), &[u64::from(*e), u64::from(*f)]),
        Node::Leaf { d, parts } => {
            let pairs = parts.as_slice();
            put_pairs_line(to, b"leaf".as_slice(), &[*d, pairs.len() as u64], pairs)
        }
    }
}

fn put_nodes(to: &mut Vec<u8>, tree: &Tree) -> Result<(), AllocError>
    ensures { OnOk result (to.new.items ≡ to.old.items ++ each node_line tree.now) }
{
    for i in 0..tree.len() {
        put_node(to, tree.at(i))?;
    }
    Ok(())
}

// The rows, the tree and the end.
fn put_proof(to: &mut Vec<u8>, rows: &[Row], tree: &Tree) -> Result<(), AllocError>
    requires { All HasLists rows.now }
    ensures { OnOk result (to.new.items ≡ to.old.items ++ proof_text rows.now tree.now) }
{
    put_line(to, b"rows".as_slice(), &[rows.len() as u64])?;
    put_rows(to, rows)?;
    put_line(to, b"tree".as_slice(), &[])?;
    put_nodes(to, tree)?;
    put_line(to, b"end".as_slice(), &[])?;
    Ok(())
}

/// The one spelling of a well formed answer. It fails only for want of memory.
pub fn write_answer(alloc: Global, answer: &Answer) -> Result<Vec<u8>, AllocError>
    requires { WellFormed answer.now }
    ensures { IfOk result (λ text. text.items ≡ text_of answer.now) }
{
    let mut to = Vec::new(alloc);
    put_graph(&mut to, &answer.graph, answer.loops)?;
    put_bounds(&mut to, answer)?;
    put_drawing(&mut to, &answer.drawing)?;
    put_proof(&mut to, answer.rows.as_slice(), &answer.tree)?;
    Ok(to)
}
