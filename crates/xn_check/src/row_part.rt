// The rows of an answer, line by line.
ghost use Rattle.std.specs.Prelude.{◌≡◌, ◌+◌, ◌==◌, ◌++◌, [], ◌∷◌, IfOk, IfSome, MatchResult, Some, length};
ghost use Rattle.xn_list.specs.Lists.{lists_of};
ghost use Rattle.xn_kinds.specs.Row.{RowHolds};
ghost use Rattle.xn_check.specs.Judging.{RefusesLine};
ghost use Rattle.xn_check.specs.Meaning.{PathFails, RowFails};
ghost use Rattle.xn_check.specs.Parts.{HasRoom};
ghost use Rattle.xn_rows.specs.Holding.{HasPaths, HasSizes};
ghost use Rattle.xn_proof.specs.RowsSaid.{IsBranch, evidence_of, no_rows, paths_for, row_by_list, row_by_path, row_of, rows_said, with_row};

use crate::refusals::refused;
use std::alloc::{AllocError, Global};
use std::marker::Model;
use std::mem::replace;
use xn_graph::Graph;
use xn_kinds::{Evidence, FlawKind, Orders, Paths, Row};
use xn_list::Sequence;
use xn_proof::{AnswerErr, Item};
use xn_rows::{RowErr, row_holds};

/// What was said of the rows of an answer.
///
/// A call that fails leaves it in no known state.
#[derive(Drop)]
pub struct RowPart {
    whole: Vec<Row>,
    listed: Vec<u32>,
    orders: Vec<Vec<u32>>,
    branch: Sequence<u32>,
    paths: Vec<Vec<u32>>,
}

impl Model for RowPart {
    ghost use Rattle.xn_list.specs.Lists.{lists_of};
    ghost use Rattle.xn_check.specs.Parts.{HasRowLists};
    ghost use Rattle.xn_proof.specs.RowsSaid.{RowsSaid, rows_kept};

    ghost Value = { RowsSaid };

    ghost view = { λ s. rows_kept s.whole.items s.listed.items (lists_of s.orders.items) s.branch (lists_of s.paths.items) };

    ghost invariant = { λ s. HasRowLists (rows_kept s.whole.items s.listed.items (lists_of s.orders.items) s.branch (lists_of s.paths.items)) };
}

impl RowPart {
    /// Nothing was said. No memory is taken.
    pub fn new(alloc: Global) -> RowPart
        ensures { result ≡ no_rows }
    {
        RowPart {
            whole: Vec::new(alloc),
            listed: Vec::new(alloc),
            orders: Vec::new(alloc),
            branch: Sequence::new(Vec::new(alloc)),
            paths: Vec::new(alloc),
        }
    }

    /// The whole rows.
    pub fn whole(&self) -> &[Row]
        ensures { result.now ≡ self.now.whole }
    {
        self.whole.as_slice()
    }

    /// An edge of the row that is begun, and those that cross it, along it.
    pub fn over(&mut self, edge: u32, list: Sequence<u32>) -> Result<(), AllocError>
        ensures { IfOk result (λ _. self.new ≡ rows_said self.old (Item.Over edge list)) }
    {
        self.listed.reserve(1)?;
        self.orders.push(list.into_vec())?;
        self.listed.push_reserved(edge);
        Ok(())
    }

    /// The branch nodes of the row that is begun.
    pub fn branch(&mut self, branch: Sequence<u32>)
        ensures { self.new ≡ rows_said self.old (Item.Branch branch) }
    {
        self.branch = branch;
    }

    /// The next path of the row that is begun, at a line with this number. Where it is the last, the row has to hold for the
    /// graph.
    pub fn path(
        &mut self,
        alloc: Global,
        graph: &Graph,
        number: u64,
        path: Sequence<u32>,
    ) -> Result<(), AnswerErr>
        requires branch { IsBranch self.old.branch }
        requires room { HasRoom (length self.old.whole) }
        ensures said { IfOk result (λ _. self.new ≡ rows_said self.old (Item.Path path)) }
        ensures judged { let row = row_by_path self.old path in
            MatchResult result (λ _. IfSome row (RowHolds graph.now))
            (RefusesLine number (PathFails graph.now (length self.old.whole) row)) }
    {
        let last = self.comes_to_last();
        self.add_path(path)?;
        if !last {
            return Ok(());
        }
        let evidence = self.take_evidence(alloc);
        self.close(alloc, graph, number, evidence)
    }

    /// The list of segments that is the evidence of the row that is begun, at a line with this number. The row has to hold for
    /// the graph.
    pub fn extension(
        &mut self,
        alloc: Global,
        graph: &Graph,
        number: u64,
        list: Sequence<u32>,
    ) -> Result<(), AnswerErr>
        requires { HasRoom (length self.old.whole) }
        ensures said { IfOk result (λ _. self.new ≡ rows_said self.old (Item.Extension list)) }
        ensures judged { let row = row_by_list self.old list in
            MatchResult result (λ _. RowHolds graph.now row)
            (RefusesLine number (RowFails graph.now (length self.old.whole) row)) }
    {
        self.close(alloc, graph, number, Evidence::Extension { list })
    }

    // Whether the next path is the last.
    fn comes_to_last(&self) -> bool
        ensures { result ≡ (length self.now.paths + 1 == paths_for self.now.branch) }
    {
        self.paths.len() + 1 == paths_for(self.branch.as_slice())
    }

    // One more path.
    fn add_path(&mut self, path: Sequence<u32>) -> Result<(), AllocError>
        ensures { IfOk result (λ _. self.new ≡ record self.old { paths = self.old.paths ++ path ∷ [] }) }
    {
        self.paths.push(path.into_vec())?;
        Ok(())
    }

    // The evidence of the paths, which are taken away.
    fn take_evidence(&mut self, alloc: Global) -> Evidence
        requires { IsBranch self.old.branch }
        ensures evidence { result ≡ evidence_of self.old.branch self.old.paths }
        ensures said { self.new ≡ record self.old { paths = [] } }
    {
        let paths = replace(&mut self.paths, Vec::new(alloc));
        evidence_of(self.branch.as_slice(), paths)
    }

    // The row that is begun is whole with this evidence, and has to hold for the graph.
    fn close(
        &mut self,
        alloc: Global,
        graph: &Graph,
        number: u64,
        evidence: Evidence,
    ) -> Result<(), AnswerErr>
        requires paths { HasPaths evidence }
        requires room { HasRoom (length self.old.whole) }
        ensures said { IfOk result (λ _. self.new ≡ with_row (Some (row_of self.old evidence)) self.old) }
        ensures judged { let row = row_of self.old evidence in
            MatchResult result (λ _. RowHolds graph.now row)
            (RefusesLine number (RowFails graph.now (length self.old.whole) row)) }
    {
        let place = self.whole.len() as u32;
        let row = self.take_row(alloc, evidence);
        test_row(alloc, graph, &row, number, place)?;
        self.whole.push(row)?;
        Ok(())
    }

    // The row that is begun, with this evidence; then none is begun.
    fn take_row(&mut self, alloc: Global, evidence: Evidence) -> Row
        ensures row { result ≡ row_of self.old evidence }
        ensures said { self.new ≡ record no_rows { whole = self.old.whole } }
        ensures fits { length result.orders ≡ length result.edges }
    {
        self.branch = Sequence::new(Vec::new(alloc));
        self.paths = Vec::new(alloc);
        Row {
            edges: Sequence::new(replace(&mut self.listed, Vec::new(alloc))),
            orders: Orders::new(replace(&mut self.orders, Vec::new(alloc))),
            evidence,
        }
    }
}

// Whether a row holds; the line with this number ends it, and `place` rows stand before it.
fn test_row(
    alloc: Global,
    graph: &Graph,
    row: &Row,
    number: u64,
    place: u32,
) -> Result<(), AnswerErr>
    requires { HasSizes row.now }
    ensures { MatchResult result (λ _. RowHolds graph.now row.now) (RefusesLine number (RowFails graph.now place row.now)) }
{
    match row_holds(alloc, graph, row) {
        Ok(()) => Ok(()),
        Err(RowErr::Flaw(flaw)) => Err(refused(number, FlawKind::Row(place, flaw))),
        Err(RowErr::Memory) => Err(AnswerErr::Memory),
    }
}

// How many paths an evidence with these branch nodes has.
fn paths_for(branch: &[u32]) -> usize
    ensures { result ≡ paths_for branch.now }
{
    if branch.len() == 5 { 10 } else { 9 }
}

// The evidence with these branch nodes and paths.
fn evidence_of(branch: &[u32], paths: Vec<Vec<u32>>) -> Evidence
    requires { IsBranch branch.now }
    ensures { result ≡ evidence_of branch.now (lists_of paths.items) }
{
    let paths = Paths::new(paths);
    if branch.len() == 5 {
        Evidence::Five {
            branch: five(branch),
            paths,
        }
    } else {
        Evidence::ThreeThree {
            branch: six(branch),
            paths,
        }
    }
}

fn five(nodes: &[u32]) -> [u32; 5]
    requires { length nodes.now ≡ 5 }
    ensures { result ≡ nodes.now }
{
    [nodes[0], nodes[1], nodes[2], nodes[3], nodes[4]]
}

fn six(nodes: &[u32]) -> [u32; 6]
    requires { length nodes.now ≡ 6 }
    ensures { result ≡ nodes.now }
{
    [nodes[0], nodes[1], nodes[2], nodes[3], nodes[4], nodes[5]]
}
