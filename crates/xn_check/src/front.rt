// The lines of an answer up to `drawn`.
ghost use Rattle.std.specs.Prelude.{◌≡◌, ◌≢◌, ◌↔◌, ◌<◌, IfOk, IsTrue, MatchResult, length};
ghost use Rattle.xn_model.specs.Graph.{ends_at};
ghost use Rattle.xn_graph.specs.Limits.{IsEdge};
ghost use Rattle.xn_check.specs.FrontFits.{FrontFits};
ghost use Rattle.xn_check.specs.FrontSaid.{drawing_said, front_said, graph_said, no_front};
ghost use Rattle.xn_check.specs.Judging.{RefusesLine};
ghost use Rattle.xn_check.specs.Meaning.{DrawAgrees, DrawBreaks, DrawnFails, IsSeenAs};

use crate::refusals::refused;
use std::alloc::{AllocError, Global};
use std::marker::Model;
use xn_draw::{DrawErr, Seen, examine};
use xn_graph::Graph;
use xn_kinds::{Drawing, FlawKind, Orders};
use xn_list::Sequence;
use xn_proof::{AnswerErr, Item};

/// What the lines of an answer up to `drawn` said: a graph, bounds, and what is to be a drawing.
///
/// After want of memory nothing is said of what is kept.
#[derive(Drop)]
pub struct FrontPart {
    nodes: u32,
    ends: Vec<(u32, u32)>,
    lower: u32,
    upper: u32,
    drawing: Drawing,
}

impl Model for FrontPart {
    ghost use Rattle.xn_check.specs.FrontFits.{IsOfGraph};
    ghost use Rattle.xn_check.specs.FrontSaid.{FrontSaid, front_kept};

    ghost Value = { FrontSaid };

    ghost view = { λ s. front_kept s.nodes s.ends.items s.lower s.upper s.drawing };

    ghost invariant = { λ s. IsOfGraph (front_kept s.nodes s.ends.items s.lower s.upper s.drawing) };
}

impl FrontPart {
    /// Nothing was said. No memory is taken.
    pub fn new(alloc: Global) -> FrontPart
        ensures { result ≡ no_front }
    {
        FrontPart {
            nodes: 0,
            ends: Vec::new(alloc),
            lower: 0,
            upper: 0,
            drawing: Drawing {
                orders: Orders::new(Vec::new(alloc)),
                next: Sequence::new(Vec::new(alloc)),
            },
        }
    }

    /// Keeps what a line says. A later line says nothing of the drawing.
    pub fn keep(&mut self, item: Item) -> Result<(), AllocError>
        requires { FrontFits self.old item }
        ensures { IfOk result (λ _. self.new ≡ front_said self.old item) }
    {
        match item {
            Item::Graph { nodes, .. } => {
                self.nodes = nodes;
                Ok(())
            }
            Item::Edge(u, v) => self.edge(u, v),
            Item::Bounds { lower, upper } => {
                self.lower = lower;
                self.upper = upper;
                Ok(())
            }
            Item::Along(list) => self.drawing.orders.push(list.into_vec()),
            Item::Turn(a, b) => self.turn(a, b),
            _ => Ok(()),
        }
    }

    /// Whether a line with this number means what it must for a graph and so many loops left aside. A later line may mean
    /// anything.
    pub fn test(
        &self,
        alloc: Global,
        graph: &Graph,
        loops: u64,
        number: u64,
        item: &Item,
    ) -> Result<(), AnswerErr>
        requires { FrontFits self.now item.now }
        ensures { MatchResult result (λ _. DrawAgrees graph.now loops self.now item.now)
            (RefusesLine number (DrawBreaks graph.now loops self.now item.now)) }
    {
        match item {
            Item::Graph { nodes, edges } => same(
                number,
                *nodes == graph.nodes() && *edges == graph.edges(),
                FlawKind::SizeDiffers,
            ),
            Item::Loops(said) => same(number, *said == loops, FlawKind::SizeDiffers),
            Item::Edge(u, v) => {
                let e = self.edges();
                same(
                    number,
                    has_ends(graph, e, *u, *v),
                    FlawKind::GraphDiffers(e),
                )
            }
            Item::Drawn => {
                self.seen(alloc, graph, number)?;
                Ok(())
            }
            _ => Ok(()),
        }
    }

    /// What is seen of the drawing of a graph, at the line `drawn` with this number: it has to be one with as many crossings as
    /// is said.
    pub fn seen(&self, alloc: Global, graph: &Graph, number: u64) -> Result<Seen, AnswerErr>
        ensures { MatchResult result (IsSeenAs graph.now self.now) (RefusesLine number (DrawnFails graph.now self.now)) }
    {
        let seen = match examine(alloc, graph, &self.drawing) {
            Ok(seen) => seen,
            Err(DrawErr::Flaw(flaw)) => return Err(refused(number, FlawKind::Draw(flaw))),
            Err(DrawErr::Memory) => return Err(AnswerErr::Memory),
        };
        let said = u64::from(self.upper);
        let counted = seen.crossings;
        if said == counted {
            Ok(seen)
        } else {
            Err(refused(number, FlawKind::Count { said, counted }))
        }
    }

    /// The number that the drawing is to have no fewer crossings than.
    pub fn lower(&self) -> u32
        ensures { result ≡ self.now.lower }
    {
        self.lower
    }

    /// The number of crossings that the drawing is said to have.
    pub fn upper(&self) -> u32
        ensures { result ≡ self.now.upper }
    {
        self.upper
    }

    /// The graph that was said. It fails only for want of memory.
    pub fn graph(&self, alloc: Global) -> Result<Graph, AllocError>
        ensures { IfOk result (λ g. g ≡ graph_said self.now) }
    {
        match Graph::make(self.nodes, Vec::from_slice(alloc, self.ends.as_slice())?) {
            Ok(graph) => Ok(graph),
            Err(_) => unreachable!(),
        }
    }

    /// The drawing that was said.
    pub fn into_drawing(self) -> Drawing
        ensures { result ≡ drawing_said self }
    {
        self.drawing
    }

    // How many edges were said.
    fn edges(&self) -> u32
        ensures { result ≡ length self.now.ends }
    {
        prove!(self.ends.len() <= 1_000);
        self.ends.len() as u32
    }

    // A line `edge`.
    fn edge(&mut self, u: u32, v: u32) -> Result<(), AllocError>
        requires few { length self.old.ends < 1000 }
        requires edge { IsEdge self.old.nodes (u, v) }
        ensures { IfOk result (λ _. self.new ≡ front_said self.old (Item.Edge u v)) }
    {
        self.ends.reserve(1)?;
        self.ends.push_reserved((u, v));
        Ok(())
    }

    // A line `turn`.
    fn turn(&mut self, a: u32, b: u32) -> Result<(), AllocError>
        ensures { IfOk result (λ _. self.new ≡ front_said self.old (Item.Turn a b)) }
    {
        self.drawing.next.push(a)?;
        self.drawing.next.push(b)
    }
}

// Whether edge e is one of the graph and has these ends.
fn has_ends(graph: &Graph, e: u32, u: u32, v: u32) -> bool
    requires { u ≢ v }
    ensures { IsTrue result ↔ ((u, v) ≡ ends_at graph.now.ends e) }
{
    if e >= graph.edges() {
        return false;
    }
    graph.end(e) == (u, v)
}

// The line with this number is refused for this unless it is as it must be.
fn same(number: u64, right: bool, kind: FlawKind) -> Result<(), AnswerErr>
    ensures { MatchResult result (λ _. IsTrue right) (λ e. (¬ (IsTrue right)) × (e ≡ AnswerErr.Refused (record { line = number; kind = kind }))) }
{
    if right {
        Ok(())
    } else {
        Err(refused(number, kind))
    }
}
