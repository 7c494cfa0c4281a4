// The steps themselves: lists of darts are cut, joined and turned, and nodes are no longer named.
ghost use Rattle.std.specs.Prelude.{◌≡◌, ◌<◌, suc, IfOk, OnOk, length};
ghost use Rattle.xn_model.specs.Graph.{Graph};
ghost use Rattle.xn_track.specs.Steps.{crossing_over, reverse_walk, turned_walk};
ghost use Rattle.xn_simple.specs.Tangle.{IsTangle, lists_in};
ghost use Rattle.xn_simple.specs.Untangling.{AreExchanged, IsStep, Leaves, MeetTwice, place_turned};
ghost use Rattle.xn_simple.specs.declared.finding.Step.{Step};

use crate::finding::Step;
use crate::tangle::{Pass, Tangle};
use std::alloc::{AllocError, Global};

impl Tangle {
    /// Takes a step that the walk of an edge gives. Answers the other edge whose walk it changed, or the edge itself.
    ///
    /// After want of memory nothing is said of the walks.
    pub fn take_step(&mut self, alloc: Global, e: u32, step: Step) -> Result<u32, AllocError>
        requires { (g : Graph) × IsTangle g (lists_in self.old) × IsStep g (lists_in self.old) e step }
        ensures { (g : Graph) → IsTangle g (lists_in self.old) → IsStep g (lists_in self.old) e step →
            IfOk result (Leaves g (lists_in self.old) (lists_in self.new) e) }
    {
        match step {
            Step::Closed(i, j) => {
                self.cut_off(alloc, e, i, j)?;
                Ok(e)
            }
            Step::Beginnings(i, pass, s, t) => {
                self.change_beginnings(alloc, Pass { edge: e, place: i }, s, pass, t)?;
                Ok(pass.edge)
            }
            Step::Middles(i, k, first, second) => {
                self.change_middles(alloc, e, (i, k), first.edge, (first.place, second.place))?;
                Ok(first.edge)
            }
        }
    }

    // The walk of e passes a node at the places i and j: the part between goes.
    fn cut_off(&mut self, alloc: Global, e: u32, i: usize, j: usize) -> Result<(), AllocError>
        requires { (g : Graph) × IsTangle g (lists_in self.old) × IsStep g (lists_in self.old) e (Step.Closed i j) }
        ensures { (g : Graph) → IsTangle g (lists_in self.old) → IsStep g (lists_in self.old) e (Step.Closed i j) →
            OnOk result (Leaves g (lists_in self.old) (lists_in self.new) e e) }
    {
        let walk = &self.walks[e as usize];
        let v = self.map.tail(walk[i + 1]);
        let shorter = crossed_over(alloc, walk, i, walk, j)?;
        self.unmark(v);
        self.put(e, shorter);
        Ok(())
    }

    // Two walks of edges with a common end pass a node: their parts from there up to it change places.
    fn change_beginnings(
        &mut self,
        alloc: Global,
        one: Pass,
        s: bool,
        two: Pass,
        t: bool,
    ) -> Result<(), AllocError>
        requires { (g : Graph) × IsTangle g (lists_in self.old) × IsStep g (lists_in self.old) one.edge (Step.Beginnings one.place two s t) }
        ensures { (g : Graph) → IsTangle g (lists_in self.old) → IsStep g (lists_in self.old) one.edge (Step.Beginnings one.place two s t) →
            OnOk result (Leaves g (lists_in self.old) (lists_in self.new) one.edge two.edge) }
    {
        let first = turned(alloc, s, &self.walks[one.edge as usize])?;
        let second = turned(alloc, t, &self.walks[two.edge as usize])?;
        let i = place_in_turned(s, first.len(), one.place);
        let j = place_in_turned(t, second.len(), two.place);
        let v = self.map.tail(first[i + 1]);
        let over_second = crossed_over(alloc, &second, j, &first, i)?;
        let over_first = crossed_over(alloc, &first, i, &second, j)?;
        let walk = turned(alloc, s, &over_second)?;
        let other = turned(alloc, t, &over_first)?;
        self.unmark(v);
        self.put(one.edge, walk);
        self.put(two.edge, other);
        Ok(())
    }

    // The walks of e and f pass two nodes, that of e at the places i and k, that of f at j and l: their parts between change places.
    fn change_middles(
        &mut self,
        alloc: Global,
        e: u32,
        at_e: (usize, usize),
        f: u32,
        at_f: (usize, usize),
    ) -> Result<(), AllocError>
        requires { (g : Graph) × IsTangle g (lists_in self.old) × MeetTwice (lists_in self.old) e at_e.0 at_e.1 f at_f.0 at_f.1 }
        ensures { (g : Graph) → IsTangle g (lists_in self.old) → MeetTwice (lists_in self.old) e at_e.0 at_e.1 f at_f.0 at_f.1 →
            OnOk result (Leaves g (lists_in self.old) (lists_in self.new) e f) }
    {
        let (i, k) = at_e;
        let t = at_f.1 < at_f.0;
        let two = turned(alloc, t, &self.walks[f as usize])?;
        let j = place_in_turned(t, two.len(), at_f.0);
        let l = place_in_turned(t, two.len(), at_f.1);
        let one = &self.walks[e as usize];
        let (u, v) = (self.map.tail(one[i + 1]), self.map.tail(one[k + 1]));
        let (walk, back) = exchanged(alloc, one, (i, k), &two, (j, l))?;
        let other = turned(alloc, t, &back)?;
        self.unmark(u);
        self.unmark(v);
        self.put(e, walk);
        self.put(f, other);
        Ok(())
    }
}

// Two walks, each of which passes two nodes at two places: their parts between change places.
fn exchanged(
    alloc: Global,
    one: &[u32],
    at_one: (usize, usize),
    two: &[u32],
    at_two: (usize, usize),
) -> Result<(Vec<u32>, Vec<u32>), AllocError>
    requires one_in { (at_one.0 < at_one.1) × (at_one.1 < length one.now) }
    requires two_in { (at_two.0 < at_two.1) × (at_two.1 < length two.now) }
    ensures { IfOk result (λ walks. AreExchanged one.now at_one.0 at_one.1 two.now at_two.0 at_two.1 walks.0.items walks.1.items) }
{
    let ((i, k), (j, l)) = (at_one, at_two);
    let first = crossed_over(alloc, one, i, two, j)?;
    let second = crossed_over(alloc, two, j, one, i)?;
    let walk = crossed_over(alloc, &first, i + (l - j), &second, j + (k - i))?;
    let back = crossed_over(alloc, &second, j + (k - i), &first, i + (l - j))?;
    Ok((walk, back))
}

// The darts of one walk up to a place, and those of another after a place.
fn crossed_over(
    alloc: Global,
    one: &[u32],
    i: usize,
    two: &[u32],
    j: usize,
) -> Result<Vec<u32>, AllocError>
    requires i_in { i < length one.now }
    requires j_in { j < length two.now }
    ensures { IfOk result (λ walk. walk.items ≡ crossing_over one.now i two.now j) }
{
    let mut walk = Vec::from_slice(alloc, &one[..i + 1])?;
    walk.extend_from_slice(&two[j + 1..])?;
    Ok(walk)
}

// A walk as it is, or the other way.
fn turned(alloc: Global, turn: bool, walk: &[u32]) -> Result<Vec<u32>, AllocError>
    ensures { IfOk result (λ darts. darts.items ≡ turned_walk turn walk.now) }
{
    if turn {
        reversed(alloc, walk)
    } else {
        Vec::from_slice(alloc, walk)
    }
}

// A walk the other way.
fn reversed(alloc: Global, walk: &[u32]) -> Result<Vec<u32>, AllocError>
    ensures { IfOk result (λ darts. darts.items ≡ reverse_walk walk.now) }
{
    let mut darts = Vec::with_capacity(alloc, walk.len())?;
    for i in 0..walk.len() {
        darts.push(walk[walk.len() - 1 - i] ^ 1)?;
    }
    Ok(darts)
}

// Where a walk of so many darts has its pass when it is turned.
fn place_in_turned(turn: bool, len: usize, place: usize) -> usize
    requires { suc place < len }
    ensures { result ≡ place_turned turn len place }
{
    if turn { len - 2 - place } else { place }
}
