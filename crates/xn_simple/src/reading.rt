// What walks that meet simply say of a drawing: the lists of the edges, and the darts at the ends and the crossings.
ghost use Rattle.std.specs.Prelude.{◌≡◌, ◌++◌, ◌<◌, ℕ, suc, IfOk, OnOk, length, map, true};
ghost use Rattle.xn_model.specs.Graph.{Graph};
ghost use Rattle.xn_model.specs.Lists.{at, has};
ghost use Rattle.xn_simple.specs.Tangle.{lists_in, node_in, walk_in};
ghost use Rattle.xn_simple.specs.Untangling.{AreNumbers, IsDrawnBy, IsReadBy, IsUntangled, crossed_at, order_in, starts_in_walk};

use crate::tangle::Tangle;
use crate::turning::turns_along;
use std::alloc::{AllocError, Global};
use xn_kinds::{Drawing, Orders};
use xn_list::Sequence;

impl Tangle {
    /// The drawing that the walks are, whose edges are those that are in, numbered as they are listed.
    pub fn drawing(&self, alloc: Global, edges: u32) -> Result<Drawing, AllocError>
        requires { (g : Graph) × IsUntangled g (lists_in self.now) × (length g.ends ≡ edges) }
        ensures { (g : Graph) → IsUntangled g (lists_in self.now) → IfOk result (IsDrawnBy g (lists_in self.now)) }
    {
        let numbers = numbers_of(alloc, edges, &self.edges)?;
        let drawing = self.read(alloc, &numbers)?;
        Ok(drawing)
    }

    /// The lists of the edges that are in, under these numbers, and the turns.
    pub fn read(&self, alloc: Global, numbers: &[u32]) -> Result<Drawing, AllocError>
        requires { (g : Graph) × IsUntangled g (lists_in self.now) × (length numbers.now ≡ length g.ends) }
        ensures { IfOk result (IsReadBy (lists_in self.now) numbers.now) }
    {
        let mut orders = Orders::new(Vec::with_capacity(alloc, self.edges.len())?);
        let mut starts = Vec::with_capacity(alloc, 2 * self.map.web().segments() as usize)?;
        for e in &self.edges {
            orders.push(self.list_along(alloc, numbers, *e)?)?;
            self.push_starts(&mut starts, *e)?;
        }
        let next = turns_along(alloc, &self.map, &starts)?;
        Ok(Drawing {
            orders,
            next: Sequence::new(next),
        })
    }

    // The edge that the walk of e crosses at a place, if it crosses one there.
    fn crossed_at(&self, e: u32, i: usize) -> Option<u32>
        requires tangle { (g : Graph) × IsUntangled g (lists_in self.now) }
        requires place { suc i < length (walk_in (lists_in self.now) e) }
        ensures { result ≡ crossed_at (lists_in self.now) e (node_in (lists_in self.now) e i) }
    {
        if !self.is_named(e, i) {
            return None;
        }
        match self.other_pass(e, i) {
            Some(pass) => Some(pass.edge),
            None => None,
        }
    }

    // Along the walk of an edge the numbers of those that it crosses.
    fn list_along(&self, alloc: Global, numbers: &[u32], e: u32) -> Result<Vec<u32>, AllocError>
        requires tangle { (g : Graph) × IsUntangled g (lists_in self.now) × (length numbers.now ≡ length g.ends) }
        requires edge { has self.now.edges.items e ≡ true }
        ensures { IfOk result (λ list. list.items ≡ map (at numbers.now) (order_in (lists_in self.now) e)) }
    {
        let mut list = Vec::new(alloc);
        for i in 1..self.walks[e as usize].len() {
            if let Some(f) = self.crossed_at(e, i - 1) {
                list.push(numbers[f as usize])?;
            }
        }
        Ok(list)
    }

    // Appends the darts of a walk at its ends and at its crossings.
    fn push_starts(&self, starts: &mut Vec<u32>, e: u32) -> Result<(), AllocError>
        requires tangle { (g : Graph) × IsUntangled g (lists_in self.now) }
        requires edge { has self.now.edges.items e ≡ true }
        ensures { OnOk result (starts.new.items ≡ starts.old.items ++ starts_in_walk (lists_in self.now) e) }
    {
        let walk = &self.walks[e as usize];
        starts.push(walk[0])?;
        for i in 1..walk.len() {
            if self.crossed_at(e, i - 1).is_some() {
                starts.push(walk[i - 1] ^ 1)?;
                starts.push(walk[i])?;
            }
        }
        starts.push(walk[walk.len() - 1] ^ 1)?;
        Ok(())
    }
}

// For each of the listed edges its place in the list.
fn numbers_of(alloc: Global, count: u32, edges: &[u32]) -> Result<Vec<u32>, AllocError>
    requires below { (i : ℕ) → i < length edges.now → at edges.now i < count }
    requires apart { (i j : ℕ) → i < length edges.now → j < length edges.now → at edges.now i ≡ at edges.now j → i ≡ j }
    ensures { IfOk result (λ numbers. AreNumbers count edges.now numbers.items) }
{
    let mut numbers = vec![in alloc; 0; count as usize]?;
    for (i, e) in edges.iter().enumerate() {
        numbers[*e as usize] = i as u32;
    }
    Ok(numbers)
}
