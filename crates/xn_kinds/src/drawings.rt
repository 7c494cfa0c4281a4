ghost use Rattle.std.specs.Prelude.{◌≡◌, ◌<◌, ◌++◌, ◌∷◌, [], IfOk, OnErr, OnOk, length, slice_index_or};
ghost use Rattle.xn_list.specs.Lists.{lists_of};

use std::alloc::{AllocError, Global};
use std::marker::Model;
use xn_list::{Lists, Sequence, copied};

/// Orders: for each edge of a list the edges that cross it, along it.
#[derive(Debug, Drop)]
pub struct Orders {
    lists: Lists,
}

impl Model for Orders {
    ghost use Rattle.std.specs.Prelude.{List, ℕ};

    ghost Value = { List (List ℕ) };

    ghost view = { λ o. o.lists };
}

impl Orders {
    /// The orders with these lists, in the order of their edges.
    pub fn new(lists: Vec<Vec<u32>>) -> Orders
        ensures { result ≡ lists_of lists.items }
    {
        Orders {
            lists: Lists::new(lists),
        }
    }

    /// The number of edges that have a list.
    pub fn len(&self) -> usize
        ensures { result ≡ length self.now }
    {
        self.lists.len()
    }

    /// The list at a place, from 0 on.
    pub fn at(&self, i: usize) -> &[u32]
        requires { i < length self.now }
        ensures { result.now ≡ slice_index_or self.now i [] }
    {
        self.lists.at(i)
    }

    /// One list more, that of the next edge. After want of memory the orders are as before.
    pub fn push(&mut self, list: Vec<u32>) -> Result<(), AllocError>
        ensures ok { OnOk result (self.new ≡ self.old ++ list.items ∷ []) }
        ensures err { OnErr result (self.new ≡ self.old) }
    {
        self.lists.push(list)
    }

    /// The same orders again. It fails only for want of memory.
    pub fn copy(&self, alloc: Global) -> Result<Orders, AllocError>
        ensures { IfOk result (λ copy. copy ≡ self.now) }
    {
        Ok(Orders {
            lists: self.lists.copy(alloc)?,
        })
    }
}

/// A drawing: orders of all edges, and the rotation of their planarised graph.
#[derive(Debug, Drop)]
pub struct Drawing {
    /// The edges that cross each edge, along it.
    pub orders: Orders,
    /// For each dart the next one at its node, counterclockwise.
    pub next: Sequence<u32>,
}

impl Drawing {
    /// The same drawing again. It fails only for want of memory.
    pub fn copy(&self, alloc: Global) -> Result<Drawing, AllocError>
        ensures { IfOk result (λ copy. copy ≡ self.now) }
    {
        let orders = self.orders.copy(alloc)?;
        let next = copied(alloc, &self.next)?;
        Ok(Drawing { orders, next })
    }
}
