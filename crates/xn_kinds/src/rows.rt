ghost use Rattle.std.specs.Prelude.{◌≡◌, ◌<◌, [], IfOk, length, slice_index_or};
ghost use Rattle.xn_list.specs.Lists.{lists_of};

use crate::drawings::Orders;
use std::alloc::{AllocError, Global};
use std::marker::Model;
use xn_list::{Lists, Sequence, copied};

/// Paths of a web: each is a list of its segments.
#[derive(Debug, Drop)]
pub struct Paths {
    lists: Lists,
}

impl Model for Paths {
    ghost use Rattle.std.specs.Prelude.{List, ℕ};

    ghost Value = { List (List ℕ) };

    ghost view = { λ p. p.lists };
}

impl Paths {
    /// The paths with these segments.
    pub fn new(lists: Vec<Vec<u32>>) -> Paths
        ensures { result ≡ lists_of lists.items }
    {
        Paths {
            lists: Lists::new(lists),
        }
    }

    /// The number of paths.
    pub fn len(&self) -> usize
        ensures { result ≡ length self.now }
    {
        self.lists.len()
    }

    /// The path at a place, from 0 on.
    pub fn at(&self, i: usize) -> &[u32]
        requires { i < length self.now }
        ensures { result.now ≡ slice_index_or self.now i [] }
    {
        self.lists.at(i)
    }

    /// The same paths again. It fails only for want of memory.
    pub fn copy(&self, alloc: Global) -> Result<Paths, AllocError>
        ensures { IfOk result (λ copy. copy ≡ self.now) }
    {
        Ok(Paths {
            lists: self.lists.copy(alloc)?,
        })
    }
}

/// What shows that a web has no flat map (Kuratowski 1930).
#[derive(Debug, Drop)]
pub enum Evidence {
    /// Five nodes, each two joined by a path: a subdivision of K5.
    Five {
        /// The branch nodes b0 to b4.
        branch: [u32; 5],
        /// The paths of (b0, b1), (b0, b2) and so on to (b3, b4).
        paths: Paths,
    },
    /// Three nodes, each joined by a path to each of three others: a subdivision of K3,3.
    ThreeThree {
        /// The branch nodes b0 to b5.
        branch: [u32; 6],
        /// The paths of (b0, b3), (b0, b4) and so on to (b2, b5).
        paths: Paths,
    },
    /// Segments whose end no flat insertions, in this order, reach.
    Extension {
        /// The segments; each but the first shares a node with an earlier one.
        list: Sequence<u32>,
    },
}

impl Evidence {
    /// The same evidence again. It fails only for want of memory.
    pub fn copy(&self, alloc: Global) -> Result<Evidence, AllocError>
        ensures { IfOk result (λ copy. copy ≡ self.now) }
    {
        match self {
            Evidence::Five { branch, paths } => Ok(Evidence::Five {
                branch: *branch,
                paths: paths.copy(alloc)?,
            }),
            Evidence::ThreeThree { branch, paths } => Ok(Evidence::ThreeThree {
                branch: *branch,
                paths: paths.copy(alloc)?,
            }),
            Evidence::Extension { list } => Ok(Evidence::Extension {
                list: copied(alloc, list)?,
            }),
        }
    }
}

/// A row: orders over some edges, with evidence that no simple drawing has just these crossings among them.
#[derive(Debug, Drop)]
pub struct Row {
    /// The edges, rising.
    pub edges: Sequence<u32>,
    /// A list for each of the edges: those of them that cross it, along it.
    pub orders: Orders,
    /// What shows that the web of these orders has no flat map.
    pub evidence: Evidence,
}

impl Row {
    /// The same row again. It fails only for want of memory.
    pub fn copy(&self, alloc: Global) -> Result<Row, AllocError>
        ensures { IfOk result (λ copy. copy ≡ self.now) }
    {
        let edges = copied(alloc, &self.edges)?;
        let orders = self.orders.copy(alloc)?;
        let evidence = self.evidence.copy(alloc)?;
        Ok(Row {
            edges,
            orders,
            evidence,
        })
    }
}
