ghost use Rattle.std.specs.Prelude.{◌≡◌, ◌<◌, ◌++◌, ◌∷◌, [], IfOk, OnErr, OnOk, length, slice_index_or};
ghost use Rattle.xn_list.specs.Lists.{lists_of};

use std::alloc::{AllocError, Global};
use std::marker::Model;

/// A list of lists of numbers.
#[derive(Debug, Drop)]
pub struct Lists {
    lists: Vec<Vec<u32>>,
}

impl Model for Lists {
    ghost use Rattle.std.specs.Prelude.{List, ℕ};
    ghost use Rattle.xn_list.specs.Lists.{lists_of};

    ghost Value = { List (List ℕ) };

    ghost view = { λ l. lists_of l.lists.items };
}

impl Lists {
    /// These lists.
    pub fn new(lists: Vec<Vec<u32>>) -> Lists
        ensures { result ≡ lists_of lists.items }
    {
        Lists { lists }
    }

    /// The number of lists.
    pub fn len(&self) -> usize
        ensures { result ≡ length self.now }
    {
        self.lists.len()
    }

    /// The list at a place, from 0 on.
    pub fn at(&self, i: usize) -> &[u32]
        requires { i < length self.now }
        ensures { result.now ≡ slice_index_or self.now i [] }
    {
        self.lists[i].as_slice()
    }

    /// One list more, the last. After want of memory the lists are as before.
    pub fn push(&mut self, list: Vec<u32>) -> Result<(), AllocError>
        ensures ok { OnOk result (self.new ≡ self.old ++ list.items ∷ []) }
        ensures err { OnErr result (self.new ≡ self.old) }
    {
        self.lists.reserve(1)?;
        self.lists.push_reserved(list);
        Ok(())
    }

    /// The same lists again. It fails only for want of memory.
    pub fn copy(&self, alloc: Global) -> Result<Lists, AllocError>
        ensures { IfOk result (λ copy. copy ≡ self.now) }
    {
        let mut lists = Vec::with_capacity(alloc, self.lists.len())?;
        for list in &self.lists {
            lists.push(Vec::from_slice(alloc, list.as_slice())?)?;
        }
        Ok(Lists { lists })
    }
}
