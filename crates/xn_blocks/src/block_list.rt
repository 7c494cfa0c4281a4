ghost use Rattle.std.specs.Prelude.{◌≡◌, ◌<◌, IfOk, length};
ghost use Rattle.xn_model.specs.Graph.{HasNoLoop};
ghost use Rattle.xn_blocks.specs.Blocks.{AreBlocks, block_at};

use crate::classes::keys_of;
use crate::cuts::cuts_of;
use crate::parts::parted;
use std::alloc::{AllocError, Global};
use std::marker::Model;
use xn_graph::{Stars, Web};

/// The blocks of a web and its cut nodes.
#[derive(Drop)]
pub struct BlockList {
    lists: Vec<Vec<u32>>,
    cuts: Vec<u32>,
}

impl Model for BlockList {
    ghost use Rattle.xn_blocks.specs.Blocks.{ListedBlocks, listed_blocks};

    ghost Value = { ListedBlocks };

    ghost view = { λ b. listed_blocks b.lists.items b.cuts.items };
}

impl BlockList {
    /// The number of blocks.
    pub fn count(&self) -> usize
        ensures { result ≡ length self.now.lists }
    {
        self.lists.len()
    }

    /// The segments of a block, rising.
    pub fn block(&self, i: usize) -> &[u32]
        requires { i < length self.now.lists }
        ensures { result.now ≡ block_at self.now i }
    {
        self.lists[i].as_slice()
    }

    /// The nodes that meet segments of at least two blocks, rising.
    pub fn cuts(&self) -> &[u32]
        ensures { result.now ≡ self.now.cuts }
    {
        self.cuts.as_slice()
    }
}

/// The blocks of a web without loops: two segments stand in one block exactly where they are equal or lie on a common
/// cycle, and two parallel segments are a cycle. The blocks rise, and stand in the order of their least segments.
///
/// It is the search in depth with low points of Hopcroft and Tarjan (1973), without recursion. Its time is linear. It
/// fails only for want of memory.
pub fn blocks(alloc: Global, web: &Web) -> Result<BlockList, AllocError>
    requires { HasNoLoop web.now.ends }
    ensures { IfOk result (AreBlocks web.now) }
{
    let stars = Stars::of(alloc, web)?;
    let keys = keys_of(alloc, web, &stars)?;
    let lists = parted(alloc, web.nodes(), keys.as_slice())?;
    let cuts = cuts_of(alloc, &stars, keys.as_slice())?;
    Ok(BlockList { lists, cuts })
}
