// Cut nodes, by the keys of the segments at each node.
ghost use Rattle.std.specs.Prelude.{◌≡◌, ◌<◌, ◌/◌, ◌↔◌, IfOk, length, true};
ghost use Rattle.xn_model.specs.Cycles.{IsCut};
ghost use Rattle.xn_model.specs.Lists.{at};
ghost use Rattle.xn_blocks.specs.Blocks.{ListsAll};
ghost use Rattle.xn_blocks.specs.Lows.{NameBlocks};

use std::alloc::{AllocError, Global};
use xn_graph::Stars;

/// The nodes that meet segments of two keys, rising. Its time is linear.
pub fn cuts_of(alloc: Global, stars: &Stars, keys: &[u32]) -> Result<Vec<u32>, AllocError>
    requires { NameBlocks stars.now keys.now }
    ensures { IfOk result (λ cuts. ListsAll stars.now.nodes (IsCut stars.now.ends) cuts.items) }
{
    let mut cuts = Vec::new(alloc);
    for v in 0..stars.nodes() {
        if is_cut(stars, keys, v) {
            cuts.push(v)?;
        }
    }
    Ok(cuts)
}

// Whether the segments at a node have two keys.
fn is_cut(stars: &Stars, keys: &[u32], v: u32) -> bool
    requires names { NameBlocks stars.now keys.now }
    requires node { v < stars.now.nodes }
    ensures { (result ≡ true) ↔ IsCut stars.now.ends v }
{
    let star = stars.at(v);
    for d in star {
        if key_of(keys, *d) != key_of(keys, star[0]) {
            return true;
        }
    }
    false
}

// The key of a dart's segment.
fn key_of(keys: &[u32], d: u32) -> u32
    requires { d / 2 < length keys.now }
    ensures { result ≡ at keys.now (d / 2) }
{
    keys[d as usize / 2]
}
