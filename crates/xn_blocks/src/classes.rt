// Classes of segments by the low points of a search in depth (Hopcroft and Tarjan 1973).
ghost use Rattle.std.specs.Prelude.{◌≡◌, ◌*◌, ◌<◌, IfOk, length};
ghost use Rattle.xn_model.specs.Graph.{HasNoLoop, ends_at};
ghost use Rattle.xn_model.specs.Lists.{at};
ghost use Rattle.xn_blocks.specs.Growth.{IsWhole, lists_in};
ghost use Rattle.xn_blocks.specs.Lows.{AreAllClassed, AreHandedUp, AreLowPoints, AreNoted, HaveClasses, IsClassAt, IsSomeWhole, NameBlocks, lowered};
ghost use Rattle.xn_blocks.specs.Search.{later_end};

use crate::forest::Forest;
use std::alloc::{AllocError, Global};
use xn_graph::{Stars, Web};

/// Of each segment a node as its key: two segments have one key exactly where they are in one block. Linear in time.
pub fn keys_of(alloc: Global, web: &Web, stars: &Stars) -> Result<Vec<u32>, AllocError>
    requires stars { stars.now ≡ web.now }
    requires no_loop { HasNoLoop web.now.ends }
    ensures { IfOk result (λ keys. NameBlocks web.now keys.items) }
{
    let forest = Forest::of(alloc, web, stars)?;
    let low = low_points(alloc, web, &forest)?;
    let class = node_classes(alloc, &forest, low.as_slice())?;
    segment_classes(alloc, web, forest.number.as_slice(), class.as_slice())
}

// The low point of each node.
fn low_points(alloc: Global, web: &Web, forest: &Forest) -> Result<Vec<u32>, AllocError>
    requires { IsWhole web.now (lists_in forest.now) }
    ensures { IfOk result (λ low. AreLowPoints web.now (lists_in forest.now) low.items) }
{
    let mut low = Vec::from_slice(alloc, forest.number.as_slice())?;
    sink(web, forest, low.as_mut_slice());
    Ok(low)
}

// From the numbers of the nodes to their low points.
fn sink(web: &Web, forest: &Forest, low: &mut [u32])
    requires whole { IsWhole web.now (lists_in forest.now) }
    requires numbers { low.old ≡ forest.now.number.items }
    ensures { AreLowPoints web.now (lists_in forest.now) low.new }
{
    look_along(web, forest, low);
    hand_up(forest, low);
}

// Notes at each node the least number to which its own darts lead.
fn look_along(web: &Web, forest: &Forest, low: &mut [u32])
    requires whole { IsWhole web.now (lists_in forest.now) }
    requires numbers { low.old ≡ forest.now.number.items }
    ensures { AreNoted web.now (lists_in forest.now) (2 * length web.now.ends) low.new }
{
    for d in 0..2 * web.segments() {
        let number = forest.number[web.tail(d ^ 1) as usize];
        lower(low, web.tail(d), number);
    }
}

// Hands what is noted of each node to its parent, from the last node to the first.
fn hand_up(forest: &Forest, low: &mut [u32])
    requires whole { IsSomeWhole (lists_in forest.now) }
    requires size { length low.old ≡ length forest.now.parent.items }
    ensures { AreHandedUp (lists_in forest.now) (length forest.now.order.items) low.old low.new }
{
    let nodes = forest.order.len();
    for k in 0..nodes {
        let v = forest.order[nodes - 1 - k] as usize;
        let number = low[v];
        lower(low, forest.parent[v], number);
    }
}

// Notes the number at v, where it is less than what is noted there.
fn lower(low: &mut [u32], v: u32, number: u32)
    requires { v < length low.old }
    ensures { low.new ≡ lowered low.old v number }
{
    low[v as usize] = low[v as usize].min(number);
}

// The class of each node.
fn node_classes(alloc: Global, forest: &Forest, low: &[u32]) -> Result<Vec<u32>, AllocError>
    requires whole { IsSomeWhole (lists_in forest.now) }
    requires size { length low.now ≡ length forest.now.parent.items }
    ensures { IfOk result (λ class. AreAllClassed (lists_in forest.now) low.now class.items) }
{
    let mut class = Vec::from_slice(alloc, forest.parent.as_slice())?;
    put_classes(forest, low, class.as_mut_slice());
    Ok(class)
}

// Gives each node its class, in the order of the search.
fn put_classes(forest: &Forest, low: &[u32], class: &mut [u32])
    requires whole { IsSomeWhole (lists_in forest.now) }
    requires size { length low.now ≡ length forest.now.parent.items }
    requires parents { class.old ≡ forest.now.parent.items }
    ensures { AreAllClassed (lists_in forest.now) low.now class.new }
{
    for i in 0..forest.order.len() {
        let v = forest.order[i];
        let own = class_at(forest, low, class, v);
        class[v as usize] = own;
    }
}

// The class of a node whose parent has one.
fn class_at(forest: &Forest, low: &[u32], class: &[u32], v: u32) -> u32
    requires whole { IsSomeWhole (lists_in forest.now) }
    requires lows { length low.now ≡ length forest.now.parent.items }
    requires classes { length class.now ≡ length forest.now.parent.items }
    requires node { v < length forest.now.parent.items }
    ensures { IsClassAt (lists_in forest.now) low.now class.now v result }
{
    let parent = forest.parent[v as usize];
    if parent == v {
        return v;
    }
    if low[v as usize] < forest.number[parent as usize] {
        class[parent as usize]
    } else {
        v
    }
}

// The class of each segment: that of its later end.
fn segment_classes(
    alloc: Global,
    web: &Web,
    number: &[u32],
    class: &[u32],
) -> Result<Vec<u32>, AllocError>
    requires numbers { length number.now ≡ web.now.nodes }
    requires classes { length class.now ≡ web.now.nodes }
    ensures { IfOk result (λ keys. HaveClasses web.now number.now class.now (length web.now.ends) keys.items) }
{
    let mut keys = Vec::new(alloc);
    for s in 0..web.segments() {
        keys.push(class[later_of(web, number, s) as usize])?;
    }
    Ok(keys)
}

// The end of a segment with the greater number.
fn later_of(web: &Web, number: &[u32], s: u32) -> u32
    requires numbers { length number.now ≡ web.now.nodes }
    requires segment { s < length web.now.ends }
    ensures later { result ≡ later_end (at number.now) (ends_at web.now.ends s) }
    ensures node { result < web.now.nodes }
{
    let (u, v) = web.end(s);
    if number[u as usize] < number[v as usize] {
        v
    } else {
        u
    }
}
