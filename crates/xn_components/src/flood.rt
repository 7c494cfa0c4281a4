// The component of a segment, as a list in which each segment but the first shares a node with an earlier one.
ghost use Rattle.std.specs.Prelude.{◌≡◌, ◌<◌, IfOk, OnOk, false, length};
ghost use Rattle.xn_map.specs.Marks.{is_marked};
ghost use Rattle.xn_components.specs.Flood.{AreWholeComponents, FloodsAll, HasBegun, MarksComponent, MeetsNode, ReachedBy};
ghost use Rattle.xn_components.specs.Incidence.{IsIncidence};

use crate::incidence::Incidence;
use std::alloc::{AllocError, Global};
use xn_graph::Web;

/// The segments of the component of a segment that isn't marked, in an order in which each but the first shares a node with
/// an earlier one. They are marked then. Its time is linear in the component, but for room for each node.
pub fn component_from(
    alloc: Global,
    web: &Web,
    darts: &Incidence,
    marks: &mut [bool],
    start: u32,
) -> Result<Vec<u32>, AllocError>
    requires darts { IsIncidence web.now darts.now }
    requires size { length marks.old ≡ length web.now.ends }
    requires start { start < length web.now.ends }
    requires fresh { is_marked marks.old start ≡ false }
    requires whole { AreWholeComponents web.now.ends marks.old }
    ensures { IfOk result (λ list. MarksComponent web.now.ends marks.old marks.new start list.items) }
{
    let mut met = vec![in alloc; false; web.nodes() as usize]?;
    let mut list = Vec::new(alloc);
    list.push(start)?;
    marks[start as usize] = true;
    flood(web, darts, marks, met.as_mut_slice(), &mut list)?;
    Ok(list)
}

// Lists all segments that the listed ones lead to, and marks them.
fn flood(
    web: &Web,
    darts: &Incidence,
    marks: &mut [bool],
    met: &mut [bool],
    list: &mut Vec<u32>,
) -> Result<(), AllocError>
    requires darts { IsIncidence web.now darts.now }
    requires nodes { length met.old ≡ web.now.nodes }
    requires begun { HasBegun web.now.ends marks.old met.old list.old.items }
    ensures { OnOk result (FloodsAll web.now.ends marks.old met.old list.old.items marks.new list.new.items) }
{
    for i in 0..web.segments() {
        if i as usize >= list.len() {
            return Ok(());
        }
        let (u, v) = web.end(list[i as usize]);
        meet(web, darts, marks, met, list, u)?;
        meet(web, darts, marks, met, list, v)?;
    }
    Ok(())
}

// Lists the segments at a node that aren't marked, and marks them, where the node isn't met yet.
fn meet(
    web: &Web,
    darts: &Incidence,
    marks: &mut [bool],
    met: &mut [bool],
    list: &mut Vec<u32>,
    v: u32,
) -> Result<(), AllocError>
    requires darts { IsIncidence web.now darts.now }
    requires nodes { length met.old ≡ web.now.nodes }
    requires size { length marks.old ≡ length web.now.ends }
    requires node { v < web.now.nodes }
    requires reached { ReachedBy web.now.ends list.old.items v }
    ensures { OnOk result (MeetsNode web.now.ends v marks.old met.old list.old.items marks.new met.new list.new.items) }
{
    if met[v as usize] {
        return Ok(());
    }
    let mut dart = darts.latest[v as usize];
    while let Some(d) = dart {
        if !marks[d as usize / 2] {
            marks[d as usize / 2] = true;
            list.push(d / 2)?;
        }
        dart = darts.earlier[d as usize];
    }
    met[v as usize] = true;
    Ok(())
}
