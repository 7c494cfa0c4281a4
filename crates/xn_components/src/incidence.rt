// The darts at each node, as a chain from the greatest to the least.
ghost use Rattle.std.specs.Prelude.{◌≡◌, ◌*◌, ◌<◌, [], IfOk, IfSome, OnOk, None, length, replicate};
ghost use Rattle.xn_model.specs.Map.{tail_of};
ghost use Rattle.xn_components.specs.Incidence.{AreChains, IsIncidence};

use std::alloc::{AllocError, Global};
use xn_graph::Web;

/// The node of a dart.
pub fn tail(web: &Web, d: u32) -> u32
    requires { d < 2 * length web.now.ends }
    ensures value { result ≡ tail_of web.now.ends d }
    ensures node { result < web.now.nodes }
{
    let (first, second) = web.end(d / 2);
    if d % 2 == 0 { first } else { second }
}

/// For each node its greatest dart, and for each dart the greatest one below it at its node.
#[derive(Drop)]
pub struct Incidence {
    pub latest: Vec<Option<u32>>,
    pub earlier: Vec<Option<u32>>,
}

impl Incidence {
    /// The darts at the nodes of a web. Its time is linear.
    pub fn of(alloc: Global, web: &Web) -> Result<Incidence, AllocError>
        ensures { IfOk result (IsIncidence web.now) }
    {
        let mut latest = vec![in alloc; None; web.nodes() as usize]?;
        let mut earlier = Vec::new(alloc);
        push_earlier(latest.as_mut_slice(), &mut earlier, web)?;
        Ok(Incidence { latest, earlier })
    }
}

// Appends for each dart the latest one at its node, and keeps the latest of each node.
fn push_earlier(
    latest: &mut [Option<u32>],
    earlier: &mut Vec<Option<u32>>,
    web: &Web,
) -> Result<(), AllocError>
    requires none { latest.old ≡ replicate web.now.nodes None }
    requires empty { earlier.old.items ≡ [] }
    ensures { OnOk result (AreChains web.now latest.new earlier.new.items) }
{
    for d in 0..2 * web.segments() {
        let node = tail(web, d) as usize;
        earlier.push(latest[node])?;
        latest[node] = Some(d);
    }
    Ok(())
}
