// The lines that say what was found.
ghost use Rattle.std.specs.Prelude.{◌≡◌, IfOk};
ghost use Rattle.xn_app.specs.Output.{accepted_line, sample_line, seen_line};

use std::alloc::{AllocError, Global};
use xn_check::Accepted;
use xn_draw::Seen;
use xn_graph::Graph;

/// The line for a drawing.
pub fn seen_line(alloc: Global, seen: &Seen) -> Result<Vec<u8>, AllocError>
    ensures { IfOk result (λ line. line.items ≡ seen_line seen.now) }
{
    let crossings = seen.crossings;
    let v = seen.euler.v;
    let e = seen.euler.e;
    let f = seen.euler.f;
    let c = seen.euler.c;
    let line = format!(in alloc;
        "drawing crossings {crossings} nodes {v} edges {e} faces {f} components {c}\n"
    )?;
    Ok(line.into_bytes())
}

/// The line for an answer that is accepted.
pub fn accepted_line(alloc: Global, accepted: Accepted) -> Result<Vec<u8>, AllocError>
    ensures { IfOk result (λ line. line.items ≡ accepted_line (accepted.lower, accepted.upper)) }
{
    let lower = accepted.lower;
    let upper = accepted.upper;
    let line = format!(in alloc; "accepted {lower} {upper}\n")?;
    Ok(line.into_bytes())
}

/// The line for a sample graph, an answer for which is accepted with these bounds and took so many tree nodes.
pub fn sample_line(
    alloc: Global,
    graph: &Graph,
    accepted: Accepted,
    spent: u64,
) -> Result<Vec<u8>, AllocError>
    ensures { IfOk result (λ line. line.items ≡ sample_line graph.now (accepted.lower, accepted.upper) spent) }
{
    let nodes = graph.nodes();
    let edges = graph.edges();
    let Accepted { lower, upper } = accepted;
    let line = format!(in alloc;
        "sample {nodes} {edges} lower {lower} upper {upper} spent {spent}\n"
    )?;
    Ok(line.into_bytes())
}
