ghost use Rattle.std.specs.Prelude.{◌≡◌, ◌≤◌, ◌↔◌, IfErr, IfNone, IfSome, IsErrOf, IsOk, OnOk, length};
ghost use Rattle.xn_model.specs.Evidence.{IsPathSystem, LeadAll};
ghost use Rattle.xn_kinds.specs.Row.{EvidenceHolds};
ghost use Rattle.xn_kinds.specs.declared.flaws.EvidenceFlaw.{EvidenceFlaw};
ghost use Rattle.xn_kura.specs.Flaws.{AreBranches, HasAKind, IsFirstEvidenceFlaw, IsFirstFlawOf, IsFirstWrong, PairsWithin};
ghost use Rattle.xn_kura.specs.Marks.{sizes_of};

use crate::marks::Marks;
use crate::repeats::{repeated_node, repeated_segment};
use crate::walks::walk_end;
use xn_graph::Web;
use xn_kinds::{Evidence, EvidenceFlaw, Paths};

/// The pairs of branch nodes that the paths of a Five join.
pub const FIVE_PAIRS: [(usize, usize); 10] = [
    (0, 1),
    (0, 2),
    (0, 3),
    (0, 4),
    (1, 2),
    (1, 3),
    (1, 4),
    (2, 3),
    (2, 4),
    (3, 4),
];

/// The pairs of branch nodes that the paths of a ThreeThree join.
pub const THREE_PAIRS: [(usize, usize); 9] = [
    (0, 3),
    (0, 4),
    (0, 5),
    (1, 3),
    (1, 4),
    (1, 5),
    (2, 3),
    (2, 4),
    (2, 5),
];

/// Whether an evidence, a Five with ten paths or a ThreeThree with nine, holds for a web; if not, its first flaw.
///
/// It takes no memory and leaves the marks ready for another call. Its time is linear in the paths.
pub fn holds(web: &Web, evidence: &Evidence, marks: &mut Marks) -> Result<(), EvidenceFlaw>
    requires kind { HasAKind evidence.now }
    requires sized { marks.old ≡ sizes_of web.now }
    ensures ok { IsOk result ↔ EvidenceHolds web.now evidence.now }
    ensures err { (flaw : EvidenceFlaw) → IsErrOf result flaw ↔ IsFirstFlawOf web.now evidence.now flaw }
    ensures ready { marks.new ≡ marks.old }
{
    match evidence {
        Evidence::Five { branch, paths } => judge(web, &FIVE_PAIRS, branch, paths, marks),
        Evidence::ThreeThree { branch, paths } => judge(web, &THREE_PAIRS, branch, paths, marks),
        // `kind` rules it out
        Evidence::Extension { .. } => Ok(()),
    }
}

/// Whether there are such paths for these pairs of branch nodes; if not, the first flaw.
fn judge(
    web: &Web,
    pairs: &[(usize, usize)],
    branch: &[u32],
    paths: &Paths,
    marks: &mut Marks,
) -> Result<(), EvidenceFlaw>
    requires pairs { PairsWithin (length branch.now) pairs.now }
    requires paths { length paths.now ≡ length pairs.now }
    requires few { length branch.now ≤ 6 × length pairs.now ≤ 10 }
    requires sized { marks.old ≡ sizes_of web.now }
    ensures ok { OnOk result (IsPathSystem web.now pairs.now branch.now paths.now) }
    ensures err { IfErr result (IsFirstEvidenceFlaw web.now pairs.now branch.now paths.now) }
    ensures ready { marks.new ≡ marks.old }
{
    if let Some(i) = first_wrong_branch(web.nodes(), branch) {
        return Err(EvidenceFlaw::Branch(i));
    }
    lead(web, pairs, branch, paths)?;
    if let Some(s) = repeated_segment(paths, marks.segments.as_mut_slice()) {
        return Err(EvidenceFlaw::Twice(s));
    }
    if let Some(v) = repeated_node(web, pairs, branch, paths, marks.nodes.as_mut_slice()) {
        return Err(EvidenceFlaw::Inner(v));
    }
    Ok(())
}

/// The first place whose branch node is no node or stands at an earlier place too.
fn first_wrong_branch(nodes: u32, branch: &[u32]) -> Option<u32>
    requires few { length branch.now ≤ 6 }
    ensures none { IfNone result (AreBranches nodes branch.now) }
    ensures some { IfSome result (IsFirstWrong nodes branch.now) }
{
    for (i, v) in branch.iter().enumerate() {
        if *v >= nodes || branch[..i].contains(v) {
            return Some(i as u32);
        }
    }
    None
}

/// Whether each path leads from its first branch node to its second; if not, the flaw of the first that doesn't.
fn lead(
    web: &Web,
    pairs: &[(usize, usize)],
    branch: &[u32],
    paths: &Paths,
) -> Result<(), EvidenceFlaw>
    requires pairs { PairsWithin (length branch.now) pairs.now }
    requires paths { length paths.now ≡ length pairs.now }
    requires few { length pairs.now ≤ 10 }
    requires branches { AreBranches web.now.nodes branch.now }
    ensures ok { OnOk result (LeadAll web.now.ends branch.now pairs.now paths.now) }
    ensures err { IfErr result (IsFirstEvidenceFlaw web.now pairs.now branch.now paths.now) }
{
    for (q, &(from, to)) in pairs.iter().enumerate() {
        match walk_end(web, branch[from], paths.at(q)) {
            None => return Err(EvidenceFlaw::Broken(q as u32)),
            Some(end) => {
                if end != branch[to] {
                    return Err(EvidenceFlaw::Ends(q as u32));
                }
            }
        }
    }
    Ok(())
}
