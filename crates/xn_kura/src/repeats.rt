// The first segment, and the first node, that the paths meet twice.
ghost use Rattle.std.specs.Prelude.{◌≡◌, ℕ, ◌<◌, ◌++◌, [], true, IfNone, IfSome, length, nat_eq};
ghost use Rattle.std.specs.List.{IsDistinct, concat};
ghost use Rattle.xn_model.specs.Evidence.{LeadAll, all_inner};
ghost use Rattle.xn_model.specs.Lists.{has};
ghost use Rattle.xn_kura.specs.Flaws.{AreBranches, IsFirstRepeat, PairsWithin};
ghost use Rattle.xn_kura.specs.Marks.{MarksExactly, MarksMore, StopsAt};

use crate::marks::{clear, mark};
use crate::walks::{clear_inner, mark_inner};
use xn_graph::Web;
use xn_kinds::Paths;

/// The first segment that stands in the paths twice.
pub fn repeated_segment(paths: &Paths, marks: &mut [bool]) -> Option<u32>
    requires within { (s : ℕ) → has (concat paths.now) s ≡ true → s < length marks.old }
    requires ready { MarksExactly [] marks.old }
    ensures none { IfNone result (IsDistinct nat_eq (concat paths.now)) }
    ensures some { IfSome result (IsFirstRepeat (concat paths.now)) }
    ensures ready { MarksExactly [] marks.new }
{
    let found = mark_segments(paths, marks);
    for q in 0..paths.len() {
        clear(marks, paths.at(q));
    }
    found
}

/// The first inner node of a path that is a branch node or was met before.
pub fn repeated_node(
    web: &Web,
    pairs: &[(usize, usize)],
    branch: &[u32],
    paths: &Paths,
    marks: &mut [bool],
) -> Option<u32>
    requires pairs { PairsWithin (length branch.now) pairs.now }
    requires paths { length paths.now ≡ length pairs.now }
    requires branches { AreBranches web.now.nodes branch.now }
    requires lead { LeadAll web.now.ends branch.now pairs.now paths.now }
    requires sized { length marks.old ≡ web.now.nodes }
    requires ready { MarksExactly [] marks.old }
    ensures none { IfNone result (IsDistinct nat_eq (branch.now ++ all_inner web.now.ends branch.now pairs.now paths.now)) }
    ensures some { IfSome result (IsFirstRepeat (branch.now ++ all_inner web.now.ends branch.now pairs.now paths.now)) }
    ensures ready { MarksExactly [] marks.new }
{
    mark(marks, branch);
    let found = mark_inner_nodes(web, pairs, branch, paths, marks);
    clear(marks, branch);
    for (q, &(from, _)) in pairs.iter().enumerate() {
        clear_inner(web, branch[from], paths.at(q), marks);
    }
    found
}

/// Marks the segments of the paths, up to the first that is marked already.
fn mark_segments(paths: &Paths, marks: &mut [bool]) -> Option<u32>
    requires within { (s : ℕ) → has (concat paths.now) s ≡ true → s < length marks.old }
    ensures none { IfNone result (MarksMore marks.old (concat paths.now) marks.new) }
    ensures some { IfSome result (λ s. StopsAt marks.old (concat paths.now) s marks.new) }
{
    for q in 0..paths.len() {
        if let Some(s) = mark(marks, paths.at(q)) {
            return Some(s);
        }
    }
    None
}

/// Marks the inner nodes of the paths, up to the first that is marked already.
fn mark_inner_nodes(
    web: &Web,
    pairs: &[(usize, usize)],
    branch: &[u32],
    paths: &Paths,
    marks: &mut [bool],
) -> Option<u32>
    requires pairs { PairsWithin (length branch.now) pairs.now }
    requires paths { length paths.now ≡ length pairs.now }
    requires lead { LeadAll web.now.ends branch.now pairs.now paths.now }
    requires sized { length marks.old ≡ web.now.nodes }
    ensures none { IfNone result (MarksMore marks.old (all_inner web.now.ends branch.now pairs.now paths.now) marks.new) }
    ensures some { IfSome result (λ v. StopsAt marks.old (all_inner web.now.ends branch.now pairs.now paths.now) v marks.new) }
{
    for (q, &(from, _)) in pairs.iter().enumerate() {
        if let Some(v) = mark_inner(web, branch[from], paths.at(q), marks) {
            return Some(v);
        }
    }
    None
}
