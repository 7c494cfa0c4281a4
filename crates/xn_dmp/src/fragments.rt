// Fragments: free segments that hang together at nodes that no placed segment meets.
ghost use Rattle.std.specs.Prelude.{◌≡◌, true, false, IfOk, IfSome, OnOk};
ghost use Rattle.std.specs.Bool.{OnTrue};
ghost use Rattle.std.specs.List.Sorted.{IsStrictlyIncreasing};
ghost use Rattle.xn_model.specs.Insertion.{is_old};
ghost use Rattle.xn_map.specs.Marks.{is_marked};
ghost use Rattle.xn_dmp.specs.Fragments.{FindsMore, Gathers, IsFound, IsStuckAt};
ghost use Rattle.xn_dmp.specs.Growing.{IsGrown};

use crate::growing::Growth;
use crate::rounds::Rounds;
use smallvec::SmallVec;
use std::alloc::{AllocError, Global};

/// The nodes at which placed segments meet a fragment: most have few.
pub type Contacts = SmallVec<u32, 4>;

/// Free segments: each but the first shares with an earlier one a node that no placed segment meets.
#[derive(Drop)]
pub struct Fragment {
    pub segments: Vec<u32>,
    pub contacts: Contacts,
}

/// The fragment of a free segment, of the segments that are marked as left, which aren't left then. Its time is that of the
/// darts at its nodes.
pub fn fragment_of(
    alloc: Global,
    growth: &Growth,
    left: &mut Rounds,
    met: &mut Rounds,
    start: u32,
) -> Result<Fragment, AllocError>
    requires { is_marked growth.now.free start ≡ true }
    ensures { IfOk result (λ f. IsFound growth.now f.segments.items f.contacts.items) }
{
    let mut segments = Vec::new(alloc);
    let mut contacts = SmallVec::new(alloc);
    met.begin();
    left.unmark(start);
    segments.push(start)?;
    for i in 0..growth.segments() {
        if i as usize >= segments.len() {
            break;
        }
        let (u, v) = growth.ends(segments[i as usize]);
        meet(growth, left, met, &mut segments, &mut contacts, u)?;
        meet(growth, left, met, &mut segments, &mut contacts, v)?;
    }
    Ok(Fragment { segments, contacts })
}

// A node of the fragment: a contact where a placed segment meets it, else all segments that are left there belong to it.
fn meet(
    growth: &Growth,
    left: &mut Rounds,
    met: &mut Rounds,
    segments: &mut Vec<u32>,
    contacts: &mut Contacts,
    v: u32,
) -> Result<(), AllocError>
    requires found { IsFound growth.now segments.old.items contacts.old.items }
    requires touches { is_old growth.now.web.ends segments.old.items v ≡ true }
    ensures { OnOk result (FindsMore growth.now segments.old.items segments.new.items contacts.new.items) }
{
    if met.is_marked(v) {
        return Ok(());
    }
    met.mark(v);
    if growth.is_old(v) {
        contacts.push(v)?;
        return Ok(());
    }
    gather(growth, left, segments, v)?;
    Ok(())
}

// All segments that are left at a node belong to the fragment.
fn gather(
    growth: &Growth,
    left: &mut Rounds,
    segments: &mut Vec<u32>,
    v: u32,
) -> Result<(), AllocError>
    requires new { is_old growth.now.web.ends growth.now.placed v ≡ false }
    requires touches { is_old growth.now.web.ends segments.old.items v ≡ true }
    ensures { OnOk result (Gathers growth.now segments.old.items segments.new.items) }
{
    let mut dart = growth.latest(v);
    while let Some(d) = dart {
        if take(growth, left, d / 2) {
            segments.push(d / 2)?;
        }
        dart = growth.earlier(d);
    }
    Ok(())
}

// Whether a segment is free and left. It isn't left then.
fn take(growth: &Growth, left: &mut Rounds, s: u32) -> bool
    ensures free { OnTrue result (is_marked growth.now.free s ≡ true) }
    ensures grown { IsGrown growth.now }
{
    if !growth.is_free(s) {
        return false;
    }
    if !left.is_marked(s) {
        return false;
    }
    left.unmark(s);
    true
}

/// The segments of the fragment of a free segment, where no face takes it. The placed segments rise.
pub fn stuck_fragment(
    alloc: Global,
    growth: &Growth,
    left: &mut Rounds,
    met: &mut Rounds,
    start: u32,
) -> Result<Option<Vec<u32>>, AllocError>
    requires start { is_marked growth.now.free start ≡ true }
    requires rises { IsStrictlyIncreasing growth.now.placed }
    ensures { IfOk result (λ found. IfSome found (λ f. IsStuckAt growth.now f.items)) }
{
    left.begin();
    for s in 0..growth.segments() {
        left.mark(s);
    }
    let Fragment { segments, contacts } = fragment_of(alloc, growth, left, met, start)?;
    let nodes = contacts.as_slice();
    if nodes.is_empty() {
        return Ok(None);
    }
    if growth.may_share_face(nodes) {
        return Ok(None);
    }
    Ok(Some(segments))
}
