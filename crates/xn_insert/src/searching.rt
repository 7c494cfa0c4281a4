// A search over faces that have names, by rounds, from goals to the nearest start.
ghost use Rattle.std.specs.Prelude.{◌≡◌, ℕ, ◌%◌, ◌^◌, ◌<◌, ◌≤◌, [], true, IfOk, MatchOption, length};
ghost use Rattle.xn_model.specs.Lists.{at, has};
ghost use Rattle.xn_insert.specs.Routed.{IsDual};
ghost use Rattle.xn_insert.specs.Search.{IsChain, IsFound, IsMarked, IsReadBack, IsRound, ListsMarked, NoneFound};

use std::alloc::{AllocError, Global};
use xn_graph::Stars;

/// The nearest start, and how many segments it is from a goal. `by` has the marks of the goals; with each face that is
/// met it gets the dart by which that leads on. Each face and each dart is met once.
pub fn nearest(
    alloc: Global,
    stars: &Stars,
    names: &[u32],
    starts: &[u32],
    by: &mut [u32],
) -> Result<Option<(u32, u32)>, AllocError>
    requires few { length names.now ≤ 2 ^ 30 }
    requires dual { IsDual names.now stars.now }
    requires below { (d : ℕ) → d < length names.now → at names.now d < length names.now }
    requires starts { length starts.now ≡ length names.now }
    requires goals { length by.old ≡ length names.now }
    requires marks { (x : ℕ) → x < length names.now → at by.old x ≤ length names.now }
    ensures { IfOk result (λ found. MatchOption found (NoneFound names.now by.old starts.now) (λ p. IsFound names.now by.old starts.now by.new p.0 p.1)) }
{
    let mut front = marked(alloc, by)?;
    let mut rounds = 0;
    loop {
        if let Some(x) = first_marked(starts, &front) {
            return Ok(Some((x, rounds)));
        }
        if front.is_empty() {
            return Ok(None);
        }
        front = next_front(alloc, stars, names, by, &front)?;
        rounds += 1;
    }
}

// The faces that are marked.
fn marked(alloc: Global, marks: &[u32]) -> Result<Vec<u32>, AllocError>
    requires { length marks.now ≤ 2 ^ 30 }
    ensures { IfOk result (λ front. ListsMarked marks.now front.items) }
{
    let mut front = Vec::new(alloc);
    for x in 0..marks.len() as u32 {
        if (marks[x as usize] as usize) < marks.len() {
            front.push(x)?;
        }
    }
    Ok(front)
}

// The first of the listed faces that is marked.
fn first_marked(marks: &[u32], front: &[u32]) -> Option<u32>
    requires { (x : ℕ) → has front.now x ≡ true → x < length marks.now }
    ensures { MatchOption result ((x : ℕ) → has front.now x ≡ true → length marks.now ≤ at marks.now x)
        (λ x. (has front.now x ≡ true) × IsMarked marks.now marks.now x) }
{
    for x in front {
        if (marks[*x as usize] as usize) < marks.len() {
            return Some(*x);
        }
    }
    None
}

// Meets the faces beyond the segments of the front, and lists them.
fn next_front(
    alloc: Global,
    stars: &Stars,
    names: &[u32],
    by: &mut [u32],
    front: &[u32],
) -> Result<Vec<u32>, AllocError>
    requires few { length names.now ≤ 2 ^ 30 }
    requires dual { IsDual names.now stars.now }
    requires below { (d : ℕ) → d < length names.now → at names.now d < length names.now }
    requires size { length by.old ≡ length names.now }
    requires marks { (x : ℕ) → x < length names.now → at by.old x ≤ length names.now }
    requires front { (x : ℕ) → has front.now x ≡ true → x < length names.now }
    ensures { IfOk result (λ next. IsRound names.now by.old front.now (length front.now) [] 0 by.new next.items) }
{
    let mut next = Vec::new(alloc);
    for x in front {
        for d in stars.at(*x) {
            let y = names[(*d ^ 1) as usize];
            if by[y as usize] as usize == names.len() {
                by[y as usize] = *d ^ 1;
                next.push(y)?;
            }
        }
    }
    Ok(next)
}

/// The darts by which a face leads on, so many times, and the face at the end.
pub fn read_back(
    alloc: Global,
    names: &[u32],
    by: &[u32],
    face: u32,
    steps: u32,
) -> Result<(Vec<u32>, u32), AllocError>
    requires size { length by.now ≡ length names.now }
    requires chain { IsChain names.now by.now steps face }
    requires below { (d : ℕ) → d < length names.now → at names.now d < length names.now }
    requires even { length names.now % 2 ≡ 0 }
    ensures { IfOk result (λ r. IsReadBack names.now by.now steps face r.0.items r.1) }
{
    let mut darts = Vec::new(alloc);
    let mut x = face;
    for _ in 0..steps {
        let d = by[x as usize];
        darts.push(d)?;
        x = names[(d ^ 1) as usize];
    }
    Ok((darts, x))
}
