// Faces, as the cycles of the walk that goes from a dart to the successor of its reverse.
ghost use Rattle.std.specs.Prelude.{◌≡◌, ◌%◌, ◌^◌, ◌<◌, ◌≤◌, ◌↔◌, false, length, replicate, IfOk, IsTrue};
ghost use Rattle.xn_model.specs.Lists.{at};
ghost use Rattle.xn_model.specs.Map.{face_step};
ghost use Rattle.xn_model.specs.Permutation.{Permutes, Reaches};
ghost use Rattle.xn_map.specs.Faces.{face_cycles_of};
ghost use Rattle.xn_map.specs.Marks.{IsClosed, MarksCycle, is_marked};

use std::alloc::{AllocError, Global};
use xn_ring::Rings;

/// The number of cycles of the face walk.
pub fn face_cycle_count(alloc: Global, rings: &Rings) -> Result<u64, AllocError>
    requires { length rings.now % 2 ≡ 0 }
    ensures cycles { IfOk result (λ count. count ≡ face_cycles_of rings.now) }
    ensures few { IfOk result (λ count. count ≤ 2 ^ 31) }
{
    let mut marks = vec![in alloc; false; rings.len() as usize]?;
    Ok(mark_faces(marks.as_mut_slice(), rings) as u64)
}

// Marks each face, and counts them.
fn mark_faces(marks: &mut [bool], rings: &Rings) -> u32
    requires even { length rings.now % 2 ≡ 0 }
    requires none { marks.old ≡ replicate (length rings.now) false }
    ensures cycles { result ≡ face_cycles_of rings.now }
    ensures few { result ≤ length rings.now }
{
    let mut count = 0;
    for d in 0..rings.len() {
        if !marks[d as usize] {
            mark_face(marks, rings, d);
            count += 1;
        }
    }
    count
}

// Marks the face of a dart that isn't marked.
fn mark_face(marks: &mut [bool], rings: &Rings, d: u32)
    requires permutes { Permutes (length rings.now) (at rings.now) }
    requires even { length rings.now % 2 ≡ 0 }
    requires same_length { length marks.old ≡ length rings.now }
    requires dart { d < length rings.now }
    requires fresh { is_marked marks.old d ≡ false }
    requires closed { IsClosed (length rings.now) (face_step (at rings.now)) marks.old }
    ensures { MarksCycle (length rings.now) (face_step (at rings.now)) d marks.old marks.new }
{
    let mut e = d;
    while !marks[e as usize] {
        marks[e as usize] = true;
        e = rings.next(e ^ 1);
    }
}

/// Whether two darts lie in one face, where the rings have an even number of darts. Its time is linear in the face, and it takes
/// no memory.
pub fn in_one_face(rings: &Rings, d: u32, e: u32) -> bool
    requires even { length rings.now % 2 ≡ 0 }
    requires d_in { d < length rings.now }
    requires e_in { e < length rings.now }
    ensures { IsTrue result ↔ Reaches (face_step (at rings.now)) d e }
{
    let mut dart = d;
    for _ in 0..rings.len() {
        if dart == e {
            return true;
        }
        dart = rings.next(dart ^ 1);
        if dart == d {
            return false;
        }
    }
    false
}
