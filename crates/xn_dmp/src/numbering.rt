// Numbers of the faces of a map that grows: proposals where to put a path.
use crate::rounds::{Rounds, read, write};
use std::alloc::{AllocError, Global};
use xn_map::Map;

/// A number for each dart, that of its face, and hits that are counted for each face.
#[derive(Drop)]
pub struct Numbering {
    numbers: Vec<u32>,
    hits: Vec<u64>,
    /// Hits up to this number are old.
    base: u64,
    /// The nodes of the two faces that the face that was split last has become: with a number of its own, and with the old one.
    new: Rounds,
    old: Rounds,
}

impl Numbering {
    /// No dart, and nodes below n.
    pub fn new(alloc: Global, n: u32) -> Result<Numbering, AllocError> {
        Ok(Numbering {
            numbers: Vec::new(alloc),
            hits: Vec::new(alloc),
            base: 0,
            new: Rounds::new(alloc, n)?,
            old: Rounds::new(alloc, n)?,
        })
    }

    /// The number of a dart's face.
    pub fn of(&self, d: u32) -> u32 {
        read(&self.numbers, d)
    }

    /// Two darts more, in this face.
    pub fn push_darts(&mut self, face: u32) -> Result<(), AllocError> {
        self.numbers.push(face)?;
        self.numbers.push(face)?;
        Ok(())
    }

    /// Gives the face of a dart a number of its own, the next, which it answers, and keeps the nodes of it and of the face on
    /// the other side.
    pub fn split(&mut self, map: &Map, d: u32) -> Result<u32, AllocError> {
        let face = (self.hits.len() as u64 % (1 << 32)) as u32;
        self.hits.push(0)?;
        self.set_face(map, d, face);
        mark_nodes(map, d, &mut self.new);
        mark_nodes(map, d ^ 1, &mut self.old);
        Ok(face)
    }

    /// Whether the face with the new number, of the split before, has a corner at each of these nodes.
    pub fn new_has(&self, nodes: &[u32]) -> bool {
        all_marked(&self.new, nodes)
    }

    /// Whether that with the old number has.
    pub fn old_has(&self, nodes: &[u32]) -> bool {
        all_marked(&self.old, nodes)
    }

    // Numbers the darts of a face.
    fn set_face(&mut self, map: &Map, d: u32, face: u32) {
        let mut e = d;
        for _ in 0..2 * map.web().segments() {
            write(self.numbers.as_mut_slice(), e, face);
            e = face_next(map, e);
            if e == d {
                return;
            }
        }
    }

    /// Faces that have a corner at each of these nodes: two, if there are two.
    pub fn common(&mut self, map: &Map, nodes: &[u32]) -> (Option<u32>, Option<u32>) {
        let base = self.base;
        self.base = base.saturating_add(nodes.len() as u64);
        let mut found = (None, None);
        for (i, v) in nodes.iter().enumerate() {
            let hits = base.saturating_add(i as u64);
            let least = if i == 0 { 0 } else { hits };
            found = self.hit(map, *v, least, hits);
        }
        found
    }

    // Hits the faces at a node that have this many hits: two of them, if there are two.
    fn hit(&mut self, map: &Map, v: u32, least: u64, most: u64) -> (Option<u32>, Option<u32>) {
        let mut found = (None, None);
        let Some(first) = map.dart_of(v) else {
            return found
        };
        let mut d = first;
        for _ in 0..2 * map.web().segments() {
            let face = self.of(d);
            let hits = self.hits_of(face);
            if least <= hits && hits <= most {
                self.set_hits(face, most.saturating_add(1));
                found = (Some(face), found.0);
            }
            d = next_of(map, d);
            if d == first {
                return found;
            }
        }
        found
    }

    fn hits_of(&self, face: u32) -> u64 {
        if (face as usize) < self.hits.len() {
            self.hits[face as usize]
        } else {
            0
        }
    }

    fn set_hits(&mut self, face: u32, hits: u64) {
        if (face as usize) < self.hits.len() {
            self.hits[face as usize] = hits;
        }
    }
}

// Whether each of these nodes is marked.
fn all_marked(marks: &Rounds, nodes: &[u32]) -> bool {
    nodes.iter().all(|v| marks.is_marked(*v))
}

// Marks the nodes of the face of a dart, and no other.
fn mark_nodes(map: &Map, d: u32, marks: &mut Rounds) {
    marks.begin();
    let mut e = d;
    for _ in 0..2 * map.web().segments() {
        marks.mark(tail_of(map, e));
        e = face_next(map, e);
        if e == d {
            return;
        }
    }
}

/// The next dart round the node, or the dart itself where there is no such dart.
pub fn next_of(map: &Map, d: u32) -> u32 {
    if d < 2 * map.web().segments() {
        map.next(d)
    } else {
        d
    }
}

// The next dart along the face.
fn face_next(map: &Map, d: u32) -> u32 {
    next_of(map, d ^ 1)
}

// The node of a dart, or 0 where there is no such dart.
fn tail_of(map: &Map, d: u32) -> u32 {
    if d < 2 * map.web().segments() {
        map.tail(d)
    } else {
        0
    }
}
