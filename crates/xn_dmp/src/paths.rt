// Paths through a fragment: proposals which segments to place.

use crate::fragments::Fragment;
use crate::growing::Growth;
use crate::rounds::{Rounds, read, write};
use std::alloc::{AllocError, Global};

/// A search for paths: the dart that led to each node.
#[derive(Drop)]
pub struct Search {
    from: Vec<u32>,
    met: Rounds,
}

impl Search {
    /// No node is met.
    pub fn new(alloc: Global, nodes: u32) -> Result<Search, AllocError> {
        Ok(Search {
            from: vec![in alloc; 0; nodes as usize]?,
            met: Rounds::new(alloc, nodes)?,
        })
    }

    /// Darts that lead through the fragment from a contact to another contact, by a shortest way. Where there is no other they
    /// lead on as far as each node has two darts.
    pub fn path(
        &mut self,
        alloc: Global,
        growth: &Growth,
        fragment: &Fragment,
    ) -> Result<Vec<u32>, AllocError> {
        let start = first_dart(growth, fragment.segments.as_slice());
        if fragment.contacts.len() < 2 {
            return chain(alloc, growth, start);
        }
        let mut queue = Vec::new(alloc);
        self.met.begin();
        self.met.mark(growth.head(start ^ 1));
        let mut end = self.step(growth, &mut queue, start)?;
        for i in 0..growth.nodes() {
            if end.is_some() || i as usize >= queue.len() {
                break;
            }
            let v = read(&queue, i);
            end = self.leave(growth, &mut queue, v)?;
        }
        self.back(alloc, growth, start, end.unwrap_or(start))
    }

    // Goes along all darts of a node: the dart that leads to another contact, if there is one.
    fn leave(
        &mut self,
        growth: &Growth,
        queue: &mut Vec<u32>,
        v: u32,
    ) -> Result<Option<u32>, AllocError> {
        let mut dart = growth.latest(v);
        for _ in 0..2 * growth.segments() {
            let Some(d) = dart else { return Ok(None) };
            if let Some(end) = self.step(growth, queue, d)? {
                return Ok(Some(end));
            }
            dart = growth.earlier(d);
        }
        Ok(None)
    }

    // Goes along a dart: the dart, where it leads to a contact that isn't met yet.
    fn step(
        &mut self,
        growth: &Growth,
        queue: &mut Vec<u32>,
        d: u32,
    ) -> Result<Option<u32>, AllocError> {
        let w = growth.head(d);
        if self.met.is_marked(w) {
            return Ok(None);
        }
        self.met.mark(w);
        write(self.from.as_mut_slice(), w, d);
        if growth.is_old(w) {
            return Ok(Some(d));
        }
        queue.push(w)?;
        Ok(None)
    }

    // The darts that led to the head of the last one, in order.
    fn back(
        &self,
        alloc: Global,
        growth: &Growth,
        start: u32,
        last: u32,
    ) -> Result<Vec<u32>, AllocError> {
        let mut path = Vec::new(alloc);
        path.push(last)?;
        let mut d = last;
        for _ in 0..growth.nodes() {
            if d == start {
                break;
            }
            d = read(&self.from, growth.head(d ^ 1));
            path.push(d)?;
        }
        path.as_mut_slice().reverse();
        Ok(path)
    }
}

// The darts from this one on through nodes with two darts, up to a node that is placed or has another number of darts.
fn chain(alloc: Global, growth: &Growth, start: u32) -> Result<Vec<u32>, AllocError> {
    let mut path = Vec::new(alloc);
    path.push(start)?;
    let mut d = start;
    for _ in 0..growth.nodes() {
        match straight_on(growth, d) {
            Some(e) if !growth.is_old(growth.head(e)) && e != start => d = e,
            _ => break,
        }
        path.push(d)?;
    }
    Ok(path)
}

// The other dart at the head of a dart, where there are two.
fn straight_on(growth: &Growth, d: u32) -> Option<u32> {
    let first = growth.latest(growth.head(d))?;
    let second = growth.earlier(first)?;
    if growth.earlier(second).is_some() {
        return None;
    }
    Some(if first == d ^ 1 { second } else { first })
}

// A dart of one of these segments at a node that is placed, or of the first.
fn first_dart(growth: &Growth, segments: &[u32]) -> u32 {
    for s in segments {
        let d = dart_of(*s);
        if growth.is_old(growth.head(d ^ 1)) {
            return d;
        }
        if growth.is_old(growth.head(d)) {
            return d ^ 1;
        }
    }
    dart_of(read(segments, 0))
}

// The first dart of a segment.
fn dart_of(s: u32) -> u32 {
    2 * (s % (1 << 30))
}
