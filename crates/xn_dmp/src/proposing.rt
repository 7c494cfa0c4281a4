// What is proposed: which fragment is next, and which of its paths goes through which face. The map is what counts.
ghost use Rattle.std.specs.Prelude.{◌≡◌, true, IfOk, IfSome};
ghost use Rattle.std.specs.List.Sorted.{IsStrictlyIncreasing};
ghost use Rattle.xn_map.specs.Marks.{is_marked};
ghost use Rattle.xn_dmp.specs.Fragments.{IsStuckAt};
ghost use Rattle.xn_dmp.specs.Growing.{Grows};

use crate::fragments::{Fragment, fragment_of, stuck_fragment};
use crate::growing::Growth;
use crate::numbering::{Numbering, next_of};
use crate::paths::Search;
use crate::rounds::{Rounds, read};
use crate::watching::{NONE, Watching};
use slab::Slab;
use std::alloc::{AllocError, Global};
use xn_map::Corner;

/// The fragments of what may be placed, and what is known of the faces that take them.
#[derive(Drop)]
pub struct Proposer {
    numbering: Numbering,
    search: Search,
    fragments: Slab<Watcher>,
    watching: Watching,
    /// The keys of fragments that no face takes, that one takes, and of all as they came; some are of fragments that are gone.
    stuck: Vec<u32>,
    ready: Vec<u32>,
    waiting: Vec<u32>,
    /// Free segments that stand in no fragment that is kept.
    left: Rounds,
    met: Rounds,
}

// A fragment, and the faces that it watches: two that take it, or all where there are fewer.
#[derive(Drop)]
struct Watcher {
    fragment: Fragment,
    first: u32,
    second: u32,
}

impl Proposer {
    /// Keeps the fragments of the listed segments, where one is placed.
    pub fn begin(alloc: Global, growth: &Growth, list: &[u32]) -> Result<Proposer, AllocError> {
        let mut proposer = Proposer {
            numbering: Numbering::new(alloc, growth.nodes())?,
            search: Search::new(alloc, growth.nodes())?,
            fragments: Slab::new(alloc),
            watching: Watching::new(alloc),
            stuck: Vec::new(alloc),
            ready: Vec::new(alloc),
            waiting: Vec::new(alloc),
            left: Rounds::new(alloc, growth.segments())?,
            met: Rounds::new(alloc, growth.nodes())?,
        };
        proposer.numbering.push_darts(0)?;
        proposer.numbering.split(growth.map(), 0)?;
        proposer.watching.push_face()?;
        proposer.keep_rest(alloc, growth, list)?;
        Ok(proposer)
    }

    // Keeps the fragments of those of these segments that are free.
    fn keep_rest(
        &mut self,
        alloc: Global,
        growth: &Growth,
        segments: &[u32],
    ) -> Result<(), AllocError> {
        for s in segments {
            self.left.mark(*s);
        }
        for s in segments {
            if self.left.is_marked(*s) && growth.is_free(*s) {
                self.keep_fragment(alloc, growth, *s)?;
            }
        }
        Ok(())
    }

    // Keeps the fragment of a segment.
    fn keep_fragment(&mut self, alloc: Global, growth: &Growth, s: u32) -> Result<(), AllocError>
        requires { is_marked growth.now.free s ≡ true }
    {
        let fragment = fragment_of(alloc, growth, &mut self.left, &mut self.met, s)?;
        self.keep(growth, fragment)
    }

    // Keeps a fragment, which watches two faces that take it, or as many as there are.
    fn keep(&mut self, growth: &Growth, fragment: Fragment) -> Result<(), AllocError> {
        let (first, second) = self
            .numbering
            .common(growth.map(), fragment.contacts.as_slice());
        let may_wait = second.is_some() && fragment.contacts.len() > 1;
        let watcher = Watcher {
            fragment,
            first: first.unwrap_or(NONE),
            second: second.unwrap_or(NONE),
        };
        let key = (self.fragments.insert(watcher)? % (1 << 30)) as u32;
        if self.watching.slots() <= 2 * key as usize {
            self.watching.push_slots()?;
        }
        self.watching.watch(first.unwrap_or(NONE), 2 * key);
        self.watching.watch(second.unwrap_or(NONE), 2 * key + 1);
        if first.is_none() {
            self.stuck.push(key)?;
        } else if may_wait {
            self.waiting.push(key)?;
        } else {
            self.ready.push(key)?;
        }
        Ok(())
    }

    /// Places a path of a fragment, as far as that can be: of one that no face takes, or one, if there is one. It answers the
    /// first segment of the fragment.
    pub fn propose(&mut self, alloc: Global, growth: &mut Growth) -> Result<u32, AllocError>
        ensures { Grows growth.old growth.new }
    {
        let Some(
            Watcher {
                fragment,
                first,
                second,
            },
        ) = self.choose()?
        else {
            return Ok(0);
        };
        let face = if first == NONE { second } else { first };
        if face != NONE {
            self.place_path(alloc, growth, &fragment, face)?;
        }
        self.keep_rest(alloc, growth, fragment.segments.as_slice())?;
        Ok(read(&fragment.segments, 0))
    }

    // Takes out a fragment that no face takes, or that one takes, or else any.
    fn choose(&mut self) -> Result<Option<Watcher>, AllocError> {
        let stuck = pop_live(&mut self.stuck, &self.fragments);
        if stuck.is_some() {
            return Ok(self.take(stuck));
        }
        let ready = self.pop_ready()?;
        if ready.is_some() {
            return Ok(self.take(ready));
        }
        let waiting = pop_live(&mut self.waiting, &self.fragments);
        Ok(self.take(waiting))
    }

    // The key of a fragment that is ready. One that two faces take by now waits.
    fn pop_ready(&mut self) -> Result<Option<u32>, AllocError> {
        for _ in 0..self.ready.len() {
            let Some(key) = pop_live(&mut self.ready, &self.fragments) else {
                return Ok(None)
            };
            if !self.may_wait(key) {
                return Ok(Some(key));
            }
            self.waiting.push(key)?;
        }
        Ok(None)
    }

    // Whether two faces take a fragment with at least two contacts.
    fn may_wait(&self, key: u32) -> bool {
        match self.fragments.get(key as usize) {
            Some(watcher) => watcher.first != NONE
                && watcher.second != NONE
                && watcher.fragment.contacts.len() > 1,
            None => false,
        }
    }

    // Takes a fragment out, which watches no face then.
    fn take(&mut self, key: Option<u32>) -> Option<Watcher> {
        let key = key? % (1 << 30);
        let watcher = self.fragments.try_remove(key as usize)?;
        self.watching.leave(watcher.first, 2 * key);
        self.watching.leave(watcher.second, 2 * key + 1);
        Some(watcher)
    }

    // Places a path of a fragment in a face, as far as that can be.
    fn place_path(
        &mut self,
        alloc: Global,
        growth: &mut Growth,
        fragment: &Fragment,
        face: u32,
    ) -> Result<(), AllocError>
        ensures { Grows growth.old growth.new }
    {
        let path = self.search.path(alloc, growth, fragment)?;
        let start = growth.count() + read(&path, 0) % 2;
        self.place_darts(growth, &path, face)?;
        if fragment.contacts.len() > 1 {
            let new = self.numbering.split(growth.map(), start)?;
            self.watching.push_face()?;
            self.update(growth, face, new)?;
        }
        Ok(())
    }

    // Places the segments of a path in a face, one after another.
    fn place_darts(
        &mut self,
        growth: &mut Growth,
        path: &[u32],
        face: u32,
    ) -> Result<(), AllocError>
        ensures { Grows growth.old growth.new }
    {
        for d in path {
            if !self.place_dart(growth, *d, face)? {
                return Ok(());
            }
        }
        Ok(())
    }

    // Places the segment of a dart in a face, if that can be.
    fn place_dart(&mut self, growth: &mut Growth, d: u32, face: u32) -> Result<bool, AllocError>
        ensures { Grows growth.old growth.new }
    {
        let (u, v) = (growth.head(d | 1), growth.head(d & 0xfffffffe));
        let (Some(first), Some(second)) = (
            self.corner(growth, u, face),
            self.corner(growth, v, face),
        ) else {
            return Ok(false)
        };
        if !growth.place(d / 2, first, second)? {
            return Ok(false);
        }
        self.numbering.push_darts(face)?;
        Ok(true)
    }

    // A corner of a node in a face.
    fn corner(&self, growth: &Growth, v: u32, face: u32) -> Option<Corner> {
        let map = growth.map();
        let Some(first) = map.dart_of(v) else {
            return Some(Corner::Lone(v))
        };
        let mut d = first;
        for _ in 0..growth.count() {
            let after = next_of(map, d);
            if face == self.numbering.of(after) {
                return Some(Corner::After(d));
            }
            d = after;
            if d == first {
                return None;
            }
        }
        None
    }

    // The fragments that watched a face, before it was split, watch faces that take them still.
    fn update(&mut self, growth: &Growth, old: u32, new: u32) -> Result<(), AllocError> {
        let mut slot = self.watching.first(old);
        for _ in 0..self.watching.slots() {
            if slot == NONE {
                break;
            }
            let next = self.watching.after(slot);
            self.look(growth, slot, old, new)?;
            slot = next;
        }
        Ok(())
    }

    // A fragment looks which of the two faces takes it, and else for another that does.
    fn look(&mut self, growth: &Growth, slot: u32, old: u32, new: u32) -> Result<(), AllocError> {
        let Some(watcher) = self.fragments.get_mut(slot as usize / 2) else {
            return Ok(())
        };
        let nodes = watcher.fragment.contacts.as_slice();
        let other = if slot % 2 == 0 {
            watcher.second
        } else {
            watcher.first
        };
        if self.numbering.old_has(nodes) {
            if other == NONE && self.numbering.new_has(nodes) {
                self.watching.watch(new, slot ^ 1);
                set_face(watcher, slot ^ 1, new);
            }
            return Ok(());
        }
        self.watching.leave(old, slot);
        let found = if self.numbering.new_has(nodes) {
            new
        } else {
            let (first, second) = self.numbering.common(growth.map(), nodes);
            let one = first.unwrap_or(NONE);
            if one == other {
                second.unwrap_or(NONE)
            } else {
                one
            }
        };
        self.watching.watch(found, slot);
        set_face(watcher, slot, found);
        if found == NONE && other == NONE {
            self.stuck.push(slot / 2)?;
        } else if found == NONE {
            self.ready.push(slot / 2)?;
        }
        Ok(())
    }

    /// The segments of the fragment of a free segment, where no face takes it. The placed segments rise.
    pub fn stuck(
        &mut self,
        alloc: Global,
        growth: &Growth,
        start: u32,
    ) -> Result<Option<Vec<u32>>, AllocError>
        requires start { is_marked growth.now.free start ≡ true }
        requires rises { IsStrictlyIncreasing growth.now.placed }
        ensures { IfOk result (λ found. IfSome found (λ f. IsStuckAt growth.now f.items)) }
    {
        stuck_fragment(alloc, growth, &mut self.left, &mut self.met, start)
    }
}

// The face that a slot of a fragment watches is another.
fn set_face(watcher: &mut Watcher, slot: u32, face: u32) {
    if slot % 2 == 0 {
        watcher.first = face;
    } else {
        watcher.second = face;
    }
}

// Takes keys out up to one of a fragment that is there.
fn pop_live(keys: &mut Vec<u32>, fragments: &Slab<Watcher>) -> Option<u32> {
    for _ in 0..keys.len() {
        let key = keys.pop()?;
        if fragments.get(key as usize).is_some() {
            return Some(key);
        }
    }
    None
}
