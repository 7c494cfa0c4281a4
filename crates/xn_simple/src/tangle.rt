// Walks over a map that stays as it is, while they are cut and joined so that they meet less.
ghost use Rattle.std.specs.Prelude.{◌≡◌, ◌*◌, ◌/◌, ◌<◌, ◌≤◌, ℕ, suc, true, length};
ghost use Rattle.xn_model.specs.Lists.{at};
ghost use Rattle.xn_simple.specs.Tangle.{IsNoted, IsNotedAt, IsOther, IsPassIn, IsPassOver, IsWalkPut, IsSomeTangle, lists_in, named, node_in, unmarked, walk_in};

use xn_map::Map;

/// The edges that are in, their walks over a map, and what may still be a crossing.
#[derive(Drop)]
pub struct Tangle {
    /// The map. It never changes.
    pub map: Map,
    /// The edges that are in, in rising order.
    pub edges: Vec<u32>,
    /// Of each edge of the graph its walk, none where it isn't in.
    pub walks: Vec<Vec<u32>>,
    /// Of each node whether walks may still cross there.
    pub four: Vec<bool>,
    /// Which walk goes over a segment.
    pub notes: Notes,
}

/// Of each segment the edge whose walk went over it last, and at which place of the walk.
#[derive(Drop)]
pub struct Notes {
    /// The edges.
    pub owners: Vec<u32>,
    /// The places.
    pub places: Vec<usize>,
}

/// Where a walk passes a node: between its dart at this place and the next one.
#[derive(Clone, Copy)]
pub struct Pass {
    /// The edge whose walk it is.
    pub edge: u32,
    /// The place of the dart by which it comes.
    pub place: usize,
}

impl Notes {
    /// Notes the segments of a walk.
    pub fn note(&mut self, e: u32, walk: &[u32])
        requires owners { (i : ℕ) → i < length walk.now → at walk.now i < 2 * length self.old.owners.items }
        requires places { length self.old.places.items ≡ length self.old.owners.items }
        requires apart { (i j : ℕ) → i < length walk.now → j < length walk.now → at walk.now i / 2 ≡ at walk.now j / 2 → i ≡ j }
        ensures { IsNoted e walk.now self.old.owners.items self.old.places.items self.new.owners.items self.new.places.items }
    {
        for (i, d) in walk.iter().enumerate() {
            self.owners[(*d / 2) as usize] = e;
            self.places[(*d / 2) as usize] = i;
        }
    }
}

impl Tangle {
    /// Gives an edge another walk, and notes it.
    pub fn put(&mut self, e: u32, walk: Vec<u32>)
        requires edge { e < length self.old.walks.items }
        requires owners { (i : ℕ) → i < length walk.items → at walk.items i < 2 * length self.old.notes.owners.items }
        requires places { length self.old.notes.places.items ≡ length self.old.notes.owners.items }
        requires apart { (i j : ℕ) → i < length walk.items → j < length walk.items → at walk.items i / 2 ≡ at walk.items j / 2 → i ≡ j }
        ensures { IsWalkPut e walk.items (lists_in self.old) (lists_in self.new) }
    {
        self.notes.note(e, &walk);
        self.walks[e as usize] = walk;
    }

    /// At a node that may still be a crossing is no crossing any more.
    pub fn unmark(&mut self, v: u32)
        requires { v < length self.old.four.items }
        ensures { lists_in self.new ≡ unmarked (lists_in self.old) v }
    {
        self.four[v as usize] = false;
    }

    /// Whether the walk of an edge may cross another one where it leaves its dart at a place.
    pub fn is_named(&self, e: u32, i: usize) -> bool
        requires tangle { IsSomeTangle (lists_in self.now) }
        requires place { suc i < length (walk_in (lists_in self.now) e) }
        ensures { result ≡ named (lists_in self.now) (node_in (lists_in self.now) e i) }
    {
        let v = self.map.tail(self.leaving(e, i));
        self.four[v as usize]
    }

    /// The other pass of the node that the walk of an edge passes at a place, where walks may still cross there.
    pub fn other_pass(&self, e: u32, i: usize) -> Option<Pass>
        requires tangle { IsSomeTangle (lists_in self.now) }
        requires place { suc i < length (walk_in (lists_in self.now) e) }
        requires holds { named (lists_in self.now) (node_in (lists_in self.now) e i) ≡ true }
        ensures { IsOther (lists_in self.now) e i result }
    {
        match self.pass_over(self.map.next(self.leaving(e, i))) {
            Some(pass) => {
                if pass.edge == e && pass.place == i {
                    None
                } else {
                    Some(pass)
                }
            }
            None => None,
        }
    }

    // The dart by which the walk of an edge leaves the node that it passes at a place.
    fn leaving(&self, e: u32, i: usize) -> u32
        requires tangle { IsSomeTangle (lists_in self.now) }
        requires place { suc i < length (walk_in (lists_in self.now) e) }
        ensures value { result ≡ at (walk_in (lists_in self.now) e) (suc i) }
        ensures dart { result < length self.now.map.next }
    {
        self.walks[e as usize][i + 1]
    }

    // The pass of the node of a dart that goes over it, if there is one.
    fn pass_over(&self, d: u32) -> Option<Pass>
        requires tangle { IsSomeTangle (lists_in self.now) }
        requires dart { d < length self.now.map.next }
        ensures { IsPassOver (lists_in self.now) d result }
    {
        let s = (d / 2) as usize;
        let (edge, place) = (self.notes.owners[s], self.notes.places[s]);
        if edge as usize >= self.walks.len() {
            return None;
        }
        match pass_in(&self.map, &self.walks[edge as usize], place, d) {
            Some(place) => Some(Pass { edge, place }),
            None => None,
        }
    }
}

// The place at which a walk passes the node of a dart over this dart, whose segment it has at the noted place.
fn pass_in(map: &Map, walk: &[u32], noted: usize, d: u32) -> Option<usize>
    requires dart { d < length map.now.next }
    requires darts { (i : ℕ) → i < length walk.now → at walk.now i < length map.now.next }
    ensures { IsPassIn map.now.web.ends walk.now noted d result }
{
    if noted >= walk.len() {
        return None;
    }
    let place = place_before(walk, noted, d);
    if place + 1 < walk.len() && map.tail(walk[place + 1]) == map.tail(d) {
        Some(place)
    } else {
        None
    }
}

// The place from which a walk goes over a dart: the noted one where it has the reverse there, and else the one before.
fn place_before(walk: &[u32], noted: usize, d: u32) -> usize
    requires { noted < length walk.now }
    ensures below { result ≤ noted }
    ensures place { (j : ℕ) → IsNotedAt walk.now j d noted → result ≡ j }
{
    if walk[noted] == d && noted > 0 {
        noted - 1
    } else {
        noted
    }
}
