// Some darts of a map under numbers of their own.
ghost use Rattle.std.specs.Prelude.{◌≡◌, ℕ, ◌^◌, ◌<◌, ◌≤◌, true, length, IfOk};
ghost use Rattle.xn_model.specs.Lists.{at, has};
ghost use Rattle.xn_genus.specs.Part.{ComesFirst, PassesOver};
ghost use Rattle.xn_map.specs.Listed.{IsListedMap};
ghost use Rattle.xn_simple.specs.Turning.{AreDartsOnce, HoldPlaces};

use std::alloc::{AllocError, Global};
use xn_map::Map;

/// For each of the listed darts the place of the first listed one that comes after it round its node.
pub fn turns_along(alloc: Global, map: &Map, starts: &[u32]) -> Result<Vec<u32>, AllocError>
    requires few { length starts.now ≤ 2 ^ 31 }
    requires once { AreDartsOnce (length map.now.next) starts.now }
    ensures size { IfOk result (λ turns. length turns.items ≡ length starts.now) }
    ensures over { IfOk result (λ turns. PassesOver (length starts.now) (at starts.now) (at map.now.next) (at turns.items)) }
{
    let mut places = vec![in alloc; 0; 2 * map.web().segments() as usize]?;
    fill_places(places.as_mut_slice(), starts);
    turns_by(alloc, map, starts, &places)
}

// The place of the listed dart that comes next after each.
fn turns_by(
    alloc: Global,
    map: &Map,
    starts: &[u32],
    places: &[u32],
) -> Result<Vec<u32>, AllocError>
    requires is_map { IsListedMap map.now }
    requires once { AreDartsOnce (length map.now.next) starts.now }
    requires places { HoldPlaces starts.now places.now }
    requires darts { length places.now ≡ length map.now.next }
    ensures size { IfOk result (λ turns. length turns.items ≡ length starts.now) }
    ensures over { IfOk result (λ turns. PassesOver (length starts.now) (at starts.now) (at map.now.next) (at turns.items)) }
{
    let mut turns = Vec::new(alloc);
    for d in starts {
        turns.push(place_after(map, starts, places, *d))?;
    }
    Ok(turns)
}

// The place of the first listed dart after a listed one.
fn place_after(map: &Map, starts: &[u32], places: &[u32], d: u32) -> u32
    requires is_map { IsListedMap map.now }
    requires places { HoldPlaces starts.now places.now }
    requires darts { length places.now ≡ length map.now.next }
    requires dart { d < length map.now.next }
    requires listed { has starts.now d ≡ true }
    ensures below { result < length starts.now }
    ensures first { ComesFirst (length starts.now) (at starts.now) (at map.now.next) d (at starts.now result) }
{
    let mut e = map.next(d);
    while !is_listed(starts, places, e) {
        e = map.next(e);
    }
    places[e as usize]
}

// Whether a dart is listed.
fn is_listed(starts: &[u32], places: &[u32], d: u32) -> bool
    requires places { HoldPlaces starts.now places.now }
    requires dart { d < length places.now }
    ensures { result ≡ has starts.now d }
{
    let x = places[d as usize] as usize;
    x < starts.len() && starts[x] == d
}

// Gives each listed dart its place.
fn fill_places(places: &mut [u32], starts: &[u32])
    requires few { length starts.now ≤ 2 ^ 31 }
    requires below { (x : ℕ) → x < length starts.now → at starts.now x < length places.old }
    requires apart { (x y : ℕ) → x < length starts.now → y < length starts.now → at starts.now x ≡ at starts.now y → x ≡ y }
    ensures { HoldPlaces starts.now places.new }
{
    for (x, d) in starts.iter().enumerate() {
        places[*d as usize] = x as u32;
    }
}
