// What is known of the values of a drawing: what a state gives, and what the search tries beyond it.
ghost use Rattle.std.specs.Prelude.{◌≡◌, ◌≤◌, IfOk, [], slice_index_or};
ghost use Rattle.xn_kinds.specs.Row.{literal};
ghost use Rattle.xn_brute.specs.Known.{Evaluates, decided_in, is_same, known_of, order_in, state_of, given_by, tried_in, value_at};

use crate::lists::{has, position_in};
use xn_kinds::Var;
use xn_list::{Lists, Sequence};

/// What a state gives: the decided pairs, true where they cross, and along each edge the placed edges in order.
#[derive(Drop)]
pub struct Given {
    /// Pairs of edges, the smaller first, and whether they cross. The first entry of a pair counts.
    pub decided: Sequence<(u32, u32, bool)>,
    /// For each edge the placed edges, along it. There may be fewer lists than edges.
    pub placed: Lists,
}

/// What a state gives, and the values that the search tries beyond it.
#[derive(Clone, Copy)]
pub struct Known<'a> {
    /// The state.
    pub given: &'a Given,
    /// Further variables, and whether they are 1.
    pub tried: &'a [(Var, bool)],
}

// Whether the pair is decided to cross, if it is decided.
fn decided_in(decided: &[(u32, u32, bool)], e: u32, f: u32) -> Option<bool>
    ensures { result ≡ decided_in decided.now e f }
{
    for p in decided {
        if p.0 == e && p.1 == f {
            return Some(p.2);
        }
    }
    None
}

// Whether f stands before g, if both stand in the list.
fn order_in(list: &[u32], f: u32, g: u32) -> Option<bool>
    ensures { result ≡ order_in list.now f g }
{
    if has(list, f) && has(list, g) {
        Some(position_in(list, f) < position_in(list, g))
    } else {
        None
    }
}

// The list at a place, or none.
fn list_at(lists: &Lists, e: u32) -> &[u32]
    ensures { result.now ≡ slice_index_or lists.now e [] }
{
    let i = e as usize;
    if i < lists.len() { lists.at(i) } else { &[] }
}

// What the state gives of a variable.
fn given_by(given: &Given, x: Var) -> Option<bool>
    ensures { result ≡ given_by (state_of given.now) x }
{
    match x {
        Var::Cross(e, f) => decided_in(given.decided.as_slice(), e, f),
        Var::Before(e, f, g) => order_in(list_at(&given.placed, e), f, g),
    }
}

// Whether the variables are the same.
fn is_same(x: Var, y: Var) -> bool
    ensures { result ≡ is_same x y }
{
    match (x, y) {
        (Var::Cross(a, b), Var::Cross(c, d)) => a == c && b == d,
        (Var::Before(a, b, c), Var::Before(d, e, f)) => a == d && b == e && c == f,
        (Var::Cross(_, _), Var::Before(_, _, _)) | (Var::Before(_, _, _), Var::Cross(_, _)) =>
            false,
    }
}

// What is tried of a variable.
fn tried_in(tried: &[(Var, bool)], x: Var) -> Option<bool>
    ensures { result ≡ tried_in tried.now x }
{
    for p in tried {
        if is_same(p.0, x) {
            return Some(p.1);
        }
    }
    None
}

// What is known of a variable.
fn known_of(known: &Known, x: Var) -> Option<bool>
    ensures { result ≡ known_of known.now x }
{
    match tried_in(known.tried, x) {
        Some(is) => Some(is),
        None => given_by(known.given, x),
    }
}

/// The value of a variable, or the variable where it isn't known.
pub fn value_of(known: &Known, x: Var) -> Result<u64, Var>
    ensures value { Evaluates (known_of known.now) (λ v. value_at v x) result }
    ensures bit { IfOk result (λ n. n ≤ 1) }
{
    match known_of(known, x) {
        Some(is) => Ok(u64::from(is)),
        None => Err(x),
    }
}

/// Whether f stands before g on e, as 0 or 1.
pub fn literal(known: &Known, e: u32, f: u32, g: u32) -> Result<u64, Var>
    ensures value { Evaluates (known_of known.now) (λ v. literal v e f g) result }
    ensures bit { IfOk result (λ n. n ≤ 1) }
{
    if f < g {
        value_of(known, Var::Before(e, f, g))
    } else {
        Ok(1 - value_of(known, Var::Before(e, g, f))?)
    }
}
