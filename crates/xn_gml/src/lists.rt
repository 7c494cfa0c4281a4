// The pairs of a list, which is given by the tokens after its `[`.
ghost use Rattle.std.specs.Prelude.{◌≡◌, ◌<◌, ◌≤◌, [], ◌∷◌, IfNone, IfSome, length};
ghost use Rattle.xn_gml.specs.Lists.{key_number, same_key, listed_pairs_from, listed_pairs, is_open, is_list_of, lists_of, first_of};

use crate::grammar::opened;
use crate::pair::Pair;
use crate::stream::Tokens;
use crate::token::{Key, Kind, Token};

/// The next pair of a list with this key whose value is a list.
pub fn next_list<'a>(tokens: &mut Tokens<'a>, key: Key) -> Option<Pair<'a>>
    ensures none { IfNone result (lists_of key tokens.old ≡ []) }
    ensures some { IfSome result (λ p. lists_of key tokens.old ≡ p ∷ lists_of key tokens.new) }
    ensures shorter { IfSome result (λ p. length tokens.new < length tokens.old) }
{
    while let Some(pair) = next_pair(tokens) {
        if is_list_of(key, &pair) {
            return Some(pair);
        }
    }
    None
}

/// The first value of this key in a list.
pub fn first_of(key: Key, list: &Tokens) -> Option<Token>
    ensures { result ≡ first_of key list.now }
{
    let mut tokens = list.again();
    while let Some(pair) = next_pair(&mut tokens) {
        if same_key(pair.key, key) {
            return Some(pair.value);
        }
    }
    None
}

// The next pair of a list. The pairs inside its value are passed over.
#[tactic(auto, unfolding(crate::specs::Lists::listed_pairs_from))]
fn next_pair<'a>(tokens: &mut Tokens<'a>) -> Option<Pair<'a>>
    ensures none { IfNone result (listed_pairs tokens.old ≡ []) }
    ensures some { IfSome result (λ p. listed_pairs tokens.old ≡ p ∷ listed_pairs tokens.new) }
    ensures shorter { IfSome result (λ p. length tokens.new < length tokens.old) }
{
    let key = tokens.next()?;
    let value = tokens.next()?;
    let Kind::Word(word) = key.kind else {
        return None;
    };
    let list = tokens.again();
    if is_open(value.kind) {
        skip_list(tokens);
    }
    Some(Pair {
        key: word,
        at: key.at,
        value,
        list,
    })
}

// Passes over the rest of a list.
fn skip_list(tokens: &mut Tokens)
    ensures skipped { listed_pairs_from 0 tokens.new ≡ listed_pairs_from 1 tokens.old }
    ensures shorter { length tokens.new ≤ length tokens.old }
{
    let _most = tokens.left();
    let mut depth: u64 = 1;
    while depth > 0 {
        let Some(token) = tokens.next() else {
            return;
        };
        depth = opened(token.kind, depth);
    }
}

fn is_open(kind: Kind) -> bool
    ensures { result ≡ is_open kind }
{
    match kind {
        Kind::Open => true,
        _ => false,
    }
}

fn is_list_of(key: Key, pair: &Pair) -> bool
    ensures { result ≡ is_list_of key pair.now }
{
    same_key(pair.key, key) && is_open(pair.value.kind)
}

fn same_key(a: Key, b: Key) -> bool
    ensures { result ≡ same_key a b }
{
    key_number(a) == key_number(b)
}

fn key_number(key: Key) -> u8
    ensures { result ≡ key_number key }
{
    match key {
        Key::Graph => 0,
        Key::Node => 1,
        Key::Edge => 2,
        Key::Id => 3,
        Key::Source => 4,
        Key::Target => 5,
        Key::Other => 6,
    }
}
