// The first pass: whether each token can stand in its place.
ghost use Rattle.std.specs.Prelude.{◌≡◌, ◌+◌, ◌^◌, ◌≤◌, ◌<◌};
ghost use Rattle.xn_gml.specs.Grammar.{stands, awaits, opened, grammar_of};

use crate::errors::GmlErr;
use crate::stream::Tokens;
use crate::token::Kind;

/// Reads a text by the grammar: a list of pairs. A pair is a word, its key, and a value: a number, a string, a word, or `[`, a list
/// of pairs and `]`. The first token that can't stand in its place is refused, and a `[` that would make 65 lists stand open.
pub fn check_grammar(text: &[u8]) -> Result<(), GmlErr>
    ensures { result ≡ grammar_of text.now }
{
    let mut tokens = Tokens::new(text);
    let mut awaited = false;
    let mut depth: u64 = 0;
    while let Some(token) = tokens.next() {
        if !stands(awaited, depth, token.kind) {
            return Err(GmlErr::Syntax(token.at));
        }
        depth = opened(token.kind, depth);
        if depth > 64 {
            return Err(GmlErr::Deep(token.at));
        }
        awaited = awaits(awaited, token.kind);
    }
    if awaited || depth > 0 {
        return Err(GmlErr::Syntax(text.len() as u64));
    }
    Ok(())
}

fn stands(awaited: bool, depth: u64, kind: Kind) -> bool
    ensures { result ≡ stands awaited depth kind }
{
    match kind {
        Kind::Word(_) => true,
        Kind::Open | Kind::Quoted | Kind::Number(_) => awaited,
        Kind::Close => !awaited && depth > 0,
        Kind::Malformed => false,
    }
}

fn awaits(awaited: bool, kind: Kind) -> bool
    ensures { result ≡ awaits awaited kind }
{
    match kind {
        Kind::Word(_) => !awaited,
        _ => false,
    }
}

/// How many lists are open after a token.
pub fn opened(kind: Kind, depth: u64) -> u64
    requires { depth < 2 ^ 63 }
    ensures value { result ≡ opened kind depth }
    ensures few { result ≤ depth + 1 }
{
    match kind {
        Kind::Open => depth + 1,
        Kind::Close => depth.saturating_sub(1),
        _ => depth,
    }
}
