// The values in node and edge blocks.
ghost use Rattle.std.specs.Prelude.{◌≡◌};
ghost use Rattle.xn_gml.specs.Meaning.{value_in, integer_at, values_of};

use crate::errors::GmlErr;
use crate::lists::first_of;
use crate::pair::Pair;
use crate::token::{Key, Kind, Token};

/// The first value of this key in a block, which must have one.
#[tactic(auto, unfolding(crate::specs::Meaning::value_in))]
pub fn value_in(key: Key, block: &Pair) -> Result<Token, GmlErr>
    ensures { result ≡ value_in key block.now }
{
    match first_of(key, &block.list) {
        Some(value) => Ok(value),
        None => Err(GmlErr::NoId(block.value.at)),
    }
}

/// The integer that a value is, which must be one of 64 bits.
#[tactic(auto, unfolding(crate::specs::Meaning::integer_at))]
pub fn integer_at(value: Token) -> Result<i64, GmlErr>
    ensures { result ≡ integer_at value }
{
    match value.kind {
        Kind::Number(Some(n)) => Ok(n),
        _ => Err(GmlErr::Range(value.at)),
    }
}

/// The source and the target of an edge block.
#[tactic(auto, unfolding(crate::specs::Meaning::values_of))]
pub fn values_of(block: &Pair) -> Result<(Token, Token), GmlErr>
    ensures { result ≡ values_of block.now }
{
    let source = value_in(Key::Source, block)?;
    let target = value_in(Key::Target, block)?;
    Ok((source, target))
}
