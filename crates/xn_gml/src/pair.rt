// A pair of a list.
use crate::stream::Tokens;
use crate::token::{Key, Token};

/// A key and its value.
#[derive(Drop)]
pub struct Pair<'a> {
    /// The key.
    pub key: Key,
    /// The offset of the key.
    pub at: u64,
    /// The first token of the value: the value itself, or the `[` of a list.
    pub value: Token,
    /// The tokens after that one. Where the value is a list, they begin with its pairs.
    pub list: Tokens<'a>,
}
