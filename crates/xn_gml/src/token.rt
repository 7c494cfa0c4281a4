// The tokens of a text.

/// A word: one that the reader knows, or another.
#[derive(Clone, Copy, Debug)]
pub enum Key {
    /// `graph`
    Graph,
    /// `node`
    Node,
    /// `edge`
    Edge,
    /// `id`
    Id,
    /// `source`
    Source,
    /// `target`
    Target,
    /// Any other word.
    Other,
}

/// What a token is.
#[derive(Clone, Copy, Debug)]
pub enum Kind {
    /// `[`
    Open,
    /// `]`
    Close,
    /// A string.
    Quoted,
    /// A word.
    Word(Key),
    /// A number, with its value where it is an integer of 64 bits.
    Number(Option<i64>),
    /// A run that is no word and no number, or a text that ends inside a string.
    Malformed,
}

/// A token, and where it stands.
#[derive(Clone, Copy, Debug)]
pub struct Token {
    /// The offset of its first byte. Where the text ends inside a string, the text's length.
    pub at: u64,
    /// What it is.
    pub kind: Kind,
}
