//! Laws on the definitions. Each is the contract of a function that does nothing.
ghost use Rattle.xn_gml.specs.Rules.{SeparatorIsPassed, CommentIsSkipped, BracketIsToken, StringIsToken, OpenStringIsMalformed, RunIsToken};
ghost use Rattle.xn_gml.specs.Laws.{FlawIsFirst, GrammarIsOfPairs, PairsAreOfGrammar, PairsAreOfTree};

/// The tokens that keep the grammar are those of the trees of pairs in which no list lies in 64 others; and the pairs of a list are
/// those of its tree. A refusal by the grammar is that of the first token that can't stand in its place.
pub fn grammar_laws()
    ensures only { GrammarIsOfPairs }
    ensures all { PairsAreOfGrammar }
    ensures pairs { PairsAreOfTree }
    ensures flaw { FlawIsFirst }
{}

/// The rules of tokens, one by one: what stands first in a text, and the tokens after it.
pub fn token_laws()
    ensures separator { SeparatorIsPassed }
    ensures comment { CommentIsSkipped }
    ensures bracket { BracketIsToken }
    ensures string { StringIsToken }
    ensures unclosed { OpenStringIsMalformed }
    ensures run { RunIsToken }
{}
