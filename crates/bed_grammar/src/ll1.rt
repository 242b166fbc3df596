//! What holds of every grammar that one token of foresight decides.
ghost use Rattle.std.specs.Prelude.{◌≡◌};
ghost use Rattle.bed_grammar.specs.Grammar.{Grammar};
ghost use Rattle.bed_grammar.specs.Tables.{Tables, IsLl1};
ghost use Rattle.bed_grammar.specs.Laws.{IsExactOnPrefixes, IsExactOnWholes, ExpandsItsProduction, HasOneRefusal, IsUnambiguous};

/// A grammar with its tables, which one token of foresight decides.
pub trait Ll1 {
    ghost grammar: { Grammar };

    ghost tables: { Tables grammar };

    ghost is_ll1: { IsLl1 grammar tables };
}

/// Reading a nonterminal is reading its production.
pub fn step<G: Ll1>()
    ensures { ExpandsItsProduction G.grammar G.tables }
{}

/// Reading as far as a text of a nonterminal goes gives the longest prefix that is one, or the first wrong token.
pub fn exact_prefix<G: Ll1>()
    ensures { IsExactOnPrefixes G.grammar G.tables }
{}

/// Reading a whole text of a nonterminal gives its value, or the first wrong token.
pub fn exact_whole<G: Ll1>()
    ensures { IsExactOnWholes G.grammar G.tables }
{}

/// No tokens are texts of a nonterminal with two values.
pub fn unambiguous<G: Ll1>()
    ensures { IsUnambiguous G.grammar }
{}

/// A list of tokens has one first wrong token, which passes one limit or none.
pub fn one_refusal<G: Ll1>()
    ensures { HasOneRefusal G.grammar }
{}
