//! What trees keep of the number of their tokens.
ghost use Rattle.std.specs.Prelude.{List};
ghost use Rattle.java_lexer.specs.declared.token.Token.{Token};
ghost use Rattle.java_tree.specs.declared.unit.Unit as unit;
ghost use Rattle.java_parser_grammar.specs.CountedTokens.{AreCounted};
ghost use Rattle.java_parser_grammar.specs.Units.{IsUnit};

/// The tree of each method of a file keeps how many tokens its spelling has.
pub fn tokens_are_counted()
    ensures { (tokens : List Token) (u : unit.Unit) → IsUnit tokens u → AreCounted u }
{}
