//! Items, members, variables and types are found in one way.
ghost use Rattle.std.specs.Prelude.{◌≡◌, ◌⊎◌, List, false, map};
ghost use Rattle.java_lexer.specs.declared.token.Token.{Token};
ghost use Rattle.java_tree.specs.declared.methods.FieldVariable.{FieldVariable};
ghost use Rattle.java_parser_grammar.specs.Cuts.{joined};
ghost use Rattle.java_parser_grammar.specs.Pieces.{Item, items_of, pieces_of};
ghost use Rattle.java_parser_grammar.specs.Declarations.{AreDeclarations, IsMisfit};
ghost use Rattle.java_parser_grammar.specs.FieldDivisions.{AreRead};
ghost use Rattle.java_parser_grammar.specs.Members.{cut_members};
ghost use Rattle.java_parser_grammar.specs.ReadVariables.{read_of};
ghost use Rattle.java_parser_grammar.specs.MemberCuts.{IsCut};

use crate::grammar_laws::one_list_of_variables;

/// The items of tokens, and also their pieces, are together the tokens.
pub fn items_are_the_tokens()
    ensures items { (ts : List Token) → joined (items_of ts) ≡ ts }
    ensures pieces { (ts : List Token) → joined (pieces_of ts) ≡ ts }
{}

/// The members of a class and its lone `;` are together its items, each piece ends where a member first does, and there
/// is no other such cut.
pub fn members_are_cut_once()
    ensures whole { (body : List Item) → joined (cut_members false body) ≡ body }
    ensures cut { (body : List Item) → IsCut (cut_members false body) }
    ensures once { (pieces : List (List Item)) → IsCut pieces → cut_members false (joined pieces) ≡ pieces }
{}

/// A file is cut into declarations in one way, and then no token of it does not fit; where one does not, it is one
/// alone.
pub fn declarations_are_cut_once()
    ensures once { (all : List Item) (ds es : List (List Item)) → AreDeclarations all ds → AreDeclarations all es
        → ds ≡ es }
    ensures fits { (all rest : List Item) (ds : List (List Item)) → AreDeclarations all ds → ¬ IsMisfit all rest }
    ensures misfit { (all rest other : List Item) → IsMisfit all rest → IsMisfit all other → rest ≡ other }
    ensures either { (all : List Item) → ((ds : List (List Item)) × AreDeclarations all ds)
        ⊎ ((rest : List Item) × IsMisfit all rest) }
{}

/// Of the tokens behind a field's type, two divisions in which each initialiser has a tree are one, and its variables
/// are the same, places in these trees aside.
pub fn one_division_of_fields()
    ensures pieces { (ts : List Token) (ps qs : List (List Token)) (vs ws : List FieldVariable) → AreRead ts ps vs
        → AreRead ts qs ws → ps ≡ qs }
    ensures variables { (ts : List Token) (ps qs : List (List Token)) (vs ws : List FieldVariable) → AreRead ts ps vs
        → AreRead ts qs ws → map read_of vs ≡ map read_of ws }
{
    one_list_of_variables();
}
