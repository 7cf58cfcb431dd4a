ghost use Rattle.std.specs.Prelude.{◌≡◌, ℕ, List, length};
ghost use Rattle.dm_base.specs.declared.mode.Mode.{Mode};
ghost use Rattle.c_lexer.specs.declared.token.TokenKind.{TokenKind};
ghost use Rattle.c_lexer.specs.declared.token.Token.{Token};
ghost use Rattle.c_lexer.specs.Kinds.{Spells, SpellsSome, IsKind};
ghost use Rattle.c_lexer.specs.TokenSpelling.{SpellsTokens};
ghost use Rattle.c_lexer.specs.Words.{keywords, punctuators};
ghost use Rattle.c_lexer.specs.Names.{AreNumbersIn, named_keywords, named_punctuators};

/// A law on the definitions: no text is that of two lists of tokens.
pub fn a_text_has_one_list_of_tokens()
    ensures { (text : List ℕ) (mode : Mode) (one other : List Token) → SpellsTokens text mode one → SpellsTokens text mode other → one ≡ other }
{}

/// A law on the definitions: the kinds that a token may have are those that some text spells.
pub fn a_token_has_a_kind_that_is_spelled()
    ensures only { (kind : TokenKind) (w : List ℕ) → Spells kind w → IsKind kind }
    ensures all { (kind : TokenKind) → IsKind kind → SpellsSome kind }
{}

/// A law on the constants of the module `keyword`: each is the number of the keyword that it is named after, and
/// all 22 have a name.
pub fn a_keyword_has_the_number_of_its_name()
    ensures numbers { AreNumbersIn keywords named_keywords }
    ensures all { length named_keywords ≡ length keywords }
{}

/// A law on the constants of the module `punctuator`: each is the number of the punctuator that the documentation
/// gives beside it, as in the definition `named_punctuators`, and all 45 have a name.
pub fn a_punctuator_has_the_number_of_its_name()
    ensures numbers { AreNumbersIn punctuators named_punctuators }
    ensures all { length named_punctuators ≡ length punctuators }
{}
