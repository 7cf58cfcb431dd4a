ghost use Rattle.std.specs.Prelude.{◌≡◌};
ghost use Rattle.tool_steps.specs.Errors.{of_lexer, of_parser, of_checker};

use c_check::CheckError;
use c_lexer::LexError;
use c_parser::ParseError;

/// Why a text is no source. Places are offsets of bytes, counted from 0.
#[derive(Clone, Copy, PartialEq, Eq)]
pub enum SourceError {
    /// Memory was refused.
    OutOfMemory,
    /// No token goes on at the place, or the text is longer than the mode allows; the code is that of `LexError::At`
    /// (C99 6.4).
    Lexical(u8, u32),
    /// No unit goes on with the token at the place, or the tokens end there too early (C99 6.5 to 6.9).
    Syntax(u32),
    /// At the place begins a node that is too deep, or a pair of parentheses in too many others (C99 5.2.4.1).
    Nesting(u32),
    /// The demand with this code fails at the place; the code is that of `CheckError::At` (C99 6.2 to 6.9).
    Rule(u8, u32),
}

/// Why a text has no tokens.
pub fn lexical(error: LexError) -> SourceError
    ensures { result ≡ of_lexer error }
{
    match error {
        LexError::OutOfMemory => SourceError::OutOfMemory,
        LexError::At(code, place) => SourceError::Lexical(code, place),
    }
}

/// Why tokens spell no unit.
pub fn syntactic(error: ParseError) -> SourceError
    ensures { result ≡ of_parser error }
{
    match error {
        ParseError::OutOfMemory => SourceError::OutOfMemory,
        ParseError::Syntax(place) => SourceError::Syntax(place),
        ParseError::Nesting(place) => SourceError::Nesting(place),
    }
}

/// Why a unit is typed as no program.
pub fn untyped(error: CheckError) -> SourceError
    ensures { result ≡ of_checker error }
{
    match error {
        CheckError::OutOfMemory => SourceError::OutOfMemory,
        CheckError::At(code, place) => SourceError::Rule(code, place),
    }
}
