// What stands first among the tokens that are left.

ghost use Rattle.std.specs.Prelude.{◌≡◌, ◌⊎◌, ◌↔◌, ◌≤◌, ◌<◌, IsTrue, IfSome, drop, length};
ghost use Rattle.c_syntax_printing.specs.Ranks.{rank, rank_of_code, rank_of_kind};
ghost use Rattle.c_syntax_printing.specs.Starts.{start, start_of_code, start_of_word, start_of_kind, EndsDeclarator, EndsSpec};
ghost use Rattle.c_parser_phrases.specs.Looking.{infix_of, between, StandsOperator, StandsSuffix, StandsAssignment, StandsUnary, StandsStep, StandsPrefix, IsAtSpecifier, IsAtCast, HasCode, OpensInside, IsDeepOrWrong, LacksPair, LacksDeclaratorPair};
ghost use Rattle.c_parser_phrases.specs.Reading.{StandsAlone};

use crate::cursor::Cursor;
use crate::error::PhraseError;
use crate::form::Form;
use c_lexer::TokenKind;
use c_lexer::keyword::SIZEOF;
use c_lexer::punctuator::{
    AMPERSAND, AND, ARROW, COMMA, DECREMENT, DOT, EXCLAMATION, INCREMENT, LEFT_BRACKET,
    LEFT_PARENTHESIS, OR,
};

// What stands between two operands.
#[derive(Clone, Copy)]
pub enum Infix {
    And,
    Or,
    Operator(u8),
}

// What stands between two operands, and its level.
#[derive(Clone, Copy)]
pub struct Operator {
    pub between: Infix,
    pub level: u8,
}

// What an expression goes on with after an operand of it.
#[derive(Clone, Copy)]
pub enum Suffix {
    Index,
    Call,
    Dot,
    Arrow,
    Increment,
    Decrement,
}

// ++ or -- before an operand
#[derive(Clone, Copy)]
pub enum Step {
    Increment,
    Decrement,
}

// What stands before an operand of it.
#[derive(Clone, Copy)]
pub enum Prefix {
    Sizeof,
    Step(Step),
    Operator(u8),
}

// The rank of each punctuator: 1 after an operand, n + 1 for an operator of the level n, 12 ?, 13 an assignment operator,
// 14 a comma, 100 for what continues no expression.
const RANKS: [u8; 45] = [
    1, 100, 1, 100, 100, 100, 1, 1, 1, 1, 7, 2, 3, 3, 100, 100, 2, 2, 4, 4, 5, 5, 5, 5, 6, 6, 8, 9,
    10, 11, 12, 100, 100, 13, 13, 13, 13, 13, 13, 13, 13, 13, 13, 13, 14,
];

const OTHER: u8 = 100;

fn code_rank(code: u8) -> u8
    ensures { result ≡ rank_of_code code }
{
    if code < 45 {
        RANKS[code as usize]
    } else {
        OTHER
    }
}

// What each punctuator begins: 1 an operand, 2 * an operand or a declarator, 4 ( and 6 [ a declarator.
const PUNCTUATOR_STARTS: [u8; 16] = [6, 0, 4, 0, 0, 0, 0, 0, 1, 1, 1, 2, 1, 1, 1, 1];

// What each keyword begins: 1 sizeof, 7 to 14 specifiers, 15 a storage class.
const KEYWORD_STARTS: [u8; 21] = [
    0, 0, 8, 9, 0, 0, 0, 0, 14, 15, 0, 0, 7, 0, 12, 1, 15, 13, 0, 11, 10,
];

fn code_start(code: u8) -> u8
    ensures { result ≡ start_of_code code }
{
    if code < 16 {
        PUNCTUATOR_STARTS[code as usize]
    } else {
        0
    }
}

fn word_start(code: u8) -> u8
    ensures { result ≡ start_of_word code }
{
    if code < 21 {
        KEYWORD_STARTS[code as usize]
    } else {
        0
    }
}

#[tactic(auto, unfolding(c_syntax_printing::specs::Ranks::rank_of_kind))]
fn kind_rank(kind: &TokenKind) -> u8
    ensures { result ≡ rank_of_kind kind.now }
{
    match kind {
        TokenKind::Punct(code) => code_rank(*code),
        TokenKind::Str(_) => 0,
        TokenKind::Name(_) => OTHER,
        TokenKind::Keyword(_) => OTHER,
        TokenKind::Int { .. } => OTHER,
        TokenKind::Char(_) => OTHER,
    }
}

// The number of the punctuator that a token is.
#[tactic(auto, unfolding(c_syntax_printing::specs::Ranks::rank_of_kind))]
fn code_of(kind: &TokenKind) -> Option<u8>
    ensures { HasCode result kind.now }
{
    match kind {
        TokenKind::Punct(code) => Some(*code),
        TokenKind::Str(_) => None,
        TokenKind::Name(_) => None,
        TokenKind::Keyword(_) => None,
        TokenKind::Int { .. } => None,
        TokenKind::Char(_) => None,
    }
}

#[tactic(auto, unfolding(c_syntax_printing::specs::Starts::start_of_kind))]
fn kind_start(kind: &TokenKind) -> u8
    ensures { result ≡ start_of_kind kind.now }
{
    match kind {
        TokenKind::Punct(code) => code_start(*code),
        TokenKind::Keyword(code) => word_start(*code),
        TokenKind::Name(_) => 5,
        TokenKind::Int { .. } => 3,
        TokenKind::Char(_) => 3,
        TokenKind::Str(_) => 3,
    }
}

fn between_with(code: u8) -> Infix
    ensures { infix_of result ≡ between code }
{
    if code == AND {
        return Infix::And;
    }
    if code == OR {
        return Infix::Or;
    }
    Infix::Operator(code)
}

impl<'a> Cursor<'a> {
    // What an expression may go on with: the rank of the token that stands first.
    fn rank(&self) -> u8
        ensures { result ≡ rank self.now.rest.now }
    {
        match self.rest.split_first() {
            Some((token, _)) => kind_rank(&token.kind),
            None => OTHER,
        }
    }

    // What the token that stands first begins.
    fn start(&self) -> u8
        ensures { result ≡ start self.now.rest.now }
    {
        match self.rest.split_first() {
            Some((token, _)) => kind_start(&token.kind),
            None => 0,
        }
    }

    // Whether a string stands first.
    pub fn is_at_string(&self) -> bool
        ensures { IsTrue result ↔ (rank self.now.rest.now ≡ 0) }
    {
        self.rank() == 0
    }

    // Whether an operand can go on, with a string, an index, a call, a member or a step.
    pub fn is_at_suffix(&self) -> bool
        ensures { IsTrue result ↔ (rank self.now.rest.now ≤ 1) }
    {
        self.rank() <= 1
    }

    // Whether an assignment operator stands first.
    pub fn is_at_assignment(&self) -> bool
        ensures { IsTrue result ↔ (rank self.now.rest.now ≡ 13) }
    {
        self.rank() == 13
    }

    // Whether an assignment expression can go on with what stands first.
    pub fn goes_on_as_assignment(&self) -> bool
        ensures { IsTrue result ↔ (rank self.now.rest.now ≤ 13) }
    {
        self.rank() <= 13
    }

    // Whether specifiers can begin with what stands first.
    pub fn is_at_specifier(&self) -> bool
        ensures { IsTrue result ↔ IsAtSpecifier self.now.rest.now }
    {
        let start = self.start();
        7 <= start && start <= 14
    }

    // Whether nothing of specifiers or storage classes stands first.
    pub fn ends_spec(&self) -> bool
        ensures { IsTrue result ↔ EndsSpec self.now.rest.now }
    {
        self.start() <= 6
    }

    // Whether nothing of a declarator stands first.
    pub fn ends_declarator(&self) -> bool
        ensures { IsTrue result ↔ EndsDeclarator self.now.rest.now }
    {
        self.start() <= 1
    }

    // Whether a word of specifiers or of a storage class stands first.
    fn begins_spec(&self) -> bool
        ensures { IsTrue result ↔ (7 ≤ start self.now.rest.now) }
    {
        7 <= self.start()
    }

    // Whether a parenthesis stands first, and after it what can begin the name of a type.
    pub fn is_at_cast(&self) -> bool
        ensures stands { IsTrue result ↔ IsAtCast self.now.rest.now }
        ensures some { IsTrue result → 0 < length self.now.rest.now }
    {
        if !self.is_at(LEFT_PARENTHESIS) {
            return false;
        }
        match self.rest.split_first() {
            Some((_, more)) => Cursor { rest: more }.begins_spec(),
            None => false,
        }
    }

    // The operator of a level up to `most` that stands first.
    pub fn operator(&self, most: u8) -> Option<Operator>
        requires { most ≤ 10 }
        ensures stands { StandsOperator most result self.now.rest.now }
        ensures some { IfSome result (λ o. (0 < length self.now.rest.now) × (0 < o.level) × (o.level ≤ most)) }
    {
        let Some((token, _)) = self.rest.split_first() else {
            return None;
        };
        let Some(code) = code_of(&token.kind) else {
            return None;
        };
        let rank = code_rank(code);
        if rank < 2 {
            return None;
        }
        if most + 1 < rank {
            return None;
        }
        Some(Operator {
            between: between_with(code),
            level: rank - 1,
        })
    }

    // What stands first and goes on with an operand.
    pub fn suffix(&self) -> Option<Suffix>
        ensures stands { StandsSuffix result self.now.rest.now }
        ensures some { IfSome result (λ _. 0 < length self.now.rest.now) }
    {
        if self.is_at(LEFT_BRACKET) {
            return Some(Suffix::Index);
        }
        if self.is_at(LEFT_PARENTHESIS) {
            return Some(Suffix::Call);
        }
        if self.is_at(DOT) {
            return Some(Suffix::Dot);
        }
        if self.is_at(ARROW) {
            return Some(Suffix::Arrow);
        }
        if self.is_at(INCREMENT) {
            return Some(Suffix::Increment);
        }
        if self.is_at(DECREMENT) {
            return Some(Suffix::Decrement);
        }
        None
    }

    // The assignment operator that stands first.
    pub fn assignment(&self) -> Option<u8>
        ensures stands { StandsAssignment result self.now.rest.now }
        ensures some { IfSome result (λ _. 0 < length self.now.rest.now) }
    {
        let Some((token, _)) = self.rest.split_first() else {
            return None;
        };
        let Some(code) = code_of(&token.kind) else {
            return None;
        };
        if code_rank(code) != 13 {
            return None;
        }
        Some(code)
    }

    // The unary operator that stands first: & * + - ~ or !.
    pub fn unary(&self) -> Option<u8>
        ensures stands { StandsUnary result self.now.rest.now }
        ensures some { IfSome result (λ _. 0 < length self.now.rest.now) }
    {
        let Some((token, _)) = self.rest.split_first() else {
            return None;
        };
        let Some(code) = code_of(&token.kind) else {
            return None;
        };
        if code < AMPERSAND {
            return None;
        }
        if EXCLAMATION < code {
            return None;
        }
        Some(code)
    }

    // ++ or -- that stands first.
    pub fn step(&self) -> Option<Step>
        ensures stands { StandsStep result self.now.rest.now }
        ensures some { IfSome result (λ _. 0 < length self.now.rest.now) }
    {
        if self.is_at(INCREMENT) {
            return Some(Step::Increment);
        }
        if self.is_at(DECREMENT) {
            return Some(Step::Decrement);
        }
        None
    }

    // What stands first and takes an operand after it.
    pub fn prefix(&self) -> Option<Prefix>
        ensures stands { StandsPrefix result self.now.rest.now }
        ensures some { IfSome result (λ _. 0 < length self.now.rest.now) }
    {
        if self.is_at_keyword(SIZEOF) {
            return Some(Prefix::Sizeof);
        }
        if let Some(step) = self.step() {
            return Some(Prefix::Step(step));
        }
        if let Some(code) = self.unary() {
            return Some(Prefix::Operator(code));
        }
        None
    }

    // Whether a name, a constant or a string stands first.
    pub fn is_at_leaf(&self) -> bool
        ensures { IsTrue result ↔ ((start self.now.rest.now ≡ 3) ⊎ (start self.now.rest.now ≡ 5)) }
    {
        let start = self.start();
        if start == 3 {
            return true;
        }
        start == 5
    }

    // Whether a name stands first.
    pub fn is_at_name(&self) -> bool
        ensures { IsTrue result ↔ (start self.now.rest.now ≡ 5) }
    {
        self.start() == 5
    }

    // Whether a parenthesis stands first that opens no parameters.
    pub fn opens(&self, form: Form) -> bool
        ensures stands { OpensInside form result self.now.rest.now }
        ensures some { IsTrue result → 0 < length self.now.rest.now }
    {
        if !self.is_at(LEFT_PARENTHESIS) {
            return false;
        }
        if form == Form::Named {
            return true;
        }
        match self.rest.split_first() {
            Some((_, more)) => Cursor { rest: more }.ends_spec(),
            None => false,
        }
    }

    // Why no part of a declarator is read at the limit.
    pub fn too_deep_or_wrong(&self, deepest: u32) -> PhraseError
        ensures { IsDeepOrWrong deepest result self.now.rest.now }
    {
        if self.is_at(LEFT_BRACKET) {
            return PhraseError::Nesting(deepest);
        }
        if self.is_at(LEFT_PARENTHESIS) {
            return PhraseError::Nesting(deepest);
        }
        PhraseError::Syntax
    }

    // Takes the parenthesis at the place, where no more pairs may stand in each other, and says why nothing is read there: an
    // expression begins after it, or none does.
    pub fn no_pair(&mut self, at: u32) -> PhraseError
        ensures skips { self.new.rest.now ≡ drop 1 self.old.rest.now }
        ensures lacks { LacksPair at result self.new.rest.now }
    {
        self.skip();
        let start = self.start();
        if start == 0 {
            return PhraseError::Syntax;
        }
        if 5 < start {
            return PhraseError::Syntax;
        }
        PhraseError::Nesting(at)
    }

    // The same before a declarator that may have no name.
    pub fn no_declarator_pair(&mut self, at: u32, form: Form) -> PhraseError
        ensures skips { self.new.rest.now ≡ drop 1 self.old.rest.now }
        ensures lacks { LacksDeclaratorPair form at result self.new.rest.now }
    {
        self.skip();
        let start = self.start();
        if start <= 1 {
            return PhraseError::Syntax;
        }
        if start == 3 {
            return PhraseError::Syntax;
        }
        if start == 5 {
            if form == Form::Abstract {
                return PhraseError::Syntax;
            }
        }
        PhraseError::Nesting(at)
    }

    // Whether a parameter that is `void` has none after it.
    pub fn stands_alone(&self, is_void: bool) -> bool
        ensures { StandsAlone result is_void self.now.rest.now }
    {
        if !is_void {
            return false;
        }
        !self.is_at(COMMA)
    }
}
