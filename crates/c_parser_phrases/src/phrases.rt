// Expressions, type names and declarators, by recursive descent.

ghost use Rattle.std.specs.Prelude.{◌≡◌, ◌≢◌, ◌<◌, ◌≤◌, ◌∷◌, List, OnOk, IfOk, Some, length, drop};
ghost use Rattle.c_lexer.specs.declared.token.Token.{Token};
ghost use Rattle.c_lexer.specs.declared.keyword.TheConstants.{SIZEOF as SIZEOF_WORD};
ghost use Rattle.c_syntax.specs.Tokens.{IsKeyword, place};
ghost use Rattle.c_syntax.specs.Grammar.{primary_level, postfix_level, unary_level, cast_level, binary_level, conditional_level, assignment_level, expression_level, HasName, Reads, ReadsCore};
ghost use Rattle.c_syntax_printing.specs.Ranks.{Stops as Ends};
ghost use Rattle.c_syntax_printing.specs.Starts.{start as starts};
ghost use Rattle.c_syntax_printing.specs.Phrases.{AnExpr, ADeclarator};
ghost use Rattle.c_syntax_printing.specs.Opens.{DeepExpr, DeepDeclarator};
ghost use Rattle.c_parser_phrases.specs.Refusing.{bound_of, Stops, Nests};
ghost use Rattle.c_parser_phrases.specs.Deep.{IsDeep, AreDeep, IsDeepSize, IsDeepType, IsDeepDeclarator, IsDeepParam, AreDeepParams};
ghost use Rattle.c_parser_phrases.specs.Looking.{IsSuffix, StandsPrefix};
ghost use Rattle.c_parser_phrases.specs.Making.{tree_of, inner_of};
ghost use Rattle.c_parser_phrases.specs.Phrases.{Parses, ParsesDeclarator};
ghost use Rattle.c_parser_phrases.specs.Reading.{ParsesTree, ParsesTrees, RefusesRest, IsCored, AddsSuffix, TakesArguments, ParsesType, ParsesDeclared, ParsesCore, AddsPart, ParsesSize, ParsesParams, ParsesParam, StandsAlone, Suits};

use crate::cursor::Cursor;
use crate::depth::{
    Depth, MeasuredDeclarator, MeasuredExpr, MeasuredExprs, MeasuredParam, MeasuredParams,
    MeasuredSize, MeasuredType,
};
use crate::error::PhraseError;
use crate::form::Form;
use crate::looking::{Prefix, Suffix};
use crate::nodes::{
    array_node, arrow_node, assign_node, binary_node, call_node, cast_node, comma_node,
    conditional_node, decreased_node, function_node, increased_node, index_node, member_node,
    name_node, no_declarator, no_exprs, no_params, no_size, param_node, pointer_node, sizeof_node,
    sizeof_type_node, some_size, step_node, type_node, unary_node,
};
use crate::room::Room;
use c_lexer::punctuator::{
    ASTERISK, COLON, COMMA, LEFT_BRACKET, LEFT_PARENTHESIS, QUESTION, RIGHT_BRACKET,
    RIGHT_PARENTHESIS,
};
use c_syntax::{Declarator, Expr};
use std::alloc::Global;

// The greatest level of operators between two operands: that of `||`.
const LEVELS: u8 = 10;

impl<'a> Cursor<'a> {
    /// Reads an expression (C99 6.5.17). `Syntax` and `Nesting` say what `PhraseError` tells of them, and `OutOfMemory`
    /// that a node was not allocated.
    pub fn expression(&mut self, alloc: Global, room: Room) -> Result<Expr, PhraseError>
        ensures parses { Parses room expression_level result self.old.rest.now self.new.rest.now }
        ensures stops { Stops (λ b. AnExpr b expression_level) (bound_of room) result self.old.rest.now self.new.rest.now }
        ensures nests { Nests (λ b. AnExpr b expression_level) (λ at p n. DeepExpr at p n expression_level) room result self.old.rest.now }
        ensures shorter { OnOk result (length self.new.rest.now < length self.old.rest.now) }
    {
        let whole = self.comma_expression(alloc, room)?;
        Ok(Box::into_inner(whole.tree))
    }

    /// Reads a conditional expression, as a constant expression is (C99 6.5.15, 6.6). The errors are as in `expression`.
    pub fn conditional(&mut self, alloc: Global, room: Room) -> Result<Expr, PhraseError>
        ensures parses { Parses room conditional_level result self.old.rest.now self.new.rest.now }
        ensures stops { Stops (λ b. AnExpr b conditional_level) (bound_of room) result self.old.rest.now self.new.rest.now }
        ensures nests { Nests (λ b. AnExpr b conditional_level) (λ at p n. DeepExpr at p n conditional_level) room result self.old.rest.now }
        ensures shorter { OnOk result (length self.new.rest.now < length self.old.rest.now) }
    {
        let whole = self.conditional_expression(alloc, room)?;
        Ok(Box::into_inner(whole.tree))
    }

    /// Reads an assignment expression (C99 6.5.16). The errors are as in `expression`.
    pub fn assignment_value(&mut self, alloc: Global, room: Room) -> Result<Expr, PhraseError>
        ensures parses { Parses room assignment_level result self.old.rest.now self.new.rest.now }
        ensures stops { Stops (λ b. AnExpr b assignment_level) (bound_of room) result self.old.rest.now self.new.rest.now }
        ensures nests { Nests (λ b. AnExpr b assignment_level) (λ at p n. DeepExpr at p n assignment_level) room result self.old.rest.now }
        ensures shorter { OnOk result (length self.new.rest.now < length self.old.rest.now) }
    {
        let whole = self.assignment_expression(alloc, room)?;
        Ok(Box::into_inner(whole.tree))
    }

    /// Reads a declarator that has a name (C99 6.7.5). The errors are as in `expression`.
    pub fn declarator(&mut self, alloc: Global, room: Room) -> Result<Declarator, PhraseError>
        ensures parses { ParsesDeclarator room result self.old.rest.now self.new.rest.now }
        ensures stops { Stops ADeclarator (bound_of room) result self.old.rest.now self.new.rest.now }
        ensures nests { Nests ADeclarator (DeepDeclarator HasName) room result self.old.rest.now }
        ensures shorter { OnOk result (length self.new.rest.now < length self.old.rest.now) }
    {
        let whole = self.declared(alloc, room, Form::Named)?;
        let tree = whole.tree;
        match tree {
            Some(inner) => Ok(Box::into_inner(inner)),
            None => Err(PhraseError::Syntax),
        }
    }

    // An expression with commas (C99 6.5.17).
    #[cycle(phrases)]
    fn comma_expression(&mut self, alloc: Global, room: Room) -> Result<MeasuredExpr, PhraseError>
        ensures parses { ParsesTree room expression_level result self.old.rest.now self.new.rest.now }
        ensures shorter { OnOk result (length self.new.rest.now < length self.old.rest.now) }
        ensures fits { IfOk result (λ m. m.depth.height ≤ room.nodes) }
        ensures deep { IfOk result (λ m. IsDeep m) }
    {
        let at = self.place();
        let first = self.assignment_expression(alloc, room)?;
        if !self.is_at(COMMA) {
            return Ok(first);
        }
        if room.nodes <= first.depth.height {
            return Err(PhraseError::Nesting(first.depth.deepest));
        }
        let list = self.expressions_from(alloc, room.in_node(), first)?;
        comma_node(alloc, at, list)
    }

    // Assignment expressions with commas between, of which the first is read.
    #[cycle(phrases)]
    fn expressions_from(
        &mut self,
        alloc: Global,
        room: Room,
        first: MeasuredExpr,
    ) -> Result<MeasuredExprs, PhraseError>
        requires { first.depth.height ≤ room.nodes }
        ensures parses { (start : List Token) → Reads room.pairs assignment_level (tree_of first) start self.old.rest.now → Ends assignment_level self.old.rest.now → ParsesTrees room result start self.new.rest.now }
        ensures refuses { RefusesRest room result self.old.rest.now self.new.rest.now }
        ensures shorter { OnOk result (length self.new.rest.now ≤ length self.old.rest.now) }
        ensures fits { IfOk result (λ m. m.depth.height ≤ room.nodes) }
        ensures deep { IsDeep first → IfOk result (λ m. AreDeep m) }
    {
        let mut depth = first.depth;
        let mut trees = Vec::new(alloc);
        trees.push(Box::into_inner(first.tree))?;
        while self.take(COMMA) {
            let next = self.assignment_expression(alloc, room)?;
            depth = depth.beside(next.depth);
            trees.push(Box::into_inner(next.tree))?;
        }
        Ok(MeasuredExprs { trees, depth })
    }

    // An assignment expression (C99 6.5.16).
    #[cycle(phrases)]
    fn assignment_expression(
        &mut self,
        alloc: Global,
        room: Room,
    ) -> Result<MeasuredExpr, PhraseError>
        ensures parses { ParsesTree room assignment_level result self.old.rest.now self.new.rest.now }
        ensures shorter { OnOk result (length self.new.rest.now < length self.old.rest.now) }
        ensures fits { IfOk result (λ m. m.depth.height ≤ room.nodes) }
        ensures deep { IfOk result (λ m. IsDeep m) }
    {
        let at = self.place();
        let is_cast = self.is_at_cast();
        let operand = self.cast_expression(alloc, room)?;
        let Some(operator) = self.assignment() else {
            let whole = self.conditional_from(alloc, room, at, operand)?;
            if self.is_at_assignment() {
                return Err(PhraseError::Syntax);
            }
            return Ok(whole);
        };
        if is_cast {
            return Err(PhraseError::Syntax);
        }
        if room.nodes <= operand.depth.height {
            return Err(PhraseError::Nesting(operand.depth.deepest));
        }
        self.skip();
        let value = self.assignment_expression(alloc, room.in_node())?;
        assign_node(alloc, at, operator, operand, value)
    }

    // A conditional expression (C99 6.5.15).
    #[cycle(phrases)]
    fn conditional_expression(
        &mut self,
        alloc: Global,
        room: Room,
    ) -> Result<MeasuredExpr, PhraseError>
        ensures parses { ParsesTree room conditional_level result self.old.rest.now self.new.rest.now }
        ensures shorter { OnOk result (length self.new.rest.now < length self.old.rest.now) }
        ensures fits { IfOk result (λ m. m.depth.height ≤ room.nodes) }
        ensures deep { IfOk result (λ m. IsDeep m) }
    {
        let at = self.place();
        let operand = self.cast_expression(alloc, room)?;
        self.conditional_from(alloc, room, at, operand)
    }

    // A conditional expression, of which the first operand is read.
    #[cycle(phrases)]
    fn conditional_from(
        &mut self,
        alloc: Global,
        room: Room,
        at: u32,
        operand: MeasuredExpr,
    ) -> Result<MeasuredExpr, PhraseError>
        requires { operand.depth.height ≤ room.nodes }
        ensures parses { (start : List Token) → at ≡ place start → Reads room.pairs cast_level (tree_of operand) start self.old.rest.now → Ends cast_level self.old.rest.now → IsDeep operand → ParsesTree room conditional_level result start self.new.rest.now }
        ensures shorter { OnOk result (length self.new.rest.now ≤ length self.old.rest.now) }
        ensures fits { IfOk result (λ m. m.depth.height ≤ room.nodes) }
        ensures deep { IsDeep operand → IfOk result (λ m. IsDeep m) }
    {
        let test = self.binary_from(alloc, room, LEVELS, at, operand)?;
        if !self.is_at(QUESTION) {
            return Ok(test);
        }
        if room.nodes <= test.depth.height {
            return Err(PhraseError::Nesting(test.depth.deepest));
        }
        self.skip();
        let yes = self.comma_expression(alloc, room.in_node())?;
        if !self.take(COLON) {
            return Err(PhraseError::Syntax);
        }
        let no = self.conditional_expression(alloc, room.in_node())?;
        conditional_node(alloc, at, test, yes, no)
    }

    // The operators of the levels up to `most` with their operands, of which the first is read (C99 6.5.5 to 6.5.14).
    #[cycle(phrases)]
    fn binary_from(
        &mut self,
        alloc: Global,
        room: Room,
        most: u8,
        at: u32,
        operand: MeasuredExpr,
    ) -> Result<MeasuredExpr, PhraseError>
        requires level { most ≤ 10 }
        requires operand_low { operand.depth.height ≤ room.nodes }
        ensures parses { (start : List Token) → at ≡ place start → Reads room.pairs cast_level (tree_of operand) start self.old.rest.now → Ends cast_level self.old.rest.now → IsDeep operand → ParsesTree room (binary_level most) result start self.new.rest.now }
        ensures shorter { OnOk result (length self.new.rest.now ≤ length self.old.rest.now) }
        ensures fits { IfOk result (λ m. m.depth.height ≤ room.nodes) }
        ensures deep { IsDeep operand → IfOk result (λ m. IsDeep m) }
    {
        let mut left = operand;
        while let Some(operator) = self.operator(most) {
            if room.nodes <= left.depth.height {
                return Err(PhraseError::Nesting(left.depth.deepest));
            }
            self.skip();
            let right_at = self.place();
            let first = self.cast_expression(alloc, room.in_node())?;
            let right = self.binary_from(
                alloc,
                room.in_node(),
                operator.level - 1,
                right_at,
                first,
            )?;
            left = binary_node(alloc, at, operator.between, left, right)?;
        }
        Ok(left)
    }

    // A cast expression (C99 6.5.4).
    #[cycle(phrases)]
    fn cast_expression(&mut self, alloc: Global, room: Room) -> Result<MeasuredExpr, PhraseError>
        ensures parses { ParsesTree room cast_level result self.old.rest.now self.new.rest.now }
        ensures shorter { OnOk result (length self.new.rest.now < length self.old.rest.now) }
        ensures fits { IfOk result (λ m. m.depth.height ≤ room.nodes) }
        ensures deep { IfOk result (λ m. IsDeep m) }
    {
        if !self.is_at_cast() {
            return self.unary_expression(alloc, room);
        }
        let at = self.place();
        if room.nodes == 0 {
            return Err(PhraseError::Nesting(at));
        }
        self.skip();
        let target = self.type_name(alloc, room.in_node())?;
        if !self.take(RIGHT_PARENTHESIS) {
            return Err(PhraseError::Syntax);
        }
        let operand = self.cast_expression(alloc, room.in_node())?;
        cast_node(alloc, at, target, operand)
    }

    // A unary expression (C99 6.5.3).
    #[cycle(phrases)]
    fn unary_expression(&mut self, alloc: Global, room: Room) -> Result<MeasuredExpr, PhraseError>
        ensures parses { ParsesTree room unary_level result self.old.rest.now self.new.rest.now }
        ensures shorter { OnOk result (length self.new.rest.now < length self.old.rest.now) }
        ensures fits { IfOk result (λ m. m.depth.height ≤ room.nodes) }
        ensures deep { IfOk result (λ m. IsDeep m) }
    {
        let at = self.place();
        let Some(prefix) = self.prefix() else {
            return self.postfix_expression(alloc, room);
        };
        if room.nodes == 0 {
            return Err(PhraseError::Nesting(at));
        }
        self.skip();
        self.prefixed(alloc, room, at, prefix)
    }

    // What stands after a prefix operator.
    #[cycle(phrases)]
    fn prefixed(
        &mut self,
        alloc: Global,
        room: Room,
        at: u32,
        prefix: Prefix,
    ) -> Result<MeasuredExpr, PhraseError>
        requires { 0 < room.nodes }
        ensures parses { (start : List Token) → at ≡ place start → StandsPrefix (Some prefix) start → self.old.rest.now ≡ drop 1 start → ParsesTree room unary_level result start self.new.rest.now }
        ensures shorter { OnOk result (length self.new.rest.now < length self.old.rest.now) }
        ensures fits { IfOk result (λ m. m.depth.height ≤ room.nodes) }
        ensures deep { IfOk result (λ m. IsDeep m) }
    {
        match prefix {
            Prefix::Sizeof => self.sizeof_expression(alloc, room, at),
            Prefix::Step(step) => {
                let operand = self.unary_expression(alloc, room.in_node())?;
                step_node(alloc, at, step, operand)
            }
            Prefix::Operator(operator) => {
                let operand = self.cast_expression(alloc, room.in_node())?;
                unary_node(alloc, at, operator, operand)
            }
        }
    }

    // What stands after `sizeof` (C99 6.5.3.4): the name of a type in parentheses, or a unary expression.
    #[cycle(phrases)]
    fn sizeof_expression(
        &mut self,
        alloc: Global,
        room: Room,
        at: u32,
    ) -> Result<MeasuredExpr, PhraseError>
        requires { 0 < room.nodes }
        ensures parses { (t : Token) → IsKeyword SIZEOF_WORD t → at ≡ t.from → ParsesTree room unary_level result (t ∷ self.old.rest.now) self.new.rest.now }
        ensures shorter { OnOk result (length self.new.rest.now < length self.old.rest.now) }
        ensures fits { IfOk result (λ m. m.depth.height ≤ room.nodes) }
        ensures deep { IfOk result (λ m. IsDeep m) }
    {
        if !self.is_at_cast() {
            let inside = self.unary_expression(alloc, room.in_node())?;
            return sizeof_node(alloc, at, inside);
        }
        self.skip();
        let target = self.type_name(alloc, room.in_node())?;
        if !self.take(RIGHT_PARENTHESIS) {
            return Err(PhraseError::Syntax);
        }
        if self.is_at_suffix() {
            return Err(PhraseError::Syntax);
        }
        sizeof_type_node(alloc, at, target)
    }

    // A postfix expression (C99 6.5.2).
    #[cycle(phrases)]
    fn postfix_expression(&mut self, alloc: Global, room: Room) -> Result<MeasuredExpr, PhraseError>
        ensures parses { ParsesTree room postfix_level result self.old.rest.now self.new.rest.now }
        ensures shorter { OnOk result (length self.new.rest.now < length self.old.rest.now) }
        ensures fits { IfOk result (λ m. m.depth.height ≤ room.nodes) }
        ensures deep { IfOk result (λ m. IsDeep m) }
    {
        let at = self.place();
        let mut left = self.primary_expression(alloc, room)?;
        while let Some(suffix) = self.suffix() {
            if room.nodes <= left.depth.height {
                return Err(PhraseError::Nesting(left.depth.deepest));
            }
            self.skip();
            left = self.suffixed(alloc, room, at, left, suffix)?;
        }
        if self.is_at_string() {
            return Err(PhraseError::Syntax);
        }
        Ok(left)
    }

    // What stands after the first token of a suffix.
    #[cycle(phrases)]
    fn suffixed(
        &mut self,
        alloc: Global,
        room: Room,
        at: u32,
        left: MeasuredExpr,
        suffix: Suffix,
    ) -> Result<MeasuredExpr, PhraseError>
        requires { left.depth.height < room.nodes }
        ensures parses { (t : Token) → IsSuffix suffix t → AddsSuffix room at (tree_of left) t result self.old.rest.now self.new.rest.now }
        ensures shorter { OnOk result (length self.new.rest.now ≤ length self.old.rest.now) }
        ensures fits { IfOk result (λ m. m.depth.height ≤ room.nodes) }
        ensures deep { IsDeep left → IfOk result (λ m. IsDeep m) }
    {
        match suffix {
            Suffix::Index => {
                let inside = self.comma_expression(alloc, room.in_node())?;
                if !self.take(RIGHT_BRACKET) {
                    return Err(PhraseError::Syntax);
                }
                index_node(alloc, at, left, inside)
            }
            Suffix::Call => {
                let list = self.arguments(alloc, room.in_node())?;
                call_node(alloc, at, left, list)
            }
            Suffix::Dot => {
                let name = self.name(alloc)?;
                member_node(alloc, at, left, name)
            }
            Suffix::Arrow => {
                let name = self.name(alloc)?;
                arrow_node(alloc, at, left, name)
            }
            Suffix::Increment => { increased_node(alloc, at, left) }
            Suffix::Decrement => { decreased_node(alloc, at, left) }
        }
    }

    // The arguments of a call, and the parenthesis after them.
    #[cycle(phrases)]
    fn arguments(&mut self, alloc: Global, room: Room) -> Result<MeasuredExprs, PhraseError>
        ensures parses { TakesArguments room result self.old.rest.now self.new.rest.now }
        ensures shorter { OnOk result (length self.new.rest.now < length self.old.rest.now) }
        ensures fits { IfOk result (λ m. m.depth.height ≤ room.nodes) }
        ensures deep { IfOk result (λ m. AreDeep m) }
    {
        let at = self.place();
        if self.take(RIGHT_PARENTHESIS) {
            return Ok(no_exprs(alloc, at));
        }
        let first = self.assignment_expression(alloc, room)?;
        let list = self.expressions_from(alloc, room, first)?;
        if !self.take(RIGHT_PARENTHESIS) {
            return Err(PhraseError::Syntax);
        }
        Ok(list)
    }

    // A primary expression (C99 6.5.1).
    #[cycle(phrases)]
    fn primary_expression(&mut self, alloc: Global, room: Room) -> Result<MeasuredExpr, PhraseError>
        ensures parses { ParsesTree room primary_level result self.old.rest.now self.new.rest.now }
        ensures shorter { OnOk result (length self.new.rest.now < length self.old.rest.now) }
        ensures fits { IfOk result (λ m. m.depth.height ≤ room.nodes) }
        ensures deep { IfOk result (λ m. IsDeep m) }
    {
        let at = self.place();
        if self.is_at_leaf() {
            if room.nodes == 0 {
                return Err(PhraseError::Nesting(at));
            }
            let leaf = self.leaf(alloc)?;
            if self.is_at_string() {
                return Err(PhraseError::Syntax);
            }
            return Ok(leaf);
        }
        if !self.is_at(LEFT_PARENTHESIS) {
            return Err(PhraseError::Syntax);
        }
        if room.pairs == 0 {
            return Err(self.no_pair(at));
        }
        self.skip();
        let inside = self.comma_expression(alloc, room.in_pair())?;
        if !self.take(RIGHT_PARENTHESIS) {
            return Err(PhraseError::Syntax);
        }
        if self.is_at_string() {
            return Err(PhraseError::Syntax);
        }
        Ok(inside)
    }

    // The name of a type (C99 6.7.6).
    #[cycle(phrases)]
    fn type_name(&mut self, alloc: Global, room: Room) -> Result<MeasuredType, PhraseError>
        ensures parses { ParsesType room result self.old.rest.now self.new.rest.now }
        ensures shorter { OnOk result (length self.new.rest.now < length self.old.rest.now) }
        ensures fits { IfOk result (λ m. m.depth.height ≤ room.nodes) }
        ensures deep { IfOk result (λ m. IsDeepType m) }
    {
        let at = self.place();
        let spec = self.specifiers(alloc)?;
        let inner = self.declared(alloc, room, Form::Abstract)?;
        Ok(type_node(spec, inner, at))
    }

    // A declarator (C99 6.7.5, 6.7.6).
    #[cycle(phrases)]
    fn declared(
        &mut self,
        alloc: Global,
        room: Room,
        form: Form,
    ) -> Result<MeasuredDeclarator, PhraseError>
        ensures parses { ParsesDeclared room form result self.old.rest.now self.new.rest.now }
        ensures shorter { OnOk result (length self.new.rest.now ≤ length self.old.rest.now) }
        ensures fits { IfOk result (λ m. m.depth.height ≤ room.nodes) }
        ensures deep { IfOk result (λ m. IsDeepDeclarator m) }
    {
        let at = self.place();
        if !self.is_at(ASTERISK) {
            let core = self.core(alloc, room, form)?;
            return self.lengthened(alloc, room, at, core);
        }
        if room.nodes == 0 {
            return Err(PhraseError::Nesting(at));
        }
        self.skip();
        self.consts();
        let inner = self.declared(alloc, room.in_node(), form)?;
        pointer_node(alloc, at, inner)
    }

    // A name, a declarator in parentheses, or nothing.
    #[cycle(phrases)]
    fn core(
        &mut self,
        alloc: Global,
        room: Room,
        form: Form,
    ) -> Result<MeasuredDeclarator, PhraseError>
        ensures parses { starts self.old.rest.now ≢ 2 → ParsesCore room form result self.old.rest.now self.new.rest.now }
        ensures shorter { OnOk result (length self.new.rest.now ≤ length self.old.rest.now) }
        ensures fits { IfOk result (λ m. m.depth.height ≤ room.nodes) }
        ensures deep { IfOk result (λ m. IsDeepDeclarator m) }
    {
        let at = self.place();
        if self.is_at_name() {
            if form == Form::Abstract {
                return Err(PhraseError::Syntax);
            }
            if room.nodes == 0 {
                return Err(PhraseError::Nesting(at));
            }
            let name = self.name(alloc)?;
            return name_node(alloc, at, name);
        }
        if !self.opens(form) {
            if form == Form::Named {
                return Err(PhraseError::Syntax);
            }
            return Ok(no_declarator(at));
        }
        if room.pairs == 0 {
            if form == Form::Named {
                return Err(PhraseError::Nesting(at));
            }
            return Err(self.no_declarator_pair(at, form));
        }
        self.skip();
        let inside = self.declared(alloc, room.in_pair(), form)?;
        if inside.tree.is_none() {
            return Err(PhraseError::Syntax);
        }
        if !self.take(RIGHT_PARENTHESIS) {
            return Err(PhraseError::Syntax);
        }
        Ok(inside)
    }

    // The array sizes and parameters after what is an array or a function.
    #[cycle(phrases)]
    fn lengthened(
        &mut self,
        alloc: Global,
        room: Room,
        at: u32,
        core: MeasuredDeclarator,
    ) -> Result<MeasuredDeclarator, PhraseError>
        requires { core.depth.height ≤ room.nodes }
        ensures parses { (form : Form) (start : List Token) → at ≡ place start → ReadsCore room.pairs (inner_of core) start self.old.rest.now → Suits form (inner_of core) → IsCored (inner_of core) start self.old.rest.now → IsDeepDeclarator core → ParsesDeclared room form result start self.new.rest.now }
        ensures shorter { OnOk result (length self.new.rest.now ≤ length self.old.rest.now) }
        ensures fits { IfOk result (λ m. m.depth.height ≤ room.nodes) }
        ensures deep { IsDeepDeclarator core → IfOk result (λ m. IsDeepDeclarator m) }
    {
        let mut left = core;
        while !self.ends_declarator() {
            if room.nodes <= left.depth.height {
                let deepest = left.depth.place_or(at);
                return Err(self.too_deep_or_wrong(deepest));
            }
            left = self.part(alloc, room, at, left)?;
        }
        Ok(left)
    }

    // One array size or list of parameters.
    #[cycle(phrases)]
    fn part(
        &mut self,
        alloc: Global,
        room: Room,
        at: u32,
        left: MeasuredDeclarator,
    ) -> Result<MeasuredDeclarator, PhraseError>
        requires { left.depth.height < room.nodes }
        ensures parses { AddsPart room at (inner_of left) result self.old.rest.now self.new.rest.now }
        ensures shorter { OnOk result (length self.new.rest.now < length self.old.rest.now) }
        ensures fits { IfOk result (λ m. m.depth.height ≤ room.nodes) }
        ensures deep { IsDeepDeclarator left → IfOk result (λ m. IsDeepDeclarator m) }
    {
        if self.take(LEFT_BRACKET) {
            let size = self.size(alloc, room.in_node())?;
            if !self.take(RIGHT_BRACKET) {
                return Err(PhraseError::Syntax);
            }
            return array_node(alloc, at, left, size);
        }
        if !self.take(LEFT_PARENTHESIS) {
            return Err(PhraseError::Syntax);
        }
        let list = self.parameters(alloc, room.in_node())?;
        if !self.take(RIGHT_PARENTHESIS) {
            return Err(PhraseError::Syntax);
        }
        function_node(alloc, at, left, list)
    }

    // The size of an array, or nothing.
    #[cycle(phrases)]
    fn size(&mut self, alloc: Global, room: Room) -> Result<MeasuredSize, PhraseError>
        ensures parses { ParsesSize room result self.old.rest.now self.new.rest.now }
        ensures shorter { OnOk result (length self.new.rest.now ≤ length self.old.rest.now) }
        ensures fits { IfOk result (λ m. m.depth.height ≤ room.nodes) }
        ensures deep { IfOk result (λ m. IsDeepSize m) }
    {
        let at = self.place();
        if self.is_at(RIGHT_BRACKET) {
            return Ok(no_size(at));
        }
        let size = self.conditional_expression(alloc, room)?;
        Ok(some_size(size))
    }

    // Parameters with commas between, or `void` for none (C99 6.7.5.3).
    #[cycle(phrases)]
    fn parameters(&mut self, alloc: Global, room: Room) -> Result<MeasuredParams, PhraseError>
        ensures parses { ParsesParams room result self.old.rest.now self.new.rest.now }
        ensures shorter { OnOk result (length self.new.rest.now < length self.old.rest.now) }
        ensures fits { IfOk result (λ m. m.depth.height ≤ room.nodes) }
        ensures deep { IfOk result (λ m. AreDeepParams m) }
    {
        let first = self.parameter(alloc, room)?;
        if self.stands_alone(first.is_void) {
            return Ok(no_params(alloc, first.depth.deepest));
        }
        let mut depth = first.depth;
        let mut params = Vec::new(alloc);
        params.push(first.param)?;
        while self.take(COMMA) {
            let next = self.parameter(alloc, room)?;
            depth = depth.beside(next.depth);
            params.push(next.param)?;
        }
        Ok(MeasuredParams { params, depth })
    }

    // One parameter.
    #[cycle(phrases)]
    fn parameter(&mut self, alloc: Global, room: Room) -> Result<MeasuredParam, PhraseError>
        ensures parses { ParsesParam room result self.old.rest.now self.new.rest.now }
        ensures shorter { OnOk result (length self.new.rest.now < length self.old.rest.now) }
        ensures fits { IfOk result (λ m. m.depth.height ≤ room.nodes) }
        ensures deep { IfOk result (λ m. IsDeepParam m) }
    {
        let at = self.place();
        let spec = self.specifiers(alloc)?;
        let inner = self.declared(alloc, room, Form::Either)?;
        Ok(param_node(spec, inner, at))
    }
}
