ghost use Rattle.std.specs.Prelude.{◌≡◌, ◌≤◌, ◌∷◌, ◌++◌, suc, List, ◌-◌, ◌⊎◌, Bool, ℕ, []};
ghost use Rattle.c_lexer.specs.declared.token.Token.{Token};
ghost use Rattle.c_lexer.specs.declared.punctuator.TheConstants.{ASSIGN, LEFT_BRACE, LEFT_BRACKET, LEFT_PARENTHESIS, SEMICOLON, RIGHT_PARENTHESIS, QUESTION, COMMA, ASTERISK, RIGHT_BRACKET, RIGHT_BRACE, COLON};
ghost use Rattle.c_lexer.specs.declared.keyword.TheConstants.{BREAK, CONTINUE, DO, FOR, IF, RETURN, SWITCH, WHILE, VOID, CHAR, INT, SIGNED, UNSIGNED, STRUCT, ENUM, SIZEOF, DEFAULT, CASE, ELSE};
ghost use Rattle.c_syntax.specs.Tree.{Access, Items, Expr, sizeof, Prefix, Infix, Ident, named, nothing, Declarator, TypeName, Postfix, Spec, Init, Stmt, Decl};
ghost use Rattle.c_syntax.specs.Tokens.{Is, IsAccess, IsKeyword, IsPrefix, IsUnary, code_of_infix, IsInfix, IsAssignment, IsNameToken, IsInt, IsStr, place, IsPostfix};
ghost use Rattle.c_syntax.specs.Grammar.{primary_level, postfix_level, cast_level, binary_level, Reads, Level, unary_level, conditional_level, assignment_level, expression_level, HasName, HasNoName, ReadsType};
ghost use Rattle.c_syntax.specs.Spelling.{SpellsAnyDepth};
ghost use Rattle.c_syntax.specs.Statements.{ReadsItems, ReadsInit, ReadsStmt, IsPlainDecl, ReadsDecl};
ghost use Rattle.c_syntax.specs.Limits.{height_of_unit, height, height_of_declarator};
ghost use Rattle.c_syntax_printing.specs.Starts.{start};
ghost use Rattle.c_syntax_printing.specs.Heads.{head};
ghost use Rattle.c_syntax_printing.specs.Fails.{Fails, Meets, NotAt, Then, Or};
ghost use Rattle.c_syntax_printing.specs.Phrases.{Bound, any, within, inner, ASpec, ADeclarator, AnInit, APlainDecl, AnExpr, AStmt, ABlockItem, InBlock, InSwitch, SomeLabels, Punctuator, IfTail, WhileTail, DoTail, ForTail, SwitchTail, ReturnTail, EvaluationTail, Fits, MaybeExpr, AFirst, NoElse, Word};
ghost use Rattle.c_syntax_printing.specs.Operands.{enclosed, SomeSuffixes, SomeChain, ParenthesisTail, IndexTail, CallTail, MemberTail, CastTail, IsSomeName, SizeofTail, NotCast, Past, SizeofType, NoSuffix, Postfixed, SomeArguments, SomeExprs, ChoiceTail, ExprsRest, AType};
ghost use Rattle.c_syntax_printing.specs.Declarations.{PartsTail, SomeParts, PartsEnd};
ghost use Rattle.c_syntax_printing.specs.Groups.{InGroup, GroupRest};
ghost use Rattle.c_syntax_printing.specs.Units.{AUnit};
ghost use Rattle.c_syntax_printing.specs.Ranks.{rank};
ghost use Rattle.c_syntax.specs.Specifiers.{Consts, ReadsSpec, Names};
ghost use Rattle.c_syntax_printing.specs.Specs.{SpecEnd, SignedTail, UnsignedTail, TagTail, AConsts, NoTypeWord};
ghost use Rattle.c_syntax_printing.specs.Declarators.{ADeclared, Naming, Suited, Carries, DeclaratorTail, SomeLengthens, Lengthened, NoCore, Bare, SizeClosed, ParamsClosed, AParam, EachClosed};
ghost use Rattle.c_syntax_printing.specs.Initialisers.{InList, ListEnd};
ghost use Rattle.c_syntax_printing.specs.Labels.{LabelsRest};
ghost use Rattle.c_syntax_printing.specs.Items.{DeclaratorsClosed, DeclaratorsEnd, InStruct, AMember, MembersRest, AnItem, InEnum, ValueRest, EnumEnd, AnOther, NoStruct, NoEnum, OtherRest, UnitRest};
ghost use Rattle.c_syntax_printing.specs.Opens.{Opens, DeepExpr, Filled, DeepType, DeepSuffixes, DeepExprs, DeepDeclarator, Builds, Writes, DeepLengthens, Direct, DeepInit, DeepInits, DeepStmt, DeepBlock, DeepDecl};
ghost use Rattle.c_syntax_printing.specs.Nodes.{InExpr, InDeclarator};
ghost use Rattle.c_syntax_printing.specs.Twins.{On};

/// Laws on statements: where what follows the first token of a form fails, no statement begins with that token
/// (C99 6.8). The number 20 is that of tokens that begin an expression; greater ones begin the other statements.
pub fn a_statement_fails_where_its_rest_fails()
    ensures if_statement { (b : Bound) (t : Token) (i r : List Token) → IsKeyword IF t → Fails (IfTail (inner b)) i r → Fails (AStmt b) (t ∷ i) r }
    ensures while_statement { (b : Bound) (t : Token) (i r : List Token) → IsKeyword WHILE t → Fails (WhileTail (inner b)) i r → Fails (AStmt b) (t ∷ i) r }
    ensures do_statement { (b : Bound) (t : Token) (i r : List Token) → IsKeyword DO t → Fails (DoTail (inner b)) i r → Fails (AStmt b) (t ∷ i) r }
    ensures for_statement { (b : Bound) (t : Token) (i r : List Token) → IsKeyword FOR t → Fails (ForTail (inner b)) i r → Fails (AStmt b) (t ∷ i) r }
    ensures switch_statement { (b : Bound) (t : Token) (i r : List Token) → IsKeyword SWITCH t → Fails (SwitchTail (inner b)) i r → Fails (AStmt b) (t ∷ i) r }
    ensures return_statement { (b : Bound) (t : Token) (i r : List Token) → IsKeyword RETURN t → Fails (ReturnTail (inner b)) i r → Fails (AStmt b) (t ∷ i) r }
    ensures break_statement { (b : Bound) (t : Token) (i r : List Token) → IsKeyword BREAK t → Fails (Punctuator SEMICOLON) i r → Fails (AStmt b) (t ∷ i) r }
    ensures continue_statement { (b : Bound) (t : Token) (i r : List Token) → IsKeyword CONTINUE t → Fails (Punctuator SEMICOLON) i r → Fails (AStmt b) (t ∷ i) r }
    ensures evaluation { (b : Bound) (i r : List Token) → (20 ≤ head i → head i ≡ 20) → Fails (EvaluationTail (inner b)) i r → Fails (AStmt b) i r }
    ensures block { (b : Bound) (t : Token) (i r : List Token) → Is LEFT_BRACE t → Fails (InBlock (inner b)) i r → Fails (AStmt b) (t ∷ i) r }
{}

/// Laws on the items of a block: where no brace ends them, they fail where the next one fails, and after one that
/// stands where the others fail (C99 6.8.2). The number 5 is that of a brace that closes.
pub fn a_block_fails_where_an_item_fails()
    ensures next { (b : Bound) (i r : List Token) → (head i ≡ 5 → ⊥) → Fails (ABlockItem b) i r → Fails (InBlock b) i r }
    ensures later { (b c : Bound) (i j r : List Token) → (head i ≡ 5 → ⊥) → ABlockItem c i j → Fails (InBlock b) j r → Fails (InBlock b) i r }
{}

/// Laws on operands (C99 6.5.1, 6.5.2, 6.5.4 to 6.5.14): where what follows their first token fails, they do; and
/// where a first operand fails, or stands and what follows it fails. A token whose number is at least 7 begins
/// the name of a type, if it begins what may stand in parentheses.
pub fn an_operand_fails_where_its_rest_fails()
    ensures parentheses { (b : Bound) (t : Token) (i r : List Token) → Is LEFT_PARENTHESIS t → Fails (ParenthesisTail (enclosed b)) i r → Fails (AnExpr b primary_level) (t ∷ i) r }
    ensures first { (b : Bound) (i r : List Token) → Fails (AnExpr b primary_level) i r → Fails (AnExpr b postfix_level) i r }
    ensures suffixes { (b c : Bound) (i j r : List Token) → AnExpr c primary_level i j → Fails (SomeSuffixes b) j r → Fails (AnExpr b postfix_level) i r }
    ensures index { (b : Bound) (t : Token) (i r : List Token) → Is LEFT_BRACKET t → Fails (IndexTail b) i r → Fails (SomeSuffixes b) (t ∷ i) r }
    ensures call { (b : Bound) (t : Token) (i r : List Token) → Is LEFT_PARENTHESIS t → Fails (CallTail b) i r → Fails (SomeSuffixes b) (t ∷ i) r }
    ensures member { (b : Bound) (x : Access) (t : Token) (i r : List Token) → IsAccess x t → Fails (MemberTail b) i r → Fails (SomeSuffixes b) (t ∷ i) r }
    ensures cast { (b : Bound) (t : Token) (i r : List Token) → Is LEFT_PARENTHESIS t → 7 ≤ start i → Fails (CastTail (inner b)) i r → Fails (AnExpr b cast_level) (t ∷ i) r }
    ensures left { (b : Bound) (n : ℕ) (i r : List Token) → Fails (AnExpr b (binary_level n)) i r → Fails (AnExpr b (binary_level (suc n))) i r }
    ensures right { (b c : Bound) (n : ℕ) (i j r : List Token) → AnExpr c (binary_level n) i j → Fails (SomeChain b n) j r → Fails (AnExpr b (binary_level (suc n))) i r }
{}

/// Laws on the groups of a switch (C99 6.8.4.2): where no brace ends them, they fail where the labels fail, or stand
/// and the group fails; a group fails where a statement fails, or stands and the rest fails. The numbers up to 12
/// are those of labels and braces, and those from 20 on begin statements.
pub fn a_switch_fails_where_a_group_fails()
    ensures labels { (b : Bound) (i r : List Token) → (head i ≡ 5 → ⊥) → Fails (SomeLabels b) i r → Fails (InSwitch b) i r }
    ensures group { (b c : Bound) (i j r : List Token) → (head i ≡ 5 → ⊥) → SomeLabels c i j → Fails (InGroup b) j r → Fails (InSwitch b) i r }
    ensures statement { (b : Bound) (i r : List Token) → Fails (AStmt b) i r → Fails (InGroup b) i r }
    ensures later { (b c : Bound) (i j r : List Token) → AStmt c i j → Fails (GroupRest b) j r → Fails (InGroup b) i r }
    ensures ended { (b : Bound) (i r : List Token) → head i ≤ 12 → Fails (InSwitch b) i r → Fails (GroupRest b) i r }
    ensures going { (b : Bound) (i r : List Token) → 20 ≤ head i → Fails (InGroup b) i r → Fails (GroupRest b) i r }
{}

/// Laws on declarations without a storage class (C99 6.7): where the specifiers fail, or stand and the declarators
/// fail; and where a declarator, its initialiser or what follows it fails. The number 13 is that of assignment
/// operators.
pub fn a_declaration_fails_where_a_part_fails()
    ensures specifiers { (b : Bound) (i r : List Token) → Fails ASpec i r → Fails (APlainDecl b) i r }
    ensures declarators { (b : Bound) (i j r : List Token) → ASpec i j → Fails (SomeParts b) j r → Fails (APlainDecl b) i r }
    ensures declarator { (b : Bound) (i r : List Token) → Fails (ADeclarator b) i r → Fails (SomeParts b) i r }
    ensures tail { (b c : Bound) (i j r : List Token) → ADeclarator c i j → Fails (PartsTail b) j r → Fails (SomeParts b) i r }
    ensures initialiser { (b : Bound) (t : Token) (i r : List Token) → Is ASSIGN t → Fails (AnInit b) i r → Fails (PartsTail b) (t ∷ i) r }
    ensures after_initialiser { (b c : Bound) (t : Token) (i j r : List Token) → Is ASSIGN t → AnInit c i j → Fails (PartsEnd b) j r → Fails (PartsTail b) (t ∷ i) r }
    ensures without_initialiser { (b : Bound) (i r : List Token) → (rank i ≡ 13 → ⊥) → Fails (PartsEnd b) i r → Fails (PartsTail b) i r }
{}

/// Laws on units: where they fail at the first token of the rest, no unit of any depth spells the tokens, nor any
/// list that begins with them through that token (C99 6.9); where units within some pairs and nodes fail there, none
/// within them does.
pub fn no_unit_is_spelled_where_units_fail()
    ensures any_depth { (tokens front r : List Token) → Fails (AUnit any) tokens r → tokens ≡ front ++ r → (s : List Token) → Meets r s → (u : Items) → SpellsAnyDepth u (front ++ s) → ⊥ }
    ensures limited { (p n : ℕ) (tokens front r : List Token) → Fails (AUnit (within p n)) tokens r → tokens ≡ front ++ r → (s : List Token) → Meets r s → (u : Items) → ReadsItems p u (front ++ s) [] → height_of_unit u ≤ n → ⊥ }
{}

/// Laws on specifiers (C99 6.7.2, 6.7.3): each const before them may be left out; after their last word nothing of
/// specifiers may stand; and where no word of them stands first, they fail.
pub fn specifiers_fail_where_a_word_fails()
    ensures consts_fail { (h i r : List Token) → Consts h i → Fails ASpec i r → Fails ASpec h r }
    ensures after_void { (t : Token) (i r : List Token) → IsKeyword VOID t → Fails SpecEnd i r → Fails ASpec (t ∷ i) r }
    ensures after_char { (t : Token) (i r : List Token) → IsKeyword CHAR t → Fails SpecEnd i r → Fails ASpec (t ∷ i) r }
    ensures after_int { (t : Token) (i r : List Token) → IsKeyword INT t → Fails SpecEnd i r → Fails ASpec (t ∷ i) r }
    ensures after_signed { (t : Token) (i r : List Token) → IsKeyword SIGNED t → Fails SignedTail i r → Fails ASpec (t ∷ i) r }
    ensures after_unsigned { (t : Token) (i r : List Token) → IsKeyword UNSIGNED t → Fails UnsignedTail i r → Fails ASpec (t ∷ i) r }
    ensures after_struct { (t : Token) (i r : List Token) → IsKeyword STRUCT t → Fails TagTail i r → Fails ASpec (t ∷ i) r }
    ensures after_enum { (t : Token) (i r : List Token) → IsKeyword ENUM t → Fails TagTail i r → Fails ASpec (t ∷ i) r }
    ensures signed_bare { (i j r : List Token) → AConsts i j → NotAt (IsKeyword INT) j → Fails SpecEnd j r → Fails SignedTail i r }
    ensures signed_int { (t : Token) (i j r : List Token) → AConsts i (t ∷ j) → IsKeyword INT t → Fails SpecEnd j r → Fails SignedTail i r }
    ensures unsigned_bare { (i j r : List Token) → AConsts i j → NotAt (IsKeyword INT) j → NotAt (IsKeyword CHAR) j → Fails SpecEnd j r → Fails UnsignedTail i r }
    ensures unsigned_int { (t : Token) (i j r : List Token) → AConsts i (t ∷ j) → IsKeyword INT t → Fails SpecEnd j r → Fails UnsignedTail i r }
    ensures unsigned_char { (t : Token) (i j r : List Token) → AConsts i (t ∷ j) → IsKeyword CHAR t → Fails SpecEnd j r → Fails UnsignedTail i r }
    ensures end_fails { (i j : List Token) → AConsts i j → 7 ≤ start j → Fails SpecEnd i j }
    ensures no_tag_follows { (i : List Token) → NotAt IsSomeName i → Fails TagTail i i }
    ensures no_words { (i : List Token) → NoTypeWord i → Fails ASpec i i }
{}

/// Laws on primary, unary and cast expressions (C99 6.5.1, 6.5.3, 6.5.4): where nothing that begins them stands first,
/// a string follows what is none, or no node or pair is left; and where what follows an operator fails. A parenthesis
/// begins a cast only with the name of a type behind it, so the rest must be behind that parenthesis.
pub fn an_operand_fails_at_its_first_token()
    ensures no_operand { (b : Bound) (i : List Token) → (3 ≤ start i → start i ≤ 5 → ⊥) → Fails (AnExpr b primary_level) i i }
    ensures string_follows { (b : Bound) (d : ℕ) (e : Expr) (i j : List Token) → (rank i ≡ 0 → ⊥) → Reads d primary_level e i j → rank j ≡ 0 → Fails (AnExpr b primary_level) i j }
    ensures no_node_left { (p : ℕ) (l : Level) (i : List Token) → Fails (AnExpr (within p 0) l) i i }
    ensures no_pair_left { (n : ℕ) (t : Token) (i : List Token) → Is LEFT_PARENTHESIS t → Fails (AnExpr (within 0 n) primary_level) (t ∷ i) (t ∷ i) }
    ensures unary_bare { (b : Bound) (i r : List Token) → (1 ≤ start i → 3 ≤ start i) → Fails (AnExpr b postfix_level) i r → Fails (AnExpr b unary_level) i r }
    ensures step { (b : Bound) (t : Token) (i r : List Token) (p : Prefix) → IsPrefix p t → (p ≡ sizeof → ⊥) → Fails (AnExpr (inner b) unary_level) i r → Fails (AnExpr b unary_level) (t ∷ i) r }
    ensures operator { (b : Bound) (op : ℕ) (t : Token) (i r : List Token) → Is op t → IsUnary op → Fails (AnExpr (inner b) cast_level) i r → Fails (AnExpr b unary_level) (t ∷ i) r }
    ensures after_sizeof { (b : Bound) (t : Token) (i r : List Token) → IsKeyword SIZEOF t → Fails (SizeofTail (inner b)) i r → Fails (AnExpr b unary_level) (t ∷ i) r }
    ensures sizeof_operand { (b : Bound) (i r : List Token) → NotCast i → Past i r → Fails (AnExpr b unary_level) i r → Fails (SizeofTail b) i r }
    ensures sizeof_type_fails { (b : Bound) (t : Token) (i r : List Token) → Is LEFT_PARENTHESIS t → 7 ≤ start i → Fails (SizeofType b) i r → Fails (SizeofTail b) (t ∷ i) r }
    ensures suffix_after_type { (i : List Token) → rank i ≤ 1 → Fails NoSuffix i i }
    ensures cast_bare { (b : Bound) (i r : List Token) → NotCast i → Past i r → Fails (AnExpr b unary_level) i r → Fails (AnExpr b cast_level) i r }
    ensures parenthesis_is_left { (b : Bound) (i r : List Token) → Fits b 1 1 → Fails (AnExpr b unary_level) i r → Past i r }
{}

/// Laws on postfix expressions of which an operand and some suffixes are read (C99 6.5.2): what follows them fails, a
/// string follows them, or what has them is as high as nodes may be; and on the arguments of a call.
pub fn suffixes_fail_behind_what_is_read()
    ensures postfixed_fails { (b : Bound) (d : ℕ) (e : Expr) (i j r : List Token) → Postfixed d e i j → Fails (SomeSuffixes b) j r → Fails (AnExpr b postfix_level) i r }
    ensures string_after_suffixes { (b : Bound) (d : ℕ) (e : Expr) (i j : List Token) → Postfixed d e i j → rank j ≡ 0 → Fails (AnExpr b postfix_level) i j }
    ensures postfixed_too_high { (p n d : ℕ) (e : Expr) (i j : List Token) → Postfixed d e i j → rank j ≡ 1 → n ≤ height e → Fails (AnExpr (within p n) postfix_level) i j }
    ensures arguments_fail { (b : Bound) (i r : List Token) → NotAt (Is RIGHT_PARENTHESIS) i → Fails (Then (SomeExprs b) (Punctuator RIGHT_PARENTHESIS)) i r → Fails (SomeArguments b) i r }
    ensures call_fails { (b : Bound) (t : Token) (i r : List Token) → Is LEFT_PARENTHESIS t → Fails (SomeArguments (inner b)) i r → Fails (SomeSuffixes b) (t ∷ i) r }
{}

/// Laws on binary, conditional and assignment expressions and on those with commas (C99 6.5.5 to 6.5.17): the first
/// operand fails, or stands and what follows its operator fails, or is as high as nodes may be; and an assignment
/// operator stands after what is no unary expression. The number 13 is that of assignment operators.
pub fn an_operator_fails_where_its_operand_fails()
    ensures first_operand { (b : Bound) (i r : List Token) (n : ℕ) → Fails (AnExpr b cast_level) i r → Fails (AnExpr b (binary_level n)) i r }
    ensures level_up { (b : Bound) (i r : List Token) (n m : ℕ) → n ≤ m → Fails (AnExpr b (binary_level n)) i r → Fails (AnExpr b (binary_level m)) i r }
    ensures operator_fails { (b : Bound) (o : Infix) (l most : ℕ) (d : ℕ) (e : Expr) (t : Token) (i k r : List Token) → IsInfix o l → 1 ≤ l → l ≤ most → Is (code_of_infix o) t → Reads d (binary_level l) e i (t ∷ k) → Fails (Then (AnExpr (inner b) (binary_level (l - 1))) (SomeChain b (l - 1))) k r → Fails (AnExpr b (binary_level most)) i r }
    ensures operator_too_high { (o : Infix) (l most : ℕ) (p n d : ℕ) (e : Expr) (t : Token) (i j : List Token) → IsInfix o l → 1 ≤ l → l ≤ most → Is (code_of_infix o) t → Reads d (binary_level l) e i (t ∷ j) → n ≤ height e → Fails (AnExpr (within p n) (binary_level most)) i (t ∷ j) }
    ensures test_fails { (b : Bound) (i r : List Token) → Fails (AnExpr b (binary_level 10)) i r → Fails (AnExpr b conditional_level) i r }
    ensures choice_fails { (b c : Bound) (t : Token) (i j r : List Token) → AnExpr c (binary_level 10) i (t ∷ j) → Is QUESTION t → Fails (ChoiceTail (inner b)) j r → Fails (AnExpr b conditional_level) i r }
    ensures choice_too_high { (p n d : ℕ) (e : Expr) (t : Token) (i j : List Token) → Is QUESTION t → Reads d (binary_level 10) e i (t ∷ j) → n ≤ height e → Fails (AnExpr (within p n) conditional_level) i (t ∷ j) }
    ensures value_fails { (b : Bound) (i r : List Token) → Fails (AnExpr b conditional_level) i r → Fails (AnExpr b assignment_level) i r }
    ensures assigned_value_fails { (b : Bound) (d op : ℕ) (a : Expr) (t : Token) (i j r : List Token) → Is op t → IsAssignment op → Reads d unary_level a i (t ∷ j) → Fails (AnExpr (inner b) assignment_level) j r → Fails (AnExpr b assignment_level) i r }
    ensures assigned_too_high { (p n d op : ℕ) (a : Expr) (t : Token) (i j : List Token) → Is op t → IsAssignment op → Reads d unary_level a i (t ∷ j) → n ≤ height a → Fails (AnExpr (within p n) assignment_level) i (t ∷ j) }
    ensures assigned_after_operators { (b c : Bound) (d : ℕ) (e : Expr) (i h j : List Token) → AnExpr c cast_level i h → (rank h ≡ 13 → ⊥) → Reads d conditional_level e i j → rank j ≡ 13 → Fails (AnExpr b assignment_level) i j }
    ensures assigned_cast { (b : Bound) (d : ℕ) (e : Expr) (t : Token) (i j : List Token) → Is LEFT_PARENTHESIS t → 7 ≤ start i → Reads d cast_level e (t ∷ i) j → rank j ≡ 13 → Fails (AnExpr b assignment_level) (t ∷ i) j }
    ensures comma_first { (b : Bound) (i r : List Token) → Fails (AnExpr b assignment_level) i r → Fails (AnExpr b expression_level) i r }
    ensures comma_fails { (b : Bound) (d : ℕ) (a : Expr) (t : Token) (i j r : List Token) → Is COMMA t → Reads d assignment_level a i (t ∷ j) → Fails (ExprsRest (inner b)) (t ∷ j) r → Fails (AnExpr b expression_level) i r }
    ensures comma_too_high { (p n d : ℕ) (a : Expr) (t : Token) (i j : List Token) → Is COMMA t → Reads d assignment_level a i (t ∷ j) → n ≤ height a → Fails (AnExpr (within p n) expression_level) i (t ∷ j) }
    ensures exprs_first { (b : Bound) (i r : List Token) → Fails (AnExpr b assignment_level) i r → Fails (SomeExprs b) i r }
    ensures exprs_fail { (b c : Bound) (i j r : List Token) → AnExpr c assignment_level i j → Fails (ExprsRest b) j r → Fails (SomeExprs b) i r }
    ensures next_fails { (b : Bound) (t : Token) (i r : List Token) → Is COMMA t → Fails (AnExpr b assignment_level) i r → Fails (ExprsRest b) (t ∷ i) r }
    ensures next_leads { (b c : Bound) (t : Token) (i j r : List Token) → Is COMMA t → AnExpr c assignment_level i j → Fails (ExprsRest b) j r → Fails (ExprsRest b) (t ∷ i) r }
{}

/// Laws on declarators and type names (C99 6.7.5, 6.7.6), with a name, without one or either: what begins them doesn't
/// stand first, or what follows fails. Where no name stands, a parenthesis begins parameters only with a word of
/// specifiers behind it.
pub fn a_declarator_fails_where_a_part_fails()
    ensures declarator_fails_as { (b : Bound) (i r : List Token) → Fails (ADeclared HasName b) i r → Fails (ADeclarator b) i r }
    ensures pointer_fails { (w : Naming) (b : Bound) (t : Token) (i r : List Token) → Carries (Suited w) → Is ASTERISK t → Fails (Then AConsts (ADeclared (Suited w) (inner b))) i r → Fails (ADeclared (Suited w) b) (t ∷ i) r }
    ensures no_declarator_left { (w : Naming) (p : ℕ) (i : List Token) → 2 ≤ start i → Fails (ADeclared (Suited w) (within p 0)) i i }
    ensures named_fails { (w : Naming) (b : Bound) (i : List Token) → Carries (Suited w) → ((at : ℕ) (x : Ident) → (Suited w) (named at x) → ⊥) → start i ≡ 5 → Fails (ADeclared (Suited w) b) i i }
    ensures nameless_fails { (w : Naming) (b : Bound) (i : List Token) → Carries (Suited w) → ((Suited w) nothing → ⊥) → (start i ≡ 2 → ⊥) → (start i ≡ 4 → ⊥) → (start i ≡ 5 → ⊥) → Fails (ADeclared (Suited w) b) i i }
    ensures names_carry { (w : Naming) → Carries (Suited w) }
    ensures declarator_tail_fails { (w : Naming) (b : Bound) (t : Token) (i r : List Token) → Carries (Suited w) → Is LEFT_PARENTHESIS t → (start i ≤ 6) ⊎ ((Suited w) nothing → ⊥) → Fails (DeclaratorTail (Suited w) b) i r → Fails (ADeclared (Suited w) b) (t ∷ i) r }
    ensures nothing_inside { (w : Naming) (b : Bound) (t : Token) (i : List Token) → Is LEFT_PARENTHESIS t → start i ≤ 1 → Fails (ADeclared (Suited w) b) (t ∷ i) i }
    ensures no_pair_for_declarator { (w : Naming) (n : ℕ) (t : Token) (i : List Token) → Carries (Suited w) → Is LEFT_PARENTHESIS t → start i ≤ 6 → Fails (ADeclared (Suited w) (within 0 n)) (t ∷ i) i }
    ensures no_pair_for_name { (w : Naming) (n : ℕ) (t : Token) (i : List Token) → Carries (Suited w) → ((Suited w) nothing → ⊥) → Is LEFT_PARENTHESIS t → Fails (ADeclared (Suited w) (within 0 n)) (t ∷ i) (t ∷ i) }
    ensures lengthened_fails { (w : Naming) (b : Bound) (d : ℕ) (e : Declarator) (i j r : List Token) → Lengthened d e i j → Fails (SomeLengthens b) j r → Fails (ADeclared (Suited w) b) i r }
    ensures lengthened_too_high { (w : Naming) (p n d : ℕ) (e : Declarator) (i j : List Token) → Lengthened d e i j → 2 ≤ start j → n ≤ height_of_declarator e → Fails (ADeclared (Suited w) (within p n)) i j }
    ensures bare_fails { (w : Naming) (b : Bound) (i r : List Token) → NoCore i → Past i r → Fails (SomeLengthens b) i r → Fails (ADeclared (Suited w) b) i r }
    ensures bare_later_fails { (w : Naming) (b : Bound) (d : ℕ) (e : Declarator) (i j r : List Token) → NoCore i → Past i j → Bare d e i j → Fails (SomeLengthens b) j r → Fails (ADeclared (Suited w) b) i r }
    ensures bare_too_high { (w : Naming) (p n d : ℕ) (e : Declarator) (i j : List Token) → NoCore i → Past i j → Bare d e i j → 2 ≤ start j → n ≤ height_of_declarator e → Fails (ADeclared (Suited w) (within p n)) i j }
    ensures lengthens_wrong { (b : Bound) (i : List Token) → 2 ≤ start i → NotAt (Is LEFT_BRACKET) i → NotAt (Is LEFT_PARENTHESIS) i → Fails (SomeLengthens b) i i }
    ensures array_fails { (b : Bound) (t : Token) (i r : List Token) → Is LEFT_BRACKET t → Fails (SizeClosed (inner b)) i r → Fails (SomeLengthens b) (t ∷ i) r }
    ensures size_fails { (b : Bound) (i r : List Token) → NotAt (Is RIGHT_BRACKET) i → Fails (Then (AnExpr b conditional_level) (Punctuator RIGHT_BRACKET)) i r → Fails (SizeClosed b) i r }
    ensures function_fails { (b : Bound) (t : Token) (i r : List Token) → Is LEFT_PARENTHESIS t → Fails (ParamsClosed (inner b)) i r → Fails (SomeLengthens b) (t ∷ i) r }
    ensures type_fails { (b : Bound) (i r : List Token) → Fails (Then ASpec (ADeclared HasNoName b)) i r → Fails (AType b) i r }
{}

/// Laws on parameters and the parenthesis after them (C99 6.7.5.3).
pub fn parameters_fail_where_one_fails()
    ensures first_param_fails { (b : Bound) (i r : List Token) → Fails (AParam b) i r → Fails (ParamsClosed b) i r }
    ensures first_param_leads { (b c : Bound) (i j r : List Token) → AParam c i j → Fails (EachClosed b) j r → Fails (ParamsClosed b) i r }
    ensures next_param_fails { (b : Bound) (t : Token) (i r : List Token) → Is COMMA t → Fails (AParam b) i r → Fails (EachClosed b) (t ∷ i) r }
    ensures next_param_leads { (b c : Bound) (t : Token) (i j r : List Token) → Is COMMA t → AParam c i j → Fails (EachClosed b) j r → Fails (EachClosed b) (t ∷ i) r }
    ensures params_unclosed { (b : Bound) (i : List Token) → NotAt (Is COMMA) i → NotAt (Is RIGHT_PARENTHESIS) i → Fails (EachClosed b) i i }
{}

/// Laws on initialisers (C99 6.7.8).
pub fn an_initialiser_fails_where_a_part_fails()
    ensures init_value_fails { (b : Bound) (i r : List Token) → NotAt (Is LEFT_BRACE) i → Fails (AnExpr b assignment_level) i r → Fails (AnInit b) i r }
    ensures no_init_left { (p : ℕ) (i : List Token) → Fails (AnInit (within p 0)) i i }
    ensures init_list_fails { (b : Bound) (t : Token) (i r : List Token) → Is LEFT_BRACE t → Fails (InList (inner b)) i r → Fails (AnInit b) (t ∷ i) r }
    ensures first_init_fails { (b : Bound) (i r : List Token) → Fails (AnInit b) i r → Fails (InList b) i r }
    ensures first_init_leads { (b c : Bound) (i j r : List Token) → AnInit c i j → Fails (ListEnd b) j r → Fails (InList b) i r }
    ensures list_unclosed { (b : Bound) (i : List Token) → NotAt (Is COMMA) i → NotAt (Is RIGHT_BRACE) i → Fails (ListEnd b) i i }
    ensures list_goes_on { (b : Bound) (t : Token) (i r : List Token) → Is COMMA t → NotAt (Is RIGHT_BRACE) i → Fails (InList b) i r → Fails (ListEnd b) (t ∷ i) r }
{}

/// Laws on labels, on the parts of statements and blocks, and on what stands between the declarators of a declaration
/// (C99 6.7, 6.8). The numbers 11 and 12 are those of labels, 2 that of words of a type, and those from 20 on begin
/// statements.
pub fn labels_and_heads_fail_where_a_part_fails()
    ensures default_fails { (b : Bound) (t : Token) (i r : List Token) → IsKeyword DEFAULT t → Fails (Then (Punctuator COLON) (LabelsRest b)) i r → Fails (SomeLabels b) (t ∷ i) r }
    ensures case_fails { (b : Bound) (t : Token) (i r : List Token) → IsKeyword CASE t → Fails (Then (AnExpr b conditional_level) (Then (Punctuator COLON) (LabelsRest b))) i r → Fails (SomeLabels b) (t ∷ i) r }
    ensures no_labels_begin { (b : Bound) (i : List Token) → (11 ≤ head i → head i ≤ 12 → ⊥) → Fails (SomeLabels b) i i }
    ensures more_labels_fail { (b : Bound) (i r : List Token) → head i ≤ 12 → Fails (SomeLabels b) i r → Fails (LabelsRest b) i r }
    ensures labels_end_fails { (b : Bound) (i : List Token) → (11 ≤ head i → head i ≤ 12 → ⊥) → (20 ≤ head i → ⊥) → Fails (LabelsRest b) i i }
    ensures maybe_fails { (b : Bound) (i r : List Token) (end : ℕ) → NotAt (Is end) i → Fails (AnExpr b expression_level) i r → Fails (Then (MaybeExpr b) (Punctuator end)) i r }
    ensures first_decl_fails { (b : Bound) (i r : List Token) → head i ≡ 2 → Fails (APlainDecl b) i r → Fails (AFirst b) i r }
    ensures first_expr_fails { (b : Bound) (i r : List Token) → NotAt (Is SEMICOLON) i → (head i ≡ 2 → ⊥) → Fails (EvaluationTail b) i r → Fails (AFirst b) i r }
    ensures no_stmt_left { (p : ℕ) (i : List Token) → Fails (AStmt (within p 0)) i i }
    ensures no_stmt_begins { (b : Bound) (i : List Token) → (20 ≤ head i → ⊥) → Fails (AStmt b) i i }
    ensures if_needs_two { (p : ℕ) (t : Token) (i : List Token) → IsKeyword IF t → Fails (AStmt (within p 1)) (t ∷ i) (t ∷ i) }
    ensures while_needs_two { (p : ℕ) (t : Token) (i : List Token) → IsKeyword WHILE t → Fails (AStmt (within p 1)) (t ∷ i) (t ∷ i) }
    ensures do_needs_two { (p : ℕ) (t : Token) (i : List Token) → IsKeyword DO t → Fails (AStmt (within p 1)) (t ∷ i) (t ∷ i) }
    ensures for_needs_two { (p : ℕ) (t : Token) (i : List Token) → IsKeyword FOR t → Fails (AStmt (within p 1)) (t ∷ i) (t ∷ i) }
    ensures switch_needs_two { (p : ℕ) (t : Token) (i : List Token) → IsKeyword SWITCH t → Fails (AStmt (within p 1)) (t ∷ i) (t ∷ i) }
    ensures item_decl_fails { (b : Bound) (i r : List Token) → head i ≡ 2 → Fails (APlainDecl b) i r → Fails (ABlockItem b) i r }
    ensures item_stmt_fails { (b : Bound) (i r : List Token) → (head i ≡ 2 → ⊥) → Fails (AStmt b) i r → Fails (ABlockItem b) i r }
    ensures else_fails { (b : Bound) (t : Token) (i r : List Token) → IsKeyword ELSE t → Fails (AStmt b) i r → Fails (Or NoElse (Then (Word ELSE) (AStmt b))) (t ∷ i) r }
    ensures no_decl_left { (p : ℕ) (i : List Token) → Fails (APlainDecl (within p 0)) i i }
    ensures parts_unclosed { (b : Bound) (i : List Token) → NotAt (Is SEMICOLON) i → NotAt (Is COMMA) i → Fails (PartsEnd b) i i }
    ensures next_part_fails { (b : Bound) (t : Token) (i r : List Token) → Is COMMA t → Fails (SomeParts b) i r → Fails (PartsEnd b) (t ∷ i) r }
    ensures no_assign_fails { (b : Bound) (i r : List Token) → NotAt (Is ASSIGN) i → Fails (PartsEnd b) i r → Fails (PartsTail b) i r }
{}

/// Laws on structs, enums, declarations and functions at file scope (C99 6.7.2, 6.9).
pub fn an_item_fails_where_a_part_fails()
    ensures first_declarator_fails { (b : Bound) (i r : List Token) → Fails (ADeclarator b) i r → Fails (DeclaratorsClosed b) i r }
    ensures first_declarator_leads { (b c : Bound) (i j r : List Token) → ADeclarator c i j → Fails (DeclaratorsEnd b) j r → Fails (DeclaratorsClosed b) i r }
    ensures declarators_unclosed { (b : Bound) (i : List Token) → NotAt (Is SEMICOLON) i → NotAt (Is COMMA) i → Fails (DeclaratorsEnd b) i i }
    ensures next_declarator_fails { (b : Bound) (t : Token) (i r : List Token) → Is COMMA t → Fails (DeclaratorsClosed b) i r → Fails (DeclaratorsEnd b) (t ∷ i) r }
    ensures member_fails { (b : Bound) (i r : List Token) → Fails (AMember b) i r → Fails (InStruct b) i r }
    ensures member_leads { (b c : Bound) (i j r : List Token) → AMember c i j → Fails (MembersRest b) j r → Fails (InStruct b) i r }
    ensures more_members_fail { (b : Bound) (i r : List Token) → NotAt (Is RIGHT_BRACE) i → Fails (InStruct b) i r → Fails (MembersRest b) i r }
    ensures members_close { (b : Bound) (t : Token) (i r : List Token) → Is RIGHT_BRACE t → Fails (Punctuator SEMICOLON) i r → Fails (MembersRest b) (t ∷ i) r }
    ensures struct_fails { (b : Bound) (t n l : Token) (i r : List Token) → IsKeyword STRUCT t → Is LEFT_BRACE l → Fails (InStruct b) i r → Fails (AnItem b) (t ∷ n ∷ l ∷ i) r }
    ensures struct_nameless { (b : Bound) (t : Token) (i : List Token) → IsKeyword STRUCT t → NotAt IsSomeName i → Fails (AnItem b) (t ∷ i) i }
    ensures enum_nameless { (b : Bound) (i : List Token) → NotAt IsSomeName i → Fails (InEnum b) i i }
    ensures enumerator_fails { (b : Bound) (t : Token) (i r : List Token) → Fails (ValueRest b) i r → Fails (InEnum b) (t ∷ i) r }
    ensures enumerator_value_fails { (b : Bound) (t : Token) (i r : List Token) → Is ASSIGN t → Fails (Then (AnExpr b conditional_level) (EnumEnd b)) i r → Fails (ValueRest b) (t ∷ i) r }
    ensures no_value_fails { (b : Bound) (i r : List Token) → NotAt (Is ASSIGN) i → Fails (EnumEnd b) i r → Fails (ValueRest b) i r }
    ensures enum_unclosed { (b : Bound) (i : List Token) → NotAt (Is RIGHT_BRACE) i → NotAt (Is COMMA) i → Fails (EnumEnd b) i i }
    ensures enum_closes { (b : Bound) (t : Token) (i r : List Token) → Is RIGHT_BRACE t → Fails (Punctuator SEMICOLON) i r → Fails (EnumEnd b) (t ∷ i) r }
    ensures enum_closes_after_comma { (b : Bound) (t u : Token) (i r : List Token) → Is COMMA t → Is RIGHT_BRACE u → Fails (Punctuator SEMICOLON) i r → Fails (EnumEnd b) (t ∷ u ∷ i) r }
    ensures enum_goes_on { (b : Bound) (t : Token) (i r : List Token) → Is COMMA t → NotAt (Is RIGHT_BRACE) i → Fails (InEnum b) i r → Fails (EnumEnd b) (t ∷ i) r }
    ensures enum_tagless { (b : Bound) (t : Token) (i : List Token) → IsKeyword ENUM t → NotAt IsSomeName i → NotAt (Is LEFT_BRACE) i → Fails (AnItem b) (t ∷ i) i }
    ensures bare_enum_fails { (b : Bound) (t l : Token) (i r : List Token) → IsKeyword ENUM t → Is LEFT_BRACE l → Fails (InEnum b) i r → Fails (AnItem b) (t ∷ l ∷ i) r }
    ensures tagged_enum_fails { (b : Bound) (t n l : Token) (i r : List Token) → IsKeyword ENUM t → IsSomeName n → Is LEFT_BRACE l → Fails (InEnum b) i r → Fails (AnItem b) (t ∷ n ∷ l ∷ i) r }
    ensures other_fails { (b : Bound) (i r : List Token) → NotAt (IsKeyword STRUCT) i → NotAt (IsKeyword ENUM) i → Fails (AnOther b) i r → Fails (AnItem b) i r }
    ensures other_struct_fails { (b : Bound) (t : Token) (k r : List Token) → Fits b 0 1 → IsKeyword STRUCT t → NoStruct k → Fails (AnOther b) (t ∷ k) r → Fails (AnItem b) (t ∷ k) r }
    ensures other_enum_fails { (b : Bound) (t : Token) (k r : List Token) → Fits b 0 1 → IsKeyword ENUM t → NoEnum k → Fails (AnOther b) (t ∷ k) r → Fails (AnItem b) (t ∷ k) r }
    ensures body_fails { (b : Bound) (t : Token) (i r : List Token) → Is LEFT_BRACE t → Fails (InBlock (inner b)) i r → Fails (OtherRest b) (t ∷ i) r }
    ensures no_body_fails { (b : Bound) (i r : List Token) → NotAt (Is LEFT_BRACE) i → Fails (PartsTail b) i r → Fails (OtherRest b) i r }
{}

/// Laws on units (C99 6.9): an item fails, or stands and the rest fails.
pub fn a_unit_fails_where_an_item_fails()
    ensures item_fails { (b : Bound) (i r : List Token) → Fails (AnItem b) i r → Fails (AUnit b) i r }
    ensures item_leads { (b c : Bound) (i j r : List Token) → AnItem c i j → Fails (UnitRest b) j r → Fails (AUnit b) i r }
    ensures more_items_fail { (b : Bound) (t : Token) (i r : List Token) → Fails (AUnit b) (t ∷ i) r → Fails (UnitRest b) (t ∷ i) r }
{}

/// Laws on where tokens go on past the limits in an expression (C99 6.5): a node or a pair too many in a part is one in
/// the whole; and a token for which no node or pair is left begins one.
pub fn an_expression_opens_past_the_limits()
    ensures postfix_opens { (at p n : ℕ) (i r : List Token) → Opens (DeepExpr at p n primary_level) i r → Opens (DeepExpr at p n postfix_level) i r }
    ensures unary_opens { (at p n : ℕ) (i r : List Token) → Opens (DeepExpr at p n postfix_level) i r → Opens (DeepExpr at p n unary_level) i r }
    ensures cast_opens { (at p n : ℕ) (i r : List Token) → Opens (DeepExpr at p n unary_level) i r → Opens (DeepExpr at p n cast_level) i r }
    ensures first_operand_opens { (at p n : ℕ) (i r : List Token) (l : ℕ) → Opens (DeepExpr at p n cast_level) i r → Opens (DeepExpr at p n (binary_level l)) i r }
    ensures level_up_opens { (at p n : ℕ) (i r : List Token) (l m : ℕ) → l ≤ m → Opens (DeepExpr at p n (binary_level l)) i r → Opens (DeepExpr at p n (binary_level m)) i r }
    ensures test_opens { (at p n : ℕ) (i r : List Token) → Opens (DeepExpr at p n (binary_level 10)) i r → Opens (DeepExpr at p n conditional_level) i r }
    ensures value_opens { (at p n : ℕ) (i r : List Token) → Opens (DeepExpr at p n conditional_level) i r → Opens (DeepExpr at p n assignment_level) i r }
    ensures comma_first_opens { (at p n : ℕ) (i r : List Token) → Opens (DeepExpr at p n assignment_level) i r → Opens (DeepExpr at p n expression_level) i r }
    ensures name_too_deep { (p : ℕ) (name : List ℕ) (t : Token) (i : List Token) → IsNameToken name t → Opens (DeepExpr t.from p 0 primary_level) (t ∷ i) (t ∷ i) }
    ensures int_too_deep { (p n : ℕ) (t : Token) (i : List Token) (u : Bool) → IsInt n u t → Opens (DeepExpr t.from p 0 primary_level) (t ∷ i) (t ∷ i) }
    ensures string_too_deep { (p : ℕ) (bytes : List ℕ) (t : Token) (i : List Token) → IsStr bytes t → Opens (DeepExpr t.from p 0 primary_level) (t ∷ i) (t ∷ i) }
    ensures parentheses_open { (at p n : ℕ) (t : Token) (i r : List Token) → Is LEFT_PARENTHESIS t → Opens (DeepExpr at p n expression_level) i r → Opens (DeepExpr at (suc p) n primary_level) (t ∷ i) r }
    ensures pair_too_deep { (n : ℕ) (t u : Token) (i : List Token) → Is LEFT_PARENTHESIS t → ((m : List Token) → Filled (λ k j. (e : Expr) × Reads 0 expression_level e (u ∷ k) j) m) → Opens (DeepExpr t.from 0 n primary_level) (t ∷ u ∷ i) (u ∷ i) }
    ensures step_opens { (at p n : ℕ) (t : Token) (i r : List Token) (s : Prefix) → IsPrefix s t → Opens (DeepExpr at p n unary_level) i r → Opens (DeepExpr at p (suc n) unary_level) (t ∷ i) r }
    ensures operator_opens { (at p n op : ℕ) (t : Token) (i r : List Token) → Is op t → IsUnary op → Opens (DeepExpr at p n cast_level) i r → Opens (DeepExpr at p (suc n) unary_level) (t ∷ i) r }
    ensures step_too_deep { (p : ℕ) (t : Token) (i : List Token) (s : Prefix) → IsPrefix s t → Opens (DeepExpr t.from p 0 unary_level) (t ∷ i) (t ∷ i) }
    ensures operator_too_deep { (p op : ℕ) (t : Token) (i : List Token) → Is op t → IsUnary op → Opens (DeepExpr t.from p 0 unary_level) (t ∷ i) (t ∷ i) }
    ensures cast_too_deep { (p : ℕ) (t : Token) (i : List Token) → Is LEFT_PARENTHESIS t → Opens (DeepExpr t.from p 0 cast_level) (t ∷ i) (t ∷ i) }
    ensures cast_type_opens { (at p n : ℕ) (t : Token) (i r : List Token) → Is LEFT_PARENTHESIS t → Opens (DeepType at p n) i r → Opens (DeepExpr at p (suc n) cast_level) (t ∷ i) r }
    ensures sizeof_type_opens { (at p n : ℕ) (t u : Token) (i r : List Token) → IsKeyword SIZEOF t → Is LEFT_PARENTHESIS u → Opens (DeepType at p n) i r → Opens (DeepExpr at p (suc n) unary_level) (t ∷ u ∷ i) r }
    ensures cast_operand_opens { (at p n d : ℕ) (y : TypeName) (t u : Token) (i j r : List Token) → d ≤ suc p → Is LEFT_PARENTHESIS t → ReadsType d y i (u ∷ j) → Is RIGHT_PARENTHESIS u → Opens (DeepExpr at p n cast_level) j r → Opens (DeepExpr at p (suc n) cast_level) (t ∷ i) r }
    ensures suffixes_open { (at p n d : ℕ) (a : Expr) (i j r : List Token) → d ≤ suc p → Reads d postfix_level a i j → Opens (DeepSuffixes at p n (place i) a) j r → Opens (DeepExpr at p n postfix_level) i r }
    ensures index_opens { (at p n q : ℕ) (a : Expr) (t : Token) (i r : List Token) → Is LEFT_BRACKET t → Opens (DeepExpr at p n expression_level) i r → Opens (DeepSuffixes at p (suc n) q a) (t ∷ i) r }
    ensures arguments_open { (at p n q : ℕ) (a : Expr) (t : Token) (i r : List Token) → Is LEFT_PARENTHESIS t → Opens (DeepExprs at p n) i r → Opens (DeepSuffixes at p (suc n) q a) (t ∷ i) r }
    ensures index_too_high { (at p n q : ℕ) (a : Expr) (t : Token) (i : List Token) → Is LEFT_BRACKET t → InExpr at n a → Opens (DeepSuffixes at p n q a) (t ∷ i) (t ∷ i) }
    ensures call_too_high { (at p n q : ℕ) (a : Expr) (t : Token) (i : List Token) → Is LEFT_PARENTHESIS t → InExpr at n a → Opens (DeepSuffixes at p n q a) (t ∷ i) (t ∷ i) }
    ensures member_too_high { (at p n q : ℕ) (a : Expr) (t : Token) (i : List Token) (y : Access) → IsAccess y t → InExpr at n a → Opens (DeepSuffixes at p n q a) (t ∷ i) (t ∷ i) }
    ensures postfix_too_high { (at p n q : ℕ) (a : Expr) (t : Token) (i : List Token) (y : Postfix) → IsPostfix y t → InExpr at n a → Opens (DeepSuffixes at p n q a) (t ∷ i) (t ∷ i) }
    ensures operator_opens_right { (at p n d : ℕ) (o : Infix) (l most : ℕ) (a : Expr) (t : Token) (i k r : List Token) → d ≤ suc p → IsInfix o l → 1 ≤ l → l ≤ most → Is (code_of_infix o) t → Reads d (binary_level l) a i (t ∷ k) → Opens (DeepExpr at p n (binary_level (l - 1))) k r → Opens (DeepExpr at p (suc n) (binary_level most)) i r }
    ensures operator_opens_left { (at p n d : ℕ) (o : Infix) (l most : ℕ) (a : Expr) (t : Token) (i k : List Token) → d ≤ suc p → IsInfix o l → 1 ≤ l → l ≤ most → Is (code_of_infix o) t → Reads d (binary_level l) a i (t ∷ k) → InExpr at n a → Opens (DeepExpr at p n (binary_level most)) i (t ∷ k) }
    ensures yes_opens { (at p n d : ℕ) (a : Expr) (t : Token) (i j r : List Token) → d ≤ suc p → Is QUESTION t → Reads d (binary_level 10) a i (t ∷ j) → Opens (DeepExpr at p n expression_level) j r → Opens (DeepExpr at p (suc n) conditional_level) i r }
    ensures test_too_high { (at p n d : ℕ) (a : Expr) (t : Token) (i j : List Token) → d ≤ suc p → Is QUESTION t → Reads d (binary_level 10) a i (t ∷ j) → InExpr at n a → Opens (DeepExpr at p n conditional_level) i (t ∷ j) }
    ensures assigned_value_opens { (at p n d op : ℕ) (a : Expr) (t : Token) (i j r : List Token) → d ≤ suc p → Is op t → IsAssignment op → Reads d unary_level a i (t ∷ j) → Opens (DeepExpr at p n assignment_level) j r → Opens (DeepExpr at p (suc n) assignment_level) i r }
    ensures assigned_too_deep { (at p n d op : ℕ) (a : Expr) (t : Token) (i j : List Token) → d ≤ suc p → Is op t → IsAssignment op → Reads d unary_level a i (t ∷ j) → InExpr at n a → Opens (DeepExpr at p n assignment_level) i (t ∷ j) }
    ensures first_of_list_opens { (at p n : ℕ) (i r : List Token) → Opens (DeepExpr at p n assignment_level) i r → Opens (DeepExprs at p n) i r }
    ensures later_of_list_opens { (at p n d : ℕ) (a : Expr) (t : Token) (i j r : List Token) → d ≤ suc p → Is COMMA t → Reads d assignment_level a i (t ∷ j) → Opens (DeepExprs at p n) j r → Opens (DeepExprs at p n) i r }
    ensures comma_opens { (at p n d : ℕ) (a : Expr) (t : Token) (i j r : List Token) → d ≤ suc p → Is COMMA t → Reads d assignment_level a i (t ∷ j) → Opens (DeepExprs at p n) j r → Opens (DeepExpr at p (suc n) expression_level) i r }
    ensures comma_too_deep { (at p n d : ℕ) (a : Expr) (t : Token) (i j : List Token) → d ≤ suc p → Is COMMA t → Reads d assignment_level a i (t ∷ j) → InExpr at n a → Opens (DeepExpr at p n expression_level) i (t ∷ j) }
{}

/// Laws on where tokens go on past the limits in a type name, a declarator or an initialiser (C99 6.7.5 to 6.7.8).
pub fn a_declarator_opens_past_the_limits()
    ensures type_opens { (at p n : ℕ) (s : Spec) (i j r : List Token) → ReadsSpec s i j → Opens (DeepDeclarator HasNoName at p n) j r → Opens (DeepType at p n) i r }
    ensures pointer_opens { (w : Naming) (at p n : ℕ) (t : Token) (i j r : List Token) → Builds (Suited w) → Is ASTERISK t → Consts i j → Opens (DeepDeclarator (Suited w) at p n) j r → Opens (DeepDeclarator (Suited w) at p (suc n)) (t ∷ i) r }
    ensures pointer_too_deep { (w : Naming) (p : ℕ) (t : Token) (i : List Token) → Builds (Suited w) → Writes (Suited w) → Is ASTERISK t → Opens (DeepDeclarator (Suited w) t.from p 0) (t ∷ i) (t ∷ i) }
    ensures named_too_deep { (w : Naming) (p : ℕ) (x : Ident) (t : Token) (i : List Token) → (Suited w) (named t.from x) → Names x t → Opens (DeepDeclarator (Suited w) t.from p 0) (t ∷ i) (t ∷ i) }
    ensures declarator_parentheses_open { (w : Naming) (at p n : ℕ) (t : Token) (i r : List Token) → Is LEFT_PARENTHESIS t → Opens (DeepDeclarator (Suited w) at p n) i r → Opens (DeepDeclarator (Suited w) at (suc p) n) (t ∷ i) r }
    ensures lengthens_open { (w : Naming) (at p n q : ℕ) (e : Declarator) (i j r : List Token) → (Suited w) e → ((k : List Token) → On (Direct (suc p) q e) i j k) → Opens (DeepLengthens (Suited w) at p n q e) j r → Opens (DeepDeclarator (Suited w) at p n) i r }
    ensures size_opens { (w : Naming) (at p n q : ℕ) (a : Declarator) (t : Token) (i r : List Token) → Builds (Suited w) → Is LEFT_BRACKET t → Opens (DeepExpr at p n conditional_level) i r → Opens (DeepLengthens (Suited w) at p (suc n) q a) (t ∷ i) r }
    ensures array_too_high { (w : Naming) (at p n q : ℕ) (a : Declarator) (t : Token) (i : List Token) → Builds (Suited w) → Is LEFT_BRACKET t → InDeclarator at n a → Opens (DeepLengthens (Suited w) at p n q a) (t ∷ i) (t ∷ i) }
    ensures function_too_high { (w : Naming) (at p n q : ℕ) (a : Declarator) (t : Token) (i : List Token) → Builds (Suited w) → Is LEFT_PARENTHESIS t → InDeclarator at n a → Opens (DeepLengthens (Suited w) at p n q a) (t ∷ i) (t ∷ i) }
    ensures init_value_opens { (at p n : ℕ) (i r : List Token) → Opens (DeepExpr at p n assignment_level) i r → Opens (DeepInit at p n) i r }
    ensures list_too_deep { (p : ℕ) (t : Token) (i : List Token) → Is LEFT_BRACE t → Opens (DeepInit t.from p 0) (t ∷ i) (t ∷ i) }
    ensures init_list_opens { (at p n : ℕ) (t : Token) (i r : List Token) → Is LEFT_BRACE t → Opens (DeepInits at p n) i r → Opens (DeepInit at p (suc n)) (t ∷ i) r }
    ensures first_init_opens { (at p n : ℕ) (i r : List Token) → Opens (DeepInit at p n) i r → Opens (DeepInits at p n) i r }
    ensures later_init_opens { (at p n d : ℕ) (a : Init) (t : Token) (i j r : List Token) → d ≤ suc p → Is COMMA t → ReadsInit d a i (t ∷ j) → Opens (DeepInits at p n) j r → Opens (DeepInits at p n) i r }
{}

/// Laws on where tokens go on past the limits in a statement (C99 6.8). After a word with which two nodes are sure to
/// stand in each other, the second one may begin at any place.
pub fn a_statement_opens_past_the_limits()
    ensures semicolon_too_deep { (p : ℕ) (t : Token) (i : List Token) → Is SEMICOLON t → Opens (DeepStmt t.from p 0) (t ∷ i) (t ∷ i) }
    ensures block_too_deep { (p : ℕ) (t : Token) (i : List Token) → Is LEFT_BRACE t → Opens (DeepStmt t.from p 0) (t ∷ i) (t ∷ i) }
    ensures if_too_deep { (p : ℕ) (t : Token) (i : List Token) → IsKeyword IF t → Opens (DeepStmt t.from p 0) (t ∷ i) (t ∷ i) }
    ensures while_too_deep { (p : ℕ) (t : Token) (i : List Token) → IsKeyword WHILE t → Opens (DeepStmt t.from p 0) (t ∷ i) (t ∷ i) }
    ensures for_too_deep { (p : ℕ) (t : Token) (i : List Token) → IsKeyword FOR t → Opens (DeepStmt t.from p 0) (t ∷ i) (t ∷ i) }
    ensures switch_too_deep { (p : ℕ) (t : Token) (i : List Token) → IsKeyword SWITCH t → Opens (DeepStmt t.from p 0) (t ∷ i) (t ∷ i) }
    ensures if_is_deep { (at p : ℕ) (t : Token) (i : List Token) → IsKeyword IF t → Opens (DeepStmt at p 1) (t ∷ i) (t ∷ i) }
    ensures while_is_deep { (at p : ℕ) (t : Token) (i : List Token) → IsKeyword WHILE t → Opens (DeepStmt at p 1) (t ∷ i) (t ∷ i) }
    ensures switch_is_deep { (at p : ℕ) (t : Token) (i : List Token) → IsKeyword SWITCH t → Opens (DeepStmt at p 1) (t ∷ i) (t ∷ i) }
    ensures if_test_opens { (at p n : ℕ) (t o : Token) (i r : List Token) → IsKeyword IF t → Is LEFT_PARENTHESIS o → Opens (DeepExpr at p n expression_level) i r → Opens (DeepStmt at p (suc n)) (t ∷ o ∷ i) r }
    ensures while_test_opens { (at p n : ℕ) (t o : Token) (i r : List Token) → IsKeyword WHILE t → Is LEFT_PARENTHESIS o → Opens (DeepExpr at p n expression_level) i r → Opens (DeepStmt at p (suc n)) (t ∷ o ∷ i) r }
    ensures evaluation_opens { (at p n : ℕ) (i r : List Token) → Opens (DeepExpr at p n expression_level) i r → Opens (DeepStmt at p (suc n)) i r }
    ensures return_opens { (at p n : ℕ) (t : Token) (i r : List Token) → IsKeyword RETURN t → Opens (DeepExpr at p n expression_level) i r → Opens (DeepStmt at p (suc n)) (t ∷ i) r }
    ensures block_opens { (at p n : ℕ) (t : Token) (i r : List Token) → Is LEFT_BRACE t → Opens (DeepBlock at p n) i r → Opens (DeepStmt at p (suc n)) (t ∷ i) r }
    ensures item_stmt_opens { (at p n : ℕ) (i r : List Token) → Opens (DeepStmt at p n) i r → Opens (DeepBlock at p n) i r }
    ensures item_decl_opens { (at p n : ℕ) (i r : List Token) → Opens (DeepDecl at p n) i r → Opens (DeepBlock at p n) i r }
    ensures after_stmt_opens { (at p n d : ℕ) (s : Stmt) (i j r : List Token) → d ≤ suc p → ReadsStmt d s i j → Opens (DeepBlock at p n) j r → Opens (DeepBlock at p n) i r }
    ensures after_decl_opens { (at p n d : ℕ) (x : Decl) (i j r : List Token) → d ≤ suc p → IsPlainDecl x → ReadsDecl d x i j → Opens (DeepBlock at p n) j r → Opens (DeepBlock at p n) i r }
{}
