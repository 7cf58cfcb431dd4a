ghost use Rattle.c_syntax_printing.specs.Opens.{DeepBlock, DeepDecl, DeepDeclarator, DeepEach, DeepExpr, DeepInit, DeepItem, DeepParts, DeepStmt, DeepUnit, Filled, GoesOn, Opens};
ghost use Rattle.std.specs.Prelude.{List, suc, ℕ, ℤ, ◌++◌, ◌∷◌, ◌≡◌, ◌≤◌};
ghost use Rattle.c_syntax.specs.Tokens.{Is, IsChar, IsKeyword};
ghost use Rattle.c_lexer.specs.declared.keyword.TheConstants.{BREAK, CASE, CONTINUE, DEFAULT, DO, ELSE, ENUM, FOR, IF, RETURN, STRUCT, SWITCH, WHILE};
ghost use Rattle.c_syntax.specs.Grammar.{Declares, HasName, Reads, binary_level, conditional_level, expression_level, primary_level};
ghost use Rattle.c_syntax.specs.Tree.{Declarator, Declarators, Expr, First, Ident, Item, Labels, Maybe, MaybeInit, Spec, Stmt, Stmts, Storage, Tag};
ghost use Rattle.c_lexer.specs.declared.punctuator.TheConstants.{ASSIGN, COLON, COMMA, LEFT_BRACE, LEFT_PARENTHESIS, QUESTION, RIGHT_PARENTHESIS, SEMICOLON};
ghost use Rattle.c_lexer.specs.declared.token.Token.{Token};
ghost use Rattle.c_syntax.specs.Statements.{IsClosed, ReadsDeclarators, ReadsEnumeratorValue, ReadsFirst, ReadsItem, ReadsLabels, ReadsMaybe, ReadsMaybeInit, ReadsStmt, ReadsStmts, ReadsTag};
ghost use Rattle.c_syntax_printing.specs.Deep.{DeepDeclarators, DeepEnumerators, DeepGroups, DeepLabels, DeepMembers, DeepStmts};
ghost use Rattle.c_syntax_printing.specs.Starts.{start_of_kind};
ghost use Rattle.c_syntax.specs.Specifiers.{Names, ReadsSpec, ReadsStorage};
ghost use Rattle.c_syntax_printing.specs.Declarators.{AnyName};

/// Laws on where tokens go on past the limits in the bodies of statements, in the head of a for, and in labels and groups
/// (C99 6.8). After a word with which two nodes are sure to stand in each other, the second one may begin at any place.
pub fn a_body_opens_past_the_limits()
    ensures if_body_opens { (at p n d : ℕ) (e : Expr) (t o c : Token) (i j r : List Token) → d ≤ suc p → IsKeyword IF t → Is LEFT_PARENTHESIS o → Reads d expression_level e i (c ∷ j) → Is RIGHT_PARENTHESIS c → Opens (DeepStmt at p n) j r → Opens (DeepStmt at p (suc n)) (t ∷ o ∷ i) r }
    ensures while_body_opens { (at p n d : ℕ) (e : Expr) (t o c : Token) (i j r : List Token) → d ≤ suc p → IsKeyword WHILE t → Is LEFT_PARENTHESIS o → Reads d expression_level e i (c ∷ j) → Is RIGHT_PARENTHESIS c → Opens (DeepStmt at p n) j r → Opens (DeepStmt at p (suc n)) (t ∷ o ∷ i) r }
    ensures else_opens { (at p n d : ℕ) (e : Expr) (s : Stmt) (t o c u : Token) (i j k r : List Token) → d ≤ suc p → IsKeyword IF t → Is LEFT_PARENTHESIS o → Reads d expression_level e i (c ∷ j) → Is RIGHT_PARENTHESIS c → ReadsStmt d s j (u ∷ k) → IsClosed s → IsKeyword ELSE u → Opens (DeepStmt at p n) k r → Opens (DeepStmt at p (suc n)) (t ∷ o ∷ i) r }
    ensures do_body_opens { (at p n : ℕ) (t : Token) (i r : List Token) → IsKeyword DO t → Opens (DeepStmt at p n) i r → Opens (DeepStmt at p (suc n)) (t ∷ i) r }
    ensures do_test_opens { (at p n d : ℕ) (s : Stmt) (t u o : Token) (i j r : List Token) → d ≤ suc p → IsKeyword DO t → ReadsStmt d s i (u ∷ o ∷ j) → IsKeyword WHILE u → Is LEFT_PARENTHESIS o → Opens (DeepExpr at p n expression_level) j r → Opens (DeepStmt at p (suc n)) (t ∷ i) r }
    ensures for_first_opens { (at p n : ℕ) (t o : Token) (i r : List Token) → IsKeyword FOR t → Is LEFT_PARENTHESIS o → Opens (DeepExpr at p n expression_level) i r → Opens (DeepStmt at p (suc n)) (t ∷ o ∷ i) r }
    ensures for_decl_opens { (at p n : ℕ) (t o : Token) (i r : List Token) → IsKeyword FOR t → Is LEFT_PARENTHESIS o → Opens (DeepDecl at p n) i r → Opens (DeepStmt at p (suc n)) (t ∷ o ∷ i) r }
    ensures for_test_opens { (at p n d : ℕ) (f : First) (t o : Token) (i j r : List Token) → d ≤ suc p → IsKeyword FOR t → Is LEFT_PARENTHESIS o → ReadsFirst d f i j → Opens (DeepExpr at p n expression_level) j r → Opens (DeepStmt at p (suc n)) (t ∷ o ∷ i) r }
    ensures for_step_opens { (at p n d : ℕ) (f : First) (e : Maybe) (t o u : Token) (i j k r : List Token) → d ≤ suc p → IsKeyword FOR t → Is LEFT_PARENTHESIS o → ReadsFirst d f i j → ReadsMaybe d e j (u ∷ k) → Is SEMICOLON u → Opens (DeepExpr at p n expression_level) k r → Opens (DeepStmt at p (suc n)) (t ∷ o ∷ i) r }
    ensures for_body_opens { (at p n d : ℕ) (f : First) (e y : Maybe) (t o u c : Token) (i j k l r : List Token) → d ≤ suc p → IsKeyword FOR t → Is LEFT_PARENTHESIS o → ReadsFirst d f i j → ReadsMaybe d e j (u ∷ k) → Is SEMICOLON u → ReadsMaybe d y k (c ∷ l) → Is RIGHT_PARENTHESIS c → Opens (DeepStmt at p n) l r → Opens (DeepStmt at p (suc n)) (t ∷ o ∷ i) r }
    ensures switch_test_opens { (at p n : ℕ) (t o : Token) (i r : List Token) → IsKeyword SWITCH t → Is LEFT_PARENTHESIS o → Opens (DeepExpr at p n expression_level) i r → Opens (DeepStmt at p (suc n)) (t ∷ o ∷ i) r }
    ensures switch_groups_open { (at p n d : ℕ) (e : Expr) (t o c l : Token) (i j r : List Token) → d ≤ suc p → IsKeyword SWITCH t → Is LEFT_PARENTHESIS o → Reads d expression_level e i (c ∷ l ∷ j) → Is RIGHT_PARENTHESIS c → Is LEFT_BRACE l → Opens (DeepGroups at p n) j r → Opens (DeepStmt at p (suc n)) (t ∷ o ∷ i) r }
    ensures case_opens { (at p n : ℕ) (t : Token) (i r : List Token) → IsKeyword CASE t → Opens (DeepExpr at p n conditional_level) i r → Opens (DeepLabels at p n) (t ∷ i) r }
    ensures after_case_opens { (at p n d : ℕ) (e : Expr) (t c : Token) (i j r : List Token) → d ≤ suc p → IsKeyword CASE t → Reads d conditional_level e i (c ∷ j) → Is COLON c → Opens (DeepLabels at p n) j r → Opens (DeepLabels at p n) (t ∷ i) r }
    ensures after_default_opens { (at p n : ℕ) (t c : Token) (j r : List Token) → IsKeyword DEFAULT t → Is COLON c → Opens (DeepLabels at p n) j r → Opens (DeepLabels at p n) (t ∷ c ∷ j) r }
    ensures first_stmt_opens { (at p n : ℕ) (i r : List Token) → Opens (DeepStmt at p n) i r → Opens (DeepStmts at p n) i r }
    ensures later_stmt_opens { (at p n d : ℕ) (s : Stmt) (i j r : List Token) → d ≤ suc p → ReadsStmt d s i j → Opens (DeepStmts at p n) j r → Opens (DeepStmts at p n) i r }
    ensures group_labels_open { (at p n : ℕ) (i r : List Token) → Opens (DeepLabels at p n) i r → Opens (DeepGroups at p n) i r }
    ensures group_stmts_open { (at p n d : ℕ) (ls : Labels) (i j r : List Token) → d ≤ suc p → ReadsLabels d ls i j → Opens (DeepStmts at p n) j r → Opens (DeepGroups at p n) i r }
    ensures later_group_opens { (at p n d : ℕ) (ls : Labels) (ss : Stmts) (i j k r : List Token) → d ≤ suc p → ReadsLabels d ls i j → ReadsStmts d ss j k → Opens (DeepGroups at p n) k r → Opens (DeepGroups at p n) i r }
    ensures do_too_deep { (p : ℕ) (t : Token) (i : List Token) → IsKeyword DO t → Opens (DeepStmt t.from p 0) (t ∷ i) (t ∷ i) }
    ensures break_too_deep { (p : ℕ) (t : Token) (i : List Token) → IsKeyword BREAK t → Opens (DeepStmt t.from p 0) (t ∷ i) (t ∷ i) }
    ensures continue_too_deep { (p : ℕ) (t : Token) (i : List Token) → IsKeyword CONTINUE t → Opens (DeepStmt t.from p 0) (t ∷ i) (t ∷ i) }
    ensures return_too_deep { (p : ℕ) (t : Token) (i : List Token) → IsKeyword RETURN t → Opens (DeepStmt t.from p 0) (t ∷ i) (t ∷ i) }
    ensures evaluation_too_deep { (p : ℕ) (u : Token) (i : List Token) → 1 ≤ start_of_kind u.kind → start_of_kind u.kind ≤ 5 → Opens (DeepStmt u.from p 0) (u ∷ i) (u ∷ i) }
    ensures do_is_deep { (at p : ℕ) (t : Token) (i : List Token) → IsKeyword DO t → Opens (DeepStmt at p 1) (t ∷ i) (t ∷ i) }
    ensures for_is_deep { (at p : ℕ) (t : Token) (i : List Token) → IsKeyword FOR t → Opens (DeepStmt at p 1) (t ∷ i) (t ∷ i) }
{}

/// Laws on character constants and on the third part of a conditional expression (C99 6.4.4.4, 6.5.15), and on which tokens
/// begin an expression.
pub fn an_operand_opens_past_the_limits()
    ensures char_too_deep { (p : ℕ) (c : ℤ) (t : Token) (i : List Token) → IsChar c t → Opens (DeepExpr t.from p 0 primary_level) (t ∷ i) (t ∷ i) }
    ensures no_opens { (at p n d : ℕ) (a b : Expr) (t u : Token) (i j k r : List Token) → d ≤ suc p → Is QUESTION t → Reads d (binary_level 10) a i (t ∷ j) → Reads d expression_level b j (u ∷ k) → Is COLON u → Opens (DeepExpr at p n conditional_level) k r → Opens (DeepExpr at p (suc n) conditional_level) i r }
    ensures expression_begins { (d : ℕ) (u : Token) → 1 ≤ start_of_kind u.kind → start_of_kind u.kind ≤ 5 → (m : List Token) → Filled (λ k j. (e : Expr) × Reads d expression_level e (u ∷ k) j) m }
{}

/// Laws on where tokens go on past the limits in parameters and declarations (C99 6.7). After a word that begins
/// specifiers a declarator is sure to stand: it may begin at any place.
pub fn a_declaration_opens_past_the_limits()
    ensures first_param_opens { (at p n : ℕ) (s : Spec) (i j r : List Token) → ReadsSpec s i j → Opens (DeepDeclarator AnyName at p n) j r → Opens (DeepEach at p n) i r }
    ensures later_param_opens { (at p n d : ℕ) (s : Spec) (e : Declarator) (t : Token) (i j k r : List Token) → d ≤ suc p → ReadsSpec s i j → Declares d e j (t ∷ k) → Is COMMA t → Opens (DeepEach at p n) k r → Opens (DeepEach at p n) i r }
    ensures part_declarator_opens { (at p n : ℕ) (i r : List Token) → Opens (DeepDeclarator HasName at p n) i r → Opens (DeepParts at p n) i r }
    ensures part_init_opens { (at p n d : ℕ) (e : Declarator) (t : Token) (i j r : List Token) → d ≤ suc p → Declares d e i (t ∷ j) → HasName e → Is ASSIGN t → Opens (DeepInit at p n) j r → Opens (DeepParts at p n) i r }
    ensures next_part_opens { (at p n d : ℕ) (e : Declarator) (v : MaybeInit) (t : Token) (i j k r : List Token) → d ≤ suc p → Declares d e i j → HasName e → ReadsMaybeInit d v j (t ∷ k) → Is COMMA t → Opens (DeepParts at p n) k r → Opens (DeepParts at p n) i r }
    ensures decl_opens { (at p n : ℕ) (s : Spec) (i j r : List Token) → ReadsSpec s i j → Opens (DeepParts at p n) j r → Opens (DeepDecl at p n) i r }
    ensures decl_is_deep { (at p : ℕ) (u : Token) (i : List Token) → 7 ≤ start_of_kind u.kind → start_of_kind u.kind ≤ 14 → Opens (DeepDecl at p 0) (u ∷ i) (u ∷ i) }
{}

/// Laws on where tokens go on past the limits in structs, enums, declarations and functions (C99 6.7.2, 6.9).
pub fn an_item_opens_past_the_limits()
    ensures first_declarator_opens { (at p n : ℕ) (i r : List Token) → Opens (DeepDeclarator HasName at p n) i r → Opens (DeepDeclarators at p n) i r }
    ensures later_declarator_opens { (at p n d : ℕ) (e : Declarator) (t : Token) (i j r : List Token) → d ≤ suc p → Declares d e i (t ∷ j) → HasName e → Is COMMA t → Opens (DeepDeclarators at p n) j r → Opens (DeepDeclarators at p n) i r }
    ensures first_member_opens { (at p n : ℕ) (s : Spec) (i j r : List Token) → ReadsSpec s i j → Opens (DeepDeclarators at p n) j r → Opens (DeepMembers at p n) i r }
    ensures later_member_opens { (at p n d : ℕ) (s : Spec) (es : Declarators) (t : Token) (i j k r : List Token) → d ≤ suc p → ReadsSpec s i j → ReadsDeclarators d es j (t ∷ k) → Is SEMICOLON t → Opens (DeepMembers at p n) k r → Opens (DeepMembers at p n) i r }
    ensures struct_opens { (at p n : ℕ) (x : Ident) (t u l : Token) (i r : List Token) → IsKeyword STRUCT t → Names x u → Is LEFT_BRACE l → Opens (DeepMembers at p n) i r → Opens (DeepItem at p n) (t ∷ u ∷ l ∷ i) r }
    ensures enumerator_value_opens { (at p n : ℕ) (x : Ident) (t u : Token) (i r : List Token) → Names x t → Is ASSIGN u → Opens (DeepExpr at p n conditional_level) i r → Opens (DeepEnumerators at p n) (t ∷ u ∷ i) r }
    ensures later_enumerator_opens { (at p n d : ℕ) (x : Ident) (e : Maybe) (t u : Token) (i j r : List Token) → d ≤ suc p → Names x t → ReadsEnumeratorValue d e i (u ∷ j) → Is COMMA u → Opens (DeepEnumerators at p n) j r → Opens (DeepEnumerators at p n) (t ∷ i) r }
    ensures enum_opens { (at p n : ℕ) (z : Tag) (t l : Token) (i j r : List Token) → IsKeyword ENUM t → ReadsTag z i (l ∷ j) → Is LEFT_BRACE l → Opens (DeepEnumerators at p n) j r → Opens (DeepItem at p n) (t ∷ i) r }
    ensures item_parts_open { (at p n : ℕ) (st : Storage) (s : Spec) (i j k r : List Token) → ReadsStorage st i j → ReadsSpec s j k → Opens (DeepParts at p n) k r → Opens (DeepItem at p n) i r }
    ensures item_body_opens { (at p n d : ℕ) (st : Storage) (s : Spec) (e : Declarator) (t : Token) (i j k m r : List Token) → d ≤ suc p → ReadsStorage st i j → ReadsSpec s j k → Declares d e k (t ∷ m) → HasName e → Is LEFT_BRACE t → Opens (DeepBlock at p n) m r → Opens (DeepItem at p (suc n)) i r }
{}

/// Laws on where tokens go on past the limits in a unit (C99 6.9): then some unit past them is spelled, and at the place
/// it has a node one too deep or opens a pair inside as many others as are allowed.
pub fn a_unit_goes_on_past_the_limits()
    ensures first_item_opens { (at p n : ℕ) (i r : List Token) → Opens (DeepItem at p n) i r → Opens (DeepUnit at p n) i r }
    ensures later_item_opens { (at p n d : ℕ) (a : Item) (i j r : List Token) → d ≤ suc p → ReadsItem d a i j → Opens (DeepUnit at p n) j r → Opens (DeepUnit at p n) i r }
    ensures unit_goes_on { (at p n : ℕ) (tokens front r : List Token) → Opens (DeepUnit at p n) tokens r → tokens ≡ front ++ r → GoesOn at p n front r }
{}
