ghost use Rattle.std.specs.Prelude.{◌≡◌, ◌≤◌, ℕ, List, []};
ghost use Rattle.c_lexer.specs.declared.token.Token.{Token};
ghost use Rattle.c_syntax.specs.Tree.{Spec, Expr, Declarator, Decl, Stmt, Item, Items};
ghost use Rattle.c_syntax.specs.Specifiers.{ReadsSpec};
ghost use Rattle.c_syntax.specs.Grammar.{Level, Reads, Declares};
ghost use Rattle.c_syntax.specs.Statements.{ReadsDecl, ReadsStmt, ReadsItem, ReadsItems};
ghost use Rattle.c_syntax_printing.specs.Fronts.{IsFrontPhrase};

/// A law on the grammar: no list of tokens spells two units, whatever the depth of their nodes.
pub fn a_list_of_tokens_has_one_unit()
    ensures { (d x : ℕ) (one other : Items) (tokens : List Token) → ReadsItems d one tokens [] → ReadsItems x other tokens [] → one ≡ other }
{}

/// A law on the grammar: a phrase is a front of the tokens at which it begins, and is read there whatever
/// follows it.
pub fn a_phrase_is_a_front()
    ensures specifiers { (s : Spec) (i j : List Token) → ReadsSpec s i j → IsFrontPhrase (ReadsSpec s) i j }
    ensures expressions { (d : ℕ) (l : Level) (e : Expr) (i j : List Token) → Reads d l e i j → IsFrontPhrase (Reads d l e) i j }
    ensures declarators { (d : ℕ) (e : Declarator) (i j : List Token) → Declares d e i j → IsFrontPhrase (Declares d e) i j }
    ensures declarations { (d : ℕ) (x : Decl) (i j : List Token) → ReadsDecl d x i j → IsFrontPhrase (ReadsDecl d x) i j }
    ensures statements { (d : ℕ) (s : Stmt) (i j : List Token) → ReadsStmt d s i j → IsFrontPhrase (ReadsStmt d s) i j }
    ensures items { (d : ℕ) (a : Item) (i j : List Token) → ReadsItem d a i j → IsFrontPhrase (ReadsItem d a) i j }
{}

/// A law on the grammar: what is read within some number of pairs of parentheses is read within any
/// greater one.
pub fn more_pairs_read_as_much()
    ensures expressions { (d x : ℕ) (l : Level) (e : Expr) (i j : List Token) → d ≤ x → Reads d l e i j → Reads x l e i j }
    ensures declarators { (d x : ℕ) (e : Declarator) (i j : List Token) → d ≤ x → Declares d e i j → Declares x e i j }
    ensures units { (d x : ℕ) (u : Items) (i j : List Token) → d ≤ x → ReadsItems d u i j → ReadsItems x u i j }
{}
