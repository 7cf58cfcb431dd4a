use c_lexer::Bytes;

/// A name that is declared or used, and its place.
pub struct Ident {
    /// The name.
    pub name: Bytes,
    /// The place of its first byte.
    pub at: u32,
}

impl Drop for Ident {
    fn drop(self) {
        let Self {
            name: _name,
            at: _at,
        } = self;
    }
}

/// A storage-class specifier (C99 6.7.1).
#[derive(Clone, Copy)]
pub enum Storage {
    /// None stands there.
    Absent,
    /// `static`
    Static,
    /// `extern`
    Extern,
}

/// The type specifiers of a declaration (C99 6.7.2); `const` isn't kept.
#[derive(Drop)]
pub enum Spec {
    /// `void`
    Void,
    /// `char`
    Char,
    /// `unsigned char`
    Uchar,
    /// `int`, `signed` or `signed int`
    Int,
    /// `unsigned` or `unsigned int`
    Uint,
    /// `struct` and a tag
    Struct(Ident),
    /// `enum` and a tag
    Enum(Ident),
}

/// An expression (C99 6.5). Parentheses round it make no node.
#[cycle(tree)]
pub struct Expr {
    /// The place of its first byte.
    pub at: u32,
    /// Its form.
    pub kind: ExprKind,
}

impl Drop for Expr {
    #[cycle(trees_let_go)]
    fn drop(self) {
        let Self { at: _, kind: _kind } = self;
    }
}

/// The forms of an expression. Operators are numbers of punctuators.
#[derive(Drop)]
#[cycle(tree)]
pub enum ExprKind {
    /// A name (6.5.1).
    Name(Bytes),
    /// An integer constant (6.4.4.1).
    Int {
        /// The value.
        value: u32,
        /// Whether its type is unsigned int.
        unsigned: bool,
    },
    /// A character constant (6.4.4.4).
    Char(i32),
    /// String literals that stand side by side, joined (6.4.5).
    Str(Bytes),
    /// Two or more expressions with commas between them (6.5.17).
    Comma(Vec<Expr>),
    /// `sizeof` of a type (6.5.3.4).
    SizeofType(TypeName),
    /// A cast (6.5.4).
    Cast(TypeName, Box<Expr>),
    /// A call (6.5.2.2).
    Call(Box<Expr>, Vec<Expr>),
    /// `.` and a member (6.5.2.3).
    Member(Box<Expr>, Ident),
    /// `->` and a member (6.5.2.3).
    Arrow(Box<Expr>, Ident),
    /// `++` after its operand (6.5.2.4).
    PostInc(Box<Expr>),
    /// `--` after its operand (6.5.2.4).
    PostDec(Box<Expr>),
    /// `++` before its operand (6.5.3.1).
    PreInc(Box<Expr>),
    /// `--` before its operand (6.5.3.1).
    PreDec(Box<Expr>),
    /// `sizeof` of an expression (6.5.3.4).
    SizeofExpr(Box<Expr>),
    /// One of the unary operators `&`, `*`, `+`, `-`, `~` and `!` (6.5.3.2, 6.5.3.3).
    Unary(u8, Box<Expr>),
    /// An index (6.5.2.1).
    Index(Box<Expr>, Box<Expr>),
    /// `&&` (6.5.13).
    And(Box<Expr>, Box<Expr>),
    /// `||` (6.5.14).
    Or(Box<Expr>, Box<Expr>),
    /// A binary operator of 6.5.5 to 6.5.12.
    Binary(u8, Box<Expr>, Box<Expr>),
    /// An assignment (6.5.16).
    Assign(u8, Box<Expr>, Box<Expr>),
    /// `?` and `:` (6.5.15).
    Cond(Box<Expr>, Box<Expr>, Box<Expr>),
}

/// The name of a type (C99 6.7.6).
#[cycle(tree)]
pub struct TypeName {
    /// Its specifiers.
    pub spec: Spec,
    /// A declarator without a name, or None where the specifiers stand alone.
    pub declarator: Option<Declarator>,
    /// The place of its first byte.
    pub at: u32,
}

impl Drop for TypeName {
    #[cycle(trees_let_go)]
    fn drop(self) {
        let Self {
            spec: _spec,
            declarator: _declarator,
            at: _,
        } = self;
    }
}

/// A parameter (C99 6.7.5.3).
#[cycle(tree)]
pub struct Param {
    /// Its specifiers.
    pub spec: Spec,
    /// A declarator, with or without a name, or None where the specifiers stand alone.
    pub declarator: Option<Declarator>,
    /// The place of its first byte.
    pub at: u32,
}

impl Drop for Param {
    #[cycle(trees_let_go)]
    fn drop(self) {
        let Self {
            spec: _spec,
            declarator: _declarator,
            at: _,
        } = self;
    }
}

/// A declarator (C99 6.7.5), or the rest of one whose name is left out (6.7.6). Parentheses round it make no
/// node.
#[cycle(tree)]
pub struct Declarator {
    /// The place of its first byte.
    pub at: u32,
    /// Its form.
    pub kind: DeclaratorKind,
}

impl Drop for Declarator {
    #[cycle(trees_let_go)]
    fn drop(self) {
        let Self { at: _, kind: _kind } = self;
    }
}

/// The forms of a declarator. An inner declarator is None where no name stands.
#[derive(Drop)]
#[cycle(tree)]
pub enum DeclaratorKind {
    /// The declared name.
    Name(Ident),
    /// `*` (6.7.5.1).
    Pointer(Option<Box<Declarator>>),
    /// An array (6.7.5.2).
    Array {
        /// What is an array.
        inner: Option<Box<Declarator>>,
        /// Its size, where one stands.
        size: Option<Box<Expr>>,
    },
    /// A function (6.7.5.3).
    Function {
        /// What is a function.
        inner: Option<Box<Declarator>>,
        /// Its parameters; none where `void` stands there.
        params: Vec<Param>,
    },
}

/// An initialiser (C99 6.7.8).
#[cycle(init)]
pub struct Init {
    /// The place of its first byte; that of its expression where that stands in parentheses.
    pub at: u32,
    /// Its form.
    pub kind: InitKind,
}

impl Drop for Init {
    #[cycle(initialisers_let_go)]
    fn drop(self) {
        let Self { at: _, kind: _kind } = self;
    }
}

/// The forms of an initialiser.
#[derive(Drop)]
#[cycle(init)]
pub enum InitKind {
    /// An expression.
    One(Expr),
    /// A list in braces, of one or more; a comma at its end isn't kept.
    List(Vec<Init>),
}

/// A declarator, perhaps with an initialiser.
pub struct DeclPart {
    /// The declarator, which has a name.
    pub declarator: Declarator,
    /// Its initialiser.
    pub init: Option<Init>,
}

impl Drop for DeclPart {
    fn drop(self) {
        let Self {
            declarator: _declarator,
            init: _init,
        } = self;
    }
}

/// A declaration (C99 6.7).
pub struct Decl {
    /// Its storage class; absent in a block.
    pub storage: Storage,
    /// Its specifiers.
    pub spec: Spec,
    /// One or more declarators.
    pub parts: Vec<DeclPart>,
    /// The place of its first byte.
    pub at: u32,
}

impl Drop for Decl {
    fn drop(self) {
        let Self {
            storage: _,
            spec: _spec,
            parts: _parts,
            at: _,
        } = self;
    }
}

/// What stands first in the head of a `for` (C99 6.8.5).
#[derive(Drop)]
pub enum ForFirst {
    /// Nothing.
    Absent,
    /// An expression.
    Expr(Box<Expr>),
    /// A declaration.
    Declaration(Decl),
}

/// A label of a switch (C99 6.8.1).
#[derive(Drop)]
pub struct Label {
    /// The place of its first byte.
    pub at: u32,
    /// Its form.
    pub kind: LabelKind,
}

/// The forms of a label.
#[derive(Drop)]
pub enum LabelKind {
    /// `case` and a value.
    Case(Expr),
    /// `default`
    Default,
}

/// A statement (C99 6.8).
#[cycle(statement)]
pub struct Stmt {
    /// The place of its first byte.
    pub at: u32,
    /// Its form.
    pub kind: StmtKind,
}

impl Drop for Stmt {
    #[cycle(statements_let_go)]
    fn drop(self) {
        let Self { at: _, kind: _kind } = self;
    }
}

/// The forms of a statement.
#[derive(Drop)]
#[cycle(statement)]
pub enum StmtKind {
    /// A block (6.8.2).
    Block(Vec<BlockItem>),
    /// `;` alone (6.8.3).
    Empty,
    /// An expression (6.8.3).
    Expr(Box<Expr>),
    /// `if`, perhaps with `else` (6.8.4.1).
    If {
        /// The condition.
        test: Box<Expr>,
        /// What is done where it holds.
        yes: Box<Stmt>,
        /// What is done where it doesn't.
        no: Option<Box<Stmt>>,
    },
    /// `while` (6.8.5.1).
    While {
        /// The condition.
        test: Box<Expr>,
        /// The body.
        body: Box<Stmt>,
    },
    /// `do` (6.8.5.2).
    Do {
        /// The body.
        body: Box<Stmt>,
        /// The condition.
        test: Box<Expr>,
    },
    /// `for` (6.8.5.3).
    For {
        /// What is done first.
        first: ForFirst,
        /// The condition.
        test: Option<Box<Expr>>,
        /// What is done after each turn.
        step: Option<Box<Expr>>,
        /// The body.
        body: Box<Stmt>,
    },
    /// `switch` (6.8.4.2).
    Switch {
        /// What is compared with the labels.
        on: Box<Expr>,
        /// Labels and the statements after them.
        groups: Vec<Group>,
    },
    /// `break` (6.8.6.3).
    Break,
    /// `continue` (6.8.6.2).
    Continue,
    /// `return` (6.8.6.4).
    Return(Option<Box<Expr>>),
}

/// What stands in a block.
#[derive(Drop)]
#[cycle(statement)]
pub enum BlockItem {
    /// A declaration, without a storage class.
    Declaration(Decl),
    /// A statement.
    Statement(Stmt),
}

/// One or more labels of a switch, and one or more statements after them.
#[cycle(statement)]
pub struct Group {
    /// The labels.
    pub labels: Vec<Label>,
    /// The statements.
    pub body: Vec<Stmt>,
}

impl Drop for Group {
    #[cycle(statements_let_go)]
    fn drop(self) {
        let Self {
            labels: _labels,
            body: _body,
        } = self;
    }
}

/// Members of a struct (C99 6.7.2.1).
pub struct Member {
    /// Their specifiers.
    pub spec: Spec,
    /// One or more declarators, which have names.
    pub declarators: Vec<Declarator>,
    /// The place of the first byte.
    pub at: u32,
}

impl Drop for Member {
    fn drop(self) {
        let Self {
            spec: _spec,
            declarators: _declarators,
            at: _at,
        } = self;
    }
}

/// An enumerator (C99 6.7.2.2).
pub struct Enumerator {
    /// Its name.
    pub name: Ident,
    /// Its value, where one stands.
    pub value: Option<Expr>,
}

impl Drop for Enumerator {
    fn drop(self) {
        let Self {
            name: _name,
            value: _value,
        } = self;
    }
}

/// What stands at file scope (C99 6.9).
pub struct Item {
    /// The place of its first byte.
    pub at: u32,
    /// Its form.
    pub kind: ItemKind,
}

impl Drop for Item {
    fn drop(self) {
        let Self { at: _, kind: _kind } = self;
    }
}

/// The forms of what stands at file scope.
#[derive(Drop)]
pub enum ItemKind {
    /// A struct with its members.
    Struct {
        /// Its tag.
        tag: Ident,
        /// One or more members.
        members: Vec<Member>,
    },
    /// An enum with its enumerators.
    Enum {
        /// Its tag, where one stands.
        tag: Option<Ident>,
        /// One or more enumerators; a comma after the last isn't kept.
        list: Vec<Enumerator>,
    },
    /// `struct` and a tag alone.
    Tag(Ident),
    /// A declaration.
    Declaration(Decl),
    /// The definition of a function.
    Function {
        /// Its storage class.
        storage: Storage,
        /// Its specifiers.
        spec: Spec,
        /// Its declarator, which has a name.
        declarator: Declarator,
        /// Its body, a block.
        body: Stmt,
    },
}
