use crate::{BinOp, IntType, UnOp, Value};
use dm_base::Bytes;

/// A type (C99 6.2.5). `const` isn't kept, and an enumerated type is `int`.
pub enum CType {
    /// `void`
    Void,
    /// An integer type.
    Int(IntType),
    /// A pointer to this type.
    Pointer(Box<CType>),
    /// An array of so many elements of this type.
    Array(Box<CType>, u32),
    /// The struct with this number.
    Struct(u32),
    /// A function with this result and these parameters.
    Function(Box<CType>, Vec<CType>),
}

impl Drop for CType {
    #[cycle(types_let_go)]
    fn drop(self) {
        match self {
            CType::Void | CType::Int(_) | CType::Struct(_) => {}
            CType::Pointer(_to) => {}
            CType::Array(_of, _) => {}
            CType::Function(_result, _parameters) => {}
        }
    }
}

/// An expression with its type (C99 6.5).
#[cycle(expression)]
pub struct TExpr {
    /// Its type, that of the object or function where it is a place.
    pub ctype: CType,
    /// Its form.
    pub kind: TExprKind,
}

impl Drop for TExpr {
    #[cycle(expressions_let_go)]
    fn drop(self) {
        let Self {
            ctype: _ctype,
            kind: _kind,
        } = self;
    }
}

/// The forms of an expression; each holds its operands in the order in which they are evaluated.
#[derive(Drop)]
#[cycle(expression)]
pub enum TExprKind {
    /// A constant, `sizeof` among them (6.4.4, 6.5.3.4).
    Const(Value),
    /// The function with this number (6.5.1).
    Function(u32),
    /// The array of the string with this number among the statics (6.4.5).
    StringPlace(u32),
    /// A variable (6.5.1).
    Variable {
        /// Whether it is one of the statics.
        is_static: bool,
        /// Its number among the statics, or among the variables of the function.
        number: u32,
    },
    /// The object or function behind a pointer (6.5.3.2).
    Deref(Box<TExpr>),
    /// The value of a place (6.3.2.1 paragraph 2).
    Load(Box<TExpr>),
    /// The address of a place or a function (6.5.3.2).
    AddressOf(Box<TExpr>),
    /// An array as a pointer to its first element, or a function as a pointer to it (6.3.2.1).
    Decay(Box<TExpr>),
    /// A conversion to void (6.3.2.2).
    Discard(Box<TExpr>),
    /// The member of a struct that begins at this cell of it (6.5.2.3).
    Field(Box<TExpr>, u32),
    /// A unary operator (6.5.3.3).
    Unary(UnOp, Box<TExpr>),
    /// A conversion to an integer type (6.3.1).
    Convert(IntType, Box<TExpr>),
    /// Arithmetic on two integers (6.5.5 to 6.5.7, 6.5.10 to 6.5.12).
    Arith(BinOp, Box<TExpr>, Box<TExpr>),
    /// A comparison of two integers or two pointers (6.5.8, 6.5.9).
    Compare(BinOp, Box<TExpr>, Box<TExpr>),
    /// A pointer plus or minus an integer (6.5.6 paragraph 8).
    PointerAdd {
        /// Whether the pointer is the first operand.
        pointer_first: bool,
        /// Whether the integer is subtracted.
        subtracted: bool,
        /// The first operand.
        left: Box<TExpr>,
        /// The second operand.
        right: Box<TExpr>,
    },
    /// The difference of two pointers (6.5.6 paragraph 9).
    PointerDiff(Box<TExpr>, Box<TExpr>),
    /// `&&` (6.5.13).
    And(Box<TExpr>, Box<TExpr>),
    /// `||` (6.5.14).
    Or(Box<TExpr>, Box<TExpr>),
    /// A simple assignment: the place, then the value (6.5.16.1).
    Assign(Box<TExpr>, Box<TExpr>),
    /// A compound assignment (6.5.16.2), or a step by one (6.5.2.4, 6.5.3.1), whose right side is the
    /// constant 1.
    Update {
        /// The operator.
        op: BinOp,
        /// Whether the value is that of the place before.
        old: bool,
        /// The place.
        place: Box<TExpr>,
        /// The right side.
        value: Box<TExpr>,
    },
    /// `?` and `:` (6.5.15).
    Cond(Box<TExpr>, Box<TExpr>, Box<TExpr>),
    /// One or more expressions, of which the last gives the value (6.5.17).
    Comma(Vec<TExpr>),
    /// A call of a function by its name (6.5.2.2).
    Call {
        /// The call's number among the call expressions of the program.
        site: u32,
        /// The function's number.
        function: u32,
        /// The arguments.
        arguments: Vec<TExpr>,
    },
    /// A call through a pointer to a function (6.5.2.2).
    CallThrough {
        /// The call's number among the call expressions of the program.
        site: u32,
        /// The pointer.
        designator: Box<TExpr>,
        /// The arguments.
        arguments: Vec<TExpr>,
    },
}

/// What an initialiser stores in one cell (C99 6.7.8).
pub struct TInit {
    /// The cell of the variable.
    pub cell: u32,
    /// The value.
    pub value: TExpr,
}

impl Drop for TInit {
    fn drop(self) {
        let Self {
            cell: _,
            value: _value,
        } = self;
    }
}

/// A label of a switch (C99 6.8.1).
#[derive(Clone, Copy)]
pub enum TLabel {
    /// `case` and its value, which was converted to the type of what is compared.
    Case(Value),
    /// `default`
    Default,
}

/// A statement (C99 6.8), or the declaration of one variable in a block (6.7).
#[cycle(statement)]
pub enum TStmt {
    /// A block (6.8.2); the variables that are declared directly in it end with it.
    Block(Vec<TStmt>),
    /// `;` alone (6.8.3).
    Empty,
    /// An expression (6.8.3).
    Expr(Box<TExpr>),
    /// A variable gets new cells, and then each of these gets its value, in order (6.7.8).
    Declare {
        /// The number of the variable in its function.
        variable: u32,
        /// The cells and their values.
        init: Vec<TInit>,
    },
    /// `if`, perhaps with `else` (6.8.4.1).
    If {
        /// The condition.
        test: Box<TExpr>,
        /// What is done where it holds.
        yes: Box<TStmt>,
        /// What is done where it doesn't.
        no: Option<Box<TStmt>>,
    },
    /// `while` (6.8.5.1).
    While {
        /// The condition.
        test: Box<TExpr>,
        /// The body.
        body: Box<TStmt>,
    },
    /// `do` (6.8.5.2).
    Do {
        /// The body.
        body: Box<TStmt>,
        /// The condition.
        test: Box<TExpr>,
    },
    /// `for` (6.8.5.3); the variables that are declared in its head end with it.
    For {
        /// What is done first: nothing, one expression, or declarations.
        first: Vec<TStmt>,
        /// The condition.
        test: Option<Box<TExpr>>,
        /// What is done after each turn.
        step: Option<Box<TExpr>>,
        /// The body.
        body: Box<TStmt>,
    },
    /// `switch` (6.8.4.2).
    Switch {
        /// What is compared with the labels, of type `int` or `unsigned int`.
        on: Box<TExpr>,
        /// Labels and the statements after them.
        groups: Vec<TGroup>,
    },
    /// `break` (6.8.6.3).
    Break,
    /// `continue` (6.8.6.2).
    Continue,
    /// `return` (6.8.6.4).
    Return(Option<Box<TExpr>>),
}

impl Drop for TStmt {
    #[cycle(statements_let_go)]
    fn drop(self) {
        match self {
            TStmt::Block(_body) => {}
            TStmt::Expr(_e) => {}
            TStmt::Declare {
                variable: _,
                init: _init,
            } => {}
            TStmt::If {
                test: _test,
                yes: _yes,
                no: _no,
            } => {}
            TStmt::While {
                test: _test,
                body: _body,
            } => {}
            TStmt::Do {
                body: _body,
                test: _test,
            } => {}
            TStmt::For {
                first: _first,
                test: _test,
                step: _step,
                body: _body,
            } => {}
            TStmt::Switch {
                on: _on,
                groups: _groups,
            } => {}
            TStmt::Return(_value) => {}
            TStmt::Empty | TStmt::Break | TStmt::Continue => {}
        }
    }
}

/// Labels of a switch, and the statements after them.
#[cycle(statement)]
pub struct TGroup {
    /// The labels.
    pub labels: Vec<TLabel>,
    /// The statements.
    pub body: Vec<TStmt>,
}

impl Drop for TGroup {
    #[cycle(statements_let_go)]
    fn drop(self) {
        let Self {
            labels: _labels,
            body: _body,
        } = self;
    }
}

/// The members of a struct (C99 6.7.2.1).
pub enum StructMembers {
    /// The struct has no definition.
    Undefined,
    /// The types of its members, in order.
    Defined(Vec<CType>),
}

impl Drop for StructMembers {
    fn drop(self) {
        match self {
            StructMembers::Undefined => {}
            StructMembers::Defined(_members) => {}
        }
    }
}

/// A defined function (C99 6.9.1).
pub struct Function {
    /// Its name.
    pub name: Bytes,
    /// Its type.
    pub ctype: CType,
    /// The types of its variables, its parameters first.
    pub variables: Vec<CType>,
    /// Its body.
    pub body: TStmt,
}

impl Drop for Function {
    fn drop(self) {
        let Self {
            name: _name,
            ctype: _ctype,
            variables: _variables,
            body: _body,
        } = self;
    }
}

/// A static object or a string literal (C99 6.2.4 paragraph 3, 6.4.5).
pub struct Static {
    /// Its type.
    pub ctype: CType,
    /// The values of its cells before the run.
    pub cells: Vec<Value>,
    /// Whether it is a string literal, which can't be stored to.
    pub string: bool,
}

impl Drop for Static {
    fn drop(self) {
        let Self {
            ctype: _ctype,
            cells: _cells,
            string: _,
        } = self;
    }
}
