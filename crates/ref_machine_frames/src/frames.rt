use c_tree::{BinOp, CType, IntType, TExpr, TGroup, TInit, TStmt, UnOp, Value};
use dm_base::{Event, Outcome, SysName};
use ref_machine_steps::Request;

/// Where a run stands: in an activation of a function.
#[derive(Clone, Copy)]
pub struct Here<'p> {
    /// The number of the function's entry in the run.
    pub activation: u64,
    /// The types of the function's variables.
    pub types: &'p [CType],
}

/// What is done with the value of one operand.
#[derive(Clone, Copy)]
pub enum Step<'p> {
    /// The place or the function of this type behind a pointer (6.5.3.2).
    Deref(&'p CType),
    /// The value of a place (6.3.2.1 paragraph 2).
    Load,
    /// A place of this type as a pointer (6.3.2.1).
    Decay(&'p CType),
    /// The value is not used (6.3.2.2).
    Discard,
    /// The member that begins at this cell and has this type (6.5.2.3).
    Field(u32, &'p CType),
    /// A unary operator (6.5.3.3).
    Unary(UnOp),
    /// A conversion (6.3.1).
    Convert(IntType),
}

/// What is done with the values of two operands.
#[derive(Clone, Copy)]
pub enum Pair {
    /// Arithmetic on integers (6.5.5 to 6.5.7, 6.5.10 to 6.5.12).
    Arith(BinOp),
    /// A comparison (6.5.8, 6.5.9).
    Compare(BinOp),
    /// A pointer plus or minus an integer (6.5.6 paragraph 8).
    PointerAdd {
        /// Whether the pointer is the first operand.
        pointer_first: bool,
        /// Whether the integer is subtracted.
        subtracted: bool,
    },
    /// The difference of two pointers (6.5.6 paragraph 9).
    PointerDiff,
}

/// What is done with the value of a part of an assignment (6.5.16).
#[derive(Clone, Copy)]
pub enum Storing<'p> {
    /// The value is a place; then the right side is evaluated.
    Place(&'p TExpr),
    /// The value is that of the right side; the place is here.
    Value(Value),
    /// The value is the place of a compound assignment; it is loaded, and then the right side is evaluated.
    Old {
        /// The operator.
        op: BinOp,
        /// Whether the value of the assignment is the old one.
        old: bool,
        /// The type of the place.
        ctype: &'p CType,
        /// The right side.
        right: &'p TExpr,
    },
    /// The value is that of the right side of a compound assignment.
    New {
        /// The operator.
        op: BinOp,
        /// Whether the value of the assignment is the old one.
        old: bool,
        /// The type of the place.
        ctype: &'p CType,
        /// The type of the right side.
        right: &'p CType,
        /// The place.
        place: Value,
        /// The old value.
        before: Value,
    },
}

/// What is done with the value of an operand that is tested.
#[derive(Clone, Copy)]
pub enum Choice<'p> {
    /// The second operand of `&&` is evaluated where the value isn't 0 (6.5.13).
    And(&'p TExpr),
    /// The second operand of `||` is evaluated where the value is 0 (6.5.14).
    Or(&'p TExpr),
    /// 1 where the value isn't 0, and 0 else.
    Truth,
    /// `?` and `:` (6.5.15).
    Cond {
        /// Whether the value is wanted.
        wanted: bool,
        /// What is evaluated where the value isn't 0.
        yes: &'p TExpr,
        /// What is evaluated where it is.
        no: &'p TExpr,
    },
}

/// What is called (6.5.2.2).
#[derive(Clone, Copy)]
pub enum Callee {
    /// The function with this number.
    Named(u32),
    /// What the value of a designator leads to.
    Through(Value),
}

/// What waits for a value and gives one.
#[derive(Drop)]
pub enum ValueFrame<'p> {
    /// A step with the value.
    One(Step<'p>),
    /// The second of two operands is evaluated.
    First(Pair, &'p TExpr),
    /// A step with two values, of which the first is here.
    Second(Pair, Value),
    /// A part of an assignment.
    Store(Storing<'p>),
    /// A part of what is tested.
    Test(Choice<'p>),
    /// The later members of a comma expression are evaluated (6.5.17).
    Members {
        /// Whether the value of the last one is wanted.
        wanted: bool,
        /// The later members, at least one.
        rest: &'p [TExpr],
    },
    /// The value of a designator; then the arguments are evaluated.
    Designator {
        /// Whether the value of the call is wanted.
        wanted: bool,
        /// The arguments.
        arguments: &'p [TExpr],
    },
    /// The value of an argument; then the later ones are evaluated, and then the call is made.
    Argument {
        /// Whether the value of the call is wanted.
        wanted: bool,
        /// What is called.
        callee: Callee,
        /// The values of the arguments before.
        before: Vec<Value>,
        /// The later arguments.
        rest: &'p [TExpr],
    },
}

/// Which part of a statement has a value.
#[derive(Clone, Copy)]
pub enum Valued {
    /// The condition of an `if` (6.8.4.1).
    If,
    /// What is compared with the labels of a `switch` (6.8.4.2).
    Switch,
    /// The condition of a loop (6.8.5).
    Test,
    /// What a `for` does after a round; then it is tested again.
    Step,
}

/// What waits for a value and is then left by an exit.
#[derive(Clone, Copy)]
pub enum StatementFrame<'p> {
    /// An expression whose value isn't used (6.8.3).
    Forget,
    /// The value that is returned (6.8.6.4).
    Give,
    /// A cell of a variable gets the value, and then the later ones theirs (6.7.8).
    Initialise {
        /// The variable.
        variable: u32,
        /// The cell.
        cell: u32,
        /// The later cells and their values.
        rest: &'p [TInit],
    },
    /// A part of the statement.
    Part(Valued, &'p TStmt),
}

/// Which part of a statement was left.
#[derive(Clone, Copy)]
pub enum Parted {
    /// A block, or all of a `for`: the variables that are declared directly in it end (6.2.4 paragraph 5).
    Whole,
    /// The body of a loop.
    Round,
    /// The head of a `for`; then it is tested.
    Head,
}

/// What waits for an exit and is left by one.
#[derive(Clone, Copy)]
pub enum ExitFrame<'p> {
    /// Later statements.
    Statements(&'p [TStmt]),
    /// Later groups of a `switch`.
    Groups(&'p [TGroup]),
    /// A `switch` is left.
    Switch,
    /// A part of the statement.
    Part(Parted, &'p TStmt),
}

/// A call that waits for how the body of its function is left.
#[derive(Clone, Copy)]
pub struct Call<'p> {
    /// Where the call stands.
    pub caller: Here<'p>,
    /// Whether the function is `main`.
    pub is_main: bool,
    /// Whether the value is wanted.
    pub wanted: bool,
    /// How many parameters the function was given.
    pub parameters: u32,
}

/// One thing that is left to do.
#[derive(Drop)]
pub enum Frame<'p> {
    /// In an expression.
    Value(ValueFrame<'p>),
    /// In a statement, with the value of an expression.
    Statement(StatementFrame<'p>),
    /// In a statement, with an exit.
    Exit(ExitFrame<'p>),
    /// In a call, with the exit of its function.
    Call(Call<'p>),
}

/// How a statement is left (C99 6.8.6).
#[derive(Clone, Copy)]
pub enum Left {
    /// It goes on.
    On,
    /// By `break`.
    Broken,
    /// By `continue`.
    Continued,
    /// By `return`, with a value where there is one.
    Returned(Option<Value>),
}

/// What comes after an event.
#[derive(Clone, Copy)]
pub enum After {
    /// The value of the call.
    Have(Value),
    /// The end of the run with this status, an `int` in each run of a well-typed program.
    Exited(i64),
}

/// What comes next.
#[derive(Drop)]
pub enum Now<'p> {
    /// An expression is evaluated.
    Eval {
        /// Whether the value of a call is wanted there.
        wanted: bool,
        /// The expression.
        of: &'p TExpr,
    },
    /// There is a value.
    Have(Value),
    /// A statement is done.
    Exec(&'p TStmt),
    /// A statement is left.
    Left(Left),
    /// A function is entered, which costs a turn.
    Enter {
        /// Whether its value is wanted.
        wanted: bool,
        /// Its number.
        function: u32,
        /// The arguments.
        arguments: Vec<Value>,
    },
    /// A loop, told by its statement, is tested, which costs a turn.
    Test(&'p TStmt),
    /// A system call needs a recorded result.
    Ask {
        /// The system call.
        name: SysName,
        /// What it asks for.
        request: Request,
    },
    /// An event was made.
    Told {
        /// The event.
        event: Event,
        /// What comes after it.
        then: After,
    },
    /// The run has ended.
    Stopped(Outcome),
    /// A value or an exit of another kind than its place was met, which no run of a well-typed program comes to.
    Mistyped,
}
