use dm_base::{Pattern, SysName};

/// The shape of a construct of C: the control flow of which only system calls, calls at sites and ways to
/// leave a construct are kept (Wagner and Dean 2001).
pub enum Shape {
    /// Nothing that matters.
    Skip,
    /// A system call other than `_exit` whose recorded arguments fit the pattern.
    Sys(SysName, Pattern),
    /// A call of `_exit`, which does not come back.
    Exit(Pattern),
    /// A call at a site.
    Call(u32),
    /// A first part, and the others in order after it.
    Seq(Box<Shape>, Vec<Shape>),
    /// One of two parts.
    Alt(Box<Shape>, Box<Shape>),
    /// A loop with its test, its body and its step (C99 6.8.5.1, 6.8.5.3).
    Loop(Box<Shape>, Box<Shape>, Box<Shape>),
    /// A loop with its body and the test after it (C99 6.8.5.2).
    Do(Box<Shape>, Box<Shape>),
    /// The groups of a switch, and whether one of them has the label `default` (C99 6.8.4.2).
    Cases(Vec<Shape>, bool),
    /// `break`
    Break,
    /// `continue`
    Continue,
    /// `return`
    Return,
}

impl Drop for Shape {
    #[cycle(shapes_let_go)]
    fn drop(self) {
        match self {
            Shape::Skip | Shape::Sys(_, _) | Shape::Exit(_) | Shape::Call(_) => {}
            Shape::Break | Shape::Continue | Shape::Return => {}
            Shape::Seq(_first, _rest) => {}
            Shape::Alt(_one, _other) => {}
            Shape::Loop(_test, _body, _step) => {}
            Shape::Do(_body, _test) => {}
            Shape::Cases(_groups, _) => {}
        }
    }
}
