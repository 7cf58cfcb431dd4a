ghost use Rattle.std.specs.Prelude.{◌≡◌};
ghost use Rattle.c_check_bodies.specs.AroundView.{around_of};
ghost use Rattle.c_rules.specs.Statements.{in_loop, in_switch};

use c_tree::CType;

/// What stands round a statement.
#[derive(Clone, Copy, Drop)]
pub struct Around<'r> {
    /// Whether a `break` has a loop or a switch to leave (C99 6.8.6.3).
    pub breaks: bool,
    /// Whether a `continue` has a loop to go on with (C99 6.8.6.2).
    pub continues: bool,
    /// What the function returns (C99 6.8.6.4).
    pub returns: &'r CType,
}

/// What stands round the body of a loop.
pub fn in_loop<'r>(around: &Around<'r>) -> Around<'r>
    ensures { around_of result ≡ in_loop (around_of around.now) }
{
    Around {
        breaks: true,
        continues: true,
        returns: around.returns,
    }
}

/// What stands round the statements of a switch.
pub fn in_switch<'r>(around: &Around<'r>) -> Around<'r>
    ensures { around_of result ≡ in_switch (around_of around.now) }
{
    Around {
        breaks: true,
        continues: around.continues,
        returns: around.returns,
    }
}
