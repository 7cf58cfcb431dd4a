ghost use Rattle.std.specs.Prelude.{◌≡◌, ◌<◌, ◌≤◌, ◌↔◌, IfSome, IsSome};

use std::marker::Model;

/// A kind of undefined behaviour, U1 to U12, by its number.
#[derive(Clone, Copy)]
pub struct Kind {
    held: u8,
}

impl Model for Kind {
    ghost use Rattle.std.specs.Prelude.{ℕ, ◌≤◌};

    ghost Value = { ℕ };

    ghost view = { λ k. k.held };

    ghost invariant = { λ k. (1 ≤ k.held) × (k.held ≤ 12) };

    ghost inverse = { λ n. record { held = n } };
}

impl Kind {
    /// The kind with this number, or None outside 1 to 12.
    pub fn from_number(n: u8) -> Option<Kind>
        ensures known { IsSome result ↔ ((1 ≤ n) × (n ≤ 12)) }
        ensures kind { IfSome result (λ kind. kind ≡ n) }
    {
        if 1 <= n && n <= 12 {
            Some(Kind { held: n })
        } else {
            None
        }
    }

    /// The number, from 1 to 12.
    pub fn number(self) -> u8
        ensures number { result ≡ self }
        ensures least { 1 ≤ result }
        ensures greatest { result ≤ 12 }
    {
        self.held
    }
}

/// How a run of a program ended. It holds no place, so that a plain run and an instrumented one
/// can have equal outcomes.
#[derive(Clone, Copy)]
pub enum Outcome {
    /// `main` returned this value.
    Exit(i32),
    /// The program met undefined behaviour of this kind.
    Undefined(Kind),
    /// No turn was left.
    Turns,
    /// No record of a result was left.
    Results,
    /// The record with this number, counted from 1, does not answer its system call.
    BadResult(u64),
}

/// How a recorded trace ended.
#[derive(Clone, Copy)]
pub enum TraceEnd {
    /// It may go on.
    Open,
    /// The run ended so.
    Ended(Outcome),
}
