ghost use Rattle.std.specs.Prelude.{◌≡◌, ◌<◌, ◌↔◌, IfSome, IsSome};

use std::marker::Model;

/// A system call of the table, by its number there, which is 0 to 23.
#[derive(Clone, Copy, PartialEq, Eq, PartialOrd, Ord)]
pub struct SysName {
    number: u8,
}

impl Model for SysName {
    ghost use Rattle.std.specs.Prelude.{ℕ, ◌<◌};

    ghost Value = { ℕ };

    ghost view = { λ s. s.number };

    ghost invariant = { λ s. s.number < 24 };

    ghost inverse = { λ n. record { number = n } };
}

impl SysName {
    /// The system call with this number, or None from 24 up.
    pub fn from_index(i: u8) -> Option<SysName>
        ensures known { IsSome result ↔ (i < 24) }
        ensures name { IfSome result (λ name. name ≡ i) }
    {
        if i < 24 {
            Some(SysName { number: i })
        } else {
            None
        }
    }

    /// The number, from 0 to 23.
    pub fn index(self) -> u8
        ensures index { result ≡ self }
        ensures known { result < 24 }
    {
        self.number
    }
}
