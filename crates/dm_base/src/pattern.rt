ghost use Rattle.std.specs.Prelude.{◌≡◌, ◌<◌, ◌≤◌, length, replicate, None, Some, slice_get, slice_set};
ghost use Rattle.std.proofs.Common.{refl};
ghost use Rattle.std.specs.Cmp.{partial_equiv_from_equiv, partial_order_from_own_ties, partial_order_from_total};
ghost use Rattle.std.specs.Ordering.{as_partial_cmp};
ghost use Rattle.dm_base.specs.Pattern.{pattern_cmp, pattern_eq, pattern_cmp_total, pattern_eq_equivalence, pattern_ties};

use std::cmp::Ordering;
use std::marker::Model;

/// What a model knows of the recorded arguments of a system call, seen as the list of its entries,
/// at most three. An entry is None where any value fits, or the number that the argument is.
/// Patterns are ordered as their lists: entry by entry, None before every number, numbers by
/// value, and a list before the longer ones that begin with it.
#[derive(Clone, Copy)]
pub struct Pattern {
    entries: [Option<i64>; 3],
    held: u8,
}

impl Model for Pattern {
    ghost use Rattle.std.specs.Prelude.{List, Option, ℤ, length};
    ghost use Rattle.std.proofs.Common.{ap₂};
    ghost use Rattle.dm_base.specs.PatternRow.{entries_of, IsPadded, padded, length-entries_of, padded-entries_of};

    ghost Value = { List (Option ℤ) };

    ghost view = { λ p. entries_of p.entries p.held };

    ghost invariant = { λ p. IsPadded p.entries p.held };

    ghost inverse = { λ es. record { entries = padded es; held = length es } };

    ghost inverse_ok = { λ p padding. ap₂ (λ row count. record { entries = row; held = count }) (padded-entries_of p.entries p.held padding) (length-entries_of p.entries p.held padding) };
}

impl Pattern {
    /// The pattern with so many entries, which any values fit.
    pub fn any(count: u8) -> Pattern
        requires { count ≤ 3 }
        ensures { result ≡ replicate count None }
    {
        Pattern {
            entries: [None; 3],
            held: count,
        }
    }

    /// Says at an entry, counted from 0, that only this number fits.
    pub fn set(&mut self, i: u8, value: i64)
        requires { i < length self.old }
        ensures { self.new ≡ slice_set self.old i (Some value) }
    {
        self.entries[i as usize] = Some(value);
    }

    /// The number that the argument at this place, counted from 0, has to be, or None where any
    /// value fits.
    pub fn get(&self, i: u8) -> Option<i64>
        requires { i < length self.now }
        ensures { slice_get self.now i ≡ Some result }
    {
        self.entries[i as usize]
    }

    /// How many entries there are, from 0 to 3.
    pub fn count(&self) -> u8
        ensures count { result ≡ length self.now }
        ensures few { result ≤ 3 }
    {
        self.held
    }

    // The entries as a slice.
    fn as_slice(&self) -> &[Option<i64>]
        ensures { result.now ≡ self.now }
    {
        &self.entries[..self.held as usize]
    }
}

impl PartialEq for Pattern {
    ghost eq = { pattern_eq };

    ghost laws = { partial_equiv_from_equiv pattern_eq_equivalence };

    fn eq(&self, other: &Pattern) -> bool {
        self.as_slice() == other.as_slice()
    }
}

impl Eq for Pattern {
    ghost laws = { pattern_eq_equivalence };
}

impl Ord for Pattern {
    ghost cmp = { pattern_cmp };

    ghost total = { pattern_cmp_total };

    ghost matches_partial_cmp = { λ _ _. refl };

    ghost matches_eq = { pattern_ties };

    fn cmp(&self, other: &Pattern) -> Ordering {
        self.as_slice().cmp(other.as_slice())
    }
}

impl PartialOrd for Pattern {
    ghost partial_cmp = { as_partial_cmp pattern_cmp };

    ghost laws = { partial_order_from_own_ties (partial_order_from_total pattern_cmp_total) pattern_ties };

    fn partial_cmp(&self, other: &Pattern) -> Option<Ordering> {
        Some(self.cmp(other))
    }
}
