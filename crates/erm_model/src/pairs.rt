//! The keys that a scan finds.
ghost use Rattle.std.specs.Prelude.{◌≡◌, nat_eq};
ghost use Rattle.std.proofs.Common.{rules};
ghost use Rattle.std.specs.Cmp.Lexicographic.{pointwise};
ghost use Rattle.std.specs.Cmp.Rules.{comparing};
ghost use Rattle.std.specs.Ordering.{eq_of_both, on};

use crate::Value;
use std::marker::Model;

/// Keys with their values, in order. Contracts see a list.
#[derive(Drop)]
pub struct Pairs(Vec<(u64, Value)>);

impl Model for Pairs {
    ghost use Rattle.std.specs.Prelude.{List, ℕ};

    ghost Value = { List (ℕ × List ℕ) };

    ghost view = { λ p. p.0.items };
}

impl Pairs {
    /// These pairs.
    pub fn new(pairs: Vec<(u64, Value)>) -> Pairs
        ensures { result ≡ pairs.items }
    {
        Pairs(pairs)
    }

    /// The pairs, in order.
    pub fn as_slice(&self) -> &[(u64, Value)]
        ensures { result.now ≡ self.now }
    {
        &self.0
    }
}

impl PartialEq for Pairs {
    ghost eq = { pointwise (eq_of_both (on (λ p. p.0) nat_eq) (on (λ p. p.1) (pointwise nat_eq))) };

    ghost laws = { Prim.search (comparing, rules) };

    fn eq(&self, other: &Pairs) -> bool {
        self.as_slice() == other.as_slice()
    }
}

impl Eq for Pairs {
    ghost laws = { Prim.search (comparing, rules) };
}
