ghost use Rattle.std.specs.Prelude.{◌≡◌, ℕ, Bool};
ghost use Rattle.damping.specs.Rule.{inside, RuleLaws};

// A damping rule: a yes or no to the energy E, the product P of displacement and force, and the demand R.
pub trait DampingRule {
    ghost says: { Self → ℕ → ℕ → ℕ → Bool };

    fn meets(&self, e: u64, p: u64, r: u64) -> bool
        ensures { result ≡ says self.now e p r };

    ghost laws: { (x : Self) → RuleLaws (says x) };
}

// Whether E, P and R are in the ranges of a rule.
pub(crate) fn in_ranges(e: u64, p: u64, r: u64) -> bool
    ensures { result ≡ inside e p r }
{
    e <= p && p <= 64_000_000_000_000 && 1 <= r && r <= 20_000_000_000_000
}
