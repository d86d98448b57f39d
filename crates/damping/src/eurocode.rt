ghost use Rattle.damping.specs.Eurocode.{eurocode_says};
ghost use Rattle.damping.specs.Reduction.{eurocode_laws};

use crate::rule::{DampingRule, in_ranges};

// The rule of EN 1998-1, letter E on a sheet.
#[derive(Clone, Copy, PartialEq, Eq, Debug)]
pub struct EurocodeRule;

impl DampingRule for EurocodeRule {
    ghost says = { λ _. eurocode_says };

    ghost laws = { λ x. eurocode_laws };

    fn meets(&self, e: u64, p: u64, r: u64) -> bool {
        if !in_ranges(e, p, r) {
            return false;
        }
        p > 0 && 355 * p + 4520 * e >= 710 * r && 400 * p >= 121 * r
    }
}
