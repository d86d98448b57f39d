ghost use Rattle.std.specs.Prelude.{◌≡◌, ◌*◌, ◌≤◌, ◌&&◌, if◌then◌else◌, Some, None, nat_le};
ghost use Rattle.damping.specs.Table.{read_table, table as factors, scaled_factor, table_says, NothingLost};
ghost use Rattle.damping.specs.Growth.{table_laws};

use crate::fractions::at_least;
use crate::rule::{DampingRule, in_ranges};

// The rule by the table of damping factors (AASHTO Guide Specifications 1999), letter T on a sheet.
#[derive(Clone, Copy, PartialEq, Eq, Debug)]
pub struct TableRule;

// X = 21,300 × P × B, with the factor B that the table has at b = 4,520 × E / (71 × P) percent: a straight
// line in P and E between two neighbours of the table.
fn on_segment(e: u64, p: u64) -> u64
    requires { (e ≤ p) × (p ≤ 64000000000000) }
    ensures { result ≡ read_table factors (4520 * e) (71 * p) }
{
    let n = 4520 * e;
    let d = 71 * p;
    if n <= 2 * d {
        17040 * p
    } else if n <= 5 * d {
        14200 * p + 90400 * e
    } else if n <= 10 * d {
        17040 * p + 54240 * e
    } else if n <= 20 * d {
        19170 * p + 40680 * e
    } else if n <= 40 * d {
        23430 * p + 27120 * e
    } else if n <= 50 * d {
        31950 * p + 13560 * e
    } else {
        42600 * p
    }
}

impl TableRule {
    // 21,300 × P × B by the table, a whole number with nothing lost by rounding; none outside the ranges of E and P.
    pub fn scaled_factor(e: u64, p: u64) -> Option<u64>
        ensures value { result ≡ (if nat_le e p && nat_le p 64000000000000 then Some (scaled_factor e p) else None) }
        ensures exact { NothingLost }
    {
        if e <= p && p <= 64_000_000_000_000 {
            Some(on_segment(e, p))
        } else {
            None
        }
    }
}

impl DampingRule for TableRule {
    ghost says = { λ _. table_says };

    ghost laws = { λ x. table_laws };

    fn meets(&self, e: u64, p: u64, r: u64) -> bool {
        if !in_ranges(e, p, r) || p == 0 {
            return false;
        }
        let x = on_segment(e, p);
        at_least(x, 21300 * p, 21300 * r, x)
    }
}
