ghost use Rattle.std.specs.Prelude.{◌≡◌, ◌*◌, ◌<◌, nat_le};

// Whether a/b is at least c/d, with no product that could pass 64 bits: whole parts are compared first;
// where they agree, the remainders are turned over and compared in the same way.
pub(crate) fn at_least(a: u64, b: u64, c: u64, d: u64) -> bool
    requires { (0 < b) × (0 < d) }
    ensures { result ≡ nat_le (c * b) (a * d) }
{
    let whole = a / b;
    let other = c / d;
    if whole != other {
        return whole > other;
    }
    let rest = a % b;
    let due = c % d;
    if due == 0 {
        return true;
    }
    if rest == 0 {
        return false;
    }
    at_least(d, due, b, rest)
}
