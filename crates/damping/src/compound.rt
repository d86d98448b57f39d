ghost use Rattle.either.specs.Either.{either};
ghost use Rattle.either.specs.declared.Either.TheVariants.{Left, Right};

use crate::rule::DampingRule;
use either::Either;

// One of any two rules, again a rule.
impl<X: DampingRule, Y: DampingRule> DampingRule for Either<X, Y> {
    ghost says = { either X.DampingRule.says Y.DampingRule.says };

    ghost laws = { elim [ Left x ↦ X.DampingRule.laws x | Right y ↦ Y.DampingRule.laws y ] };

    fn meets(&self, e: u64, p: u64, r: u64) -> bool {
        match self {
            Either::Left(x) => x.meets(e, p, r),
            Either::Right(y) => y.meets(e, p, r),
        }
    }
}
