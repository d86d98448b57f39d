ghost use Rattle.std.specs.Prelude.{◌≡◌, ◌≤◌};
ghost use Rattle.either.specs.Either.{either};
ghost use Rattle.bearing.specs.Compound.{counted, group_force, group_energy, count_checked, group_made};
ghost use Rattle.bearing.specs.Compounds.{either_laws, group_laws};

use crate::fault::{Fault, Layer};
use crate::ranges::{
    TOP_FACTOR, TOP_FORCE, TOP_TRAVEL, check_force, check_range, nearest_factor, nearest_travel,
};
use crate::traits::Bearing;
use either::Either;

// A bearing of either of two kinds.
impl<X: Bearing, Y: Bearing> Bearing for Either<X, Y> {
    ghost force = { either X.Bearing.force Y.Bearing.force };

    ghost energy = { either X.Bearing.energy Y.Bearing.energy };

    ghost laws = { either_laws X.Bearing.force X.Bearing.energy Y.Bearing.force Y.Bearing.energy X.Bearing.laws Y.Bearing.laws };

    fn answer(&self, s: u16, k: u16, d: u16) -> (u64, u64) {
        match self {
            Either::Left(x) => x.answer(s, k, d),
            Either::Right(y) => y.answer(s, k, d),
        }
    }
}

// A group of equal bearings side by side.
#[derive(Clone, Copy)]
pub struct Group<B> {
    count: u8,
    member: B,
}

// A group has 1 to 20 bearings.
pub fn check_count(count: u32) -> Result<(), Fault>
    ensures { result ≡ count_checked count }
{
    check_range(count, 1, 20, Layer::Bridge, 1)
}

impl<B: Bearing + Copy> Group<B> {
    pub fn new(count: u32, member: B) -> Result<Group<B>, Fault>
        ensures { result ≡ group_made B.force count member }
    {
        check_count(count)?;
        let (greatest, _) = member.answer(TOP_FACTOR, TOP_FACTOR, TOP_TRAVEL);
        let group = Group {
            count: count as u8,
            member,
        };
        check_force(count as u64 * greatest, group, Layer::Bridge)
    }
}

impl<B: Bearing> Group<B> {
    // How many bearings the group counts as: 1 where so many would be above the limit. A single one never is.
    fn counts_as(&self) -> u64
        ensures value { result ≡ counted self.now.count (B.force self.now.member) }
        ensures few { result ≤ 255 }
    {
        let n = self.count as u64;
        if n <= 1 {
            return n;
        }
        let (greatest, _) = self.member.answer(TOP_FACTOR, TOP_FACTOR, TOP_TRAVEL);
        if n * greatest <= TOP_FORCE { n } else { 1 }
    }
}

impl<B: Bearing> Bearing for Group<B> {
    ghost force = { group_force B.Bearing.force };

    ghost energy = { group_energy B.Bearing.force B.Bearing.energy };

    ghost laws = { λ b. group_laws (B.Bearing.laws b.member) b.count };

    // The member is asked within the ranges: no law says that a bearing takes the nearest end itself.
    fn answer(&self, s: u16, k: u16, d: u16) -> (u64, u64) {
        let n = self.counts_as();
        let (force, energy) = self
            .member
            .answer(nearest_factor(s), nearest_factor(k), nearest_travel(d));
        (n * force, n * energy)
    }
}
