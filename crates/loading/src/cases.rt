ghost use Rattle.std.specs.Prelude.{◌≡◌, ◌≤◌};
ghost use Rattle.bearing.specs.Refusals.{with_ok};
ghost use Rattle.loading.specs.Making.{case_made, demand};

use crate::loads::CaseNumbers;
use crate::weighing::Weight;
use bearing::{Fault, Layer, Refusal, check_range};

// A load case whose numbers are in their ranges, the bounds of each factor in order: no value of this type is otherwise.
#[derive(Drop)]
pub struct Case<R> {
    pub numbers: CaseNumbers<R>,
    ghost accelfrom: { 1 ≤ numbers.accel },
    ghost accelto: { numbers.accel ≤ 100 },
    ghost sfrom: { 50 ≤ numbers.slo },
    ghost sto: { numbers.shi ≤ 300 },
    ghost sordered: { numbers.slo ≤ numbers.shi },
    ghost kfrom: { 50 ≤ numbers.klo },
    ghost kto: { numbers.khi ≤ 300 },
    ghost kordered: { numbers.klo ≤ numbers.khi },
}

impl<R: Copy> Case<R> {
    pub fn new(numbers: CaseNumbers<R>) -> Result<Case<R>, Fault>
        ensures { with_ok result (λ c. c.numbers) ≡ case_made numbers }
    {
        check_range(numbers.accel, 1, 100, Layer::Bridge, 1)?;
        check_range(numbers.slo, 50, 300, Layer::Bridge, 3)?;
        check_range(numbers.shi, 50, 300, Layer::Bridge, 4)?;
        check_range(numbers.klo, 50, 300, Layer::Bridge, 5)?;
        check_range(numbers.khi, 50, 300, Layer::Bridge, 6)?;
        if numbers.slo > numbers.shi || numbers.klo > numbers.khi {
            return Err(Layer::Bridge.refuses(Refusal::BoundsReversed));
        }
        Ok(Case { numbers })
    }
}

impl<R> Case<R> {
    // The lowest strength and stiffness factor that the case allows, in percent.
    pub fn lowest(&self) -> (u16, u16)
        ensures { result ≡ (self.now.numbers.slo, self.now.numbers.klo) }
    {
        (self.numbers.slo as u16, self.numbers.klo as u16)
    }

    // The highest ones.
    pub fn highest(&self) -> (u16, u16)
        ensures { result ≡ (self.now.numbers.shi, self.now.numbers.khi) }
    {
        (self.numbers.shi as u16, self.numbers.khi as u16)
    }

    // The demand of a deck of this weight, in newtons times tenths of a millimetre; it is in the range of a rule.
    pub fn demand(&self, weight: Weight) -> u64
        ensures low { 1 ≤ result }
        ensures top { result ≤ 20000000000000 }
        ensures value { result ≡ demand self.now.numbers weight.kn }
    {
        let a = self.numbers.accel as u64 * self.numbers.site.coefficient();
        (251_519 * (a * a) * weight.kilonewtons() as u64 + 99_999) / 100_000
    }
}
