ghost use Rattle.std.specs.Prelude.{◌≡◌, ◌≤◌, length};
ghost use Rattle.listing.specs.Lists.{listed};
ghost use Rattle.std.specs.Option.{ok_or};
ghost use Rattle.bearing.specs.Refusals.{plain_fault};
ghost use Rattle.bearing.specs.declared.fault.Layer.TheVariants.{Bridge as bridgeLayer};
ghost use Rattle.bearing.specs.declared.fault.Refusal.TheVariants.{BeyondRange as beyondRange};
ghost use Rattle.bridge.specs.Answers.{queried, row_queried, meets, lowest};
ghost use Rattle.bridge.specs.Sums.{all_at};
ghost use Rattle.bridge.specs.Design.{design};
ghost use Rattle.bridge.specs.Outcomes.{reported};
ghost use Rattle.bridge.specs.Bounds.{QueryLaw, RowLaw};

use crate::drafting::Bridge;
use crate::replies::Answer;
use crate::search::AtFactors;
use bearing::{Bearing, Fault, Layer, Refusal};
use damping::DampingRule;
use loading::Case;

impl<'a, B: Bearing + Copy> Bridge<'a, B> {
    // The rows, every one at these factors.
    fn at(&self, factors: (u16, u16)) -> AtFactors<'_, B>
        ensures rows { result.rows.now ≡ (listed self.now.rows).items }
        ensures s { result.s ≡ factors.0 }
        ensures k { result.k ≡ factors.1 }
    {
        let (s, k) = factors;
        AtFactors {
            rows: self.rows(),
            s,
            k,
        }
    }

    // The design displacement with every row at these factors.
    fn design_at<R: DampingRule>(&self, case: &Case<R>, factors: (u16, u16)) -> Option<u16>
        ensures { result ≡ design (meets B.force B.energy R.says (listed self.now.rows).items self.now.weight.kn case.now.numbers (all_at factors.0 factors.1)) }
    {
        self.at(factors)
            .find(&case.numbers.rule, case.demand(self.weight()))
    }

    // The same at the lowest factors, or the refusal where there is none.
    fn design_low<R: DampingRule>(&self, case: &Case<R>) -> Result<u16, Fault>
        ensures { result ≡ ok_or (design (meets B.force B.energy R.says (listed self.now.rows).items self.now.weight.kn case.now.numbers (lowest case.now.numbers))) (plain_fault beyondRange bridgeLayer) }
    {
        self.design_at(case, case.lowest())
            .ok_or(Layer::Bridge.refuses(Refusal::BeyondRange))
    }

    // The answer to a load case.
    fn answer<R: DampingRule>(&self, case: &Case<R>) -> Result<Answer, Fault>
        ensures answer { reported result ≡ queried B.force B.energy R.says (listed self.now.rows).items self.now.weight.kn case.now.numbers }
        ensures few { length (listed self.now.rows).items ≤ 64 }
    {
        if self.rows().is_empty() {
            return Err(Layer::Bridge.refuses(Refusal::NoRows));
        }
        let dlow = self.design_low(case)?;
        // what meets at the lowest factors meets at the highest, so the second displacement is there too
        let dhigh = self.design_at(case, case.highest()).unwrap();
        let (force, _) = self.at(case.highest()).totals(dlow);
        let restores = self.at(case.lowest()).restores(dlow, self.weight());
        Ok(Answer {
            dlow,
            dhigh,
            force,
            clear: dlow.max(250),
            restores,
        })
    }

    // The force of one row at the highest factors, at the design displacement at the lowest.
    fn row_force<R: DampingRule>(&self, case: &Case<R>, n: usize) -> Result<u64, Fault>
        ensures answer { result ≡ row_queried B.force B.energy R.says (listed self.now.rows).items self.now.weight.kn case.now.numbers n }
        ensures few { length (listed self.now.rows).items ≤ 64 }
    {
        let rows = self.rows();
        if rows.is_empty() {
            return Err(Layer::Bridge.refuses(Refusal::NoRows));
        }
        if n < 1 || n > rows.len() {
            return Err(Layer::Bridge.refuses(Refusal::NoSuchRow));
        }
        let dlow = self.design_low(case)?;
        let (s, k) = case.highest();
        let i = n - 1;
        let (force, _) = rows[i].answer(s, k, dlow);
        Ok(force)
    }

    // Answers a load case, or refuses it: no row is hung, or no displacement in range meets the demand.
    pub fn query<R: DampingRule>(&self, case: &Case<R>) -> Result<Answer, Fault>
        ensures answer { reported result ≡ queried B.force B.energy R.says (listed self.now.rows).items self.now.weight.kn case.now.numbers }
        ensures law { QueryLaw B.force B.energy R.says (listed self.now.rows).items self.now.weight.kn case.now.numbers result }
    {
        self.answer(case)
    }

    // Answers one row's force at the upper factors at dlow; rows are numbered from 1.
    pub fn row_query<R: DampingRule>(&self, case: &Case<R>, n: usize) -> Result<u64, Fault>
        ensures answer { result ≡ row_queried B.force B.energy R.says (listed self.now.rows).items self.now.weight.kn case.now.numbers n }
        ensures law { RowLaw B.force B.energy R.says (listed self.now.rows).items self.now.weight.kn case.now.numbers n result }
    {
        self.row_force(case, n)
    }
}
