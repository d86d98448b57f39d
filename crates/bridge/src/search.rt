ghost use Rattle.std.specs.Prelude.{◌≡◌, ◌≤◌, length};
ghost use Rattle.bridge.specs.Sums.{total, all_at, met};
ghost use Rattle.bridge.specs.Design.{design};
ghost use Rattle.bridge.specs.Answers.{restoring, half_of};

use bearing::Bearing;
use damping::DampingRule;
use loading::Weight;

// The rows of a bridge, at most 64, every one with the same strength and stiffness factor in percent.
#[derive(Drop)]
pub(crate) struct AtFactors<'a, B> {
    pub(crate) rows: &'a [B],
    pub(crate) s: u16,
    pub(crate) k: u16,
    ghost few: { length rows.now ≤ 64 },
}

impl<'a, B: Bearing> AtFactors<'a, B> {
    // Force and energy of all rows together.
    pub(crate) fn totals(&self, d: u16) -> (u64, u64)
        ensures forces { result.0 ≡ total B.force self.now.rows.now (all_at self.now.s self.now.k) d }
        ensures energies { result.1 ≡ total B.energy self.now.rows.now (all_at self.now.s self.now.k) d }
    {
        let rows = self.rows;
        let mut f: u64 = 0;
        let mut e: u64 = 0;
        for b in rows {
            let (x, y) = b.answer(self.s, self.k, d);
            f += x;
            e += y;
        }
        (f, e)
    }

    // Whether the demand is met at a displacement.
    fn is_met<R: DampingRule>(&self, rule: &R, demand: u64, d: u16) -> bool
        ensures { result ≡ met B.force B.energy (R.DampingRule.says rule.now) self.now.rows.now (all_at self.now.s self.now.k) demand d }
    {
        let (f, e) = self.totals(d);
        rule.meets(e, d as u64 * f, demand)
    }

    // The design displacement, found by halving the displacements that are left: 14 sums over the rows at most, since
    // 10,000 is below 2 to the 14th. What meets once meets at every larger displacement; 10,001 stands for none.
    pub(crate) fn find<R: DampingRule>(&self, rule: &R, demand: u64) -> Option<u16>
        requires low { 1 ≤ demand }
        requires top { demand ≤ 20000000000000 }
        ensures { result ≡ design (met B.force B.energy (R.DampingRule.says rule.now) self.now.rows.now (all_at self.now.s self.now.k) demand) }
    {
        let mut lo: u16 = 1;
        let mut hi: u16 = 10_001;
        for _turn in 0..14u8 {
            if lo == hi {
                break;
            }
            let mid = lo + (hi - lo) / 2;
            if self.is_met(rule, demand, mid) {
                hi = mid;
            } else {
                lo = mid + 1;
            }
        }
        if lo > 10_000 { None } else { Some(lo) }
    }

    // Whether the force rises enough from half the displacement to the whole: 80 times the rise is at least the
    // deck's weight.
    pub(crate) fn restores(&self, dlow: u16, weight: Weight) -> bool
        ensures { result ≡ restoring (total B.force self.now.rows.now (all_at self.now.s self.now.k) dlow) (total B.force self.now.rows.now (all_at self.now.s self.now.k) (half_of dlow)) weight.kn }
    {
        let (whole, _) = self.totals(dlow);
        let (half, _) = self.totals(dlow.div_ceil(2));
        80 * (whole - half) >= 1000 * weight.kilonewtons() as u64
    }
}
