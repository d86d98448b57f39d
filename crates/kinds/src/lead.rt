ghost use Rattle.std.specs.Prelude.{◌≡◌, ◌<◌, ◌≤◌, true, is_ok};
ghost use Rattle.bearing.specs.Curves.{clamped};
ghost use Rattle.bearing.specs.Refusals.{with_ok};
ghost use Rattle.kinds.specs.Leads.{lead_letter, lead_fields, strength_of, stiffness_of, yield_of, bilinear_force, bilinear_energy, lead_ranged, lead_shaped, lead_checked, lead_made, lead_on_line, lead_force, lead_energy};
ghost use Rattle.kinds.specs.LeadsLemmas.{lead_laws};
ghost use Rattle.std.proofs.Common.{rules};

use bearing::{
    Bearing, Fault, Layer, Refusal, SheetKind, TOP_FACTOR, TOP_FORCE, TOP_TRAVEL, check_force,
    check_range, nearest_factor, nearest_travel,
};

// A lead-rubber bearing: diameter of the lead in millimetres, its yield stress in tenths of a megapascal,
// bonded diameter in millimetres, shear modulus in hundredths of a megapascal, and total thickness of the
// rubber in millimetres.
#[derive(Clone, Copy)]
pub struct LeadRubber {
    lead: u32,
    stress: u32,
    bonded: u32,
    modulus: u32,
    rubber: u32,
}

// What a lead-rubber bearing answers by: its characteristic strength in newtons, its post-yield stiffness in newtons
// per millimetre, and its yield displacement in tenths of a millimetre.
#[derive(Clone, Copy)]
struct Bilinear {
    strength: u64,
    stiffness: u64,
    yields: u64,
    ghost strength_top: { strength ≤ 2300000 },
    ghost stiffness_top: { stiffness ≤ 200000 },
    ghost yields_low: { 0 < yields },
    ghost yields_top: { yields ≤ 25000000 },
}

impl Bilinear {
    // Force and energy: a straight line up to the yield displacement, and another from there on. Only what lies beyond
    // yielding takes up energy. A factor or a displacement outside its range counts as the nearest end.
    fn respond(&self, s: u16, k: u16, d: u16) -> (u64, u64)
        ensures { result ≡ (clamped (bilinear_force self.now.strength self.now.stiffness self.now.yields) s k d, clamped (bilinear_energy self.now.strength self.now.yields) s k d) }
    {
        let Bilinear {
            strength,
            stiffness,
            yields,
        } = *self;
        let d = nearest_travel(d) as u64;
        let q = strength * nearest_factor(s) as u64 / 100;
        let kk = stiffness * nearest_factor(k) as u64;
        if yields <= d {
            (q + kk * d / 1_000, q * (d - yields))
        } else {
            ((q + kk * yields / 1_000) * d / yields, 0)
        }
    }
}

impl LeadRubber {
    pub fn new(
        lead: u32,
        stress: u32,
        bonded: u32,
        modulus: u32,
        rubber: u32,
    ) -> Result<LeadRubber, Fault>
        ensures { result ≡ lead_made lead stress bonded modulus rubber }
    {
        LeadRubber::from_fields(&[lead, stress, bonded, modulus, rubber]).checked()
    }

    // The bearing of five fields, accepted or not.
    fn from_fields(p: &[u32; 5]) -> LeadRubber
        ensures { result ≡ lead_on_line p.now }
    {
        let [lead, stress, bonded, modulus, rubber] = *p;
        LeadRubber {
            lead,
            stress,
            bonded,
            modulus,
            rubber,
        }
    }

    // The bearing itself, where its fields are accepted.
    #[inline(always)]
    fn checked(&self) -> Result<LeadRubber, Fault>
        ensures { result ≡ lead_checked self.now }
    {
        let (greatest, _) = self.bilinear()?.respond(TOP_FACTOR, TOP_FACTOR, TOP_TRAVEL);
        check_force(greatest, *self, Layer::Bearing)
    }

    fn shape(&self) -> Result<(), Fault>
        ensures { result ≡ lead_shaped self.now }
    {
        self.ranges()?;
        if 3 * self.lead > self.bonded {
            return Err(Layer::Bearing.refuses(Refusal::LeadTooWide));
        }
        Ok(())
    }

    fn ranges(&self) -> Result<(), Fault>
        ensures { result ≡ lead_ranged self.now }
    {
        check_range(self.lead, 10, 400, Layer::Bearing, 1)?;
        check_range(self.stress, 50, 200, Layer::Bearing, 2)?;
        check_range(self.bonded, 100, 1_500, Layer::Bearing, 3)?;
        check_range(self.modulus, 40, 200, Layer::Bearing, 4)?;
        check_range(self.rubber, 20, 1_000, Layer::Bearing, 5)
    }

    // What the bearing answers by, where its fields are in their ranges and the lead is not too wide. Before yielding it
    // is ten times as stiff as after it; the yield displacement is rounded up. The factors don't touch it.
    fn bilinear(&self) -> Result<Bilinear, Fault>
        ensures strength { with_ok result (λ b. b.strength) ≡ with_ok (lead_shaped self.now) (λ _. strength_of self.now) }
        ensures stiffness { with_ok result (λ b. b.stiffness) ≡ with_ok (lead_shaped self.now) (λ _. stiffness_of self.now) }
        ensures yields { with_ok result (λ b. b.yields) ≡ with_ok (lead_shaped self.now) (λ _. yield_of self.now) }
    {
        self.shape()?;
        let strength = self.strength();
        let stiffness = self.stiffness();
        Ok(Bilinear {
            strength,
            stiffness,
            yields: (10 * strength + (9 * stiffness - 1)) / (9 * stiffness),
        })
    }

    // The characteristic strength, in newtons: 0.9 times the yield stress of the lead times its area, π/4 being 355/452.
    fn strength(&self) -> u64
        requires { is_ok (lead_shaped self.now) ≡ true }
        ensures value { result ≡ strength_of self.now }
        ensures low { 0 < result }
        ensures top { result ≤ 2300000 }
    {
        let lead = self.lead as u64;
        355 * (lead * lead) * self.stress as u64 * 9 / 45_200
    }

    // The post-yield stiffness, in newtons per millimetre: 1.1 times that of the rubber alone, which is the
    // shear modulus times its area over its thickness.
    fn stiffness(&self) -> u64
        requires { is_ok (lead_shaped self.now) ≡ true }
        ensures value { result ≡ stiffness_of self.now }
        ensures low { 0 < result }
        ensures top { result ≤ 200000 }
    {
        let lead = self.lead as u64;
        let bonded = self.bonded as u64;
        3_905 * self.modulus as u64 * (bonded * bonded - lead * lead)
            / (452_000 * self.rubber as u64)
    }
}

impl Bearing for LeadRubber {
    ghost force = { lead_force };

    ghost energy = { lead_energy };

    ghost laws = { lead_laws };

    // Strength, stiffness and yield displacement serve the test of the limit and the answer.
    fn answer(&self, s: u16, k: u16, d: u16) -> (u64, u64) {
        let Ok(bilinear) = self.bilinear() else {
            return (0, 0);
        };
        let (greatest, _) = bilinear.respond(TOP_FACTOR, TOP_FACTOR, TOP_TRAVEL);
        if greatest > TOP_FORCE {
            return (0, 0);
        }
        bilinear.respond(s, k, d)
    }
}

impl SheetKind for LeadRubber {
    const LETTER: char = 'L';

    const FIELDS: usize = 5;

    ghost LETTER = { lead_letter };

    ghost FIELDS = { lead_fields };

    ghost ranged = { λ p. lead_ranged (lead_on_line p) };

    ghost made = { λ p. lead_checked (lead_on_line p) };

    ghost few = { Prim.search rules };

    fn check_ranges(p: &[u32; 5]) -> Result<(), Fault> {
        LeadRubber::from_fields(p).ranges()
    }

    fn make(p: &[u32; 5]) -> Result<Self, Fault> {
        LeadRubber::from_fields(p).checked()
    }
}
