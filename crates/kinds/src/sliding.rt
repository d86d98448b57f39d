ghost use Rattle.std.specs.Prelude.{◌≡◌, true, is_ok};
ghost use Rattle.bearing.specs.Ranges.{factor, travel};
ghost use Rattle.kinds.specs.Pendulums.{pendulum_letter, pendulum_fields, sliding_force, sliding_energy, pendulum_ranged, pendulum_made, pendulum_on_line, pendulum_checked, pendulum_force, pendulum_energy};
ghost use Rattle.kinds.specs.PendulumsLemmas.{pendulum_laws};
ghost use Rattle.std.proofs.Common.{rules};

use bearing::{
    Bearing, Fault, Layer, SheetKind, TOP_FACTOR, TOP_FORCE, TOP_TRAVEL, check_force, check_range,
    nearest_factor, nearest_travel,
};

// A pendulum bearing: load in kilonewtons, friction in thousandths, radius in millimetres.
#[derive(Clone, Copy)]
pub struct Pendulum {
    load: u32,
    friction: u32,
    radius: u32,
}

impl Pendulum {
    pub fn new(load: u32, friction: u32, radius: u32) -> Result<Pendulum, Fault>
        ensures { result ≡ pendulum_made load friction radius }
    {
        Pendulum::from_fields(&[load, friction, radius, 0, 0]).checked()
    }

    // The bearing of the first three of five fields, accepted or not.
    fn from_fields(p: &[u32; 5]) -> Pendulum
        ensures { result ≡ pendulum_on_line p.now }
    {
        let [load, friction, radius, _, _] = *p;
        Pendulum {
            load,
            friction,
            radius,
        }
    }

    // The bearing itself, where its fields are accepted.
    fn checked(&self) -> Result<Pendulum, Fault>
        ensures { result ≡ pendulum_checked self.now }
    {
        self.ranges()?;
        let (greatest, _) = self.slide(TOP_FACTOR, TOP_TRAVEL);
        check_force(greatest, *self, Layer::Bearing)
    }

    fn ranges(&self) -> Result<(), Fault>
        ensures { result ≡ pendulum_ranged self.now }
    {
        check_range(self.load, 10, 20_000, Layer::Bearing, 1)?;
        check_range(self.friction, 10, 200, Layer::Bearing, 2)?;
        check_range(self.radius, 200, 20_000, Layer::Bearing, 3)
    }

    // Force and energy by the formulas. Friction acts only once the deck has moved. A factor or a displacement outside
    // its range counts as the nearest end.
    fn slide(&self, s: u16, d: u16) -> (u64, u64)
        requires { is_ok (pendulum_ranged self.now) ≡ true }
        ensures { result ≡ (sliding_force self.now (factor s) (travel d), sliding_energy self.now (factor s) (travel d)) }
    {
        if d == 0 {
            return (0, 0);
        }
        let d = nearest_travel(d) as u64;
        let load = self.load as u64;
        let slip = load * self.friction as u64 * nearest_factor(s) as u64 / 100;
        (slip + 100 * load * d / self.radius as u64, slip * d)
    }
}

impl Bearing for Pendulum {
    ghost force = { pendulum_force };

    ghost energy = { pendulum_energy };

    ghost laws = { pendulum_laws };

    // The stiffness factor has no effect: load and radius alone give the stiffness.
    fn answer(&self, s: u16, _k: u16, d: u16) -> (u64, u64) {
        if self.ranges().is_err() || self.slide(TOP_FACTOR, TOP_TRAVEL).0 > TOP_FORCE {
            return (0, 0);
        }
        self.slide(s, d)
    }
}

impl SheetKind for Pendulum {
    const LETTER: char = 'P';

    const FIELDS: usize = 3;

    ghost LETTER = { pendulum_letter };

    ghost FIELDS = { pendulum_fields };

    ghost ranged = { λ p. pendulum_ranged (pendulum_on_line p) };

    ghost made = { λ p. pendulum_checked (pendulum_on_line p) };

    ghost few = { Prim.search rules };

    fn check_ranges(p: &[u32; 5]) -> Result<(), Fault> {
        Pendulum::from_fields(p).ranges()
    }

    fn make(p: &[u32; 5]) -> Result<Self, Fault> {
        Pendulum::from_fields(p).checked()
    }
}
