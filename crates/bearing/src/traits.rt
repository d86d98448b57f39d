ghost use Rattle.std.specs.Prelude.{◌≡◌, ℕ, ◌≤◌, List, Result};
ghost use Rattle.bearing.specs.declared.fault.Fault.{Fault};
ghost use Rattle.bearing.specs.Laws.{Laws};

use crate::fault::Fault;

// A bearing: its force in newtons and its energy in newtons times tenths of a millimetre, by a strength
// factor and a stiffness factor in percent and a displacement in tenths of a millimetre.
pub trait Bearing {
    ghost force: { Self → ℕ → ℕ → ℕ → ℕ };

    ghost energy: { Self → ℕ → ℕ → ℕ → ℕ };

    fn answer(&self, s: u16, k: u16, d: u16) -> (u64, u64)
        ensures { result ≡ (force self.now s k d, energy self.now s k d) };

    ghost laws: { (b : Self) → Laws (force b) (energy b) };
}

// A kind that a sheet can name: by a letter, with a number of fields of its own.
pub trait SheetKind: Bearing + Sized {
    const LETTER: char;

    const FIELDS: usize;

    ghost LETTER: { ℕ };

    ghost FIELDS: { ℕ };

    // each of the kind's own fields in its range, from left to right
    ghost ranged: { List ℕ → Result (Unit {0}) Fault };

    // the bearing of these fields, or why it is refused
    ghost made: { List ℕ → Result Self Fault };

    fn check_ranges(p: &[u32; 5]) -> Result<(), Fault>
        ensures { result ≡ ranged p.now };

    fn make(p: &[u32; 5]) -> Result<Self, Fault>
        ensures { result ≡ made p.now };

    ghost few: { FIELDS ≤ 5 };
}
