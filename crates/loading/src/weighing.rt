ghost use Rattle.std.specs.Prelude.{◌≡◌, ◌≤◌};
ghost use Rattle.bearing.specs.Refusals.{with_ok};
ghost use Rattle.loading.specs.Making.{weight_made};

use bearing::{Fault, Layer, check_range};

// A deck's weight in kilonewtons, 1 to 1,000,000.
#[derive(Clone, Copy)]
pub struct Weight {
    kn: u32,
    ghost low: { 1 ≤ kn },
    ghost high: { kn ≤ 1000000 },
}

impl Weight {
    pub fn new(kn: u32) -> Result<Weight, Fault>
        ensures { with_ok result (λ w. w.kn) ≡ weight_made kn }
    {
        check_range(kn, 1, 1_000_000, Layer::Bridge, 1)?;
        Ok(Weight { kn })
    }

    pub fn kilonewtons(&self) -> u32
        ensures { result ≡ self.now.kn }
    {
        self.kn
    }
}
