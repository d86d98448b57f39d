ghost use Rattle.std.specs.Prelude.{◌≡◌};
ghost use Rattle.loading.specs.Sites.{site_tenths};

// A kind of ground, from rock (I) to soft clay (IV).
#[derive(Clone, Copy, PartialEq, Eq, Debug)]
pub enum Site {
    I,
    II,
    III,
    IV,
}

impl Site {
    // The site coefficient, in tenths.
    pub fn coefficient(self) -> u64
        ensures { result ≡ site_tenths self }
    {
        match self {
            Site::I => 10,
            Site::II => 15,
            Site::III => 20,
            Site::IV => 27,
        }
    }
}

// A load case as its plain numbers: the acceleration in hundredths of g, the site, the bounds of the strength
// and the stiffness factor in percent, and the damping rule.
#[derive(Clone, Copy, PartialEq, Eq, Debug)]
pub struct CaseNumbers<R> {
    pub accel: u32,
    pub site: Site,
    pub slo: u32,
    pub shi: u32,
    pub klo: u32,
    pub khi: u32,
    pub rule: R,
}
