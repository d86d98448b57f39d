ghost use Rattle.std.specs.Prelude.{◌≡◌};
ghost use Rattle.loading.specs.declared.loads.Site.TheVariants.{I};
ghost use Rattle.either.specs.declared.Either.TheVariants.{Left};

use damping::TableRule;
use either::Either;
use loading::{CaseNumbers, Site};
use sheet::Numbers;

// What a place for a load case holds before one is read.
pub(crate) fn spare_case() -> Numbers
    ensures { result ≡ record { accel = 1; site = I; slo = 100; shi = 100; klo = 100; khi = 100; rule = Left (record {}) } }
{
    CaseNumbers {
        accel: 1,
        site: Site::I,
        slo: 100,
        shi: 100,
        klo: 100,
        khi: 100,
        rule: Either::Left(TableRule),
    }
}
