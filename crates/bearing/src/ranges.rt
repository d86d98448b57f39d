ghost use Rattle.std.specs.Prelude.{◌≡◌};
ghost use Rattle.bearing.specs.Ranges.{factor, travel};
ghost use Rattle.bearing.specs.Fields.{range_checked, force_checked};

use crate::fault::{Fault, Layer, Refusal};

// The greatest force of a bearing, in newtons.
pub const TOP_FORCE: u64 = 100_000_000;

// Factors are 50 to 300 percent, displacements up to 10,000 tenths of a millimetre.
pub const LEAST_FACTOR: u16 = 50;

pub const TOP_FACTOR: u16 = 300;

pub const TOP_TRAVEL: u16 = 10_000;

// A factor outside its range counts as the nearest end.
pub fn nearest_factor(x: u16) -> u16
    ensures { result ≡ factor x }
{
    x.clamp(LEAST_FACTOR, TOP_FACTOR)
}

// A displacement outside its range counts as the nearest end.
pub fn nearest_travel(x: u16) -> u16
    ensures { result ≡ travel x }
{
    x.min(TOP_TRAVEL)
}

// A number outside its range is refused with its field.
pub fn check_range(x: u32, low: u32, high: u32, layer: Layer, field: u8) -> Result<(), Fault>
    ensures { result ≡ range_checked layer x low high field }
{
    if low <= x && x <= high {
        Ok(())
    } else {
        Err(Fault::new(Refusal::OutOfRange, layer, field))
    }
}

// What was made, where its greatest force is within the limit.
pub fn check_force<T: Drop>(greatest: u64, made: T, layer: Layer) -> Result<T, Fault>
    ensures { result ≡ force_checked layer greatest made }
{
    if greatest > TOP_FORCE {
        return Err(layer.refuses(Refusal::TooStrong));
    }
    Ok(made)
}
