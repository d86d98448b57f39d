// What a query answers: the design displacements with the bearings at their softest and at their hardest,
// in tenths of a millimetre, the force in newtons, the clearance in tenths of a millimetre, and whether the
// bridge restores itself.
#[derive(Clone, Copy, PartialEq, Eq, Debug)]
pub struct Answer {
    pub dlow: u16,
    pub dhigh: u16,
    pub force: u64,
    pub clear: u16,
    pub restores: bool,
}
