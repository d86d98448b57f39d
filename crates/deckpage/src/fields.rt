ghost use Rattle.std.specs.Prelude.{◌≡◌, Some};
ghost use Rattle.deckpage.specs.Fields.{field_of, name_of, allowed_of};

use std::fmt;

// What a line of a sheet holds.
#[derive(Clone, Copy)]
pub enum LineKind {
    Weight,
    Lead,
    Pendulum,
    Case,
}

// A field of a sheet that holds a number.
#[derive(Clone, Copy)]
pub enum SheetField {
    DeckWeight,
    Count,
    LeadDiameter,
    YieldStress,
    BondedDiameter,
    ShearModulus,
    RubberThickness,
    Load,
    Friction,
    Radius,
    Unused,
    CaseNumber,
    Acceleration,
    LowStrength,
    HighStrength,
    LowStiffness,
    HighStiffness,
}

// Which field of a line it is, by its place from 1.
pub fn field_of(kind: LineKind, place: u8) -> SheetField
    ensures { result ≡ field_of kind place }
{
    match (kind, place) {
        (LineKind::Weight, _) => SheetField::DeckWeight,
        (LineKind::Lead | LineKind::Pendulum, 2) => SheetField::Count,
        (LineKind::Lead, 3) => SheetField::LeadDiameter,
        (LineKind::Lead, 4) => SheetField::YieldStress,
        (LineKind::Lead, 5) => SheetField::BondedDiameter,
        (LineKind::Lead, 6) => SheetField::ShearModulus,
        (LineKind::Lead, _) => SheetField::RubberThickness,
        (LineKind::Pendulum, 3) => SheetField::Load,
        (LineKind::Pendulum, 4) => SheetField::Friction,
        (LineKind::Pendulum, 5) => SheetField::Radius,
        (LineKind::Pendulum, _) => SheetField::Unused,
        (LineKind::Case, 1) => SheetField::CaseNumber,
        (LineKind::Case, 2) => SheetField::Acceleration,
        (LineKind::Case, 4) => SheetField::LowStrength,
        (LineKind::Case, 5) => SheetField::HighStrength,
        (LineKind::Case, 6) => SheetField::LowStiffness,
        (LineKind::Case, _) => SheetField::HighStiffness,
    }
}

// The field's name on the sheet, and what it is.
impl fmt::Display for SheetField {
    ghost output = { λ f. Some (name_of f) };

    fn fmt<W: fmt::Write>(&self, f: &mut fmt::Formatter<W>) -> fmt::Result {
        f.write_str(match self {
            SheetField::DeckWeight => "weight",
            SheetField::Count => "count",
            SheetField::LeadDiameter => "p1, lead diameter",
            SheetField::YieldStress => "p2, yield stress of lead",
            SheetField::BondedDiameter => "p3, bonded diameter",
            SheetField::ShearModulus => "p4, shear modulus",
            SheetField::RubberThickness => "p5, rubber thickness",
            SheetField::Load => "p1, load",
            SheetField::Friction => "p2, friction",
            SheetField::Radius => "p3, radius",
            SheetField::Unused => "not used by a pendulum",
            SheetField::CaseNumber => "case",
            SheetField::Acceleration => "accel",
            SheetField::LowStrength => "slo",
            SheetField::HighStrength => "shi",
            SheetField::LowStiffness => "klo",
            SheetField::HighStiffness => "khi",
        })
    }
}

// What a number that is refused in a field is not.
#[derive(Clone, Copy)]
pub struct NotAllowed(pub SheetField);

impl fmt::Display for NotAllowed {
    ghost output = { λ n. Some (allowed_of n.0) };

    fn fmt<W: fmt::Write>(&self, f: &mut fmt::Formatter<W>) -> fmt::Result {
        f.write_str(match self.0 {
            SheetField::DeckWeight => "is outside 1 to 1000000 kN",
            SheetField::Count => "is outside 1 to 20",
            SheetField::LeadDiameter => "is outside 10 to 400 mm",
            SheetField::YieldStress => "is outside 50 to 200 tenths of MPa",
            SheetField::BondedDiameter => "is outside 100 to 1500 mm",
            SheetField::ShearModulus => "is outside 40 to 200 hundredths of MPa",
            SheetField::RubberThickness => "is outside 20 to 1000 mm",
            SheetField::Load => "is outside 10 to 20000 kN",
            SheetField::Friction => "is outside 10 to 200 thousandths",
            SheetField::Radius => "is outside 200 to 20000 mm",
            SheetField::Unused => "is not 0",
            SheetField::CaseNumber => "is not the next case number",
            SheetField::Acceleration => "is outside 1 to 100 hundredths of g",
            SheetField::LowStrength
            | SheetField::HighStrength
            | SheetField::LowStiffness
            | SheetField::HighStiffness => "is outside 50 to 300 percent",
        })
    }
}
