ghost use Rattle.std.specs.Prelude.{◌≡◌};
ghost use Rattle.bearing.specs.Refusals.{number_of, layer_number, fault_of, plain_fault, at_field, on_line, refusal_number};

// Why a call is refused, with the refusal's number; docs/REFUSALS.md tells of each.
#[derive(Clone, Copy, PartialEq, Eq, Debug)]
pub enum Refusal {
    OutOfRange = 1,
    LeadTooWide = 2,
    TooStrong = 3,
    NoPlace = 4,
    NothingHung = 5,
    NoRows = 6,
    BoundsReversed = 7,
    BeyondRange = 8,
    NoSuchRow = 9,
    PageFull = 10,
    TooManyLines = 11,
    NamesLine = 12,
    ValueLine = 13,
    SheetTooLong = 14,
}

impl Refusal {
    // The refusal's number, 1 to 14.
    pub fn number(self) -> u8
        ensures { result ≡ number_of self }
    {
        self as u8 // 1 to 14
    }
}

// Who refused, with the layer's number.
#[derive(Clone, Copy, PartialEq, Eq, Debug)]
pub enum Layer {
    Bearing = 1,
    Bridge = 2,
    Sheet = 3,
}

impl Layer {
    // The layer's number, 1 to 3.
    pub fn number(self) -> u8
        ensures { result ≡ layer_number self }
    {
        self as u8 // 1 to 3
    }

    // A refusal of this layer, off a sheet and with no field.
    pub fn refuses(self, refusal: Refusal) -> Fault
        ensures { result ≡ plain_fault refusal self }
    {
        Fault::new(refusal, self, 0)
    }
}

// A refusal with the layer that refused, the line of the sheet (0 off a sheet) and the field in it
// (0 for every refusal other than a number outside its range).
#[derive(Clone, Copy, PartialEq, Eq, Debug)]
pub struct Fault {
    pub refusal: Refusal,
    pub layer: Layer,
    pub line: u16,
    pub field: u8,
}

impl Fault {
    // A fault off a sheet: its line is 0.
    pub fn new(refusal: Refusal, layer: Layer, field: u8) -> Fault
        ensures { result ≡ fault_of refusal layer field }
    {
        Fault {
            refusal,
            layer,
            line: 0,
            field,
        }
    }
}

// Passes an answer up to a line: a fault that names a field has it counted further by `by` places.
pub fn at_field<T>(r: Result<T, Fault>, by: u8) -> Result<T, Fault>
    ensures { result ≡ at_field by r }
{
    r.map_err(|e| Fault {
        field: if e.field == 0 {
            0
        } else {
            e.field.saturating_add(by)
        },
        ..e
    })
}

// Passes an answer up to the sheet: a fault gets its line.
pub fn on_line<T>(r: Result<T, Fault>, line: u16) -> Result<T, Fault>
    ensures { result ≡ on_line line r }
{
    r.map_err(|e| Fault { line, ..e })
}

// An answer as one number: 0, or the number of its refusal.
pub fn refusal_number<T>(r: &Result<T, Fault>) -> u8
    ensures { result ≡ refusal_number r.now }
{
    match r {
        Ok(_) => 0,
        Err(e) => e.refusal.number(),
    }
}
