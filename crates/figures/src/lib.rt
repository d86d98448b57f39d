// Worked figures, proved of the definitions that the contracts of the other crates name.

#![tactic(auto)]

ghost use Rattle.std.specs.Prelude.{◌≡◌};
ghost use Rattle.figures.specs.Worked.{Figures};

use bearing::Bearing;
use kinds::LeadRubber;

// The twelve worked figures and the edges of what is made stand as written; and the worked lead-rubber bearing answers
// its force in newtons and its energy in newtons times tenths of a millimetre at 100.0 mm.
pub fn worked_figures() -> (u64, u64)
    ensures stand { Figures }
    ensures value { result ≡ (166281, 72119995) }
{
    match LeadRubber::new(100, 114, 500, 62, 150) {
        Ok(lead) => lead.answer(100, 100, 1_000),
        Err(_) => (0, 0),
    }
}
