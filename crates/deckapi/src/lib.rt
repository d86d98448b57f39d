// The whole job for C and for whoever can call C: a static library with one function.

#![tactic(auto)]

ghost use Rattle.std.specs.Prelude.{◌≡◌};
ghost use Rattle.deck.specs.Whole.{job};
ghost use Rattle.bearing.specs.Refusals.{refusal_number};

use bearing::refusal_number;
use deck::answer_sheet;

// Answers a sheet: writes the page and answers its length; `refusal` gets 0, or the number of the refusal.
#[unsafe(no_mangle)]
pub extern "C" fn deckpage_answer(sheet: &[u8], page: &mut [u8], refusal: &mut u32) -> usize
    ensures bytes { page.new ≡ (job sheet.now page.old).bytes }
    ensures written { result ≡ (job sheet.now page.old).written }
    ensures refusal { refusal.new ≡ refusal_number (job sheet.now page.old).result }
{
    let job = answer_sheet(sheet, page);
    *refusal = refusal_number(&job.result) as u32;
    job.written
}
