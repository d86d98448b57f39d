ghost use Rattle.std.specs.Prelude.{◌≡◌, ◌≤◌, ◌++◌, length};
ghost use Rattle.bridge.specs.Outcomes.{outcome};
ghost use Rattle.page.specs.Text.{values_text, case_line, end_line, yes_or_no};

use crate::texts::push_field;
use arrayvec::ArrayString;
use bearing::{Fault, refusal_number};
use bridge::Answer;

// A case line of the largest numbers: six of 20 digits, six commas, Y or N and the line end.
const LONGEST_LINE: usize = 128;
// An end line of the largest number.
const LONGEST_END: usize = 25;

// The last field of a case line, and the line end.
fn flag(restores: bool) -> &'static str
    ensures { result.now ≡ yes_or_no restores }
{
    if restores { "Y\n" } else { "N\n" }
}

// Puts the five values of a case, or `-` for each, and the line end after a text.
#[tactic(auto, unfolding(crate::specs::Text::values_text))]
#[inline(always)]
fn push_values(text: &mut ArrayString<LONGEST_LINE>, answer: &Result<Answer, Fault>)
    requires { length text.old.bytes ≤ 42 }
    ensures { text.new.bytes ≡ text.old.bytes ++ values_text (outcome answer.now) }
{
    match answer {
        Ok(a) => {
            push_field(text, a.dlow as u64);
            push_field(text, a.dhigh as u64);
            push_field(text, a.force);
            push_field(text, a.clear as u64);
            text.push_str(flag(a.restores));
        }
        Err(_) => text.push_str("-,-,-,-,-\n"),
    }
}

// A case line.
#[tactic(auto, using(crate::proofs::Sizes::number_is), unfolding(crate::specs::Text::case_line))]
pub(crate) fn case_line(place: u64, answer: &Result<Answer, Fault>) -> ArrayString<LONGEST_LINE>
    ensures { result.bytes ≡ case_line place (outcome answer.now) }
{
    let mut line = ArrayString::new();
    push_field(&mut line, place);
    push_field(&mut line, refusal_number(answer) as u64);
    push_values(&mut line, answer);
    line
}

// An end line.
#[tactic(auto, unfolding(crate::specs::Text::end_line))]
pub(crate) fn end_line(count: u64) -> ArrayString<LONGEST_END>
    ensures { result.bytes ≡ end_line count }
{
    let mut line = ArrayString::new();
    let mut digits = itoa::Buffer::new();
    line.push_str("end,");
    line.push_str(digits.format(count));
    line.push_str("\n");
    line
}
