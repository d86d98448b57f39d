ghost use Rattle.std.specs.Prelude.{◌≡◌, length};
ghost use Rattle.page.specs.Text.{refusal_page};
ghost use Rattle.page.specs.Pages.{refusal_answer, refusal_written};

use crate::texts::{push_field, put};
use arrayvec::ArrayString;
use bearing::{Fault, Layer, Refusal};

// A refusal page of the largest numbers: the names line of 25 bytes, four numbers of 20 digits, three commas and the
// line end.
const LONGEST_PAGE: usize = 109;

// A refusal page.
#[tactic(auto, unfolding(crate::specs::Text::refusal_names, crate::specs::Text::refusal_line))]
fn refusal_page(e: &Fault) -> ArrayString<LONGEST_PAGE>
    ensures { result.bytes ≡ refusal_page e.now }
{
    let mut page = ArrayString::new();
    let mut digits = itoa::Buffer::new();
    page.push_str("refused,layer,line,field\n");
    push_field(&mut page, e.refusal.number() as u64);
    push_field(&mut page, e.layer.number() as u64);
    push_field(&mut page, e.line as u64);
    page.push_str(digits.format(e.field));
    page.push_str("\n");
    page
}

// Writes what is shown in place of a page where a sheet was refused, and answers its length.
pub fn write_refusal(fault: &Fault, buffer: &mut [u8]) -> Result<usize, Fault>
    ensures result { result ≡ refusal_answer (length buffer.old) fault.now }
    ensures bytes { buffer.new ≡ refusal_written buffer.old fault.now }
{
    let page = refusal_page(fault);
    if buffer.len() < page.len() {
        return Err(Layer::Sheet.refuses(Refusal::PageFull));
    }
    Ok(put(buffer, 0, &page))
}
