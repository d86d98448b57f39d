// Answers many sheets in one run. Standard input has, for each sheet, a line with its length and then that many bytes;
// standard output gets, for each, a line `sheet N`, counted from 1, and its page. The stored output is made by the
// second program (second/vectors.py).

#![tactic(auto)]

ghost use Rattle.std.specs.Prelude.{◌≡◌};
ghost use Rattle.std.specs.Option.{option_map};
ghost use Rattle.vectors.specs.Framed.{next_framed};

use anyhow::anyhow;
use deck::{PAGE_SPACE, answer_sheet};
use sheet::{number, split_first};
use std::io::{Read, Write};
use std::iter;

// The first sheet of the input, and what follows it; none where no length line and as many bytes stand there.
fn next_framed(text: &[u8]) -> Option<(&[u8], &[u8])>
    ensures { option_map (λ p. (p.0.now, p.1.now)) result ≡ next_framed text.now }
{
    let (length, more) = split_first(text, b'\n');
    let n = number(length)? as usize;
    more?.split_at_checked(n)
}

fn main(rt: HostRuntime) -> anyhow::Result<()> {
    let mut input = Vec::new(rt.alloc());
    rt.stdin().read_to_end(&mut input)?;
    let mut left = input.as_slice();
    let sheets = iter::from_fn(|| {
        let (sheet, more) = next_framed(left)?;
        left = more;
        Some(sheet)
    });
    for (k, sheet) in (1..100_000u32).zip(sheets) {
        let mut page = [0; PAGE_SPACE];
        let job = answer_sheet(sheet, &mut page);
        println!(rt; "sheet {k}")?;
        if let Some(text) = page.get(..job.written) {
            rt.stdout().write_all(text)?;
        }
    }
    if !left.is_empty() {
        return Err(anyhow!("the input is not sheets, each after a line with its length"));
    }
    Ok(())
}
