// deckpage: a sheet on standard input, its page on standard output, and in plain words on standard error what it did.

#![tactic(auto)]

ghost use Rattle.std.specs.Prelude.{◌≡◌, ◌≤◌, length, true, false, cond, is_ok, IfOk, IfSome, Ok, Err};
ghost use Rattle.std.specs.Process.{exit_status};
ghost use Rattle.deckpage.specs.declared.Stopped.TheVariants.{Refused, Failed};
ghost use Rattle.deckpage.specs.Answering.{job_of, sheet_of};

mod fields;
mod looking;
mod telling;
mod words;

use deck::{PAGE_SPACE, answer_sheet};
use looking::spot_of;
use std::io::{Read, Write};
use std::process::ExitCode;
use std::{env, io};
use telling::Answered;
use words::HELP;

// One byte more than a sheet may have, so that a longer one is seen.
const MOST_READ: usize = 16_385;

// Why the program ends with status 1; the words are told by then.
#[derive(Drop)]
enum Stopped {
    Refused,
    Failed,
}

impl From<io::Error> for Stopped {
    ghost from_gives = { λ _ s. s ≡ Failed };

    fn from(_e: io::Error) -> Stopped {
        Stopped::Failed
    }
}

// The sheet that an input holds: its bytes, up to the most that are read, in the places lent. Every read asks for all
// that is still free, and nothing is allocated.
fn read_sheet<R: Read + Drop>(mut input: R, places: &mut [u8; MOST_READ]) -> io::Result<&[u8]>
    ensures bytes { IfOk result (λ sheet. IfSome (sheet_of (R.remaining input)) (λ bytes. sheet.now ≡ bytes)) }
    ensures most { IfOk result (λ sheet. length sheet.now ≤ 16385) }
{
    let mut len: usize = 0;
    for _ in 0..MOST_READ {
        if len >= MOST_READ {
            break;
        }
        let n = input.read(&mut places[len..])?;
        if n == 0 {
            break;
        }
        len += n;
    }
    Ok(&places[..len])
}

// Answers a sheet: the page to standard output, and what is told of it to standard error. It ends well only where the
// sheet is accepted, and with a refusal only where it is refused.
fn answer(rt: &HostRuntime, sheet: &[u8]) -> Result<(), Stopped>
    ensures accepted { result ≡ Ok tt → is_ok (job_of sheet.now).result ≡ true }
    ensures refused { result ≡ Err Refused → is_ok (job_of sheet.now).result ≡ false }
{
    let mut page = [0; PAGE_SPACE];
    let job = answer_sheet(sheet, &mut page);
    if let Some(text) = page.get(..job.written) {
        rt.stdout().write_all(text)?;
    }
    match job.result {
        Ok(summary) => Ok(rt.eprintln(Answered(summary))?),
        Err(fault) => {
            rt.eprintln(telling::Refused {
                spot: spot_of(sheet, &fault),
                fault,
            })?;
            Err(Stopped::Refused)
        }
    }
}

// Answers the sheet that an input holds, and ends as `answer` does.
fn answer_input<R: Read + Drop>(rt: &HostRuntime, input: R) -> Result<(), Stopped>
    ensures accepted { IfSome (sheet_of (R.remaining input)) (λ sheet. result ≡ Ok tt → is_ok (job_of sheet).result ≡ true) }
    ensures refused { IfSome (sheet_of (R.remaining input)) (λ sheet. result ≡ Err Refused → is_ok (job_of sheet).result ≡ false) }
{
    let mut places = [0; MOST_READ];
    let sheet = read_sheet(input, &mut places)?;
    answer(rt, sheet)
}

// Reads the arguments, answers the sheet on standard input, and tells of input or output that failed.
fn run(rt: &HostRuntime) -> Result<(), Stopped> {
    if let Some(word) = env::args(rt)?.nth(1) {
        if word.as_str() == "--help" {
            return Ok(rt.print(HELP)?);
        }
        eprintln!(rt; "deckpage takes no argument but --help, and its sheet on standard input")?;
        return Err(Stopped::Failed);
    }
    let ended = answer_input(rt, rt.stdin());
    if let Err(Stopped::Failed) = ended {
        eprintln!(rt; "deckpage: standard input or output failed")?;
    }
    ended
}

// The exit status: 0 where the program ended well, else 1.
fn status_of(ended: Result<(), Stopped>) -> ExitCode
    ensures { exit_status result ≡ cond (is_ok ended) 0 1 }
{
    match ended {
        Ok(()) => ExitCode::SUCCESS,
        Err(_) => ExitCode::FAILURE,
    }
}

// What there is to say has been said when `run` is done.
fn main(rt: HostRuntime) -> ExitCode {
    status_of(run(&rt))
}
