ghost use Rattle.std.specs.Prelude.{◌≡◌, map};
ghost use Rattle.bridge.specs.Outcomes.{outcome};
ghost use Rattle.page.specs.Runs.{page_run};

use bearing::{Fault, Layer, Refusal};
use bridge::Answer;
use page::{Page, write_refusal};
use std::test::Fail;

const ANSWERS: [Result<Answer, Fault>; 3] = [
    Ok(Answer {
        dlow: 1214,
        dhigh: 1091,
        force: 773600,
        clear: 1214,
        restores: true,
    }),
    Ok(Answer {
        dlow: 0,
        dhigh: 65535,
        force: 18446744073709551615,
        clear: 7,
        restores: false,
    }),
    Err(Fault {
        refusal: Refusal::BeyondRange,
        layer: Layer::Bridge,
        line: 0,
        field: 0,
    }),
];

// A page of these answers, voided at the first line that is refused: what a caller knows of its buffer.
fn whole(buffer: &mut [u8], answers: &[Result<Answer, Fault>]) -> usize
    ensures bytes { buffer.new ≡ (page_run buffer.old (map outcome answers.now)).0 }
    ensures value { result ≡ (page_run buffer.old (map outcome answers.now)).1 }
{
    let mut page = Page::begin(buffer);
    for answer in answers {
        match page.line(answer) {
            Ok(()) => {}
            Err(_) => return page.void(),
        }
    }
    page.end()
}

// The length written, with the refusal's number and layer.
fn in_numbers(r: Result<usize, Fault>) -> (usize, u8, u8) {
    match r {
        Ok(len) => (len, 0, 0),
        Err(e) => (0, e.refusal.number(), e.layer.number()),
    }
}

#[test]
fn pages(rt: HostRuntime) {
    let mut buffer = [b'x'; 200];
    let text =
        b"case,answer,dlow,dhigh,force,clear,restores\n1,0,1214,1091,773600,1214,Y\n2,0,0,65535,18446744073709551615,7,N\n3,8,-,-,-,-,-\nend,3\n";
    assert_eq!(rt; whole(&mut buffer, &ANSWERS), text.len());
    assert!(rt; buffer.starts_with(text));
    assert_eq!(rt; buffer[text.len()], b'x');
}

// A buffer of 0, 50, 51, 78 and 79 bytes with one answered line of 28 bytes and 7 kept free.
#[test]
fn sizes(rt: HostRuntime) -> Result<(), Fail> {
    for (size, len) in [(0, 0), (50, 0), (51, 49), (78, 49), (79, 78)] {
        let mut buffer = [b'x'; 100];
        let part = buffer.get_mut(..size).ok_or("size")?;
        assert_eq!(rt; whole(part, &ANSWERS[..1]), len);
        assert_eq!(rt; buffer.get(len), Some(&b'x'));
    }
    Ok(())
}

#[test]
fn refusal_pages(rt: HostRuntime) {
    let fault = Fault {
        refusal: Refusal::ValueLine,
        layer: Layer::Sheet,
        line: 4,
        field: 0,
    };
    let mut small = [b'x'; 33];
    assert_eq!(rt; in_numbers(write_refusal(&fault, &mut small)), (0, 10, 3));
    assert_eq!(rt; small, [b'x'; 33]);
    let mut large = [b'x'; 40];
    assert_eq!(rt;
        in_numbers(write_refusal(&fault, &mut large[..34])),
        (34, 0, 0)
    );
    assert_eq!(rt; large, *b"refused,layer,line,field\n13,3,4,0\nxxxxxx");
}
