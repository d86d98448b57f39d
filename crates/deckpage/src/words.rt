ghost use Rattle.std.specs.Prelude.{◌≡◌};
ghost use Rattle.deckpage.specs.Words.{plural_ending};

pub const HELP: &str = "usage: deckpage < SHEET > PAGE

Reads a sheet (deck weight, rows of bearings, load cases) on standard input and writes its page on standard output:
how far the deck moves with the bearings at their softest (dlow) and hardest (dhigh), in tenths of a millimetre,
the force in newtons, the clearance, and whether the bridge restores itself. In plain words on standard error: what it did.

A sheet:
weight
4000
kind,count,p1,p2,p3,p4,p5
P,4,1000,60,1000,0,0
case,accel,site,slo,shi,klo,khi,rule
1,30,II,100,120,100,100,T

Its page:
case,answer,dlow,dhigh,force,clear,restores
1,0,1214,1091,773600,1214,Y
end,1

Status 0: a page with its end line was written, whatever single cases were refused.
Status 1: the sheet was refused (the page then has refusal, layer, line and field), or input or output failed.
docs/FORMATS.md and docs/REFUSALS.md have the whole of it.
";

// The ending of a word for n things.
pub fn plural(n: usize) -> &'static str
    ensures { result.now ≡ plural_ending n }
{
    if n == 1 { "" } else { "s" }
}
