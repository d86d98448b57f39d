ghost use Rattle.std.specs.Prelude.{◌≡◌, ◌≤◌, length};
ghost use Rattle.std.specs.Option.{option_map};
ghost use Rattle.std.specs.Fn.{FnOnceReturnsAt};
ghost use Rattle.sheet.specs.Parts.{first, fields};
ghost use Rattle.sheet.specs.Numbers.{digits_from, parsed, field_then, number_field, sized};

use crate::parts::split_first;

fn digits(field: &[u8]) -> Option<u32>
    requires { length field.now ≤ 7 }
    ensures { result ≡ digits_from 0 field.now }
{
    let mut n: u32 = 0;
    for b in field {
        if *b < b'0' || *b > b'9' {
            return None;
        }
        n = n * 10 + (*b - b'0') as u32;
    }
    Some(n)
}

// The number that a field holds: 1 to 7 digits, and no leading zero but 0 itself.
pub fn number(field: &[u8]) -> Option<u32>
    ensures { result ≡ parsed field.now }
{
    match field {
        [] => None,
        [b'0'] => Some(0),
        [b'0', ..] => None,
        _ => {
            if field.len() > 7 {
                return None;
            }
            digits(field)
        }
    }
}

// What a field holds, a comma, and the rest of the line.
pub(crate) fn parsed_field<T: Drop, P: FnOnce(&[u8]) -> Option<T>>(
    text: &[u8],
    parse: P,
) -> Option<(T, &[u8])>
    requires { P.IsAlwaysCallable parse }
    ensures { (held : _) × FnOnceReturnsAt P.FnOnce parse (first 44 text.now) held × (option_map (λ p. (p.0, p.1.now)) result ≡ field_then held text.now) }
{
    let (field, more) = split_first(text, b',');
    let held = parse(field)?;
    let rest = more?;
    Some((held, rest))
}

// A number, a comma, and the rest of the line.
pub(crate) fn number_field(text: &[u8]) -> Option<(u32, &[u8])>
    ensures { option_map (λ p. (p.0, p.1.now)) result ≡ number_field text.now }
{
    parsed_field(text, number)
}

// The numbers of a line of exactly `N` fields.
pub(crate) fn numbers<const N: usize>(line: &[u8]) -> Option<[u32; N]>
    ensures { result ≡ sized N (fields line.now) }
{
    let mut out = [0; N];
    let mut left = Some(line);
    for n in out.iter_mut() {
        let (field, next) = split_first(left?, b',');
        *n = number(field)?;
        left = next;
    }
    match left {
        Some(_) => None,
        None => Some(out),
    }
}
