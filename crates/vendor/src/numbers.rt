// Numbers as the format writes them: 1 to 8 digits, a minus where below zero, no spare zeros.
ghost use Rattle.std.specs.Prelude.{◌≡◌, ◌<◌, ◌≤◌, length, cond, Some, None, IfSome};
ghost use Rattle.std.specs.Str.{all_ascii_digits};
ghost use Rattle.std.specs.Str.Parse.{digits_value};
ghost use Rattle.vendor.specs.Numbers.{number, magnitude_of, below_zero};

const MOST_DIGITS: usize = 8;

// The number that digits write, or `None` where a byte is no digit. A loop: under `try_fold` (tried) the proof that no step overflows was not found,
// and `from_utf8` with `parse` takes a plus too, and would have cases that never come.
#[tactic(auto, using(crate::proofs::Decimals::short, crate::proofs::Decimals::one_more, crate::proofs::Decimals::no_digits_at, crate::proofs::Decimals::is_digit, crate::proofs::Decimals::whole_read, crate::proofs::Decimals::whole_small))]
fn value(digits: &[u8]) -> Option<u32>
    requires { length digits.now ≤ 8 }
    ensures value { result ≡ cond (all_ascii_digits digits.now) (Some (digits_value 10 digits.now)) None }
    ensures bound { IfSome result (λ v. v < 100000000) }
{
    let mut value: u32 = 0;
    for b in digits {
        if !b.is_ascii_digit() {
            return None;
        }
        value = value * 10 + u32::from(*b - b'0');
    }
    Some(value)
}

// The number that plain digits write, or `None` where they are not plain.
fn magnitude(digits: &[u8]) -> Option<u32>
    ensures value { result ≡ magnitude_of digits.now }
    ensures bound { IfSome result (λ v. v < 100000000) }
{
    match digits {
        [] | [b'0', _, ..] => None,
        _ if digits.len() > MOST_DIGITS => None,
        _ => value(digits),
    }
}

// A number behind a minus: zero is not written so.
// `as` is exact below 100,000,000, here and in `parse`; `try_from` would have a case that never comes.
fn negated(value: u32) -> Option<i32>
    requires { value < 100000000 }
    ensures { result ≡ below_zero (Some value) }
{
    (value != 0).then(|| -(value as i32))
}

// The number that a field writes, or `None` where it writes none.
#[tactic(auto, unfolding(crate::specs::Numbers::number))]
pub fn parse(text: &[u8]) -> Option<i32>
    ensures { result ≡ number text.now }
{
    match text {
        [b'-', digits @ ..] => magnitude(digits).and_then(negated),
        _ => magnitude(text).map(|value| value as i32),
    }
}
