//! The number of `--make`.

ghost use Rattle.std.specs.Prelude.{◌≡◌, ◌≤◌};
ghost use Rattle.run_command.specs.Number.{greatest, number_from, number_of};

/// The greatest number.
const GREATEST: u32 = 1_000;

/// The number that decimal digits without a leading zero spell, where it is from 1 to the greatest.
pub(crate) fn number_of(text: &str) -> Option<u32>
    ensures { result ≡ number_of text.now }
{
    match text.as_bytes() {
        [] | [b'0', ..] => None,
        digits => number_from(0, digits),
    }
}

// The number that digits spell behind those of `n`, where none passes the greatest.
fn number_from(n: u32, digits: &[u8]) -> Option<u32>
    requires { n ≤ greatest }
    ensures { result ≡ number_from n digits.now }
{
    match digits {
        [] => Some(n),
        [digit, rest @ ..] => {
            if !digit.is_ascii_digit() {
                return None;
            }
            let next = 10 * n + u32::from(digit - 48);
            if next > GREATEST {
                return None;
            }
            number_from(next, rest)
        }
    }
}
