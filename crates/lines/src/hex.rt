//! Hexadecimal digits.
ghost use Rattle.std.specs.Prelude.{◌≡◌, ℕ, ◌<◌};
ghost use Rattle.lines.specs.Lines.{digit as digit_of, pair as pair_of};
ghost use Rattle.lines.specs.Output.{numeral as numeral_of};

/// What a character says as a digit, if it is one.
pub fn digit(c: u8) -> Option<u8>
    ensures { result ≡ digit_of c }
{
    match c {
        b'0'..=b'9' => Some(c - b'0'),
        b'a'..=b'f' => Some(c - (b'a' - 10)),
        _ => None,
    }
}

/// The byte that two characters say, if both are digits.
pub(crate) fn pair(x: u8, y: u8) -> Option<u8>
    ensures { result ≡ pair_of x y }
{
    Some(digit(x)? * 16 + digit(y)?)
}

/// The character of a digit.
pub(crate) fn numeral(d: u8) -> u8
    requires { d < 16 }
    ensures { result ≡ numeral_of d }
{
    if d < 10 { d + b'0' } else { d + (b'a' - 10) }
}
