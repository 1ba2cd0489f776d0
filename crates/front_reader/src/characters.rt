// The bytes of a text: blanks, characters of tokens, digits and letters.

ghost use Rattle.std.specs.Prelude.{◌≡◌, ◌==◌, ◌≤◌, codes};
ghost use Rattle.std.specs.List.{list_any};
ghost use Rattle.front_reader.specs.Characters as spec;

// The token characters that are no digits and no letters.
const OTHERS: &[u8; 22] = b"!$%&*+-./:<=>?^_~@[]{}";

/// Whether a byte is a blank.
#[tactic(auto, unfolding(crate::specs::Characters::is_blank))]
pub(crate) fn is_blank(byte: u8) -> bool
    ensures { result ≡ spec.is_blank byte }
{
    byte == 9 || byte == 10 || byte == 12 || byte == 13 || byte == 32
}

/// Whether a byte is a decimal digit.
pub(crate) fn is_digit(byte: u8) -> bool
    ensures { result ≡ spec.is_digit byte }
{
    48 <= byte && byte <= 57
}

pub(crate) fn is_capital(byte: u8) -> bool
    ensures { result ≡ spec.is_capital byte }
{
    65 <= byte && byte <= 90
}

fn is_small(byte: u8) -> bool
    ensures { result ≡ spec.is_small byte }
{
    97 <= byte && byte <= 122
}

/// Whether a byte may stand between bars.
pub(crate) fn is_printed(byte: u8) -> bool
    ensures { result ≡ spec.is_printed byte }
{
    32 <= byte && byte <= 126
}

/// Whether a byte is one that tokens are made of.
#[tactic(auto, unfolding(crate::specs::Characters::is_token))]
pub(crate) fn is_token(byte: u8) -> bool
    ensures { result ≡ spec.is_token byte }
{
    is_digit(byte) || is_capital(byte) || is_small(byte) || is_other(byte)
}

fn is_other(byte: u8) -> bool
    ensures { result ≡ list_any (λ c. byte == c) (codes "!$%&*+-./:<=>?^_~@[]{}") }
{
    OTHERS.iter().any(|c| byte == *c)
}

/// A capital letter as the small one.
#[tactic(auto, unfolding(crate::specs::Characters::folded))]
pub(crate) fn folded(byte: u8) -> u8
    ensures { result ≡ spec.folded byte }
{
    if is_capital(byte) { byte + 32 } else { byte }
}

/// The value of a digit or a letter as a digit; 36, which no base has, for any other byte.
#[tactic(auto, unfolding(crate::specs::Characters::digit_value))]
pub(crate) fn digit_value(byte: u8) -> u32
    ensures value { result ≡ spec.digit_value byte }
    ensures small { result ≤ 36 }
{
    if is_digit(byte) {
        u32::from(byte - 48)
    } else if is_small(byte) {
        u32::from(byte - 87)
    } else if is_capital(byte) {
        u32::from(byte - 55)
    } else {
        36
    }
}
