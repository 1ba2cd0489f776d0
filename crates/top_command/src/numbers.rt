// The numbers of the command line.

ghost use Rattle.std.specs.Prelude.{◌≡◌, option_map};
ghost use Rattle.top_command.specs.Limits.{most_made};
ghost use Rattle.top_command.specs.Wrong.{is_value as is_value_of};
ghost use Rattle.top_command.specs.Command.{steps_in as steps_in_of, arena_in as arena_in_of, number_in as number_in_of, up_to, digits_in};

// The instructions of a run where no number is given.
const USUAL_STEPS: u32 = 50_000_000;

// The words of an arena: where no number is given, the smallest number and the largest.
const USUAL_ARENA: u32 = 4_194_304;

const LEAST_ARENA: u32 = 65_536;

const MOST_ARENA: u32 = 16_777_216;

// The greatest number of which a text is made.
const MOST_MADE: u32 = 500;

/// How many instructions a run may execute, by the value of `--steps`; none where that is no number of
/// at most 4,294,967,295.
pub(crate) fn steps_in(word: Option<&str>) -> Option<u32>
    ensures { result ≡ steps_in_of (option_map (λ s. s.now) word.entry) }
{
    match word {
        None => Some(USUAL_STEPS),
        Some(word) => number_in(word, 0, u32::MAX),
    }
}

/// The words of the arena, by the value of `--arena`; none where that is no number from 65,536 to
/// 16,777,216.
pub(crate) fn arena_in(word: Option<&str>) -> Option<u32>
    ensures { result ≡ arena_in_of (option_map (λ s. s.now) word.entry) }
{
    match word {
        None => Some(USUAL_ARENA),
        Some(word) => number_in(word, LEAST_ARENA, MOST_ARENA),
    }
}

/// The number of which a text is made, by that word; none where that is no number from 1 to 500.
pub(crate) fn made_number(word: &str) -> Option<u32>
    ensures { result ≡ number_in_of 1 most_made word.now }
{
    number_in(word, 1, MOST_MADE)
}

/// Whether the bytes are a value of `--arena`, or of `--steps`.
pub(crate) fn is_value(arena: bool, value: &[u8]) -> bool
    ensures { result ≡ is_value_of arena value.now }
{
    if arena {
        number_of(value, LEAST_ARENA, MOST_ARENA).is_some()
    } else {
        number_of(value, 0, u32::MAX).is_some()
    }
}

// The number that the word is, where it is one from `least` to `most`.
fn number_in(word: &str, least: u32, most: u32) -> Option<u32>
    ensures { result ≡ number_in_of least most word.now }
{
    number_of(word.as_bytes(), least, most)
}

// The same of bytes.
fn number_of(word: &[u8], least: u32, most: u32) -> Option<u32>
    ensures { result ≡ number_in_of least most word.now }
{
    let number = number_up_to(word, most)?;
    if number < least { None } else { Some(number) }
}

// The number of one or more decimal digits; none where it is above `most` or the word is anything
// else.
#[tactic(auto, using(crate::proofs::Digits::digits))]
fn number_up_to(digits: &[u8], most: u32) -> Option<u32>
    ensures { result ≡ up_to most (digits_in digits.now) }
{
    if digits.is_empty() {
        return None;
    }
    let mut sum: u64 = 0;
    for digit in digits {
        match *digit {
            b'0'..=b'9' => sum = sum * 10 + u64::from(*digit - b'0'),
            _ => return None,
        }
        if sum > u64::from(most) {
            return None;
        }
    }
    Some(sum as u32)
}
