// Numbers, as rows write them.

use base::ItemList;
use test_rows::RowAnswer;

/// Numbers in order.
pub type Numbers = ItemList<i64>;

/// The numbers between commas; `A..B` stands for those from A on that are below B. None where one is no number.
pub fn numbers_of(got: &mut RowAnswer, text: &str) -> Option<Numbers> {
    let mut numbers = Numbers::new(got.alloc);
    if text.is_empty() {
        return Some(numbers);
    }
    for part in text.split(',') {
        if add_part(got, &mut numbers, part).is_none() {
            drop(numbers);
            return None;
        }
    }
    Some(numbers)
}

fn add_part(got: &mut RowAnswer, numbers: &mut Numbers, part: &str) -> Option<()> {
    match part.split_once("..") {
        None => {
            let number: i64 = part.parse().ok()?;
            got.add(numbers, number);
        }
        Some((from, to)) => {
            let from: u32 = from.parse().ok()?;
            let to: u32 = to.parse().ok()?;
            for number in from..to {
                got.add(numbers, i64::from(number));
            }
        }
    }
    Some(())
}

/// A number of registers, procedures or words.
pub fn size_at(numbers: &Numbers, at: usize) -> Option<usize> {
    usize::try_from(*numbers.get(at)?).ok()
}

/// A word.
pub fn word_at(numbers: &Numbers, at: usize) -> Option<u32> {
    u32::try_from(*numbers.get(at)?).ok()
}

/// An offset in bytes.
pub fn offset_at(numbers: &Numbers, at: usize) -> Option<i32> {
    i32::try_from(*numbers.get(at)?).ok()
}
