// The table of names: a list of texts is put into one, and each text answers its number.

use base::{Name, Names};
use test_rows::RowAnswer;

/// Texts with commas between them. The answer is the number of each, and then the texts that the
/// table of names has; none where a text is too long to be a name.
pub fn answer_row(got: &mut RowAnswer, texts: &str) -> Option<()> {
    let mut names = Names::new(got.alloc);
    let answered = put_all(got, &mut names, texts);
    drop(names);
    answered
}

fn put_all(got: &mut RowAnswer, names: &mut Names, texts: &str) -> Option<()> {
    for text in texts.split(',') {
        put_number(got, names, text)?;
    }
    let mut before = "of ";
    for number in 0..names.len() {
        got.put(before);
        got.put_bytes(names.text(Name(number))?);
        before = ",";
    }
    Some(())
}

// Puts a text into the table, and appends its number.
fn put_number(got: &mut RowAnswer, names: &mut Names, text: &str) -> Option<()> {
    if text.len() > 263 {
        return None;
    }
    let Name(number) = got.kept(names.intern(text.as_bytes()))?;
    got.put(number);
    got.put(" ");
    Some(())
}
