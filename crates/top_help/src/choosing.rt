// Which of the texts some words ask for.

ghost use Rattle.std.specs.Prelude.{◌≡◌, None, Some, MatchOption};
ghost use Rattle.top_help.specs.Topics.{view_topics};
ghost use Rattle.top_help.specs.Told.{told as told_of, told_by as told_by_word, explained as explained_of};

use crate::texts::{HELP, VERSION};
use crate::topics::{Topic, topics};
use base::Words;

/// The text that these words ask for: `--help` or `-h` alone, `--version` alone, or `explain` and the number or the name
/// of a reason, or the name of a class of conditions; none where they are any others. Takes no memory.
pub fn told(words: &Words) -> Option<&'static [u8]>
    ensures { MatchOption result (told_of words.now ≡ None) (λ text. told_of words.now ≡ Some text.now) }
{
    match (words.len(), words.get(0), words.get(1)) {
        (1, Some(word), None) => told_by(word),
        (2, Some("explain"), Some(topic)) => explained(&topics(), topic.as_bytes()),
        _ => None,
    }
}

// What one word asks for.
fn told_by(word: &str) -> Option<&'static [u8]>
    ensures { MatchOption result (told_by_word word.now ≡ None) (λ text. told_by_word word.now ≡ Some text.now) }
{
    match word {
        "--help" | "-h" => Some(HELP),
        "--version" => Some(VERSION),
        _ => None,
    }
}

// What is said of the first of these topics that has that name.
fn explained(topics: &[Topic], word: &[u8]) -> Option<&'static [u8]>
    ensures { MatchOption result (explained_of word.now (view_topics topics.now) ≡ None) (λ text. explained_of word.now (view_topics topics.now) ≡ Some text.now) }
{
    let Some((topic, others)) = topics.split_first() else {
        return None;
    };
    if topic.short == word || topic.name == word {
        return Some(topic.text);
    }
    explained(others, word)
}
