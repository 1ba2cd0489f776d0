// Where words are laid and which numbers procedures have: all that code depends on besides the form that it is of.

use base::WordList;

/// Where words are laid, and how many procedures there are. Names are the numbers of their texts.
#[derive(Drop)]
pub struct Placement {
    /// The word of each literal.
    pub literals: WordList,
    /// The word of the symbol of each name.
    pub symbols: WordList,
    /// The address of the word of each global variable, by names.
    pub globals: WordList,
    /// The address of the word of each outermost dynamic value, by names.
    pub dynamics: WordList,
    /// How many procedures the program has.
    pub procedures: usize,
    /// How many functions of forms it has.
    pub lambdas: usize,
    /// The address of a word for each of these: twice how many arguments it requires, and one more where it takes further ones.
    pub arities: u32,
    /// The address of a word for each generic function: that of its words.
    pub generics: u32,
}
