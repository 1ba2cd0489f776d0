// Which procedures and generic functions of a program are kept.

use lang_rows::flags::FlagList;

/// Which procedures and generic functions are kept, by their numbers. One without a flag is kept.
#[derive(Drop)]
pub struct Kept {
    pub procedures: FlagList,
    pub generics: FlagList,
}
