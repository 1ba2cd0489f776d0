// The words of core forms as data, by what stands behind each.

/// What a form is, by what stands behind its word.
#[derive(Clone, Copy)]
pub enum Word {
    /// No form.
    Leaf(Leaf),
    /// A number and a form.
    Numbered(Numbered),
    /// A name and a form.
    Named(Named),
    /// Two forms.
    Pair(Pair),
    /// Forms alone.
    List(List),
    /// A name, a primitive or a number, and forms.
    Headed(Headed),
    Clauses,
    Let,
    DynamicLet,
    Lambda,
    /// How often a form stands inside a sequence, and the form.
    Nest,
}

#[derive(Clone, Copy)]
pub enum Leaf {
    Literal,
    Local,
    Global,
    Dynamic,
    Go,
    NextMethod,
    HasNext,
}

#[derive(Clone, Copy)]
pub enum Numbered {
    SetLocal,
    Block,
    Return,
    Sited,
}

#[derive(Clone, Copy)]
pub enum Named {
    SetGlobal,
    DefGlobal,
    SetDynamic,
    DefDynamic,
}

#[derive(Clone, Copy)]
pub enum Pair {
    Apply,
    While,
    Catch,
    Throw,
    Unwind,
    WithHandler,
    Signal,
    Continue,
}

#[derive(Clone, Copy)]
pub enum List {
    Sequence,
    CallValue,
}

#[derive(Clone, Copy)]
pub enum Headed {
    Call,
    Prim,
    Tagbody,
}

/// All words.
pub const WORDS: &[(&str, Word)] = &[
    ("literal", Word::Leaf(Leaf::Literal)),
    ("local", Word::Leaf(Leaf::Local)),
    ("global", Word::Leaf(Leaf::Global)),
    ("dynamic", Word::Leaf(Leaf::Dynamic)),
    ("go", Word::Leaf(Leaf::Go)),
    ("next-method", Word::Leaf(Leaf::NextMethod)),
    ("has-next", Word::Leaf(Leaf::HasNext)),
    ("set-local", Word::Numbered(Numbered::SetLocal)),
    ("block", Word::Numbered(Numbered::Block)),
    ("return", Word::Numbered(Numbered::Return)),
    ("sited", Word::Numbered(Numbered::Sited)),
    ("set-global", Word::Named(Named::SetGlobal)),
    ("def-global", Word::Named(Named::DefGlobal)),
    ("set-dynamic", Word::Named(Named::SetDynamic)),
    ("def-dynamic", Word::Named(Named::DefDynamic)),
    ("apply", Word::Pair(Pair::Apply)),
    ("while", Word::Pair(Pair::While)),
    ("catch", Word::Pair(Pair::Catch)),
    ("throw", Word::Pair(Pair::Throw)),
    ("unwind", Word::Pair(Pair::Unwind)),
    ("with-handler", Word::Pair(Pair::WithHandler)),
    ("signal", Word::Pair(Pair::Signal)),
    ("continue", Word::Pair(Pair::Continue)),
    ("sequence", Word::List(List::Sequence)),
    ("call-value", Word::List(List::CallValue)),
    ("call", Word::Headed(Headed::Call)),
    ("prim", Word::Headed(Headed::Prim)),
    ("tagbody", Word::Headed(Headed::Tagbody)),
    ("clauses", Word::Clauses),
    ("let", Word::Let),
    ("dynamic-let", Word::DynamicLet),
    ("lambda", Word::Lambda),
    ("nest", Word::Nest),
];
