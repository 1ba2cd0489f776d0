// The names that no function has: those of special and of defining forms.

ghost use Rattle.std.specs.Prelude.{◌≡◌};
ghost use Rattle.std.specs.List.{find, list_any};
ghost use Rattle.front_profile.specs.Words.{special_text, all_specials, has_text, special_named};

/// The special forms that core forms come from, and the defining forms (ISO/IEC 13816:2007, 12 to 15
/// and 29.2).
#[derive(Clone, Copy)]
pub enum Special {
    Quote,
    Setq,
    Cond,
    Progn,
    Let,
    Lambda,
    Apply,
    While,
    Block,
    ReturnFrom,
    Tagbody,
    Go,
    Catch,
    Throw,
    UnwindProtect,
    DynamicLet,
    Dynamic,
    SetDynamic,
    WithHandler,
    Function,
    Class,
    CallNextMethod,
    NextMethodP,
    WithFunctions,
    Defglobal,
    Defconstant,
    Defdynamic,
    Defun,
    Defmacro,
    Defclass,
    Defgeneric,
    Defmethod,
}

impl Special {
    /// Its name.
    pub fn text(self) -> &'static [u8]
        ensures { result.now ≡ special_text self }
    {
        match self {
            Special::Quote => b"quote",
            Special::Setq => b"setq",
            Special::Cond => b"cond",
            Special::Progn => b"progn",
            Special::Let => b"let",
            Special::Lambda => b"lambda",
            Special::Apply => b"%apply",
            Special::While => b"while",
            Special::Block => b"block",
            Special::ReturnFrom => b"return-from",
            Special::Tagbody => b"tagbody",
            Special::Go => b"go",
            Special::Catch => b"catch",
            Special::Throw => b"throw",
            Special::UnwindProtect => b"unwind-protect",
            Special::DynamicLet => b"dynamic-let",
            Special::Dynamic => b"dynamic",
            Special::SetDynamic => b"set-dynamic",
            Special::WithHandler => b"with-handler",
            Special::Function => b"function",
            Special::Class => b"class",
            Special::CallNextMethod => b"call-next-method",
            Special::NextMethodP => b"next-method-p",
            Special::WithFunctions => b"%with-functions",
            Special::Defglobal => b"defglobal",
            Special::Defconstant => b"defconstant",
            Special::Defdynamic => b"defdynamic",
            Special::Defun => b"defun",
            Special::Defmacro => b"defmacro",
            Special::Defclass => b"defclass",
            Special::Defgeneric => b"defgeneric",
            Special::Defmethod => b"defmethod",
        }
    }
}

// All of them.
const SPECIALS: &[Special] = &[
    Special::Quote,
    Special::Setq,
    Special::Cond,
    Special::Progn,
    Special::Let,
    Special::Lambda,
    Special::Apply,
    Special::While,
    Special::Block,
    Special::ReturnFrom,
    Special::Tagbody,
    Special::Go,
    Special::Catch,
    Special::Throw,
    Special::UnwindProtect,
    Special::DynamicLet,
    Special::Dynamic,
    Special::SetDynamic,
    Special::WithHandler,
    Special::Function,
    Special::Class,
    Special::CallNextMethod,
    Special::NextMethodP,
    Special::WithFunctions,
    Special::Defglobal,
    Special::Defconstant,
    Special::Defdynamic,
    Special::Defun,
    Special::Defmacro,
    Special::Defclass,
    Special::Defgeneric,
    Special::Defmethod,
];

fn all_specials() -> &'static [Special]
    ensures { result.now ≡ all_specials }
{
    SPECIALS
}

// The first of them with that name.
fn first_with_text(specials: &[Special], text: &[u8]) -> Option<Special>
    ensures { result ≡ find (has_text text.now) specials.now }
{
    let Some((first, others)) = specials.split_first() else {
        return None;
    };
    if first.text() == text {
        return Some(*first);
    }
    first_with_text(others, text)
}

/// The special or defining form of that name. Takes no memory.
pub fn special_named(text: &[u8]) -> Option<Special>
    ensures { result ≡ special_named text.now }
{
    first_with_text(all_specials(), text)
}

// Whether one of them has that name.
fn some_has_text(specials: &[Special], text: &[u8]) -> bool
    ensures { result ≡ list_any (has_text text.now) specials.now }
{
    let Some((first, others)) = specials.split_first() else {
        return false;
    };
    first.text() == text || some_has_text(others, text)
}

/// Whether a special or a defining form has that name. Takes no memory.
pub fn is_special_name(text: &[u8]) -> bool
    ensures { result ≡ list_any (has_text text.now) all_specials }
{
    some_has_text(all_specials(), text)
}
