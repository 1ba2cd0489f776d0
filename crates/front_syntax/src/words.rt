// The names that the language keeps from those who write programs.

ghost use Rattle.std.specs.Prelude.{◌≡◌};
ghost use Rattle.front_profile.specs.GenericRows as row;
ghost use Rattle.front_profile.specs.Words as kept;
ghost use Rattle.front_syntax.specs.Views.{texts};

use crate::primitives::{is_among, is_direct_name, is_own_name};
use base::{Name, Names, Symbol, symbol_text};
use front_profile::is_special_name;
use lang_derived::is_derived_name;

// Whether it is the name of a form, or that of a primitive that begins with %.
fn is_of_language(text: &[u8]) -> bool
    ensures { result ≡ kept.is_of_language text.now }
{
    is_special_name(text) || is_derived_name(text) || is_left_out(text) || is_own_name(text)
}

/// Whether the language keeps that name from local functions.
pub fn is_kept(text: &[u8]) -> bool
    ensures { result ≡ kept.is_kept text.now }
{
    is_of_language(text) || is_step_function(text)
}

// Special forms of the standard that this profile leaves out.
const LEFT_OUT: &[&[u8]] = &[
    b"with-open-input-file",
    b"with-open-output-file",
    b"with-open-io-file",
    b"with-standard-input",
    b"with-standard-output",
    b"with-error-output",
];

fn left_out() -> &'static [&'static [u8]]
    ensures { texts result.now ≡ kept.left_out }
{
    LEFT_OUT
}

/// Whether it is the name of a special form of the standard that this profile leaves out.
pub fn is_left_out(text: &[u8]) -> bool
    ensures { result ≡ kept.is_left_out text.now }
{
    is_among(text, left_out())
}

// Functions of the prelude that the steps of derived forms call.
const STEP_FUNCTIONS: &[&[u8]] = &[
    b"%memv",
    b"%memp",
    b"%list",
    b"%append",
    b"%list-vector",
    b"%convert",
    b"%domain-error",
];

fn step_functions() -> &'static [&'static [u8]]
    ensures { texts result.now ≡ kept.step_functions }
{
    STEP_FUNCTIONS
}

fn is_step_function(text: &[u8]) -> bool
    ensures { result ≡ kept.is_among text.now kept.step_functions }
{
    is_among(text, step_functions())
}

/// Whether no definition of a file may have that name.
pub fn is_reserved_name(text: &[u8]) -> bool
    ensures { result ≡ kept.is_reserved_text text.now }
{
    is_of_language(text) || is_direct_name(text)
}

/// Whether the language keeps the name.
pub fn keeps(names: &Names, name: Name) -> bool
    ensures { result ≡ row.keeps names.now name }
{
    match symbol_text(names, Symbol::Named(name)) {
        Some(text) => is_reserved_name(text),
        None => false,
    }
}
