// The rows without a repetition of their own: `if`, `and`, `or`, `let*`, `assure`, `the`, `convert`, `quasiquote`.

ghost use Rattle.std.specs.Prelude.{◌≡◌};
ghost use Rattle.lang_derived.specs.Table.{conditional_rows, binding_rows, class_rows, quotation_rows};
ghost use Rattle.lang_derived.specs.model.TableView.{view_rows};

use crate::pattern::Pattern::{Datum, Inside, Others};
use crate::table::Row;
use crate::template::Template::{All, Group, New, One, Quotation, Word};

// `if`, `and` and `or`
const CONDITIONAL: &[Row] = &[
    // (if a b) → (cond (a b))
    Row {
        name: b"if",
        parts: &[Datum, Datum],
        right: &[Group(&[Word(b"cond"), Group(&[One(0), One(1)])])],
        new: &[],
    },
    // (if a b c) → (cond (a b) (t c))
    Row {
        name: b"if",
        parts: &[Datum, Datum, Datum],
        right: &[Group(&[
            Word(b"cond"),
            Group(&[One(0), One(1)]),
            Group(&[Word(b"t"), One(2)]),
        ])],
        new: &[],
    },
    // (and) → t
    Row {
        name: b"and",
        parts: &[],
        right: &[Word(b"t")],
        new: &[],
    },
    // (and a) → a
    Row {
        name: b"and",
        parts: &[Datum],
        right: &[One(0)],
        new: &[],
    },
    // (and a b*) → (cond (a (and b*)))
    Row {
        name: b"and",
        parts: &[Datum, Others],
        right: &[Group(&[
            Word(b"cond"),
            Group(&[One(0), Group(&[Word(b"and"), All(1)])]),
        ])],
        new: &[],
    },
    // (or) → nil
    Row {
        name: b"or",
        parts: &[],
        right: &[Group(&[])],
        new: &[],
    },
    // (or a) → a
    Row {
        name: b"or",
        parts: &[Datum],
        right: &[One(0)],
        new: &[],
    },
    // (or a b*) → (cond (a) (t (or b*)))
    Row {
        name: b"or",
        parts: &[Datum, Others],
        right: &[Group(&[
            Word(b"cond"),
            Group(&[One(0)]),
            Group(&[Word(b"t"), Group(&[Word(b"or"), All(1)])]),
        ])],
        new: &[],
    },
];

/// The rows of `if`, `and` and `or`.
pub(crate) fn conditional_rows() -> &'static [Row]
    ensures { view_rows result.now ≡ conditional_rows }
{
    CONDITIONAL
}

// `let*`
const BINDING: &[Row] = &[
    // (let* () f*) → (let () f*)
    Row {
        name: b"let*",
        parts: &[Inside(&[]), Others],
        right: &[Group(&[Word(b"let"), Group(&[]), All(0)])],
        new: &[],
    },
    // (let* (b c*) f*) → (let (b) (let* (c*) f*))
    Row {
        name: b"let*",
        parts: &[Inside(&[Datum, Others]), Others],
        right: &[Group(&[
            Word(b"let"),
            Group(&[All(0)]),
            Group(&[Word(b"let*"), Group(&[All(1)]), All(2)]),
        ])],
        new: &[],
    },
];

/// The rows of `let*`.
pub(crate) fn binding_rows() -> &'static [Row]
    ensures { view_rows result.now ≡ binding_rows }
{
    BINDING
}

// `assure`, `the` and `convert`
const CLASS: &[Row] = &[
    // (assure c x) → (let ((#:v x)) (cond ((%instance #:v (class c)) #:v) (t (%domain-error #:v (class c)))))
    Row {
        name: b"assure",
        parts: &[Datum, Datum],
        right: &[Group(&[
            Word(b"let"),
            Group(&[Group(&[New(0), One(1)])]),
            Group(&[
                Word(b"cond"),
                Group(&[
                    Group(&[Word(b"%instance"), New(0), Group(&[Word(b"class"), One(0)])]),
                    New(0),
                ]),
                Group(&[
                    Word(b"t"),
                    Group(&[
                        Word(b"%domain-error"),
                        New(0),
                        Group(&[Word(b"class"), One(0)]),
                    ]),
                ]),
            ]),
        ])],
        new: &[New(0)],
    },
    // (the c x) → x
    Row {
        name: b"the",
        parts: &[Datum, Datum],
        right: &[One(1)],
        new: &[],
    },
    // (convert x c) → (%convert x (class c))
    Row {
        name: b"convert",
        parts: &[Datum, Datum],
        right: &[Group(&[Word(b"%convert"), One(0), Group(&[Word(b"class"), One(1)])])],
        new: &[],
    },
];

/// The rows of `assure`, `the` and `convert`.
pub(crate) fn class_rows() -> &'static [Row]
    ensures { view_rows result.now ≡ class_rows }
{
    CLASS
}

// `quasiquote`
const QUOTATION: &[Row] = &[
    // (quasiquote d) → Q(d, 1)
    Row {
        name: b"quasiquote",
        parts: &[Datum],
        right: &[Quotation(0)],
        new: &[],
    },
];

/// The rows of `quasiquote`.
pub(crate) fn quotation_rows() -> &'static [Row]
    ensures { view_rows result.now ≡ quotation_rows }
{
    QUOTATION
}
