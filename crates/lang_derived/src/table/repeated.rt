// The rows of `for`, `setf`, `flet` and `labels`.

ghost use Rattle.std.specs.Prelude.{◌≡◌};
ghost use Rattle.lang_derived.specs.Table.{loop_rows, place_rows, function_rows};
ghost use Rattle.lang_derived.specs.model.TableView.{view_rows};

use crate::pattern::Pattern;
use crate::pattern::Pattern::{Datum, Each, Inside, Name, OneAtMost, Operator, Others, Symbol};
use crate::table::Row;
use crate::template::Template::{All, ForEach, Group, NewBehind, One, Own, Setter, Word};

// `(v i [s])`
const VARIABLE: &[Pattern] = &[Inside(&[Datum, Datum, OneAtMost])];

// `(v i s)`
const STEPPED: &[Pattern] = &[Inside(&[Datum, Datum, Datum])];

// `(g l f*)`
const FUNCTION: &[Pattern] = &[Inside(&[Datum, Datum, Others])];

// `for`
const LOOP: &[Row] = &[
    // (for ((v i [s])*) (e r*) f*)
    //     → (let ((v i)*) (while (cond (e nil) (t t)) f* (let ((#:n s)*) (setq v #:n)*)) (progn r*)),
    //     with a new symbol for each variable that has a step s
    Row {
        name: b"for",
        parts: &[Inside(&[Each(VARIABLE)]), Inside(&[Datum, Others]), Others],
        right: &[Group(&[
            Word(b"let"),
            Group(&[ForEach(0, VARIABLE, &[Group(&[One(0), One(1)])])]),
            Group(&[
                Word(b"while"),
                Group(&[
                    Word(b"cond"),
                    Group(&[One(1), Group(&[])]),
                    Group(&[Word(b"t"), Word(b"t")]),
                ]),
                All(3),
                Group(&[
                    Word(b"let"),
                    Group(&[ForEach(0, STEPPED, &[Group(&[Own, One(2)])])]),
                    ForEach(0, STEPPED, &[Group(&[Word(b"setq"), One(0), Own])]),
                ]),
            ]),
            Group(&[Word(b"progn"), All(2)]),
        ])],
        new: &[ForEach(0, STEPPED, &[Own])],
    },
];

/// The rows of `for`.
pub(crate) fn loop_rows() -> &'static [Row]
    ensures { view_rows result.now ≡ loop_rows }
{
    LOOP
}

// `setf`
const PLACE: &[Row] = &[
    // (setf x v) → (setq x v) for a symbol x
    Row {
        name: b"setf",
        parts: &[Symbol, Datum],
        right: &[Group(&[Word(b"setq"), One(0), One(1)])],
        new: &[],
    },
    // (setf (dynamic x) v) → (set-dynamic v x)
    Row {
        name: b"setf",
        parts: &[Inside(&[Name(b"dynamic"), Datum]), Datum],
        right: &[Group(&[Word(b"set-dynamic"), One(1), One(0)])],
        new: &[],
    },
    // (setf (op a*) v) → (let ((#:a a)* (#:v v)) (w #:v #:a*)), where w sets the place of op
    Row {
        name: b"setf",
        parts: &[Inside(&[Operator, Others]), Datum],
        right: &[Group(&[
            Word(b"let"),
            Group(&[
                ForEach(1, &[Datum], &[Group(&[Own, One(0)])]),
                Group(&[NewBehind(1), One(2)]),
            ]),
            Group(&[Setter(0), NewBehind(1), ForEach(1, &[Datum], &[Own])]),
        ])],
        new: &[ForEach(1, &[Datum], &[Own]), NewBehind(1)],
    },
];

/// The rows of `setf`.
pub(crate) fn place_rows() -> &'static [Row]
    ensures { view_rows result.now ≡ place_rows }
{
    PLACE
}

// `flet` and `labels`
const FUNCTIONS: &[Row] = &[
    // (flet ((g l f*)*) h*) → (let ((#:g (lambda l f*))*) (%with-functions ((g #:g)*) h*))
    Row {
        name: b"flet",
        parts: &[Inside(&[Each(FUNCTION)]), Others],
        right: &[Group(&[
            Word(b"let"),
            Group(&[ForEach(
                0,
                FUNCTION,
                &[Group(&[Own, Group(&[Word(b"lambda"), One(1), All(2)])])],
            )]),
            Group(&[
                Word(b"%with-functions"),
                Group(&[ForEach(0, FUNCTION, &[Group(&[One(0), Own])])]),
                All(1),
            ]),
        ])],
        new: &[ForEach(0, FUNCTION, &[Own])],
    },
    // (labels ((g l f*)*) h*)
    //     → (let ((#:g nil)*) (%with-functions ((g #:g)*) (setq #:g (lambda l f*))* h*))
    Row {
        name: b"labels",
        parts: &[Inside(&[Each(FUNCTION)]), Others],
        right: &[Group(&[
            Word(b"let"),
            Group(&[ForEach(0, FUNCTION, &[Group(&[Own, Group(&[])])])]),
            Group(&[
                Word(b"%with-functions"),
                Group(&[ForEach(0, FUNCTION, &[Group(&[One(0), Own])])]),
                ForEach(
                    0,
                    FUNCTION,
                    &[Group(&[
                        Word(b"setq"),
                        Own,
                        Group(&[Word(b"lambda"), One(1), All(2)]),
                    ])],
                ),
                All(1),
            ]),
        ])],
        new: &[ForEach(0, FUNCTION, &[Own])],
    },
];

/// The rows of `flet` and `labels`.
pub(crate) fn function_rows() -> &'static [Row]
    ensures { view_rows result.now ≡ function_rows }
{
    FUNCTIONS
}
