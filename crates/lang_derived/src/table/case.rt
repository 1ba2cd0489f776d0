// The rows of `case` and `case-using` (ISO/IEC 13816:2007, 14.4).

ghost use Rattle.std.specs.Prelude.{◌≡◌};
ghost use Rattle.lang_derived.specs.Table.{case_rows, case_using_rows};
ghost use Rattle.lang_derived.specs.model.TableView.{view_rows};

use crate::pattern::Pattern;
use crate::pattern::Pattern::{Datum, Each, Inside, Name, Others};
use crate::table::Row;
use crate::template::Template;
use crate::template::Template::{All, ForEach, Group, New, One, Word};

// `((x*) f*)`
const CLAUSE: &[Pattern] = &[Inside(&[Inside(&[Others]), Others])];

// `((%memv #:k (quote (x*))) (progn f*))`
const TESTED: &[Template] = &[Group(&[
    Group(&[
        Word(b"%memv"),
        New(0),
        Group(&[Word(b"quote"), Group(&[All(0)])]),
    ]),
    Group(&[Word(b"progn"), All(1)]),
])];

// `((%memp #:p #:k (quote (x*))) (progn f*))`
const TESTED_BY: &[Template] = &[Group(&[
    Group(&[
        Word(b"%memp"),
        New(0),
        New(1),
        Group(&[Word(b"quote"), Group(&[All(0)])]),
    ]),
    Group(&[Word(b"progn"), All(1)]),
])];

// `case`
const CASE: &[Row] = &[
    // (case k ((x*) f*)* (t f*))
    //     → (let ((#:k k)) (cond ((%memv #:k (quote (x*))) (progn f*))* (t (progn f*))))
    Row {
        name: b"case",
        parts: &[Datum, Each(CLAUSE), Inside(&[Name(b"t"), Others])],
        right: &[Group(&[
            Word(b"let"),
            Group(&[Group(&[New(0), One(0)])]),
            Group(&[
                Word(b"cond"),
                ForEach(1, CLAUSE, TESTED),
                Group(&[Word(b"t"), Group(&[Word(b"progn"), All(2)])]),
            ]),
        ])],
        new: &[New(0)],
    },
    // (case k ((x*) f*)*) → (let ((#:k k)) (cond ((%memv #:k (quote (x*))) (progn f*))*))
    Row {
        name: b"case",
        parts: &[Datum, Each(CLAUSE)],
        right: &[Group(&[
            Word(b"let"),
            Group(&[Group(&[New(0), One(0)])]),
            Group(&[Word(b"cond"), ForEach(1, CLAUSE, TESTED)]),
        ])],
        new: &[New(0)],
    },
];

/// The rows of `case`.
pub(crate) fn case_rows() -> &'static [Row]
    ensures { view_rows result.now ≡ case_rows }
{
    CASE
}

// `case-using`
const CASE_USING: &[Row] = &[
    // (case-using p k ((x*) f*)* (t f*))
    //     → (let ((#:p p) (#:k k)) (cond ((%memp #:p #:k (quote (x*))) (progn f*))* (t (progn f*))))
    Row {
        name: b"case-using",
        parts: &[Datum, Datum, Each(CLAUSE), Inside(&[Name(b"t"), Others])],
        right: &[Group(&[
            Word(b"let"),
            Group(&[Group(&[New(0), One(0)]), Group(&[New(1), One(1)])]),
            Group(&[
                Word(b"cond"),
                ForEach(2, CLAUSE, TESTED_BY),
                Group(&[Word(b"t"), Group(&[Word(b"progn"), All(3)])]),
            ]),
        ])],
        new: &[New(0), New(1)],
    },
    // (case-using p k ((x*) f*)*)
    //     → (let ((#:p p) (#:k k)) (cond ((%memp #:p #:k (quote (x*))) (progn f*))*))
    Row {
        name: b"case-using",
        parts: &[Datum, Datum, Each(CLAUSE)],
        right: &[Group(&[
            Word(b"let"),
            Group(&[Group(&[New(0), One(0)]), Group(&[New(1), One(1)])]),
            Group(&[Word(b"cond"), ForEach(2, CLAUSE, TESTED_BY)]),
        ])],
        new: &[New(0), New(1)],
    },
];

/// The rows of `case-using`.
pub(crate) fn case_using_rows() -> &'static [Row]
    ensures { view_rows result.now ≡ case_using_rows }
{
    CASE_USING
}
