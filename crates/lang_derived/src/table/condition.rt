// The row of `ignore-errors` (ISO/IEC 13816:2007, 29.2).

ghost use Rattle.std.specs.Prelude.{◌≡◌};
ghost use Rattle.lang_derived.specs.Table.{condition_rows};
ghost use Rattle.lang_derived.specs.model.TableView.{view_rows};

use crate::pattern::Pattern::Others;
use crate::table::Row;
use crate::template::Template::{All, Group, New, Word};

// `ignore-errors`
const CONDITION: &[Row] = &[
    // (ignore-errors f*) → (block #:b (with-handler (lambda (#:c) ..) f*)), where .. is
    //     (cond ((%instance #:c (class <error>)) (return-from #:b nil))
    //           (t (continue-condition #:c (signal-condition #:c (condition-continuable #:c)))))
    Row {
        name: b"ignore-errors",
        parts: &[Others],
        right: &[Group(&[
            Word(b"block"),
            New(0),
            Group(&[
                Word(b"with-handler"),
                Group(&[
                    Word(b"lambda"),
                    Group(&[New(1)]),
                    Group(&[
                        Word(b"cond"),
                        Group(&[
                            Group(&[
                                Word(b"%instance"),
                                New(1),
                                Group(&[Word(b"class"), Word(b"<error>")]),
                            ]),
                            Group(&[Word(b"return-from"), New(0), Group(&[])]),
                        ]),
                        Group(&[
                            Word(b"t"),
                            Group(&[
                                Word(b"continue-condition"),
                                New(1),
                                Group(&[
                                    Word(b"signal-condition"),
                                    New(1),
                                    Group(&[Word(b"condition-continuable"), New(1)]),
                                ]),
                            ]),
                        ]),
                    ]),
                ]),
                All(0),
            ]),
        ])],
        new: &[New(0), New(1)],
    },
];

/// The rows of `ignore-errors`.
pub(crate) fn condition_rows() -> &'static [Row]
    ensures { view_rows result.now ≡ condition_rows }
{
    CONDITION
}
