// What `explain` prints: the script text/join writes this file, from docs/REFUSALS.md and docs/CONDITIONS.md.

ghost use Rattle.std.specs.Prelude.{◌≡◌};
ghost use Rattle.top_help.specs.Topics.{topics as all_topics, view_topics};

/// Of BadByte.
pub const BAD_BYTE: &[u8] = br##"refused 1 BadByte
  exactly where: a byte that no spelling allows there
  place: the byte
  for example: `\x7f`, refused at 1:1
"##;

/// Of UnclosedList.
pub const UNCLOSED_LIST: &[u8] = br##"refused 2 UnclosedList
  exactly where: the text ends inside a list, a vector or after a prefix
  place: the innermost opening
  for example: `((`, refused at 1:2
"##;

/// Of UnclosedString.
pub const UNCLOSED_STRING: &[u8] = br##"refused 3 UnclosedString
  exactly where: the text ends inside a string or a bar symbol
  place: its opening
  for example: `("`, refused at 1:2
"##;

/// Of UnclosedComment.
pub const UNCLOSED_COMMENT: &[u8] = br##"refused 4 UnclosedComment
  exactly where: the text ends inside `#|`
  place: its opening, the outermost one where comments nest
  for example: `#|#|`, refused at 1:1
"##;

/// Of StrayClose.
pub const STRAY_CLOSE: &[u8] = br##"refused 5 StrayClose
  exactly where: a `)` that closes nothing, or follows a prefix
  place: the `)`
  for example: `a )`, refused at 1:3
"##;

/// Of BadDot.
pub const BAD_DOT: &[u8] = br##"refused 6 BadDot
  exactly where: a `.` that is not before exactly one last datum of a list
  place: the `.`
  for example: `(. a)`, refused at 1:2
"##;

/// Of BadSharp.
pub const BAD_SHARP: &[u8] = br##"refused 7 BadSharp
  exactly where: a `#` spelling that the language does not have
  place: the `#`
  for example: `#b`, refused at 1:1
"##;

/// Of FloatLiteral.
pub const FLOAT_LITERAL: &[u8] = br##"refused 8 FloatLiteral
  exactly where: a token of the form of a float
  place: the token
  for example: `1.5`, refused at 1:1
"##;

/// Of IntegerTooWide.
pub const INTEGER_TOO_WIDE: &[u8] = br##"refused 9 IntegerTooWide
  exactly where: an integer outside -536870912 to 536870911
  place: the first byte of its spelling
  for example: `#x20000000`, refused at 1:1
"##;

/// Of NestTooDeep.
pub const NEST_TOO_DEEP: &[u8] = br##"refused 10 NestTooDeep
  exactly where: nesting above 256
  place: the opening
  for example: `\{256 (\}'`, refused at 1:257
"##;

/// Of SourceTooLong.
pub const SOURCE_TOO_LONG: &[u8] = br##"refused 11 SourceTooLong
  exactly where: the file has more than 1,048,576 bytes; judged before all else
  place: 1:1
  for example: `\{1048577 \s\}`, refused at 1:1
"##;

/// Of NameTooLong.
pub const NAME_TOO_LONG: &[u8] = br##"refused 12 NameTooLong
  exactly where: a whole token or bar symbol that spells a symbol whose name has more than 256 bytes
  place: its first byte
  for example: `\{257 a\}`, refused at 1:1
"##;

/// Of BadShape.
pub const BAD_SHAPE: &[u8] = br##"refused 20 BadShape
  exactly where: a special, derived or defining form that its row does not allow, also as a list
    with a dot; `call-next-method` or `next-method-p` outside a primary or around method; a new
    symbol of a step where a name is needed that it is not; a class name that is no symbol
  place: the form; for `(the c x)` the class name
  for example: `(go)`, refused at 1:1
"##;

/// Of NotAForm.
pub const NOT_AFORM: &[u8] = br##"refused 21 NotAForm
  exactly where: a list with a dot, but for those of 20, or one whose head is neither a symbol nor a
    `lambda` form, stands for a form
  place: it
  for example: `(5)`, refused at 1:1
"##;

/// Of BadBinding.
pub const BAD_BINDING: &[u8] = br##"refused 22 BadBinding
  exactly where: a lambda list, a method's parameters or a binding list with a part that is none, a
    repeated name, `nil`, `t`, or a wrong `:rest`; what stands in the place of such a list and is
    none
  place: the list
  for example: `(let x)`, refused at 1:6
"##;

/// Of DuplicateName.
pub const DUPLICATE_NAME: &[u8] = br##"refused 23 DuplicateName
  exactly where: a second definition in one namespace; a class with a slot's option that names a
    function which is no generic function
  place: the form
  for example: `(defun f ()) (defun f ())`, refused at 1:14
"##;

/// Of NotTopLevel.
pub const NOT_TOP_LEVEL: &[u8] = br##"refused 24 NotTopLevel
  exactly where: a defining form below top level; the parts of a top-level `progn` stand at top
    level
  place: the form
  for example: `(f (defun g ()))`, refused at 1:4
"##;

/// Of ReservedName.
pub const RESERVED_NAME: &[u8] = br##"refused 25 ReservedName
  exactly where: a definition, or an option of a slot, under a name that the language or the prelude
    keeps, or of a local function under the name of a form or one of the language's own that begins
    with `%`; a method of such a name, but for `initialize-object` and `report-condition`
  place: the form
  for example: `(defun t ())`, refused at 1:1
"##;

/// Of UnknownBlock.
pub const UNKNOWN_BLOCK: &[u8] = br##"refused 26 UnknownBlock
  exactly where: `return-from` without a block of that name lexically around
  place: the form
  for example: `(return-from a 1)`, refused at 1:1
"##;

/// Of UnknownTag.
pub const UNKNOWN_TAG: &[u8] = br##"refused 27 UnknownTag
  exactly where: `go` without a tag of that name lexically around
  place: the form
  for example: `(go a)`, refused at 1:1
"##;

/// Of ConstantSet.
pub const CONSTANT_SET: &[u8] = br##"refused 28 ConstantSet
  exactly where: `setq` of `t`, `nil` or a global variable with an earlier `defconstant`; a
    `defconstant` of a global variable that an earlier form sets
  place: the form
  for example: `(setq t 1)`, refused at 1:1
"##;

/// Of LeftOut.
pub const LEFT_OUT: &[u8] = br##"refused 29 LeftOut
  exactly where: a special form that this profile leaves out; in a class or a generic function an
    option `:metaclass` or `:generic-function-class`, and `:method-combination` but for
    `(:method-combination standard)` of a generic function
  place: the form
  for example: `(with-error-output)`, refused at 1:1
"##;

/// Of DepthLimit.
pub const DEPTH_LIMIT: &[u8] = br##"refused 30 DepthLimit
  exactly where: a core form inside 1,000 other core forms of its top-level form, those around a
    `lambda` included; the bodies of `defun`, methods and initforms begin anew
  place: the first form that deep; where it is a body, a segment of a `tagbody` or the operator of a
    local function's call, which are no data of their own, the form that has it
  for example: `(or \{500 x \}x)`, refused at 1:1005
"##;

/// Of ProgramTooLarge.
pub const PROGRAM_TOO_LARGE: &[u8] = br##"refused 31 ProgramTooLarge
  exactly where: the program so far, the prelude included, passes 100,000 nodes
  place: the top-level form
  for example: `'(\{99871 1 \})`, refused at 1:1
"##;

/// Of UnknownClass.
pub const UNKNOWN_CLASS: &[u8] = br##"refused 40 UnknownClass
  exactly where: a class name that is not defined earlier
  place: the name
  for example: `(class x)`, refused at 1:8
"##;

/// Of BadSupers.
pub const BAD_SUPERS: &[u8] = br##"refused 41 BadSupers
  exactly where: superclasses of which one is none of `<standard-object>`, `<error>`,
    `<simple-error>` and own classes, one stands twice, or two have more above both than
    `<standard-object>` and `<object>`; those that are not known count only where one of them stands
    twice
  place: the form
  for example: `(defclass a (<list>) ())`, refused at 1:1
"##;

/// Of BadSlot.
pub const BAD_SLOT: &[u8] = br##"refused 42 BadSlot
  exactly where: an option of a slot with another name or with a value that does not fit it, a
    second `:initform` of a slot, a second slot of a name, or more than 64 slots, inherited ones
    included
  place: the slot, for the number the first one past 64; the form where the superclasses have more
    by themselves
  for example: `(defclass a () (x x))`, refused at 1:19
"##;

/// Of UnknownGeneric.
pub const UNKNOWN_GENERIC: &[u8] = br##"refused 43 UnknownGeneric
  exactly where: `defmethod` of a name that is no earlier generic function's
  place: the form
  for example: `(defmethod g ())`, refused at 1:1
"##;

/// Of BadMethod.
pub const BAD_METHOD: &[u8] = br##"refused 44 BadMethod
  exactly where: a method, also of an option `:method` or of a slot's option, with another number of
    required parameters than its generic function, with a rest parameter that this has not or
    without the one that it has, with a qualifier that is none of `:before`, `:after` and `:around`,
    or with the qualifier and the classes of another one
  place: the form
  for example: `(defgeneric g () (:method (x)))`, refused at 1:1
"##;

/// Of DispatchTooLarge.
pub const DISPATCH_TOO_LARGE: &[u8] = br##"refused 45 DispatchTooLarge
  exactly where: the cells so far pass 262,144: for each generic function, as many as there are
    classes for each argument that a method specialises, one for each combination of classes that
    its methods tell apart, and one for each method of the chain there
  place: the top-level form
  for example: `(defgeneric g (a b c d e f g h i j k l m n o p q r) (:method ((a <list>) (b <list>)
    (c <list>) (d <list>) (e <list>) (f <list>) (g <list>) (h <list>) (i <list>) (j <list>) (k
    <list>) (l <list>) (m <list>) (n <list>) (o <list>) (p <list>) (q <list>) (r <list>))))`,
    refused at 1:1
"##;

/// Of ExpanderUnhandled.
pub const EXPANDER_UNHANDLED: &[u8] = br##"refused 60 ExpanderUnhandled
  exactly where: a call whose expander ends by a condition that it does not handle
  place: the call
  for example: `(defmacro m () (car 5)) (m)`, refused at the call
"##;

/// Of ExpanderPrinted.
pub const EXPANDER_PRINTED: &[u8] = br##"refused 61 ExpanderPrinted
  exactly where: a call whose expander ends with a value and has printed
  place: the call
  for example: `(defmacro m () (format (standard-output) "a")) (m)`, refused at the call
"##;

/// Of ExpanderArena.
pub const EXPANDER_ARENA: &[u8] = br##"refused 62 ExpanderArena
  exactly where: a call whose expander's program has more than 100,000 nodes, or may need more words
    than are left of 262,144 by its image
  place: the call
  for example: `(defmacro m () (create-vector 300000) nil) (m)`, refused at the call
"##;

/// Of ExpanderBudget.
pub const EXPANDER_BUDGET: &[u8] = br##"refused 63 ExpanderBudget
  exactly where: a call whose expander may need more than 20,000,000 instructions
  place: the call
  for example: `(defmacro m () (while t)) (m)`, refused at the call
"##;

/// Of ExpansionNotForm.
pub const EXPANSION_NOT_FORM: &[u8] = br##"refused 64 ExpansionNotForm
  exactly where: a call whose expander gives an object that is no datum, or a list or vector in
    which one stands: an instance, a function, a class, a generic function, a stream
  place: the call
  for example: `(defmacro m () (lambda ())) (m)`, refused at the call
"##;

/// Of ExpansionTooLarge.
pub const EXPANSION_TOO_LARGE: &[u8] = br##"refused 65 ExpansionTooLarge
  exactly where: a call whose expander gives data nested above 256, or of a size above 100,000: one
    for each part, and for each four bytes begun of a string one more
  place: the call
  for example: `(defmacro m () (create-vector 100000)) (m)`, refused at the call
"##;

/// Of ExpansionDepth.
pub const EXPANSION_DEPTH: &[u8] = br##"refused 66 ExpansionDepth
  exactly where: a call to which 200 expansions in a row have led
  place: the call
  for example: `(defmacro m () '(m)) (m)`, refused at the call
"##;

/// Of TooManyExpansions.
pub const TOO_MANY_EXPANSIONS: &[u8] = br##"refused 67 TooManyExpansions
  exactly where: a call in front of which the file has 5,000 expansions
  place: the call
  for example: `(defmacro m ()) (list \{5001 (m) \})`, refused at the call
"##;

/// Of `<domain-error>`.
pub const DOMAIN_ERROR: &[u8] = br##"unhandled <domain-error>
  cause: an argument is of a wrong class: `car` or `cdr` of what is no cons, `nil` too
  for example: `(car nil)`
  cure: ask `consp` or `null` first. `domain-error-object` of the condition is the argument,
    `domain-error-expected-class` the class

  cause: arithmetic with what is no integer
  for example: `(+ 1 "2")`
  cure: `parse-number` makes a number of a text

  cause: printing to what is no stream
  for example: `(format t "hello")`
  cure: the stream is `(standard-output)`

  cause: a name in the place of a function
  for example: `(mapcar 'car '((1)))`
  cure: `#'car`

  cause: a conversion that is not there
  for example: `(convert 'a <integer>)`
  cure: the table of `convert` in `LIBRARY.md`

  cause: a list that does not end in `nil`
  for example: `(length '(1 . 2))`
  cure: build lists with `list`, and with `cons` in front of a list
"##;

/// Of `<program-error>`.
pub const PROGRAM_ERROR: &[u8] = br##"unhandled <program-error>
  cause: another number of arguments than the function takes; comparisons take two
  for example: `(< 1 2 3)`
  cure: count them: `INDEX.md` leads to what each function takes

  cause: an index that is not there
  for example: `(elt '(a b) 2)`
  cure: indices begin at 0 and end before `length`

  cause: a directive of `format` that is not there, or has no object left
  for example: `(format (standard-output) "~D")`
  cure: give as many objects as there are directives; `~~` for the sign itself

  cause: an instance of a class that has none of its own
  for example: `(create (class <list>))`
  cure: `list`, `vector`, `create-string`, .. make these

  cause: a slot without a value is read
  for example: `(domain-error-object (create (class <domain-error>)))`
  cure: an `:initform`, an initarg at `create`, or ask the function of `:boundp` first
"##;

/// Of `<undefined-function>`.
pub const UNDEFINED_FUNCTION: &[u8] = br##"unhandled <undefined-function>
  cause: a call of a name that no function has: often a name of another Lisp
  for example: `(print 5)`
  cure: `INDEX.md` has all names, `COMING-FROM.md` what stands for those of other Lisps.
    `undefined-entity-name` is the name

  cause: a generic function without a method for these arguments
  for example: `(report-condition 5 (standard-output))`
  cure: a method for the class, or for `<object>`
"##;

/// Of `<unbound-variable>`.
pub const UNBOUND_VARIABLE: &[u8] = br##"unhandled <unbound-variable>
  cause: a variable without a value: a name that nothing binds, or whose `defglobal` comes later
  for example: `(+ count 1)`
  cure: `let` around it, or `defglobal` in front

  cause: `setq` of a name that no `let` binds and no `defglobal` has made
  for example: `(setq count 0)`
  cure: `defglobal` makes a global variable, `setq` does not

  cause: a dynamic variable without a value
  for example: `(dynamic depth)`
  cure: `defdynamic` in front, or `dynamic-let` around
"##;

/// Of `<division-by-zero>`.
pub const DIVISION_BY_ZERO: &[u8] = br##"unhandled <division-by-zero>
  cause: `div` or `mod` by 0
  for example: `(div 1 0)`
  cure: ask first, or a handler
"##;

/// Of `<integer-overflow>`.
pub const INTEGER_OVERFLOW: &[u8] = br##"unhandled <integer-overflow>
  cause: a result outside -536870912 to 536870911, also on the way of a longer sum
  for example: `(* 100000 100000)`
  cure: a smaller unit, another order, or digits in a list: `COOKBOOK.md`
"##;

/// Of `<control-error>`.
pub const CONTROL_ERROR: &[u8] = br##"unhandled <control-error>
  cause: a `throw` without a `catch` of that tag
  for example: `(throw 'done 1)`
  cure: `catch` around it; tags are compared by `eql`, so strings never fit

  cause: an exit that has ended: the block was left before
  for example: `(funcall (block b (lambda () (return-from b 1))))`
  cure: leave a block only while its forms run

  cause: a handler that returns
  for example: `(with-handler (lambda (c) 5) (car nil))`
  cure: end it by `return-from`, `throw`, `go` or `continue-condition`

  cause: a condition is continued that is not signalled, or cannot be continued
  for example: `(continue-condition (create (class <error>)))`
  cure: only inside its handler, and where `condition-continuable` is not `nil`: `cerror`, or
    `signal-condition` with a second argument that is not `nil`
"##;

/// Of `<simple-error>`.
pub const SIMPLE_ERROR: &[u8] = br##"unhandled <simple-error>
  cause: `error` or `cerror` was called
  for example: `(error "no ~D" 4)`
  cure: `report-condition` in a handler prints the text
"##;

/// Of `<end-of-stream>`.
pub const END_OF_STREAM: &[u8] = br##"unhandled <end-of-stream>
  cause: reading behind the end of the input
  for example: `(read-line)`
  cure: `(read-line (standard-input) nil nil)` gives `nil` there
"##;

/// Of `<parse-error>`.
pub const PARSE_ERROR: &[u8] = br##"unhandled <parse-error>
  cause: `parse-number`, or `convert` to `<integer>`, of a string that has the text of no integer
  for example: `(parse-number "4x")`
  cure: `ignore-errors` around it gives `nil` then
"##;

/// Of `<storage-exhausted>`.
pub const STORAGE_EXHAUSTED: &[u8] = br##"unhandled <storage-exhausted>
  cause: only `signal-condition` of a program: an arena that is full signals nothing, but ends the
    run
  for example: `(signal-condition (create (class <storage-exhausted>)) nil)`
  cure: whatever the program says
"##;

/// What is explained: a reason for which files are refused, by its number or its name, or the class of a condition, by its
/// name without its brackets or with them.
#[derive(Drop)]
pub(crate) struct Topic {
    pub(crate) short: &'static [u8],
    pub(crate) name: &'static [u8],
    pub(crate) text: &'static [u8],
}

/// All that is explained.
pub(crate) fn topics() -> [Topic; 49]
    ensures { view_topics result ≡ all_topics }
{
    [
        Topic {
            short: b"1",
            name: b"BadByte",
            text: BAD_BYTE,
        },
        Topic {
            short: b"2",
            name: b"UnclosedList",
            text: UNCLOSED_LIST,
        },
        Topic {
            short: b"3",
            name: b"UnclosedString",
            text: UNCLOSED_STRING,
        },
        Topic {
            short: b"4",
            name: b"UnclosedComment",
            text: UNCLOSED_COMMENT,
        },
        Topic {
            short: b"5",
            name: b"StrayClose",
            text: STRAY_CLOSE,
        },
        Topic {
            short: b"6",
            name: b"BadDot",
            text: BAD_DOT,
        },
        Topic {
            short: b"7",
            name: b"BadSharp",
            text: BAD_SHARP,
        },
        Topic {
            short: b"8",
            name: b"FloatLiteral",
            text: FLOAT_LITERAL,
        },
        Topic {
            short: b"9",
            name: b"IntegerTooWide",
            text: INTEGER_TOO_WIDE,
        },
        Topic {
            short: b"10",
            name: b"NestTooDeep",
            text: NEST_TOO_DEEP,
        },
        Topic {
            short: b"11",
            name: b"SourceTooLong",
            text: SOURCE_TOO_LONG,
        },
        Topic {
            short: b"12",
            name: b"NameTooLong",
            text: NAME_TOO_LONG,
        },
        Topic {
            short: b"20",
            name: b"BadShape",
            text: BAD_SHAPE,
        },
        Topic {
            short: b"21",
            name: b"NotAForm",
            text: NOT_AFORM,
        },
        Topic {
            short: b"22",
            name: b"BadBinding",
            text: BAD_BINDING,
        },
        Topic {
            short: b"23",
            name: b"DuplicateName",
            text: DUPLICATE_NAME,
        },
        Topic {
            short: b"24",
            name: b"NotTopLevel",
            text: NOT_TOP_LEVEL,
        },
        Topic {
            short: b"25",
            name: b"ReservedName",
            text: RESERVED_NAME,
        },
        Topic {
            short: b"26",
            name: b"UnknownBlock",
            text: UNKNOWN_BLOCK,
        },
        Topic {
            short: b"27",
            name: b"UnknownTag",
            text: UNKNOWN_TAG,
        },
        Topic {
            short: b"28",
            name: b"ConstantSet",
            text: CONSTANT_SET,
        },
        Topic {
            short: b"29",
            name: b"LeftOut",
            text: LEFT_OUT,
        },
        Topic {
            short: b"30",
            name: b"DepthLimit",
            text: DEPTH_LIMIT,
        },
        Topic {
            short: b"31",
            name: b"ProgramTooLarge",
            text: PROGRAM_TOO_LARGE,
        },
        Topic {
            short: b"40",
            name: b"UnknownClass",
            text: UNKNOWN_CLASS,
        },
        Topic {
            short: b"41",
            name: b"BadSupers",
            text: BAD_SUPERS,
        },
        Topic {
            short: b"42",
            name: b"BadSlot",
            text: BAD_SLOT,
        },
        Topic {
            short: b"43",
            name: b"UnknownGeneric",
            text: UNKNOWN_GENERIC,
        },
        Topic {
            short: b"44",
            name: b"BadMethod",
            text: BAD_METHOD,
        },
        Topic {
            short: b"45",
            name: b"DispatchTooLarge",
            text: DISPATCH_TOO_LARGE,
        },
        Topic {
            short: b"60",
            name: b"ExpanderUnhandled",
            text: EXPANDER_UNHANDLED,
        },
        Topic {
            short: b"61",
            name: b"ExpanderPrinted",
            text: EXPANDER_PRINTED,
        },
        Topic {
            short: b"62",
            name: b"ExpanderArena",
            text: EXPANDER_ARENA,
        },
        Topic {
            short: b"63",
            name: b"ExpanderBudget",
            text: EXPANDER_BUDGET,
        },
        Topic {
            short: b"64",
            name: b"ExpansionNotForm",
            text: EXPANSION_NOT_FORM,
        },
        Topic {
            short: b"65",
            name: b"ExpansionTooLarge",
            text: EXPANSION_TOO_LARGE,
        },
        Topic {
            short: b"66",
            name: b"ExpansionDepth",
            text: EXPANSION_DEPTH,
        },
        Topic {
            short: b"67",
            name: b"TooManyExpansions",
            text: TOO_MANY_EXPANSIONS,
        },
        Topic {
            short: b"domain-error",
            name: b"<domain-error>",
            text: DOMAIN_ERROR,
        },
        Topic {
            short: b"program-error",
            name: b"<program-error>",
            text: PROGRAM_ERROR,
        },
        Topic {
            short: b"undefined-function",
            name: b"<undefined-function>",
            text: UNDEFINED_FUNCTION,
        },
        Topic {
            short: b"unbound-variable",
            name: b"<unbound-variable>",
            text: UNBOUND_VARIABLE,
        },
        Topic {
            short: b"division-by-zero",
            name: b"<division-by-zero>",
            text: DIVISION_BY_ZERO,
        },
        Topic {
            short: b"integer-overflow",
            name: b"<integer-overflow>",
            text: INTEGER_OVERFLOW,
        },
        Topic {
            short: b"control-error",
            name: b"<control-error>",
            text: CONTROL_ERROR,
        },
        Topic {
            short: b"simple-error",
            name: b"<simple-error>",
            text: SIMPLE_ERROR,
        },
        Topic {
            short: b"end-of-stream",
            name: b"<end-of-stream>",
            text: END_OF_STREAM,
        },
        Topic {
            short: b"parse-error",
            name: b"<parse-error>",
            text: PARSE_ERROR,
        },
        Topic {
            short: b"storage-exhausted",
            name: b"<storage-exhausted>",
            text: STORAGE_EXHAUSTED,
        },
    ]
}
