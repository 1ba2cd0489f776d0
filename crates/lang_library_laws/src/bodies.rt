// The bodies of the functions of the laws, each under its text. The variables of a function are numbered from 0 on, its arguments first;
// literals are those of the table in `program`, and names are numbered as the functions are.

use crate::piece::Piece;
use crate::piece::Piece::{
    Apply, Call, CallValue, Clause, Clauses, Let, Literal, Local, Prim, Sequence, SetLocal, Test,
    While,
};
use lang_meaning::Primitive::{
    Add, Car, Cdr, CharAt, Cons, Divide, IsCons, IsInstance, IsNull, IsString, IsVector,
    MakeString, Modulo, NumberAtLeast, NumberAtMost, NumberEqual, NumberGreater, NumberLess,
    PutChar, Same, SetCdr, SetCharAt, StringLength, Subtract, VectorLength, VectorRef,
};

// (defun reverse (list) (%turn-copy-onto list nil))
pub const REVERSE: [Piece; 4] = [Local(0), Literal(0), Call(1, 2), Sequence(1)];

// (defun %turn-copy-onto (list end)
//   (while (not (null list))
//     (setq end (cons (car list) end))
//     (setq list (cdr list)))
//   end)
pub const TURN_COPY_ONTO: [Piece; 15] = [
    Local(0),
    Prim(IsNull, 1),
    Prim(IsNull, 1),
    Local(0),
    Prim(Car, 1),
    Local(1),
    Prim(Cons, 2),
    SetLocal(1),
    Local(0),
    Prim(Cdr, 1),
    SetLocal(0),
    Sequence(2),
    While,
    Local(1),
    Sequence(2),
];

// (defun length (sequence)
//   (cond ((stringp sequence) (%string-length sequence))
//         ((general-vector-p sequence) (%vector-length sequence))
//         (t (%list-length sequence))))
pub const LENGTH: [Piece; 19] = [
    Local(0),
    Prim(IsString, 1),
    Local(0),
    Prim(StringLength, 1),
    Sequence(1),
    Clause,
    Local(0),
    Prim(IsVector, 1),
    Local(0),
    Prim(VectorLength, 1),
    Sequence(1),
    Clause,
    Literal(5),
    Local(0),
    Call(3, 1),
    Sequence(1),
    Clause,
    Clauses(3),
    Sequence(1),
];

// (defun %list-length (list)
//   (let ((rest list) (length 0))
//     (while (consp rest)
//       (setq rest (cdr rest))
//       (setq length (+ length 1)))
//     (if (null rest) length (%domain-error list (class <list>)))))
pub const LIST_LENGTH: [Piece; 28] = [
    Local(0),
    Literal(1),
    Local(1),
    Prim(IsCons, 1),
    Local(1),
    Prim(Cdr, 1),
    SetLocal(1),
    Local(2),
    Literal(2),
    Prim(Add, 2),
    SetLocal(2),
    Sequence(2),
    While,
    Local(1),
    Prim(IsNull, 1),
    Local(2),
    Sequence(1),
    Clause,
    Literal(3),
    Local(0),
    Literal(4),
    Call(30, 2),
    Sequence(1),
    Clause,
    Clauses(2),
    Sequence(2),
    Let(1, 2),
    Sequence(1),
];

// (defun member (object list) (%memv object list))
pub const MEMBER: [Piece; 4] = [Local(0), Local(1), Call(5, 2), Sequence(1)];

// (defun %memv (object list)
//   (while (not (or (null list) (eql object (car list))))
//     (setq list (cdr list)))
//   list)
pub const MEMV: [Piece; 19] = [
    Local(1),
    Prim(IsNull, 1),
    Test,
    Literal(6),
    Local(0),
    Local(1),
    Prim(Car, 1),
    Prim(Same, 2),
    Sequence(1),
    Clause,
    Clauses(2),
    Prim(IsNull, 1),
    Local(1),
    Prim(Cdr, 1),
    SetLocal(1),
    Sequence(1),
    While,
    Local(1),
    Sequence(2),
];

// (defun assoc (key list)
//   (while (not (or (null list) (eql key (car (car list)))))
//     (setq list (cdr list)))
//   (if (null list) nil (car list)))
pub const ASSOC: [Piece; 30] = [
    Local(1),
    Prim(IsNull, 1),
    Test,
    Literal(7),
    Local(0),
    Local(1),
    Prim(Car, 1),
    Prim(Car, 1),
    Prim(Same, 2),
    Sequence(1),
    Clause,
    Clauses(2),
    Prim(IsNull, 1),
    Local(1),
    Prim(Cdr, 1),
    SetLocal(1),
    Sequence(1),
    While,
    Local(1),
    Prim(IsNull, 1),
    Literal(8),
    Sequence(1),
    Clause,
    Literal(9),
    Local(1),
    Prim(Car, 1),
    Sequence(1),
    Clause,
    Clauses(2),
    Sequence(2),
];

// (defun list (:rest items) items)
pub const LIST: [Piece; 2] = [Local(0), Sequence(1)];

// (defun append (:rest lists)
//   (%append-all lists t))
pub const APPEND: [Piece; 4] = [Local(0), Literal(10), Call(9, 2), Sequence(1)];

// (defun %append-all (lists ends-in-list)
//   (let ((front nil))
//     (while (not (or (null lists) (null (cdr lists))))
//       (setq front (%turn-copy-onto (car lists) front))
//       (setq lists (cdr lists)))
//     (cond ((null lists) nil)
//           ((and ends-in-list (not (consp (car lists))) (not (null (car lists))))
//            (%domain-error (car lists) (class <list>)))
//           (t (%turn-onto front (car lists))))))
pub const APPEND_ALL: [Piece; 59] = [
    Literal(11),
    Local(0),
    Prim(IsNull, 1),
    Test,
    Literal(12),
    Local(0),
    Prim(Cdr, 1),
    Prim(IsNull, 1),
    Sequence(1),
    Clause,
    Clauses(2),
    Prim(IsNull, 1),
    Local(0),
    Prim(Car, 1),
    Local(2),
    Call(1, 2),
    SetLocal(2),
    Local(0),
    Prim(Cdr, 1),
    SetLocal(0),
    Sequence(2),
    While,
    Local(0),
    Prim(IsNull, 1),
    Literal(13),
    Sequence(1),
    Clause,
    Local(1),
    Local(0),
    Prim(Car, 1),
    Prim(IsCons, 1),
    Prim(IsNull, 1),
    Local(0),
    Prim(Car, 1),
    Prim(IsNull, 1),
    Prim(IsNull, 1),
    Sequence(1),
    Clause,
    Clauses(1),
    Sequence(1),
    Clause,
    Clauses(1),
    Local(0),
    Prim(Car, 1),
    Literal(14),
    Call(30, 2),
    Sequence(1),
    Clause,
    Literal(15),
    Local(2),
    Local(0),
    Prim(Car, 1),
    Call(10, 2),
    Sequence(1),
    Clause,
    Clauses(3),
    Sequence(2),
    Let(2, 1),
    Sequence(1),
];

// (defun %turn-onto (list end)
//   (while (not (null list))
//     (let ((rest (cdr list)))
//       (set-cdr end list)
//       (setq end list)
//       (setq list rest)))
//   end)
pub const TURN_ONTO: [Piece; 18] = [
    Local(0),
    Prim(IsNull, 1),
    Prim(IsNull, 1),
    Local(0),
    Prim(Cdr, 1),
    Local(1),
    Local(0),
    Prim(SetCdr, 2),
    Local(0),
    SetLocal(1),
    Local(2),
    SetLocal(0),
    Sequence(3),
    Let(2, 1),
    Sequence(1),
    While,
    Local(1),
    Sequence(2),
];

// (defun %emit (stream character) (%put-char stream character))
pub const EMIT: [Piece; 4] = [Local(0), Local(1), Prim(PutChar, 2), Sequence(1)];

// (defun %digit (digit)
//   (%char-at "0123456789ABCDEFGHIJKLMNOPQRSTUVWXYZ" digit))
pub const DIGIT: [Piece; 4] = [Literal(16), Local(0), Prim(CharAt, 2), Sequence(1)];

// (defun %emit-digit (stream digit)
//   (%emit stream (%digit digit)))
pub const EMIT_DIGIT: [Piece; 5] = [Local(0), Local(1), Call(12, 1), Call(11, 2), Sequence(1)];

// (defun %emit-natural (stream number radix)
//   (if (>= number radix) (%emit-natural stream (div number radix) radix))
//   (%emit-digit stream (mod number radix)))
pub const EMIT_NATURAL: [Piece; 18] = [
    Local(1),
    Local(2),
    Prim(NumberAtLeast, 2),
    Local(0),
    Local(1),
    Local(2),
    Prim(Divide, 2),
    Local(2),
    Call(14, 3),
    Sequence(1),
    Clause,
    Clauses(1),
    Local(0),
    Local(1),
    Local(2),
    Prim(Modulo, 2),
    Call(13, 2),
    Sequence(2),
];

// (defun %emit-integer (stream integer radix)
//   (if (>= integer 0)
//       (%emit-natural stream integer radix)
//       (let* ((last (mod (- 0 (mod integer radix)) radix))
//              (front (- 0 (div (+ integer last) radix))))
//         (%emit stream #\-)
//         (if (> front 0) (%emit-natural stream front radix))
//         (%emit-digit stream last))))
pub const EMIT_INTEGER: [Piece; 50] = [
    Local(1),
    Literal(17),
    Prim(NumberAtLeast, 2),
    Local(0),
    Local(1),
    Local(2),
    Call(14, 3),
    Sequence(1),
    Clause,
    Literal(18),
    Literal(19),
    Local(1),
    Local(2),
    Prim(Modulo, 2),
    Prim(Subtract, 2),
    Local(2),
    Prim(Modulo, 2),
    Literal(20),
    Local(1),
    Local(3),
    Prim(Add, 2),
    Local(2),
    Prim(Divide, 2),
    Prim(Subtract, 2),
    Local(0),
    Literal(21),
    Call(11, 2),
    Local(4),
    Literal(22),
    Prim(NumberGreater, 2),
    Local(0),
    Local(4),
    Local(2),
    Call(14, 3),
    Sequence(1),
    Clause,
    Clauses(1),
    Local(0),
    Local(3),
    Call(13, 2),
    Sequence(3),
    Let(0, 0),
    Sequence(1),
    Let(4, 1),
    Sequence(1),
    Let(3, 1),
    Sequence(1),
    Clause,
    Clauses(2),
    Sequence(1),
];

// (defun string= (first second)
//   (let ((index 0) (end (%string-length first)))
//     (and (= end (%string-length second))
//          (progn
//            (while (and (< index end) (eql (%char-at first index) (%char-at second index)))
//              (setq index (+ index 1)))
//            (= index end)))))
pub const STRING_EQUAL: [Piece; 36] = [
    Literal(23),
    Local(0),
    Prim(StringLength, 1),
    Local(3),
    Local(1),
    Prim(StringLength, 1),
    Prim(NumberEqual, 2),
    Local(2),
    Local(3),
    Prim(NumberLess, 2),
    Local(0),
    Local(2),
    Prim(CharAt, 2),
    Local(1),
    Local(2),
    Prim(CharAt, 2),
    Prim(Same, 2),
    Sequence(1),
    Clause,
    Clauses(1),
    Local(2),
    Literal(24),
    Prim(Add, 2),
    SetLocal(2),
    Sequence(1),
    While,
    Local(2),
    Local(3),
    Prim(NumberEqual, 2),
    Sequence(2),
    Sequence(1),
    Clause,
    Clauses(1),
    Sequence(1),
    Let(2, 2),
    Sequence(1),
];

// (defun %equal-vectors (first second)
//   (let ((index 0) (end (%vector-length first)))
//     (and (= end (%vector-length second))
//          (progn
//            (while (and (< index end) (equal (%vector-ref first index) (%vector-ref second index)))
//              (setq index (+ index 1)))
//            (= index end)))))
pub const EQUAL_VECTORS: [Piece; 36] = [
    Literal(27),
    Local(0),
    Prim(VectorLength, 1),
    Local(3),
    Local(1),
    Prim(VectorLength, 1),
    Prim(NumberEqual, 2),
    Local(2),
    Local(3),
    Prim(NumberLess, 2),
    Local(0),
    Local(2),
    Prim(VectorRef, 2),
    Local(1),
    Local(2),
    Prim(VectorRef, 2),
    Call(18, 2),
    Sequence(1),
    Clause,
    Clauses(1),
    Local(2),
    Literal(28),
    Prim(Add, 2),
    SetLocal(2),
    Sequence(1),
    While,
    Local(2),
    Local(3),
    Prim(NumberEqual, 2),
    Sequence(2),
    Sequence(1),
    Clause,
    Clauses(1),
    Sequence(1),
    Let(2, 2),
    Sequence(1),
];

// (defun equal (first second)
//   (while (and (consp first) (consp second) (equal (car first) (car second)))
//     (setq first (cdr first))
//     (setq second (cdr second)))
//   (cond ((and (consp first) (consp second)) nil)
//         ((and (stringp first) (stringp second)) (string= first second))
//         ((and (general-vector-p first) (general-vector-p second)) (%equal-vectors first second))
//         (t (eql first second))))
pub const EQUAL: [Piece; 65] = [
    Local(0),
    Prim(IsCons, 1),
    Local(1),
    Prim(IsCons, 1),
    Local(0),
    Prim(Car, 1),
    Local(1),
    Prim(Car, 1),
    Call(18, 2),
    Sequence(1),
    Clause,
    Clauses(1),
    Sequence(1),
    Clause,
    Clauses(1),
    Local(0),
    Prim(Cdr, 1),
    SetLocal(0),
    Local(1),
    Prim(Cdr, 1),
    SetLocal(1),
    Sequence(2),
    While,
    Local(0),
    Prim(IsCons, 1),
    Local(1),
    Prim(IsCons, 1),
    Sequence(1),
    Clause,
    Clauses(1),
    Literal(25),
    Sequence(1),
    Clause,
    Local(0),
    Prim(IsString, 1),
    Local(1),
    Prim(IsString, 1),
    Sequence(1),
    Clause,
    Clauses(1),
    Local(0),
    Local(1),
    Call(16, 2),
    Sequence(1),
    Clause,
    Local(0),
    Prim(IsVector, 1),
    Local(1),
    Prim(IsVector, 1),
    Sequence(1),
    Clause,
    Clauses(1),
    Local(0),
    Local(1),
    Call(17, 2),
    Sequence(1),
    Clause,
    Literal(26),
    Local(0),
    Local(1),
    Prim(Same, 2),
    Sequence(1),
    Clause,
    Clauses(4),
    Sequence(2),
];

// (defun nreverse (list) (%turn-onto list nil))
pub const NREVERSE: [Piece; 4] = [Local(0), Literal(29), Call(10, 2), Sequence(1)];

// (defun mapcar (function list :rest lists)
//   (assure <function> function)
//   (let ((values nil))
//     (if (null lists)
//         (while (not (null list))
//           (setq values (cons (funcall function (car list)) values))
//           (setq list (cdr list)))
//         (let ((rests (cons list lists)))
//           (while (%all-left rests)
//             (setq values (cons (%apply function (%heads rests)) values))
//             (%advance rests))))
//     (nreverse values)))
pub const MAPCAR: [Piece; 63] = [
    Local(0),
    Local(3),
    Literal(30),
    Prim(IsInstance, 2),
    Local(3),
    Sequence(1),
    Clause,
    Literal(31),
    Local(3),
    Literal(32),
    Call(30, 2),
    Sequence(1),
    Clause,
    Clauses(2),
    Sequence(1),
    Let(3, 1),
    Literal(33),
    Local(2),
    Prim(IsNull, 1),
    Local(1),
    Prim(IsNull, 1),
    Prim(IsNull, 1),
    Local(0),
    Local(1),
    Prim(Car, 1),
    CallValue(2),
    Local(4),
    Prim(Cons, 2),
    SetLocal(4),
    Local(1),
    Prim(Cdr, 1),
    SetLocal(1),
    Sequence(2),
    While,
    Sequence(1),
    Clause,
    Literal(34),
    Local(1),
    Local(2),
    Prim(Cons, 2),
    Local(5),
    Call(35, 1),
    Local(0),
    Local(5),
    Call(36, 1),
    Apply,
    Local(4),
    Prim(Cons, 2),
    SetLocal(4),
    Local(5),
    Call(37, 1),
    Sequence(2),
    While,
    Sequence(1),
    Let(5, 1),
    Sequence(1),
    Clause,
    Clauses(2),
    Local(4),
    Call(19, 1),
    Sequence(2),
    Let(4, 1),
    Sequence(2),
];

// (defun elt (sequence index)
//   (cond ((stringp sequence) (%char-at sequence index))
//         ((general-vector-p sequence) (%vector-ref sequence index))
//         (t (car (%list-from sequence index)))))
pub const ELT: [Piece; 23] = [
    Local(0),
    Prim(IsString, 1),
    Local(0),
    Local(1),
    Prim(CharAt, 2),
    Sequence(1),
    Clause,
    Local(0),
    Prim(IsVector, 1),
    Local(0),
    Local(1),
    Prim(VectorRef, 2),
    Sequence(1),
    Clause,
    Literal(35),
    Local(0),
    Local(1),
    Call(22, 2),
    Prim(Car, 1),
    Sequence(1),
    Clause,
    Clauses(3),
    Sequence(1),
];

// (defun %list-from (list index)
//   (assure <list> list)
//   (assure <integer> index)
//   (if (< index 0) (%program-error))
//   (while (and (> index 0) (consp list))
//     (setq list (cdr list))
//     (setq index (- index 1)))
//   (if (consp list) list (%program-error)))
pub const LIST_FROM: [Piece; 67] = [
    Local(0),
    Local(2),
    Literal(36),
    Prim(IsInstance, 2),
    Local(2),
    Sequence(1),
    Clause,
    Literal(37),
    Local(2),
    Literal(38),
    Call(30, 2),
    Sequence(1),
    Clause,
    Clauses(2),
    Sequence(1),
    Let(2, 1),
    Local(1),
    Local(3),
    Literal(39),
    Prim(IsInstance, 2),
    Local(3),
    Sequence(1),
    Clause,
    Literal(40),
    Local(3),
    Literal(41),
    Call(30, 2),
    Sequence(1),
    Clause,
    Clauses(2),
    Sequence(1),
    Let(3, 1),
    Local(1),
    Literal(42),
    Prim(NumberLess, 2),
    Call(32, 0),
    Sequence(1),
    Clause,
    Clauses(1),
    Local(1),
    Literal(43),
    Prim(NumberGreater, 2),
    Local(0),
    Prim(IsCons, 1),
    Sequence(1),
    Clause,
    Clauses(1),
    Local(0),
    Prim(Cdr, 1),
    SetLocal(0),
    Local(1),
    Literal(44),
    Prim(Subtract, 2),
    SetLocal(1),
    Sequence(2),
    While,
    Local(0),
    Prim(IsCons, 1),
    Local(0),
    Sequence(1),
    Clause,
    Literal(45),
    Call(32, 0),
    Sequence(1),
    Clause,
    Clauses(2),
    Sequence(5),
];

// (defun string-append (:rest strings)
//   (let ((whole (%make-string (%length-of-all strings) #\space)) (index 0))
//     (while (not (null strings))
//       (setq index (%copy-into whole index (car strings)))
//       (setq strings (cdr strings)))
//     whole))
pub const STRING_APPEND: [Piece; 23] = [
    Local(0),
    Call(24, 1),
    Literal(46),
    Prim(MakeString, 2),
    Literal(47),
    Local(0),
    Prim(IsNull, 1),
    Prim(IsNull, 1),
    Local(1),
    Local(2),
    Local(0),
    Prim(Car, 1),
    Call(25, 3),
    SetLocal(2),
    Local(0),
    Prim(Cdr, 1),
    SetLocal(0),
    Sequence(2),
    While,
    Local(1),
    Sequence(2),
    Let(1, 2),
    Sequence(1),
];

// (defun %length-of-all (strings)
//   (let ((length 0))
//     (while (not (null strings))
//       (setq length (+ length (%string-length (car strings))))
//       (setq strings (cdr strings)))
//     length))
pub const LENGTH_OF_ALL: [Piece; 19] = [
    Literal(48),
    Local(0),
    Prim(IsNull, 1),
    Prim(IsNull, 1),
    Local(1),
    Local(0),
    Prim(Car, 1),
    Prim(StringLength, 1),
    Prim(Add, 2),
    SetLocal(1),
    Local(0),
    Prim(Cdr, 1),
    SetLocal(0),
    Sequence(2),
    While,
    Local(1),
    Sequence(2),
    Let(1, 1),
    Sequence(1),
];

// (defun %copy-into (whole index string)
//   (let ((from 0) (end (%string-length string)))
//     (while (< from end)
//       (%set-char-at (%char-at string from) whole index)
//       (setq from (+ from 1))
//       (setq index (+ index 1)))
//     index))
pub const COPY_INTO: [Piece; 26] = [
    Literal(49),
    Local(2),
    Prim(StringLength, 1),
    Local(3),
    Local(4),
    Prim(NumberLess, 2),
    Local(2),
    Local(3),
    Prim(CharAt, 2),
    Local(0),
    Local(1),
    Prim(SetCharAt, 3),
    Local(3),
    Literal(50),
    Prim(Add, 2),
    SetLocal(3),
    Local(1),
    Literal(51),
    Prim(Add, 2),
    SetLocal(1),
    Sequence(3),
    While,
    Local(1),
    Sequence(2),
    Let(3, 2),
    Sequence(1),
];

// (defun subseq (sequence start end)
//   (%sequence sequence)
//   (assure <integer> start)
//   (assure <integer> end)
//   (if (or (< start 0) (< end start)) (%program-error))
//   (cond ((listp sequence) (%part-of-list sequence start end))
//         ((< (length sequence) end) (%program-error))
//         ((stringp sequence) (%part-of-string sequence start end))
//         (t (%part-of-vector sequence start end))))
pub const SUBSEQ: [Piece; 81] = [
    Local(0),
    Call(27, 1),
    Local(1),
    Local(3),
    Literal(52),
    Prim(IsInstance, 2),
    Local(3),
    Sequence(1),
    Clause,
    Literal(53),
    Local(3),
    Literal(54),
    Call(30, 2),
    Sequence(1),
    Clause,
    Clauses(2),
    Sequence(1),
    Let(3, 1),
    Local(2),
    Local(4),
    Literal(55),
    Prim(IsInstance, 2),
    Local(4),
    Sequence(1),
    Clause,
    Literal(56),
    Local(4),
    Literal(57),
    Call(30, 2),
    Sequence(1),
    Clause,
    Clauses(2),
    Sequence(1),
    Let(4, 1),
    Local(1),
    Literal(58),
    Prim(NumberLess, 2),
    Test,
    Literal(59),
    Local(2),
    Local(1),
    Prim(NumberLess, 2),
    Sequence(1),
    Clause,
    Clauses(2),
    Call(32, 0),
    Sequence(1),
    Clause,
    Clauses(1),
    Local(0),
    Call(28, 1),
    Local(0),
    Local(1),
    Local(2),
    Call(29, 3),
    Sequence(1),
    Clause,
    Local(0),
    Call(2, 1),
    Local(2),
    Prim(NumberLess, 2),
    Call(32, 0),
    Sequence(1),
    Clause,
    Local(0),
    Prim(IsString, 1),
    Local(0),
    Local(1),
    Local(2),
    Call(33, 3),
    Sequence(1),
    Clause,
    Literal(60),
    Local(0),
    Local(1),
    Local(2),
    Call(34, 3),
    Sequence(1),
    Clause,
    Clauses(4),
    Sequence(5),
];

// (defun %sequence (object)
//   (if (or (listp object) (stringp object) (general-vector-p object))
//       object
//       (%domain-error object (class <list>))))
pub const CHECK_SEQUENCE: [Piece; 27] = [
    Local(0),
    Call(28, 1),
    Test,
    Literal(61),
    Local(0),
    Prim(IsString, 1),
    Test,
    Literal(62),
    Local(0),
    Prim(IsVector, 1),
    Sequence(1),
    Clause,
    Clauses(2),
    Sequence(1),
    Clause,
    Clauses(2),
    Local(0),
    Sequence(1),
    Clause,
    Literal(63),
    Local(0),
    Literal(64),
    Call(30, 2),
    Sequence(1),
    Clause,
    Clauses(2),
    Sequence(1),
];

// (defun listp (object) (or (consp object) (null object)))
pub const LISTP: [Piece; 10] = [
    Local(0),
    Prim(IsCons, 1),
    Test,
    Literal(65),
    Local(0),
    Prim(IsNull, 1),
    Sequence(1),
    Clause,
    Clauses(2),
    Sequence(1),
];

// (defun %part-of-list (list start end)
//   (let ((index 0) (items nil))
//     (while (< index end)
//       (if (not (consp list)) (%program-error))
//       (if (<= start index) (setq items (cons (car list) items)))
//       (setq list (cdr list))
//       (setq index (+ index 1)))
//     (nreverse items)))
pub const PART_OF_LIST: [Piece; 37] = [
    Literal(66),
    Literal(67),
    Local(3),
    Local(2),
    Prim(NumberLess, 2),
    Local(0),
    Prim(IsCons, 1),
    Prim(IsNull, 1),
    Call(32, 0),
    Sequence(1),
    Clause,
    Clauses(1),
    Local(1),
    Local(3),
    Prim(NumberAtMost, 2),
    Local(0),
    Prim(Car, 1),
    Local(4),
    Prim(Cons, 2),
    SetLocal(4),
    Sequence(1),
    Clause,
    Clauses(1),
    Local(0),
    Prim(Cdr, 1),
    SetLocal(0),
    Local(3),
    Literal(68),
    Prim(Add, 2),
    SetLocal(3),
    Sequence(4),
    While,
    Local(4),
    Call(19, 1),
    Sequence(2),
    Let(3, 2),
    Sequence(1),
];
