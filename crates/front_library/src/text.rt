// The files of text/, one after another: the script text/join writes this file.

/// The text of the library, in ISLISP (ISO/IEC 13816:2007): definitions of functions, generic functions and methods over the
/// primitives. It stands in front of every file.
pub const PRELUDE: &[u8] = br##"; Characters: they are bytes, and compare by their codes.

(defun characterp (object) (characterp object))

(defun char= (first second) (= (%char-code first) (%char-code second)))
(defun char/= (first second) (/= (%char-code first) (%char-code second)))
(defun char< (first second) (< (%char-code first) (%char-code second)))
(defun char> (first second) (> (%char-code first) (%char-code second)))
(defun char<= (first second) (<= (%char-code first) (%char-code second)))
(defun char>= (first second) (>= (%char-code first) (%char-code second)))
; Conditions: errors are signalled, and conditions are asked what they are about and reported.

; A <domain-error>: an object is not of the class that was expected.
(defun %domain-error (object expected-class)
  (let ((condition (%allocate (class <domain-error>))))
    (%slot-set object condition (%slot-place condition 'object))
    (%slot-set expected-class condition (%slot-place condition 'expected-class))
    (signal-condition condition nil)))

; A <program-error>: arguments do not go together.
(defun %program-error ()
  (signal-condition (%allocate (class <program-error>)) nil))

; A <parse-error>: a string is not the text of what was to be read.
(defun %parse-error ()
  (signal-condition (%allocate (class <parse-error>)) nil))

; A <simple-error> that cannot be continued, with a format string and its objects.
(defun error (error-string :rest objects)
  (signal-condition (%simple-error error-string objects) nil))

; The same, marked with the string that says how it goes on where it is continued.
(defun cerror (continue-string error-string :rest objects)
  (signal-condition (%simple-error error-string objects) continue-string))

; A <simple-error> that is not signalled yet.
(defun %simple-error (error-string objects)
  (create (class <simple-error>) 'format-string error-string 'format-arguments objects))

; Calls the innermost active handler with the condition.
(defun signal-condition (condition continuable)
  (signal-condition condition continuable))

; Makes the signal of this condition give the value, nil where none is named.
(defun continue-condition (condition :rest value)
  (continue-condition condition (%optional value nil)))

; What the latest signal of the condition was marked with.
(defun condition-continuable (condition)
  (condition-continuable condition))

; The parts of conditions.
(defun simple-error-format-string (condition)
  (%slot-of (assure <simple-error> condition) 'format-string))

(defun simple-error-format-arguments (condition)
  (%slot-of (assure <simple-error> condition) 'format-arguments))

(defun domain-error-object (condition)
  (%slot-of (assure <domain-error> condition) 'object))

(defun domain-error-expected-class (condition)
  (%slot-of (assure <domain-error> condition) 'expected-class))

(defun undefined-entity-name (condition)
  (%slot-of (assure <undefined-entity> condition) 'name))

; Prints what a condition says: its string with its objects for a <simple-error>, else the name of its class.
(defgeneric report-condition (condition stream))

(defmethod report-condition ((condition <serious-condition>) stream)
  (%print stream (%class-name (class-of condition)) nil))

(defmethod report-condition ((condition <simple-error>) stream)
  (%format stream (simple-error-format-string condition) (simple-error-format-arguments condition)))
; Formatted output: a string with directives, each of which takes what it needs of the objects.

(defun format (stream string :rest objects)
  (%format stream string objects))

; The text before a wrong directive is printed.
(defun %format (stream string objects)
  (%check-output stream)
  (let ((index 0) (end (%string-length string)))
    (while (< index end)
      (let ((character (%char-at string index)))
        (setq index (+ index 1))
        (cond ((not (eql character #\~)) (%put-char stream character))
              ((= index end) (%program-error))
              (t (setq objects (%directive stream (%char-at string index) objects))
                 (setq index (+ index 1))))))))

; Does what a directive says, and gives the objects that it leaves.
(defun %directive (stream directive objects)
  (cond ((or (eql directive #\D) (eql directive #\d)) (%directive-integer stream objects 10))
        ((or (eql directive #\A) (eql directive #\a)) (%directive-object stream objects nil))
        ((eql directive #\%) (%put-char stream #\newline) objects)
        ((or (eql directive #\S) (eql directive #\s)) (%directive-object stream objects t))
        ((or (eql directive #\C) (eql directive #\c)) (%emit stream (%needed objects)) (cdr objects))
        ((or (eql directive #\B) (eql directive #\b)) (%directive-integer stream objects 2))
        ((or (eql directive #\O) (eql directive #\o)) (%directive-integer stream objects 8))
        ((or (eql directive #\X) (eql directive #\x)) (%directive-integer stream objects 16))
        ((eql directive #\&) (format-fresh-line stream) objects)
        ((eql directive #\~) (%put-char stream #\~) objects)
        (t (%program-error))))

(defun %directive-object (stream objects escape)
  (%print stream (%needed objects) escape)
  (cdr objects))

(defun %directive-integer (stream objects radix)
  (%emit-integer stream (assure <integer> (%needed objects)) radix)
  (cdr objects))

; The first of the objects, of which there has to be one.
(defun %needed (objects)
  (if (null objects) (%program-error) (car objects)))
; Functions: how they are applied, and arguments that may be left out.

; The value of a function applied to arguments.
(defun funcall (function :rest arguments)
  (%apply function arguments))

; The same, the last argument being a list of further arguments.
(defun apply (function argument :rest arguments)
  (if (null arguments)
      (%apply function argument)
      (progn
        (assure <function> function)
        (%apply function (%spread (cons argument arguments))))))

; The items of a list in front of those of its last item, which is to be a list itself.
(defun %spread (items)
  (let ((front nil))
    (while (not (null (cdr items)))
      (setq front (cons (car items) front))
      (setq items (cdr items)))
    (%apply #'%list (car items))   ; signals where it is no list
    (%turn-onto front (car items))))

; The one argument that may be left out: it stands in a list of further arguments, or else it is this value.
(defun %optional (arguments default)
  (cond ((null arguments) default)
        ((null (cdr arguments)) (car arguments))
        (t (%program-error))))

; Of a list of arguments that may be left out, the one with this index, or else this value.
(defun %argument (arguments index default)
  (while (and (> index 0) (not (null arguments)))
    (setq arguments (cdr arguments))
    (setq index (- index 1)))
  (if (null arguments) default (car arguments)))

; So many arguments may be in a list, and no more.
(defun %at-most (count arguments)
  (if (< count (%list-length arguments)) (%program-error)))

; An integer that is to be no less than 0.
(defun %natural (number)
  (if (and (integerp number) (>= number 0))
      number
      (%domain-error number (class <integer>))))
; Input: the one stream that is read is standard input. Bytes are taken by %next and %peek alone.

(defun standard-input () (standard-input))

; The next byte of a stream as an integer, -1 at the end: taken, and left.
(defun %next (stream)
  (%check-input stream)
  (%get-byte))

(defun %peek (stream)
  (%check-input stream)
  (%peek-byte))

(defun %check-input (stream)
  (if (not (eq stream (standard-input))) (%domain-error stream (class <stream>))))

; What follows takes a stream, a flag and a value, each of which may be left out. At the end of the input it signals
; <end-of-stream>, or gives the value where the flag is nil.

; The next character, which is taken.
(defun read-char (:rest arguments)
  (%at-most 3 arguments)
  (let ((byte (%next (%argument arguments 0 (standard-input)))))
    (if (< byte 0) (%end-of-input arguments) (%code-char byte))))

; The next character, which is left.
(defun preview-char (:rest arguments)
  (%at-most 3 arguments)
  (let ((byte (%peek (%argument arguments 0 (standard-input)))))
    (if (< byte 0) (%end-of-input arguments) (%code-char byte))))

; The next line, without its end; the last line may have none.
(defun read-line (:rest arguments)
  (%at-most 3 arguments)
  (let* ((stream (%argument arguments 0 (standard-input))) (byte (%next stream)))
    (if (< byte 0)
        (%end-of-input arguments)
        (let ((length 0) (characters nil))
          (while (not (or (< byte 0) (= byte 10)))
            (setq characters (cons (%code-char byte) characters))
            (setq length (+ length 1))
            (setq byte (%next stream)))
          (%string-of-turned length characters)))))

(defun %end-of-input (arguments)
  (if (%argument arguments 1 t)
      (signal-condition (%allocate (class <end-of-stream>)) nil)
      (%argument arguments 2 nil)))
; Lists: conses, and functions that go along lists. What is no list, or does not end in nil, signals where `car` or `cdr` meets it.

; Conses and their parts.
(defun cons (first rest) (cons first rest))
(defun car (list) (car list))
(defun cdr (list) (cdr list))
(defun set-car (value list) (set-car value list))
(defun set-cdr (value list) (set-cdr value list))

; Whether an object is a cons, and whether it is a list.
(defun consp (object) (consp object))
(defun listp (object) (or (consp object) (null object)))

; The list of the arguments.
(defun list (:rest items) items)
(defun %list (:rest items) items)

; A list of so many items, all the same.
(defun create-list (length :rest element)
  (let ((item (%optional element nil)) (left (%natural length)) (items nil))
    (while (> left 0)
      (setq items (cons item items))
      (setq left (- left 1)))
    items))

; The items of all lists in one list, which shares the last of them.
(defun append (:rest lists)
  (%append-all lists t))

; The same for quasiquotation, where what stands last may be any object.
(defun %append (:rest lists)
  (%append-all lists nil))

(defun %append-all (lists ends-in-list)
  (let ((front nil))
    (while (not (or (null lists) (null (cdr lists))))
      (setq front (%turn-copy-onto (car lists) front))
      (setq lists (cdr lists)))
    (cond ((null lists) nil)
          ((and ends-in-list (not (consp (car lists))) (not (null (car lists))))
           (%domain-error (car lists) (class <list>)))
          (t (%turn-onto front (car lists))))))

; The items of a list in the other order in front of another list: in new conses, or in its own ones.
(defun %turn-copy-onto (list end)
  (while (not (null list))
    (setq end (cons (car list) end))
    (setq list (cdr list)))
  end)

(defun %turn-onto (list end)
  (while (not (null list))
    (let ((rest (cdr list)))
      (set-cdr end list)
      (setq end list)
      (setq list rest)))
  end)

; The items of a list in the other order. The second takes the conses of the list.
(defun reverse (list) (%turn-copy-onto list nil))
(defun nreverse (list) (%turn-onto list nil))

; What of the list begins with the object, nil where it has none.
(defun member (object list) (%memv object list))

(defun %memv (object list)
  (while (not (or (null list) (eql object (car list))))
    (setq list (cdr list)))
  list)

; The same with a predicate of the object and an item, for `case-using`.
(defun %memp (predicate object list)
  (while (not (or (null list) (funcall predicate object (car list))))
    (setq list (cdr list)))
  list)

; The first cons of a list of conses that has this key as its first part, nil where there is none.
(defun assoc (key list)
  (while (not (or (null list) (eql key (car (car list)))))
    (setq list (cdr list)))
  (if (null list) nil (car list)))

; The length of a list, which is to end in nil.
(defun %list-length (list)
  (let ((rest list) (length 0))
    (while (consp rest)
      (setq rest (cdr rest))
      (setq length (+ length 1)))
    (if (null rest) length (%domain-error list (class <list>)))))

; What of a list begins with its item of this index.
(defun %list-from (list index)
  (assure <list> list)
  (assure <integer> index)
  (if (< index 0) (%program-error))
  (while (and (> index 0) (consp list))
    (setq list (cdr list))
    (setq index (- index 1)))
  (if (consp list) list (%program-error)))
; Mapping: a function is called with the items of lists, or with what is left of them, as long as the shortest list has any.

; Calls the function with the items, and gives the list of its values.
(defun mapcar (function list :rest lists)
  (assure <function> function)
  (let ((values nil))
    (if (null lists)
        (while (not (null list))
          (setq values (cons (funcall function (car list)) values))
          (setq list (cdr list)))
        (let ((rests (cons list lists)))
          (while (%all-left rests)
            (setq values (cons (%apply function (%heads rests)) values))
            (%advance rests))))
    (nreverse values)))

; Calls it with the items, and gives the first list.
(defun mapc (function list :rest lists)
  (assure <function> function)
  (if (null lists)
      (let ((rest list))
        (while (not (null rest))
          (funcall function (car rest))
          (setq rest (cdr rest))))
      (let ((rests (cons list lists)))
        (while (%all-left rests)
          (%apply function (%heads rests))
          (%advance rests))))
  list)

; Calls it with the items, and joins its values, which are to be lists, by their own conses.
(defun mapcan (function list :rest lists)
  (%join (%apply #'mapcar (cons function (cons list lists)))))

; Calls it with what is left of the lists, and gives the list of its values.
(defun maplist (function list :rest lists)
  (assure <function> function)
  (let ((values nil) (rests (cons list lists)))
    (while (%all-left rests)
      (setq values (cons (%apply function rests) values))
      (%advance rests))
    (nreverse values)))

; Calls it with what is left of the lists, and gives the first list.
(defun mapl (function list :rest lists)
  (assure <function> function)
  (let ((rests (cons list lists)))
    (while (%all-left rests)
      (%apply function rests)
      (%advance rests))
    list))

; Calls it with what is left of the lists, and joins its values.
(defun mapcon (function list :rest lists)
  (%join (%apply #'maplist (cons function (cons list lists)))))

; Whether none of the lists is nil. What is no list signals.
(defun %all-left (lists)
  (while (not (or (null lists) (null (car lists))))
    (car (car lists))
    (setq lists (cdr lists)))
  (null lists))

; The first items of the lists.
(defun %heads (lists)
  (let ((heads nil))
    (while (not (null lists))
      (setq heads (cons (car (car lists)) heads))
      (setq lists (cdr lists)))
    (nreverse heads)))

; Goes one item further in each list of a list of lists.
(defun %advance (lists)
  (while (not (null lists))
    (set-car (cdr (car lists)) lists)
    (setq lists (cdr lists))))

; The items of the lists in a list of lists, in one list: from the last list to the first, each in front of what is there.
(defun %join (lists)
  (let ((joined nil) (rest (nreverse lists)))
    (while (not (null rest))
      (setq joined (%join-two (car rest) joined))
      (setq rest (cdr rest)))
    joined))

(defun %join-two (list end)
  (if (null list)
      end
      (let ((last list))
        (while (not (null (cdr last)))
          (setq last (cdr last)))
        (set-cdr end last)
        list)))
; Numbers: all of them are integers of 30 bits, and a result that does not fit signals <integer-overflow>.

; The sum of all numbers, 0 of none.
(defun + (:rest numbers)
  (%check-integers numbers)
  (let ((sum 0))
    (while (not (null numbers))
      (setq sum (+ sum (car numbers)))
      (setq numbers (cdr numbers)))
    sum))

; The product of all numbers, 1 of none.
(defun * (:rest numbers)
  (%check-integers numbers)
  (let ((product 1))
    (while (not (null numbers))
      (setq product (* product (car numbers)))
      (setq numbers (cdr numbers)))
    product))

; The first number less all others; of one number, that number below 0.
(defun - (number :rest numbers)
  (if (null numbers)
      (- 0 number)
      (progn
        (assure <integer> number)
        (%check-integers numbers)
        (while (not (null numbers))
          (setq number (- number (car numbers)))
          (setq numbers (cdr numbers)))
        number)))

; All objects of a list are to be integers.
(defun %check-integers (objects)
  (while (not (null objects))
    (assure <integer> (car objects))
    (setq objects (cdr objects))))

; The quotient towards minus infinity, and what it leaves, which has the sign of the divisor.
(defun div (number divisor) (div number divisor))
(defun mod (number divisor) (mod number divisor))

; Comparisons.
(defun = (first second) (= first second))
(defun /= (first second) (/= first second))
(defun < (first second) (< first second))
(defun <= (first second) (<= first second))
(defun > (first second) (> first second))
(defun >= (first second) (>= first second))

; Whether an object is a number. No object is a floating-point number.
(defun integerp (object) (integerp object))
(defun numberp (object) (integerp object))
(defun floatp (object) nil)

; The number without its sign.
(defun abs (number)
  (if (< number 0) (- 0 number) number))

; The least and the greatest of the numbers.
(defun min (number :rest numbers)
  (assure <integer> number)
  (while (not (null numbers))
    (if (> number (car numbers)) (setq number (car numbers)))
    (setq numbers (cdr numbers)))
  number)

(defun max (number :rest numbers)
  (assure <integer> number)
  (while (not (null numbers))
    (if (< number (car numbers)) (setq number (car numbers)))
    (setq numbers (cdr numbers)))
  number)

; The greatest common divisor, by Euclid.
(defun gcd (first second)
  (assure <integer> first)
  (assure <integer> second)
  (while (/= second 0)
    (let ((rest (mod first second)))
      (setq first second)
      (setq second rest)))
  (abs first))

; The least common multiple, 0 where one of the numbers is 0.
(defun lcm (first second)
  (assure <integer> first)
  (assure <integer> second)
  (if (or (= first 0) (= second 0))
      0
      (abs (* (div first (gcd first second)) second))))

; The greatest integer whose square is no greater than the number: bit by bit, from the highest that may be set.
(defun isqrt (number)
  (%natural number)
  (let ((root 0) (bit 16384))
    (while (> bit 0)
      (let ((greater (+ root bit)))
        (if (<= greater (div number greater)) (setq root greater)))
      (setq bit (div bit 2)))
    root))

; A number to the power of an exponent that is no less than 0.
(defun expt (base exponent)
  (assure <integer> base)
  (%natural exponent)
  (%power base exponent))

(defun %power (base exponent)
  (cond ((= exponent 0) 1)
        ((= (mod exponent 2) 1) (* base (%power base (- exponent 1))))
        (t (let ((half (%power base (div exponent 2))))
             (* half half)))))

; The number that a string has the text of, as it stands in a program: blanks in front of it are passed over, and what is behind it is
; not looked at, unless it would go on as a name.
(defun parse-number (string)
  (let* ((start (%behind-blanks string)) (radix (%radix-at string start)))
    (if (null radix)
        (%integer-at string start 10)
        (%integer-at string (+ start 2) radix))))

(defun %behind-blanks (string)
  (let ((index 0) (end (%string-length string)))
    (while (and (< index end) (%is-blank (%char-code (%char-at string index))))
      (setq index (+ index 1)))
    index))

(defun %is-blank (code)
  (or (= code 32) (= code 9) (= code 10) (= code 12) (= code 13)))

; The radix that #b, #o or #x names at an index, nil where none of these stands there.
(defun %radix-at (string index)
  (if (eql (%char-or-nil string index) #\#)
      (let ((letter (%char-or-nil string (+ index 1))))
        (cond ((or (eql letter #\b) (eql letter #\B)) 2)
              ((or (eql letter #\o) (eql letter #\O)) 8)
              ((or (eql letter #\x) (eql letter #\X)) 16)
              (t nil)))
      nil))

; The character at an index, nil where the string ends before it.
(defun %char-or-nil (string index)
  (if (< index (%string-length string)) (%char-at string index) nil))

; The integer that stands at an index: a sign, which may be left out, and digits of the radix, at least one.
(defun %integer-at (string index radix)
  (let* ((sign (%char-or-nil string index))
         (first (if (or (eql sign #\-) (eql sign #\+)) (+ index 1) index))
         (end (%behind-digits string first radix)))
    (if (or (= first end) (%goes-on-at string end)) (%parse-error))
    (%value-of-digits string first end radix (if (eql sign #\-) -1 1))))

(defun %behind-digits (string index radix)
  (while (%digit-value (%char-or-nil string index) radix)
    (setq index (+ index 1)))
  index)

(defun %goes-on-at (string index)
  (let ((character (%char-or-nil string index)))
    (and (not (null character))
         (or (%is-name-character character)
             (and (char<= #\A character) (char<= character #\Z))))))

; Each digit counts with the sign, since the least integer has no opposite.
(defun %value-of-digits (string index end radix sign)
  (let ((number 0))
    (while (< index end)
      (setq number (+ (* number radix) (* sign (%digit-value (%char-at string index) radix))))
      (setq index (+ index 1)))
    number))

; What a character counts as a digit of the radix; nil where it is none, and where there is no character.
(defun %digit-value (character radix)
  (let ((value (if (null character) radix (%code-value (%char-code character)))))
    (if (< value radix) value nil)))

; 0 to 9 for the code of a digit, 10 to 35 for that of a letter, 36 for any other code.
(defun %code-value (code)
  (cond ((< code 48) 36)
        ((< code 58) (- code 48))
        ((< code 65) 36)
        ((< code 91) (- code 55))
        ((< code 97) 36)
        ((< code 123) (- code 87))
        (t 36)))
; Objects: what any object can be asked for, and instances of classes.

; Whether two objects are the same: integers and characters by value, all others by identity.
(defun eq (first second) (eq first second))
(defun eql (first second) (eql first second))

; Whether two objects are alike: the same, or conses, strings or vectors whose parts are alike.
(defun equal (first second)
  (while (and (consp first) (consp second) (equal (car first) (car second)))
    (setq first (cdr first))
    (setq second (cdr second)))
  (cond ((and (consp first) (consp second)) nil)
        ((and (stringp first) (stringp second)) (string= first second))
        ((and (general-vector-p first) (general-vector-p second)) (%equal-vectors first second))
        (t (eql first second))))

(defun %equal-vectors (first second)
  (let ((index 0) (end (%vector-length first)))
    (and (= end (%vector-length second))
         (progn
           (while (and (< index end) (equal (%vector-ref first index) (%vector-ref second index)))
             (setq index (+ index 1)))
           (= index end)))))

; Whether an object is nil.
(defun not (object) (not object))
(defun null (object) (null object))

; The object itself.
(defun identity (object) object)

; Whether an object is of a kind.
(defun symbolp (object) (symbolp object))
(defun functionp (object) (functionp object))
(defun generic-function-p (object) (generic-function-p object))

; The class of an object, whether an object is an instance of a class, and whether a class is below another or is it.
(defun class-of (object) (class-of object))
(defun instancep (object class) (instancep object class))
(defun subclassp (class above) (subclassp class above))

; A new symbol, which is no other symbol.
(defun gensym () (gensym))

; A new instance of a class: its slots are filled by `initialize-object`.
(defun create (class :rest initargs)
  (let ((instance (%allocate class)))
    (initialize-object instance initargs)
    instance))

; Fills the slots of an instance: initargs is a list of names, each followed by its value.
(defgeneric initialize-object (instance initargs))

(defmethod initialize-object ((instance <object>) initargs)
  (let ((place 0) (count (%slot-count instance)))
    (%check-pairs initargs)
    (while (< place count)
      (%fill-slot instance place initargs)
      (setq place (+ place 1)))
    instance))

; A list of initargs has a value behind each name.
(defun %check-pairs (initargs)
  (while (not (null initargs))
    (if (null (cdr initargs)) (%program-error))
    (setq initargs (cdr (cdr initargs)))))

; Fills a slot: with the value behind the first initarg that names it, else with the value of its initform, where it has one.
(defun %fill-slot (instance place initargs)
  (let ((names (%slot-initargs instance place)) (initform (%slot-initform instance place)))
    (while (not (or (null initargs) (%memv (car initargs) names)))
      (setq initargs (cdr (cdr initargs))))
    (cond ((not (null initargs)) (%slot-set (car (cdr initargs)) instance place))
          ((not (null initform)) (%slot-set (funcall initform) instance place)))))

; The value of the slot with this name.
(defun %slot-of (instance name)
  (%slot-ref instance (%slot-place instance name)))

; An object as one of another class.
(defun %convert (object class)
  (cond ((instancep object class) object)
        ((eq class (class <integer>))
         (cond ((characterp object) (%char-code object))
               ((stringp object) (parse-number object))
               (t (%domain-error object class))))
        ((eq class (class <character>))
         (if (integerp object) (%code-char object) (%domain-error object class)))
        ((eq class (class <string>))
         (cond ((integerp object) (%digits object))
               ((symbolp object) (%symbol-name object))
               (t (%domain-error object class))))
        ((eq class (class <list>))
         (cond ((stringp object) (%list-of-string object))
               ((general-vector-p object) (%list-of-vector object))
               (t (%domain-error object class))))
        ((eq class (class <general-vector>))
         (cond ((stringp object) (%list-vector (%list-of-string object)))
               ((listp object) (%list-vector object))
               (t (%domain-error object class))))
        (t (%domain-error object class))))
; Output: the one stream that is printed to is standard output. Bytes are put by %put-char alone. What prints gives nil.

(defun standard-output () (standard-output))

; What was put is at its stream: nothing is held back.
(defun finish-output (stream)
  (%check-output stream)
  nil)

; Puts a character.
(defun format-char (stream character) (%emit stream character))

(defun %emit (stream character) (%put-char stream character))

; Whether a line begins where the next character is put.
(defun %at-start (stream)
  (%check-output stream)
  (%fresh))

(defun %check-output (stream)
  (if (not (eq stream (standard-output))) (%domain-error stream (class <stream>))))

; Ends the line, where one has begun.
(defun format-fresh-line (stream)
  (if (not (%at-start stream)) (%emit stream #\newline)))

; Prints an integer in a radix from 2 to 36.
(defun format-integer (stream integer radix)
  (%check-output stream)
  (assure <integer> integer)
  (assure <integer> radix)
  (if (or (< radix 2) (> radix 36)) (%domain-error radix (class <integer>)))
  (%emit-integer stream integer radix))

; An integer below 0 is printed by its last digit and what is in front of it, since the number without its sign may not fit.
(defun %emit-integer (stream integer radix)
  (if (>= integer 0)
      (%emit-natural stream integer radix)
      (let* ((last (mod (- 0 (mod integer radix)) radix))
             (front (- 0 (div (+ integer last) radix))))
        (%emit stream #\-)
        (if (> front 0) (%emit-natural stream front radix))
        (%emit-digit stream last))))

(defun %emit-natural (stream number radix)
  (if (>= number radix) (%emit-natural stream (div number radix) radix))
  (%emit-digit stream (mod number radix)))

(defun %emit-digit (stream digit)
  (%emit stream (%digit digit)))

(defun %digit (digit)
  (%char-at "0123456789ABCDEFGHIJKLMNOPQRSTUVWXYZ" digit))

; The decimal digits of an integer in a string.
(defun %digits (integer)
  (let ((rest integer) (length 0) (digits nil))
    (while (or (/= rest 0) (= length 0))
      (let ((last (if (< integer 0) (mod (- 0 (mod rest 10)) 10) (mod rest 10))))
        (setq digits (cons (%digit last) digits))
        (setq rest (div (if (< integer 0) (+ rest last) rest) 10)))
      (setq length (+ length 1)))
    (if (< integer 0)
        (%string-of-turned (+ length 1) (nreverse (cons #\- digits)))
        (%string-of-turned length (nreverse digits)))))

; Prints an object: as it can be read again where the flag is not nil, else as it is to be seen.
(defun format-object (stream object escape)
  (%check-output stream)
  (%print stream object escape))

; What is still to come of the lists and vectors around is in a list, the innermost first, so what is deep takes no deep calls: of a list
; the pair of nil and the rest of it, of a vector the pair of the vector and its next index.
(defun %print (stream object escape)
  (let ((around (%print-front stream object escape nil)))
    (while (not (null around))
      (setq around (%print-more stream escape around))))
  nil)

; Prints an object up to its first part that has no parts itself, with what is still to come of it in front of what is around.
(defun %print-front (stream object escape around)
  (while (or (consp object) (and (general-vector-p object) (> (%vector-length object) 0)))
    (if (consp object)
        (progn
          (%put-char stream #\()
          (setq around (cons (cons nil (cdr object)) around))
          (setq object (car object)))
        (progn
          (%emit-all stream "#(")
          (setq around (cons (cons object 1) around))
          (setq object (%vector-ref object 0)))))
  (%print-single stream object escape)
  around)

; Prints the next part of the innermost list or vector, or its end, and gives what is to come then.
(defun %print-more (stream escape around)
  (let ((vector (car (car around))) (rest (cdr (car around))))
    (cond ((null vector) (%print-more-of-list stream escape rest around))
          ((< rest (%vector-length vector))
           (%put-char stream #\space)
           (set-cdr (+ rest 1) (car around))
           (%print-front stream (%vector-ref vector rest) escape around))
          (t (%put-char stream #\))
             (cdr around)))))

(defun %print-more-of-list (stream escape rest around)
  (cond ((consp rest)
         (%put-char stream #\space)
         (set-cdr (cdr rest) (car around))
         (%print-front stream (car rest) escape around))
        ((null rest)
         (%put-char stream #\))
         (cdr around))
        (t (%emit-all stream " . ")
           (set-cdr nil (car around))
           (%print-front stream rest escape around))))

; What has no parts.
(defun %print-single (stream object escape)
  (cond ((integerp object) (%emit-integer stream object 10))
        ((symbolp object) (%print-symbol stream object escape))
        ((stringp object) (%print-string stream object escape))
        ((characterp object) (%print-character stream object escape))
        ((general-vector-p object) (%emit-all stream "#()"))
        (t (%print-opaque stream object))))

(defun %print-character (stream character escape)
  (cond ((null escape) (%emit stream character))
        ((eql character #\space) (%emit-all stream "#\\space"))
        ((eql character #\newline) (%emit-all stream "#\\newline"))
        (t (%emit-all stream "#\\")
           (%emit stream character))))

(defun %print-string (stream string escape)
  (if (null escape)
      (%emit-all stream string)
      (%emit-between stream #\" string)))

(defun %print-symbol (stream symbol escape)
  (let ((serial (%symbol-serial symbol)))
    (if (null serial)
        (%print-name stream (%symbol-name symbol) escape)
        (progn
          (%emit-all stream "#:g")
          (%emit-integer stream serial 10)))))

(defun %print-name (stream name escape)
  (if (or (null escape) (%is-plain name))
      (%emit-all stream name)
      (%emit-between stream #\| name)))

; What no text stands for.
(defun %print-opaque (stream object)
  (cond ((generic-function-p object) (%emit-all stream "#<generic-function>"))
        ((functionp object) (%emit-all stream "#<function>"))
        ((instancep object (class <stream>)) (%emit-all stream "#<stream>"))
        ((or (instancep object (class <built-in-class>)) (instancep object (class <standard-class>)))
         (%print-named stream "#<class " object))
        (t (%print-named stream "#<instance " (class-of object)))))

(defun %print-named (stream front class)
  (%emit-all stream front)
  (%emit-all stream (%symbol-name (%class-name class)))
  (%emit stream #\>))

; Puts the characters of a string.
(defun %emit-all (stream string)
  (let ((index 0) (end (%string-length string)))
    (while (< index end)
      (%put-char stream (%char-at string index))
      (setq index (+ index 1)))))

; Puts them between two marks, with a backslash before each such mark and each backslash.
(defun %emit-between (stream mark string)
  (%put-char stream mark)
  (let ((index 0) (end (%string-length string)))
    (while (< index end)
      (let ((character (%char-at string index)))
        (if (or (eql character mark) (eql character #\\)) (%put-char stream #\\))
        (%put-char stream character))
      (setq index (+ index 1))))
  (%put-char stream mark))

; Whether the name of a symbol is read as that symbol without bars: not empty, no dot alone, no beginning of a number, and of
; characters of names alone, none of which is a capital letter.
(defun %is-plain (name)
  (let ((index 0) (end (%string-length name)))
    (while (and (< index end) (%is-name-character (%char-at name index)))
      (setq index (+ index 1)))
    (and (> end 0) (= index end) (not (string= name ".")) (not (%begins-number name)))))

(defun %is-name-character (character)
  (or (and (char<= #\a character) (char<= character #\z))
      (%is-digit character)
      (not (null (char-index character "!$%&*+-./:<=>?^_~@[]{}")))))

(defun %is-digit (character)
  (and (char<= #\0 character) (char<= character #\9)))

(defun %begins-number (name)
  (or (%is-digit (%char-at name 0))
      (and (> (%string-length name) 1)
           (or (eql (%char-at name 0) #\+) (eql (%char-at name 0) #\-))
           (%is-digit (%char-at name 1)))))
; Sequences: lists, vectors and strings.

; How many items a sequence has.
(defun length (sequence)
  (cond ((stringp sequence) (%string-length sequence))
        ((general-vector-p sequence) (%vector-length sequence))
        (t (%list-length sequence))))

; The item with this index.
(defun elt (sequence index)
  (cond ((stringp sequence) (%char-at sequence index))
        ((general-vector-p sequence) (%vector-ref sequence index))
        (t (car (%list-from sequence index)))))

; Sets that item, and gives the value.
(defun set-elt (value sequence index)
  (cond ((stringp sequence) (%set-char-at value sequence index))
        ((general-vector-p sequence) (%set-vector-ref value sequence index))
        (t (set-car value (%list-from sequence index)))))

; The items from a start up to an end, in a new sequence of the same kind.
(defun subseq (sequence start end)
  (%sequence sequence)
  (assure <integer> start)
  (assure <integer> end)
  (if (or (< start 0) (< end start)) (%program-error))
  (cond ((listp sequence) (%part-of-list sequence start end))
        ((< (length sequence) end) (%program-error))
        ((stringp sequence) (%part-of-string sequence start end))
        (t (%part-of-vector sequence start end))))

(defun %part-of-list (list start end)
  (let ((index 0) (items nil))
    (while (< index end)
      (if (not (consp list)) (%program-error))
      (if (<= start index) (setq items (cons (car list) items)))
      (setq list (cdr list))
      (setq index (+ index 1)))
    (nreverse items)))

; Sets the items of a sequence to the values of a function of the items of others, as long as all have any; gives the sequence.
(defun map-into (sequence function :rest sequences)
  (%sequence sequence)
  (assure <function> function)
  (let ((lists (mapcar #'%items sequences)))
    (if (listp sequence)
        (%map-into-list sequence function lists)
        (%map-into-vector sequence function lists))
    sequence))

(defun %map-into-list (list function lists)
  (while (and (not (null list)) (%all-left lists))
    (set-car (%apply function (%heads lists)) list)
    (setq list (cdr list))
    (%advance lists)))

(defun %map-into-vector (vector function lists)
  (let ((index 0) (end (length vector)))
    (while (and (< index end) (%all-left lists))
      (set-elt (%apply function (%heads lists)) vector index)
      (setq index (+ index 1))
      (%advance lists))))

; An object that is to be a sequence.
(defun %sequence (object)
  (if (or (listp object) (stringp object) (general-vector-p object))
      object
      (%domain-error object (class <list>))))

; The items of a sequence in a list.
(defun %items (sequence)
  (cond ((stringp sequence) (%list-of-string sequence))
        ((general-vector-p sequence) (%list-of-vector sequence))
        (t (assure <list> sequence))))
; Strings: they compare by the codes of their characters.

(defun stringp (object) (stringp object))

; A string of so many characters, all the same, blanks where no character is named.
(defun create-string (length :rest character)
  (%make-string length (%optional character #\space)))

; The characters of all strings in one new string.
(defun string-append (:rest strings)
  (let ((whole (%make-string (%length-of-all strings) #\space)) (index 0))
    (while (not (null strings))
      (setq index (%copy-into whole index (car strings)))
      (setq strings (cdr strings)))
    whole))

(defun %length-of-all (strings)
  (let ((length 0))
    (while (not (null strings))
      (setq length (+ length (%string-length (car strings))))
      (setq strings (cdr strings)))
    length))

; Puts the characters of a string into another one from an index on; gives the index behind them.
(defun %copy-into (whole index string)
  (let ((from 0) (end (%string-length string)))
    (while (< from end)
      (%set-char-at (%char-at string from) whole index)
      (setq from (+ from 1))
      (setq index (+ index 1)))
    index))

; Whether two strings have the same characters.
(defun string= (first second)
  (let ((index 0) (end (%string-length first)))
    (and (= end (%string-length second))
         (progn
           (while (and (< index end) (eql (%char-at first index) (%char-at second index)))
             (setq index (+ index 1)))
           (= index end)))))

; -1, 0 or 1: the first string is less than the second, equal to it or greater.
(defun %order (first second)
  (let* ((first-end (%string-length first)) (second-end (%string-length second)) (index 0))
    (while (and (< index first-end) (< index second-end)
                (eql (%char-at first index) (%char-at second index)))
      (setq index (+ index 1)))
    (cond ((= index first-end) (if (= index second-end) 0 -1))
          ((= index second-end) 1)
          ((char< (%char-at first index) (%char-at second index)) -1)
          (t 1))))

(defun string/= (first second) (/= (%order first second) 0))
(defun string< (first second) (< (%order first second) 0))
(defun string> (first second) (> (%order first second) 0))
(defun string<= (first second) (<= (%order first second) 0))
(defun string>= (first second) (>= (%order first second) 0))

; The first index of a character in a string, from a start on, 0 where none is named; nil where it does not stand there.
(defun char-index (character string :rest start)
  (let ((index (%optional start 0)))
    (assure <character> character)
    (%check-start string index)
    (let ((end (%string-length string)))
      (while (and (< index end) (not (eql character (%char-at string index))))
        (setq index (+ index 1)))
      (if (< index end) index nil))))

; The first index at which a string stands in another one, from a start on; nil where it does not stand there.
(defun string-index (part string :rest start)
  (let ((index (%optional start 0)))
    (assure <string> part)
    (%check-start string index)
    (let ((last (- (%string-length string) (%string-length part))))
      (while (and (<= index last) (not (%stands-at part string index)))
        (setq index (+ index 1)))
      (if (<= index last) index nil))))

; A start is an index of the string, or its length.
(defun %check-start (string start)
  (let ((end (%string-length string)))
    (assure <integer> start)
    (if (or (< start 0) (> start end)) (%program-error))))

; Whether a string has another one's characters from an index on.
(defun %stands-at (part string index)
  (let ((from 0) (end (%string-length part)))
    (while (and (< from end) (eql (%char-at part from) (%char-at string (+ index from))))
      (setq from (+ from 1)))
    (= from end)))

; The characters of a string in a list.
(defun %list-of-string (string)
  (let ((items nil) (index (%string-length string)))
    (while (> index 0)
      (setq index (- index 1))
      (setq items (cons (%char-at string index) items)))
    items))

; A string of so many characters, which a list has in the other order.
(defun %string-of-turned (length characters)
  (let ((string (%make-string length #\space)))
    (while (> length 0)
      (setq length (- length 1))
      (%set-char-at (car characters) string length)
      (setq characters (cdr characters)))
    string))

; The characters from a start up to an end, in a new string.
(defun %part-of-string (string start end)
  (let ((part (%make-string (- end start) #\space)) (index 0))
    (while (< start end)
      (%set-char-at (%char-at string start) part index)
      (setq start (+ start 1))
      (setq index (+ index 1)))
    part))
; Vectors and arrays: an array of this language is a vector or a string, and has one index.

; A vector of the arguments, and one of the items of a list.
(defun vector (:rest items) (%list-vector items))

(defun %list-vector (items)
  (let ((vector (%make-vector (%list-length items) nil)) (index 0))
    (while (not (null items))
      (%set-vector-ref (car items) vector index)
      (setq items (cdr items))
      (setq index (+ index 1)))
    vector))

; A vector of so many elements, all the same.
(defun create-vector (length :rest element)
  (%make-vector length (%optional element nil)))

; An array whose lengths are a list of one.
(defun create-array (lengths :rest element)
  (let ((item (%optional element nil)))
    (if (and (consp lengths) (null (cdr lengths)))
        (%make-vector (car lengths) item)
        (%program-error))))

; The element of an array with this index, and of an array that is no string.
(defun aref (array index)
  (cond ((stringp array) (%char-at array index))
        ((general-vector-p array) (%vector-ref array index))
        (t (%domain-error array (class <basic-array>)))))

(defun garef (array index) (%vector-ref array index))

; Sets that element, and gives the value.
(defun set-aref (value array index)
  (cond ((stringp array) (%set-char-at value array index))
        ((general-vector-p array) (%set-vector-ref value array index))
        (t (%domain-error array (class <basic-array>)))))

(defun set-garef (value array index) (%set-vector-ref value array index))

; Whether an object is a vector or an array.
(defun general-vector-p (object) (general-vector-p object))
(defun basic-vector-p (object) (or (stringp object) (general-vector-p object)))
(defun basic-array-p (object) (or (stringp object) (general-vector-p object)))

; The elements of a vector in a list.
(defun %list-of-vector (vector)
  (let ((items nil) (index (%vector-length vector)))
    (while (> index 0)
      (setq index (- index 1))
      (setq items (cons (%vector-ref vector index) items)))
    items))

; The elements from a start up to an end, in a new vector.
(defun %part-of-vector (vector start end)
  (let ((part (%make-vector (- end start) nil)) (index 0))
    (while (< start end)
      (%set-vector-ref (%vector-ref vector start) part index)
      (setq start (+ start 1))
      (setq index (+ index 1)))
    part))
"##;
