// The text of a number: its first lines, four lines for each number up to it, and its last line.

ghost use Rattle.std.specs.Prelude.{◌≡◌, ◌++◌, IfOk, OnOk};
ghost use Rattle.std.specs.Fmt.{decimal};
ghost use Rattle.top_made.specs.Text.{text_of, filled, letter_filled, first_lines, numbered_lines, last_line, lines_up_to};

use base::{Bytes, NoMemory};
use std::alloc::Global;

// The four lines in front.
const FIRST: &[u8] = b"(defglobal total 0)
(defclass <c0> () ((v :initarg v :reader v-of)))
(defgeneric g (x))
(defmethod g ((x <c0>)) (v-of x))
";

// The four lines of a number.
const NUMBERED: &[u8] =
    b"(defun fI (x) (block b (unwind-protect (if (< x R) (return-from b (+ x I)) (+ x 1)) (setq total (mod (+ total x) 10007)))))
(defclass <cI> (<c0>) ())
(defmethod g ((x <cI>)) (+ I (call-next-method)))
(setq total (mod (+ total (with-handler (lambda (c) (continue-condition c I)) (+ (fI (mod total 10)) (g (create (class <cI>) 'v I)) (cerror \"go\" \"stop\")))) 10007))
";

// The line at the end.
const LAST: &[u8] = b"(format (standard-output) \"~D~%\" total)\n";

/// The text that `make` runs for a number.
pub fn generate(alloc: Global, number: u32) -> Result<Bytes, NoMemory>
    ensures { IfOk result (λ text. text ≡ text_of number) }
{
    let mut text = first_lines(alloc)?;
    for at in 0..number {
        append_numbered(alloc, &mut text, at + 1)?;
    }
    append_last(&mut text)?;
    Ok(text)
}

// The lines in front.
fn first_lines(alloc: Global) -> Result<Bytes, NoMemory>
    ensures { IfOk result (λ text. text ≡ first_lines) }
{
    Bytes::from_slice(alloc, FIRST)
}

// Appends the lines of a number.
fn append_numbered(alloc: Global, text: &mut Bytes, number: u32) -> Result<(), NoMemory>
    ensures { OnOk result (text.new ≡ text.old ++ filled number numbered_lines) }
{
    append_filled(alloc, text, NUMBERED, number)
}

// Appends the line at the end.
fn append_last(text: &mut Bytes) -> Result<(), NoMemory>
    ensures { OnOk result (text.new ≡ text.old ++ last_line) }
{
    text.append(LAST)
}

// Appends lines with I and R replaced.
fn append_filled(alloc: Global, text: &mut Bytes, lines: &[u8], number: u32) -> Result<(), NoMemory>
    ensures { OnOk result (text.new ≡ text.old ++ filled number lines.now) }
{
    for letter in lines {
        append_letter(alloc, text, *letter, number)?;
    }
    Ok(())
}

// Appends what stands for a letter.
fn append_letter(alloc: Global, text: &mut Bytes, letter: u8, number: u32) -> Result<(), NoMemory>
    ensures { OnOk result (text.new ≡ text.old ++ letter_filled number letter) }
{
    match letter {
        b'I' => append_number(alloc, text, number),
        b'R' => append_number(alloc, text, number % 7),
        other => text.push(other),
    }
}

// Appends the decimal digits of a number.
fn append_number(alloc: Global, text: &mut Bytes, number: u32) -> Result<(), NoMemory>
    ensures { OnOk result (text.new ≡ text.old ++ decimal number) }
{
    let digits = number.to_string(alloc)?;
    text.append(digits.as_str().as_bytes())?;
    drop(digits);
    Ok(())
}
