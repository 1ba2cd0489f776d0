// The lines of what forms are warned of.

ghost use Rattle.std.specs.Prelude.{◌≡◌, ◌≤◌, ◌++◌, OnOk, OnErr, IsOk, [], codes};
ghost use Rattle.std.specs.Fmt.{decimal};
ghost use Rattle.base.specs.Outside.{Rose};
ghost use Rattle.base.specs.Given.{WasGiven};
ghost use Rattle.top_lines.specs.Lines.{warning_line, warning_lines};
ghost use Rattle.top_lines.specs.Warned.{advice, arguments_named, warned};
ghost use Rattle.lang_warnings.specs.declared.warning.Fault.TheVariants as fault;

use crate::lines::{write_number, write_place_in};
use crate::status::WarningLine;
use base::{Failed, Sink, write_all};
use lang_warnings::Fault;

/// Writes a line for each warning about a text that is called so.
pub(crate) fn write_warnings<E: Sink>(
    err: &mut E,
    file: &[u8],
    warnings: &[WarningLine],
) -> Result<(), Failed>
    ensures given { OnOk result (WasGiven (E.given err.old) (warning_lines file.now warnings.now) (E.given err.new)) }
    ensures quiet { warning_lines file.now warnings.now ≡ [] → IsOk result }
    ensures fault { OnErr result (Rose (E.faults err.old) (E.faults err.new)) }
    ensures count { E.faults err.old ≤ E.faults err.new }
{
    for warning in warnings {
        write_warning(err, file, warning)?;
    }
    Ok(())
}

// `FILE:LINE:COLUMN: warning: TEXT`
fn write_warning<E: Sink>(err: &mut E, file: &[u8], warning: &WarningLine) -> Result<(), Failed>
    ensures given { OnOk result (WasGiven (E.given err.old) (warning_line file.now warning.now) (E.given err.new)) }
    ensures fault { OnErr result (Rose (E.faults err.old) (E.faults err.new)) }
    ensures count { E.faults err.old ≤ E.faults err.new }
{
    write_place_in(err, file, warning.place)?;
    write_all(err, b": warning: ")?;
    write_fault(err, warning.name.as_slice(), warning.fault)?;
    write_all(err, b"\n")
}

// What is wrong.
fn write_fault<E: Sink>(err: &mut E, name: &[u8], fault: Fault) -> Result<(), Failed>
    ensures given { OnOk result (WasGiven (E.given err.old) (warned name.now fault) (E.given err.new)) }
    ensures fault { OnErr result (Rose (E.faults err.old) (E.faults err.new)) }
    ensures count { E.faults err.old ≤ E.faults err.new }
{
    match fault {
        Fault::NoFunction => write_no_function(err, name),
        Fault::Arguments {
            given,
            required,
            more,
        } => write_arguments(err, name, given, required, more),
        Fault::NoVariable => write_no_variable(err, name),
    }
}

fn write_no_function<E: Sink>(err: &mut E, name: &[u8]) -> Result<(), Failed>
    ensures given { OnOk result (WasGiven (E.given err.old) (warned name.now fault.NoFunction) (E.given err.new)) }
    ensures fault { OnErr result (Rose (E.faults err.old) (E.faults err.new)) }
    ensures count { E.faults err.old ≤ E.faults err.new }
{
    write_all(err, name)?;
    write_all(err, b" names no function")?;
    write_all(err, advice(name).as_bytes())
}

fn write_no_variable<E: Sink>(err: &mut E, name: &[u8]) -> Result<(), Failed>
    ensures given { OnOk result (WasGiven (E.given err.old) (warned name.now fault.NoVariable) (E.given err.new)) }
    ensures fault { OnErr result (Rose (E.faults err.old) (E.faults err.new)) }
    ensures count { E.faults err.old ≤ E.faults err.new }
{
    write_all(err, name)?;
    write_all(err, b" names no global variable")
}

fn write_arguments<E: Sink>(
    err: &mut E,
    name: &[u8],
    given: usize,
    required: usize,
    more: bool,
) -> Result<(), Failed>
    ensures given { OnOk result (WasGiven (E.given err.old) (warned name.now (fault.Arguments given required more)) (E.given err.new)) }
    ensures fault { OnErr result (Rose (E.faults err.old) (E.faults err.new)) }
    ensures count { E.faults err.old ≤ E.faults err.new }
{
    write_all(err, name)?;
    write_all(err, b" takes ")?;
    write_number(err, required as u64)?;
    write_all(err, arguments_named(required, more).as_bytes())?;
    write_given(err, given)
}

fn write_given<E: Sink>(err: &mut E, given: usize) -> Result<(), Failed>
    ensures given { OnOk result (WasGiven (E.given err.old) (codes ", and here are " ++ decimal given) (E.given err.new)) }
    ensures fault { OnErr result (Rose (E.faults err.old) (E.faults err.new)) }
    ensures count { E.faults err.old ≤ E.faults err.new }
{
    write_all(err, b", and here are ")?;
    write_number(err, given as u64)
}

// `argument` or `arguments` of so many, behind the number.
fn arguments_named(count: usize, more: bool) -> &'static str
    ensures { result.now ≡ arguments_named count more }
{
    if more {
        " or more arguments"
    } else if count == 1 {
        " argument"
    } else {
        " arguments"
    }
}

// How the language says what other Lisps say by this name.
fn advice(name: &[u8]) -> &'static str
    ensures { result.now ≡ advice name.now }
{
    if name == b"when".as_slice() {
        ": write (if TEST (progn FORM ..))"
    } else if name == b"unless".as_slice() {
        ": write (if (not TEST) (progn FORM ..))"
    } else if name == b"dolist".as_slice() {
        ": write (mapc (lambda (NAME) FORM ..) LIST)"
    } else if name == b"dotimes".as_slice() {
        ": write (for ((NAME 0 (+ NAME 1))) ((>= NAME COUNT)) FORM ..)"
    } else if name == b"loop".as_slice() {
        ": write (while TEST FORM ..) or (for ..)"
    } else if name == b"push".as_slice() {
        ": write (setf PLACE (cons ITEM PLACE))"
    } else if name == b"incf".as_slice() {
        ": write (setf PLACE (+ PLACE 1))"
    } else if name == b"return".as_slice() {
        ": write (return-from NAME FORM) in (block NAME FORM ..)"
    } else if name == b"defvar".as_slice() {
        ": write (defglobal NAME FORM) or (defdynamic NAME FORM)"
    } else if name == b"defparameter".as_slice() {
        ": write (defglobal NAME FORM) or (defdynamic NAME FORM)"
    } else {
        ""
    }
}
