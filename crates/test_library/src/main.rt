// Compares the functions of the library with those of its laws: whether the bodies of the text that ships are the ones of which the
// laws are proved, up to the numbers of literals, procedures, variables and names.
#![tactic(auto)]

mod comparison;
mod pairs;
mod walk;

use base::Stop;
use comparison::Comparison;
use front_files::{Mode, Whole, read_program};
use front_library::PRELUDE;
use lang_library_laws::FUNCTIONS;
use std::io;

fn main(rt: HostRuntime) -> io::Result<()> {
    match read_program(rt.alloc(), b"", PRELUDE, Mode::Run) {
        Ok(whole) => {
            let told = tell_all(&rt, &whole);
            drop(whole);
            told
        }
        Err(Stop::NoMemory) => println!(rt; "no memory"),
        Err(Stop::Refused(_)) => println!(rt; "the library is refused"),
    }
}

// A line for each function, and one for the literals.
fn tell_all(rt: &HostRuntime, whole: &Whole) -> io::Result<()> {
    let mut comparison = Comparison::new(rt.alloc(), whole);
    for (number, function) in FUNCTIONS.iter().enumerate() {
        let name = comparison.name(number);
        let same = comparison.is_same(number, *function);
        println!(rt; "{} {}", name, told(same))?;
    }
    let same = comparison.are_literals_same();
    println!(rt; "the literals {}", told(same))?;
    drop(comparison);
    Ok(())
}

// What is said of a comparison.
fn told(same: bool) -> &'static str {
    if same {
        "as in the law"
    } else {
        "not as in the law"
    }
}
