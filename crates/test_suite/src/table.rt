// The table: one case after another, each ended by a line `end`.

use crate::answer::CallAnswer;
use crate::case::Case;
use crate::given::Call;
use base::NoMemory;
use std::{io, mem};

/// Puts all cases of the table, prints a line for each and then how many there were, and answers whether
/// each was answered as it wants. A line that can't be read, or for which memory is wanting, ends it and
/// counts as wrong.
pub fn put_all<R: Print + AllocGlobal>(rt: &R, table: &str) -> io::Result<bool> {
    let mut case = Case::new(rt.alloc());
    let counted = put_lines(rt, &mut case, table);
    drop(case);
    let Counts { cases, wrong } = counted?;
    println!(rt; "{cases} cases, {wrong} wrong")?;
    Ok(wrong == 0)
}

// How many cases there were, and how many things were wrong.
#[derive(Clone, Copy)]
struct Counts {
    cases: u32,
    wrong: u32,
}

// Puts the cases of these lines, each of which is made in `case`.
fn put_lines<R: Print + AllocGlobal>(rt: &R, case: &mut Case, table: &str) -> io::Result<Counts> {
    let mut cases: u32 = 0;
    let mut wrong: u32 = 0;
    for line in table.lines() {
        let (key, value) = line.split_once(' ').unwrap_or((line, ""));
        if key == "end" {
            let is_right = put(rt, mem::replace(case, Case::new(rt.alloc())))?;
            cases = cases.saturating_add(1);
            wrong = wrong.saturating_add(u32::from(!is_right));
        } else if !is_skipped(line) && case.take(key, value).is_none() {
            println!(rt; "not read: {line}")?;
            wrong = wrong.saturating_add(1);
            break;
        }
    }
    Ok(Counts { cases, wrong })
}

// A line that is empty, or a comment.
fn is_skipped(line: &str) -> bool {
    line.is_empty() || line.starts_with('#')
}

// Puts the case, prints its line, and answers whether its answer is the one that it wants.
fn put<R: Print + AllocGlobal>(rt: &R, case: Case) -> io::Result<bool> {
    let Case {
        title,
        given,
        status,
        printed,
        line,
    } = case;
    let wanted = CallAnswer {
        status,
        printed: printed.as_slice(),
        line: line.as_slice(),
    };
    match given.call(rt.alloc()) {
        Ok(mut call) => {
            let is_right = compare(rt, title.as_str(), &mut call, &wanted);
            drop(call);
            is_right
        }
        Err(NoMemory) => {
            println!(rt; "wrong {title}: no memory")?;
            Ok(false)
        }
    }
}

// Makes the call, prints the line of its case, and answers whether it answers as is wanted.
fn compare<R: Print + AllocGlobal>(
    rt: &R,
    title: &str,
    call: &mut Call,
    wanted: &CallAnswer,
) -> io::Result<bool> {
    let answer = CallAnswer {
        status: call.make(rt.alloc()),
        printed: call.out.bytes(),
        line: call.err.bytes(),
    };
    let is_right = answer.is(wanted);
    if is_right {
        println!(rt; "ok {title}")?;
    } else {
        println!(rt; "wrong {title}: {answer}; wanted {wanted}")?;
    }
    Ok(is_right)
}
