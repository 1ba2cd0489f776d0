// The code of control records: they are lent words of blocks of the stack, laid where a form begins and left where it ends.

ghost use Rattle.std.specs.Prelude.{◌≡◌, ◌++◌, ◌+◌, ◌<◌, ◌^◌, pos, [], ◌∷◌, OnOk, IfOk};
ghost use Rattle.mid_code.specs.MidCode as mid;
ghost use Rattle.mid_code.specs.MidCode.{code_of};
ghost use Rattle.mid_code.specs.model.View.{codes_of};
ghost use Rattle.mid_code.specs.declared.operation.Operation.TheVariants as operation;
ghost use Rattle.back_lowering.specs.ControlWords.{serials_address, link_address, landing_address, target_address, record_serial, record_link, exit_kind, cleanup_kind};
ghost use Rattle.back_lowering.specs.Records as records;
ghost use Rattle.back_calls.specs.RecordWords as laying;
ghost use Rattle.back_lowering.specs.Routines.{transfer_routine};
ghost use Rattle.back_lowering.specs.Steps as steps;

use back_leaves::leaves::{routine, site_stored};
use back_leaves::steps::{
    call, if_different, move_word, push_four, push_three, push_two, three, two,
};
use back_leaves::words::{
    BINDINGS, CATCH_KIND, CLEANUP_KIND, CURRENT, EXIT_KIND, HANDLERS, LANDING, LEAVE, LINK,
    RECORD_KIND, RECORD_LINK, RECORD_OUTER, RECORD_SERIAL, RECORD_TAG, RECORD_WORDS, SERIALS,
    TARGET, TRANSFER,
};
use back_lowering::{OwnExit, Placement, Reach, SitePlace};
use base::NoMemory;
use mid_arena::steps::{comparing, compute, constant, load, store};
use mid_arena::words::NIL;
use mid_code::{
    Arithmetic, CaseList, Code, CodeStep, Comparison, Counted, Operation, Register, StepKind,
};
use std::alloc::Global;

// The kind of a record, and the record outside it, stand in its words; t is 0 behind it.
fn record_linked(code: &mut Code, b: Register, t: Register, kind: u32) -> Result<(), NoMemory>
    requires block { b < 2 ^ 62 }
    requires free { t < 2 ^ 62 }
    ensures { OnOk result (code.new ≡ code.old ++ laying.record_linked b t kind) }
{
    push_three(
        code,
        constant(t, 0),
        constant(t + 1, kind),
        store(t + 1, b, RECORD_KIND),
    )?;
    push_two(code, load(b + 1, t, CURRENT), store(b + 1, b, RECORD_OUTER))
}

// The link, the handlers and the bindings outside are kept, and the record is the current one.
fn record_kept(code: &mut Code, b: Register, t: Register) -> Result<(), NoMemory>
    requires { b < 2 ^ 62 }
    ensures { OnOk result (code.new ≡ code.old ++ laying.record_kept b t) }
{
    push_four(
        code,
        load(b + 2, t, LINK),
        load(b + 3, t, HANDLERS),
        load(b + 4, t, BINDINGS),
        store(b, t, CURRENT),
    )
}

/// A record of a kind, in register b, is the current one; what was outside is kept in the four registers behind b. t and the next one are
/// used.
pub fn record_laid(code: &mut Code, b: Register, t: Register, kind: u32) -> Result<(), NoMemory>
    requires block { b < 2 ^ 62 }
    requires free { t < 2 ^ 62 }
    ensures { OnOk result (code.new ≡ code.old ++ records.record_laid b t kind) }
{
    record_linked(code, b, t, kind)?;
    record_kept(code, b, t)
}

/// The same for an exit: its serial number, in register e, is the next one, and it is the innermost valid exit.
pub fn exit_laid(
    code: &mut Code,
    e: Register,
    b: Register,
    t: Register,
    kind: u32,
) -> Result<(), NoMemory>
    requires block { b < 2 ^ 62 }
    requires free { t < 2 ^ 62 }
    ensures { OnOk result (code.new ≡ code.old ++ records.exit_laid e b t kind) }
{
    record_laid(code, b, t, kind)?;
    exit_drawn(code, e, b, t)
}

// The next serial number, in register e, is the record's, and the record is the innermost valid exit.
fn exit_drawn(code: &mut Code, e: Register, b: Register, t: Register) -> Result<(), NoMemory>
    requires { b < 2 ^ 62 }
    ensures { OnOk result (code.new ≡ code.old ++ laying.exit_drawn e b t) }
{
    push_four(
        code,
        drawn(e, t),
        store(e, b, RECORD_SERIAL),
        store(b + 2, b, RECORD_LINK),
        store(b, t, LINK),
    )
}

// The next serial number.
fn drawn(to: Register, base: Register) -> CodeStep
    ensures { result ≡ mid.perform (operation.Draw to base (pos serials_address)) }
{
    CodeStep::new(StepKind::Do(Operation::Draw {
        to,
        base,
        offset: SERIALS,
    }))
}

/// The code inside fell out: the record and the link outside are current again; t is used.
pub fn record_left(code: &mut Code, b: Register, t: Register) -> Result<(), NoMemory>
    requires { b < 2 ^ 62 }
    ensures { OnOk result (code.new ≡ code.old ++ records.record_left b t) }
{
    push_three(
        code,
        constant(t, 0),
        store(b + 1, t, CURRENT),
        store(b + 2, t, LINK),
    )
}

/// The landing: handlers and bindings too are those of where the record was laid.
pub fn record_landed(code: &mut Code, b: Register, t: Register) -> Result<(), NoMemory>
    requires { b < 2 ^ 62 }
    ensures { OnOk result (code.new ≡ code.old ++ records.record_landed b t) }
{
    record_left(code, b, t)?;
    push_two(code, store(b + 3, t, HANDLERS), store(b + 4, t, BINDINGS))
}

/// A block of the stack, with the code inside and the landing.
pub fn with_block(
    block: Register,
    words: u32,
    word: Register,
    inside: Code,
    landing: Code,
) -> CodeStep
    ensures { result ≡ mid.with_block block words word (code_of inside) (code_of landing) }
{
    CodeStep::new(StepKind::WithBlock {
        block,
        words,
        word,
        inside,
        landing,
    })
}

// Only the landing of a record.
fn landing_of(alloc: Global, b: Register, t: Register) -> Result<Code, NoMemory>
    requires { b < 2 ^ 62 }
    ensures { IfOk result (λ code. code ≡ records.record_landed b t) }
{
    let mut code = Code::new(alloc);
    record_landed(&mut code, b, t)?;
    Ok(code)
}

// The code inside a record of an exit falls out with the result of the body.
fn body_left(code: &mut Code, d: Register, body: Code) -> Result<(), NoMemory>
    requires { d < 2 ^ 61 }
    ensures { OnOk result (code.new ≡ code.old ++ (body ++ (records.record_left (d + 1) (d + 7) ++ (steps.move d (d + 6) ∷ [])))) }
{
    code.append_list(body)?;
    record_left(code, d + 1, d + 7)?;
    code.push(move_word(d, d + 6))
}

// The code inside the record of an exit.
fn exit_inside(alloc: Global, d: Register, kind: u32, body: Code) -> Result<Code, NoMemory>
    requires { d < 2 ^ 61 }
    ensures { IfOk result (λ code. code ≡ laying.exit_inside d kind body) }
{
    let mut inside = Code::new(alloc);
    exit_laid(&mut inside, d, d + 1, d + 6, kind)?;
    body_left(&mut inside, d, body)?;
    Ok(inside)
}

/// The body of a block, whose result is the block's; so is the word of a transfer.
pub fn block_code(code: &mut Code, alloc: Global, d: Register, body: Code) -> Result<(), NoMemory>
    requires { d < 2 ^ 61 }
    ensures { OnOk result (code.new ≡ code.old ++ records.block_code d body) }
{
    let landing = landing_of(alloc, d + 1, d + 6)?;
    let inside = exit_inside(alloc, d, EXIT_KIND, body)?;
    code.push(with_block(d + 1, RECORD_WORDS, d, inside, landing))
}

// The code inside the record of a catch: the tag is kept first.
fn catch_inside(alloc: Global, d: Register, body: Code) -> Result<Code, NoMemory>
    requires { d < 2 ^ 61 }
    ensures { IfOk result (λ code. code ≡ laying.catch_inside d body) }
{
    let exit = exit_inside(alloc, d, CATCH_KIND, body)?;
    let mut inside = Code::new(alloc);
    inside.push(store(d, d + 1, RECORD_TAG))?;
    inside.append_list(exit)?;
    Ok(inside)
}

/// The same for a catch, whose tag is in d.
pub fn catch_code(code: &mut Code, alloc: Global, d: Register, body: Code) -> Result<(), NoMemory>
    requires { d < 2 ^ 61 }
    ensures { OnOk result (code.new ≡ code.old ++ records.catch_code d body) }
{
    let landing = landing_of(alloc, d + 1, d + 6)?;
    let inside = catch_inside(alloc, d, body)?;
    code.push(with_block(d + 1, RECORD_WORDS, d, inside, landing))
}

// The segments of a tagbody, one after another from the one in d + 6 on.
fn segments_code(
    code: &mut Code,
    alloc: Global,
    d: Register,
    segments: u32,
    bodies: CaseList,
) -> Result<(), NoMemory>
    requires { d < 2 ^ 61 }
    ensures { OnOk result (code.new ≡ code.old ++ records.segments_code d segments (codes_of bodies)) }
{
    let mut head = Code::new(alloc);
    let switch = CodeStep::new(StepKind::Switch {
        register: d + 6,
        codes: bodies,
    });
    push_four(
        &mut head,
        switch,
        constant(d + 7, 1),
        compute(d + 6, Arithmetic::Add, d + 6, d + 7),
        constant(d + 7, segments),
    )?;
    code.push(CodeStep::new(StepKind::Repeat {
        counted: Counted::Turn,
        head,
        test: comparing(Comparison::Different, d + 6, d + 7),
        body: Code::new(alloc),
    }))
}

// A transfer goes on at one of them.
fn segments_landing(alloc: Global, d: Register) -> Result<Code, NoMemory>
    requires { d < 2 ^ 61 }
    ensures { IfOk result (λ code. code ≡ laying.segments_landing d) }
{
    let mut code = landing_of(alloc, d + 1, d + 8)?;
    code.push(load(d + 6, d + 8, LANDING))?;
    Ok(code)
}

// The segments inside the record of a tagbody.
fn segments_inside(
    alloc: Global,
    d: Register,
    segments: u32,
    bodies: CaseList,
) -> Result<Code, NoMemory>
    requires { d < 2 ^ 61 }
    ensures { IfOk result (λ code. code ≡ laying.segments_inside d segments (codes_of bodies)) }
{
    let mut code = Code::new(alloc);
    record_laid(&mut code, d + 1, d + 7, EXIT_KIND)?;
    push_three(
        &mut code,
        store(d, d + 1, RECORD_SERIAL),
        store(d + 3, d + 1, RECORD_LINK),
        store(d + 1, d + 7, LINK),
    )?;
    segments_code(&mut code, alloc, d, segments, bodies)?;
    record_left(&mut code, d + 1, d + 7)?;
    Ok(code)
}

// The record of a tagbody with its segments, on one level.
fn level_block(
    code: &mut Code,
    alloc: Global,
    d: Register,
    segments: u32,
    bodies: CaseList,
) -> Result<(), NoMemory>
    requires { d < 2 ^ 61 }
    ensures { OnOk result (code.new ≡ code.old ++ (laying.level_block d segments (codes_of bodies) ∷ [])) }
{
    let landing = segments_landing(alloc, d)?;
    let inside = segments_inside(alloc, d, segments, bodies)?;
    code.push(with_block(d + 1, RECORD_WORDS, d + 7, inside, landing))
}

// A level of a tagbody, and the number behind its segments.
fn level_code(alloc: Global, d: Register, segments: u32, bodies: CaseList) -> Result<Code, NoMemory>
    requires { d < 2 ^ 61 }
    ensures { IfOk result (λ code. code ≡ laying.level_block d segments (codes_of bodies) ∷ steps.constant (d + 7) segments ∷ []) }
{
    let mut code = Code::new(alloc);
    level_block(&mut code, alloc, d, segments, bodies)?;
    code.push(constant(d + 7, segments))?;
    Ok(code)
}

// A level after another, until the segments are done.
fn levels(alloc: Global, d: Register, level: Code) -> CodeStep
    requires { d < 2 ^ 61 }
    ensures { result ≡ laying.levels d level }
{
    CodeStep::new(StepKind::Repeat {
        counted: Counted::Level,
        head: level,
        test: comparing(Comparison::Different, d + 6, d + 7),
        body: Code::new(alloc),
    })
}

// The first segment is the next one, and the serial number is drawn.
fn tagbody_begun(code: &mut Code, d: Register) -> Result<(), NoMemory>
    requires { d < 2 ^ 61 }
    ensures { OnOk result (code.new ≡ code.old ++ laying.tagbody_begun d) }
{
    push_three(
        code,
        constant(d + 6, 0),
        constant(d + 7, 0),
        drawn(d, d + 7),
    )
}

/// A tagbody. A transfer goes on at one of its segments, a level below, with the same serial number.
pub fn tagbody_code(
    code: &mut Code,
    alloc: Global,
    d: Register,
    segments: u32,
    bodies: CaseList,
) -> Result<(), NoMemory>
    requires { d < 2 ^ 61 }
    ensures { OnOk result (code.new ≡ code.old ++ records.tagbody_code d segments (codes_of bodies)) }
{
    let level = level_code(alloc, d, segments, bodies)?;
    tagbody_begun(code, d)?;
    code.push(levels(alloc, d, level))?;
    code.push(constant(d, NIL))
}

// The form of a cleanup inside its record.
fn unwind_inside(alloc: Global, d: Register, form: Code) -> Result<Code, NoMemory>
    requires { d < 2 ^ 61 }
    ensures { IfOk result (λ code. code ≡ laying.unwind_inside d form) }
{
    let mut code = Code::new(alloc);
    record_laid(&mut code, d + 1, d + 6, CLEANUP_KIND)?;
    body_left(&mut code, d, form)?;
    code.push(constant(d + 1, 0))?;
    Ok(code)
}

// A transfer came to the cleanup: its target and its landing are kept.
fn unwind_landing(alloc: Global, d: Register) -> Result<Code, NoMemory>
    requires { d < 2 ^ 61 }
    ensures { IfOk result (λ code. code ≡ laying.unwind_landing d) }
{
    let mut code = landing_of(alloc, d + 1, d + 6)?;
    push_three(
        &mut code,
        load(d + 1, d + 6, TARGET),
        load(d + 2, d + 6, LANDING),
        store(d + 1, d + 6, LINK),
    )?;
    Ok(code)
}

// The record of a cleanup with the form.
fn unwind_block(code: &mut Code, alloc: Global, d: Register, form: Code) -> Result<(), NoMemory>
    requires { d < 2 ^ 61 }
    ensures { OnOk result (code.new ≡ code.old ++ (laying.unwind_block d form ∷ [])) }
{
    let inside = unwind_inside(alloc, d, form)?;
    let landing = unwind_landing(alloc, d)?;
    code.push(with_block(d + 1, RECORD_WORDS, d, inside, landing))
}

// The transfer goes on.
fn transfer_on(alloc: Global, at: &Placement, d: Register) -> Result<Code, NoMemory>
    requires { d < 2 ^ 61 }
    ensures { IfOk result (λ code. code ≡ laying.transfer_on at.now d) }
{
    let transfer = routine(at, TRANSFER)?;
    let mut code = Code::new(alloc);
    let arguments = two(alloc, d + 1, d)?;
    push_two(
        &mut code,
        store(d + 2, d + 3, LANDING),
        call(d, transfer, arguments),
    )?;
    Ok(code)
}

// A transfer that came to the cleanup goes on behind it.
fn unwind_end(code: &mut Code, alloc: Global, at: &Placement, d: Register) -> Result<(), NoMemory>
    requires { d < 2 ^ 61 }
    ensures { OnOk result (code.new ≡ code.old ++ laying.unwind_end at.now d) }
{
    let going = transfer_on(alloc, at, d)?;
    push_two(
        code,
        constant(d + 3, 0),
        if_different(d + 1, d + 3, going, Code::new(alloc)),
    )
}

/// A form with a cleanup.
pub fn unwind_code(
    code: &mut Code,
    alloc: Global,
    at: &Placement,
    d: Register,
    form: Code,
    cleanup: Code,
) -> Result<(), NoMemory>
    requires { d < 2 ^ 61 }
    ensures { OnOk result (code.new ≡ code.old ++ records.unwind_code at.now d form cleanup) }
{
    unwind_block(code, alloc, d, form)?;
    code.append_list(cleanup)?;
    unwind_end(code, alloc, at, d)
}

/// The word in d goes to an exit whose serial number is in t, with a landing; those behind t are free.
pub fn by_serial(
    code: &mut Code,
    alloc: Global,
    at: &Placement,
    site: SitePlace,
    d: Register,
    t: Register,
    landing: u32,
) -> Result<(), NoMemory>
    requires { t < 2 ^ 62 }
    ensures { OnOk result (code.new ≡ code.old ++ records.by_serial at.now site [] d t landing) }
{
    let leave = routine(at, LEAVE)?;
    site_stored(code, site, t + 1, t + 2)?;
    code.push(constant(t + 1, landing))?;
    code.push(call(d, leave, three(alloc, t, d, t + 1)?))
}

// The landing is kept.
fn landing_kept(code: &mut Code, t: Register, landing: u32) -> Result<(), NoMemory>
    requires { t < 2 ^ 62 }
    ensures { OnOk result (code.new ≡ code.old ++ records.landing_kept t landing) }
{
    push_three(
        code,
        constant(t, landing),
        constant(t + 1, 0),
        store(t, t + 1, LANDING),
    )
}

/// The word in d goes to an exit of the same activation.
pub fn to_own(
    code: &mut Code,
    alloc: Global,
    at: &Placement,
    site: SitePlace,
    exit: OwnExit,
    d: Register,
    t: Register,
    landing: u32,
) -> Result<(), NoMemory>
    requires { t < 2 ^ 62 }
    ensures { OnOk result (code.new ≡ code.old ++ records.to_own at.now site exit d t landing) }
{
    match exit.reach {
        Reach::AtOnce => {
            landing_kept(code, t, landing)?;
            code.push(CodeStep::new(StepKind::Cut {
                block: exit.record_register,
                word: d,
            }))
        }
        Reach::ByTransfer => {
            let transfer = routine(at, TRANSFER)?;
            landing_kept(code, t, landing)?;
            code.push(call(d, transfer, two(alloc, exit.record_register, d)?))
        }
        Reach::BySearch => {
            code.push(move_word(t, exit.serial))?;
            by_serial(code, alloc, at, site, d, t, landing)
        }
    }
}
