// The code of dynamic bindings and of handlers, which are cells of blocks of the stack.

ghost use Rattle.std.specs.Prelude.{◌≡◌, ◌++◌, ◌+◌, ◌<◌, ◌^◌, ◌*◌, [], ◌∷◌, length, drop, OnOk, IfOk};
ghost use Rattle.flat_language.specs.model.View.{dynamics_of};
ghost use Rattle.back_lowering.specs.Codes as codes;
ghost use Rattle.back_lowering.specs.ControlWords.{handlers_address, handler_function, handler_outer};
ghost use Rattle.back_lowering.specs.Leaves as leaves;
ghost use Rattle.back_lowering.specs.Placement.{routines_from};
ghost use Rattle.back_lowering.specs.Steps as steps;
ghost use Rattle.lang_meaning.specs.Objects.{function_class};
ghost use Rattle.back_calls.specs.Cells as cells;

use crate::given::Given;
use crate::records::with_block;
use crate::variables::dynamic_address;
use back_leaves::leaves::{domain_error, routine, site_stored};
use back_leaves::steps::{
    call, if_equal, move_word, one, push_three, push_two, store_far, two, word,
};
use back_leaves::words::{
    BINDINGS, FUNCTION_CLASS, HANDLER_FUNCTION, HANDLER_OUTER, HANDLER_WORDS, HANDLERS, IS_FUNCTION,
};
use back_lowering::{Placement, SitePlace};
use base::{Name, NoMemory};
use flat_language::FlatDynBindings;
use mid_arena::steps::{compute, constant, load, store};
use mid_code::{Arithmetic, Code, Register};
use std::alloc::Global;

/// The words of a binding's cell, by offsets from its first, and how many bytes it has.
const VARIABLE: u32 = 0;

const VALUE: u32 = 4;

const OUTER: u32 = 8;

const CELL: u32 = 12;

// The address of the cell behind one at an offset, or of the one that was there, comes to t.
fn outer_into(
    code: &mut Code,
    last: bool,
    b: Register,
    old: Register,
    t: Register,
    offset: u32,
) -> Result<(), NoMemory>
    requires { offset < 2 ^ 31 }
    ensures { OnOk result (code.new ≡ code.old ++ cells.outer_into last b old t offset) }
{
    if last {
        code.push(move_word(t, old))
    } else {
        push_two(
            code,
            constant(t, offset + CELL),
            compute(t, Arithmetic::Add, t, b),
        )
    }
}

// The cell of a binding of the word in d, at an offset from the address in b; t and the next one are used.
fn cell_laid(
    code: &mut Code,
    at: &Placement,
    name: Name,
    last: bool,
    d: Register,
    b: Register,
    old: Register,
    t: Register,
    offset: u32,
) -> Result<(), NoMemory>
    requires free { t < 2 ^ 62 }
    requires small { offset < 2 ^ 31 }
    ensures { OnOk result (code.new ≡ code.old ++ cells.cell_laid at.now name.0 last d b old t offset) }
{
    code.push(constant(t, dynamic_address(at, name)))?;
    store_far(code, t, b, t + 1, offset + VARIABLE)?;
    store_far(code, d, b, t + 1, offset + VALUE)?;
    outer_into(code, last, b, old, t, offset)?;
    store_far(code, t, b, t + 1, offset + OUTER)
}

// Whether no binding is left.
fn is_end(list: &FlatDynBindings, at: usize) -> bool
    ensures { result ≡ cells.no_more (dynamics_of (drop at list.now)) }
{
    match list.get(at) {
        Some(_) => false,
        None => true,
    }
}

// Dynamic bindings of the words in registers from d on, each in front of the next one, and the last in front of the one that is in `old`.
fn bindings_laid(
    code: &mut Code,
    given: &Given,
    d: Register,
    b: Register,
    old: Register,
    t: Register,
    list: &FlatDynBindings,
) -> Result<(), NoMemory>
    requires many { d + length list.now < 2 ^ 61 }
    requires free { t < 2 ^ 62 }
    ensures { OnOk result (code.new ≡ code.old ++ codes.bindings_laid given.now.names.now given.now.at.now given.now.program.now d b old t 0 (dynamics_of list.now)) }
{
    let count = list.len();
    if count >= 0x400_0000 {
        return Err(NoMemory);
    }
    for i in 0..count {
        let Some(binding) = list.get(i) else {
            unreachable!()
        };
        cell_laid(
            code,
            given.at,
            binding.name,
            is_end(list, i + 1),
            d + i,
            b,
            old,
            t,
            CELL * i as u32,
        )?;
    }
    Ok(())
}

// The register of the innermost of the bindings, or of the one that was there.
fn innermost(list: &FlatDynBindings, b: Register, old: Register) -> Register
    ensures { result ≡ codes.innermost b old (dynamics_of list.now) }
{
    match list.get(0) {
        Some(_) => b,
        None => old,
    }
}

// The bindings are the innermost ones.
fn bindings_entered(
    alloc: Global,
    given: &Given,
    d: Register,
    list: &FlatDynBindings,
) -> Result<Code, NoMemory>
    requires { d + length list.now < 2 ^ 60 }
    ensures { IfOk result (λ code. code ≡ cells.bindings_entered given.now.names.now given.now.at.now given.now.program.now d (length list.now) (dynamics_of list.now)) }
{
    let count = list.len();
    let b = d + count;
    let old = d + count + 1;
    let t = d + count + 2;
    let mut code = Code::new(alloc);
    push_two(&mut code, constant(t, 0), load(old, t, BINDINGS))?;
    bindings_laid(&mut code, given, d, b, old, t, list)?;
    push_two(
        &mut code,
        constant(t, 0),
        store(innermost(list, b, old), t, BINDINGS),
    )?;
    Ok(code)
}

// How many words the cells have.
fn cell_words(count: usize) -> Result<u32, NoMemory>
    ensures { IfOk result (λ w. w ≡ 3 * count) }
{
    if count >= 0x400_0000 {
        return Err(NoMemory);
    }
    word(3 * count)
}

/// The values are in registers from d on, their cells come behind, and the body, whose code is given for the third register behind them,
/// is inside.
pub fn dynamic_let_code(
    code: &mut Code,
    alloc: Global,
    given: &Given,
    d: Register,
    list: &FlatDynBindings,
    body: Code,
) -> Result<(), NoMemory>
    requires { d + length list.now < 2 ^ 60 }
    ensures { OnOk result (code.new ≡ code.old ++ codes.dynamic_let_code given.now.names.now given.now.at.now given.now.program.now d (length list.now) (dynamics_of list.now) body) }
{
    let count = list.len();
    let words = cell_words(count)?;
    let mut inside = bindings_entered(alloc, given, d, list)?;
    inside.append_list(body)?;
    push_three(
        &mut inside,
        constant(d, 0),
        store(d + count + 1, d, BINDINGS),
        move_word(d, d + count + 2),
    )?;
    code.push(with_block(d + count, words, d, inside, Code::new(alloc)))
}

// The handler in d is the innermost one while the body runs.
fn handler_inside(alloc: Global, d: Register, body: Code) -> Result<Code, NoMemory>
    requires { d < 2 ^ 61 }
    ensures { IfOk result (λ code. code ≡ steps.store d (d + 1) handler_function
        ∷ steps.constant d 0 ∷ steps.load (d + 2) d handlers_address ∷ steps.store (d + 2) (d + 1) handler_outer ∷ steps.store (d + 1) d handlers_address
        ∷ (body ++ (steps.constant d 0 ∷ steps.store (d + 2) d handlers_address ∷ steps.move d (d + 3) ∷ []))) }
{
    let mut code = Code::new(alloc);
    push_two(&mut code, store(d, d + 1, HANDLER_FUNCTION), constant(d, 0))?;
    push_three(
        &mut code,
        load(d + 2, d, HANDLERS),
        store(d + 2, d + 1, HANDLER_OUTER),
        store(d + 1, d, HANDLERS),
    )?;
    code.append_list(body)?;
    push_three(
        &mut code,
        constant(d, 0),
        store(d + 2, d, HANDLERS),
        move_word(d, d + 3),
    )?;
    Ok(code)
}

// The handler is no function.
fn no_handler(alloc: Global, at: &Placement, site: SitePlace, d: Register) -> Result<Code, NoMemory>
    requires { d < 2 ^ 61 }
    ensures { IfOk result (λ code. code ≡ leaves.domain_error at.now site (d + 1) d function_class ++ (steps.move d (d + 1) ∷ [])) }
{
    let mut code = Code::new(alloc);
    domain_error(&mut code, alloc, at, site, d + 1, d, FUNCTION_CLASS)?;
    code.push(move_word(d, d + 1))?;
    Ok(code)
}

/// The handler is in d, its cell comes behind, and the body, whose code is given for d + 3, is inside.
pub fn with_handler_code(
    code: &mut Code,
    alloc: Global,
    given: &Given,
    site: SitePlace,
    d: Register,
    body: Code,
) -> Result<(), NoMemory>
    requires { d < 2 ^ 61 }
    ensures { OnOk result (code.new ≡ code.old ++ codes.with_handler_code given.now.names.now given.now.at.now given.now.program.now site d body) }
{
    let is_function = routine(given.at, IS_FUNCTION)?;
    let wrong = no_handler(alloc, given.at, site, d)?;
    let inside = handler_inside(alloc, d, body)?;
    let mut block = Code::new(alloc);
    block.push(with_block(d + 1, HANDLER_WORDS, d, inside, Code::new(alloc)))?;
    let arguments = one(alloc, d)?;
    push_three(
        code,
        call(d + 1, is_function, arguments),
        constant(d + 2, 0),
        if_equal(d + 1, d + 2, wrong, block),
    )
}

/// A routine is called with the words in d and the next register, by how many routines stand before it.
pub fn with_two(
    code: &mut Code,
    alloc: Global,
    given: &Given,
    site: SitePlace,
    d: Register,
    before: usize,
) -> Result<(), NoMemory>
    requires routine { before < 64 }
    requires free { d < 2 ^ 61 }
    ensures { OnOk result (code.new ≡ code.old ++ codes.with_two given.now.names.now given.now.at.now given.now.program.now site d (routines_from given.now.at.now + before)) }
{
    let procedure = routine(given.at, before)?;
    site_stored(code, site, d + 2, d + 3)?;
    code.push(call(d, procedure, two(alloc, d, d + 1)?))
}
