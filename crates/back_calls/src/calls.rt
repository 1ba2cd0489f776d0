// The code of calls. A function whose number is known is entered at its body, with the arguments in registers. Any other function is
// applied by a routine to words of a block, which the caller lends.

ghost use Rattle.std.specs.Prelude.{◌≡◌, ◌++◌, ◌+◌, ◌<◌, ◌^◌, ◌≤◌, ◌*◌, [], ◌∷◌, length, slice_get, OnOk, IfOk};
ghost use Rattle.lang_meaning.specs.Signals.{takes};
ghost use Rattle.mid_code.specs.MidCode as mid;
ghost use Rattle.mid_code.specs.MidCode.{code_of};
ghost use Rattle.back_lowering.specs.Calls as calls;
ghost use Rattle.back_lowering.specs.Placement.{body_of_procedure, symbol_word};
ghost use Rattle.back_lowering.specs.Routines.{level_routine};
ghost use Rattle.mid_arena.specs.Tags.{nil_word};
ghost use Rattle.back_lowering.specs.Sites.{asks_site};
ghost use Rattle.back_lowering.specs.Steps as steps;
ghost use Rattle.back_calls.specs.Applied.{generic_applied, function_applied};
ghost use Rattle.back_calls.specs.Tabled.{IsTabled};

use crate::given::{Given, flag};
use crate::records::with_block;
use back_leaves::leaves::{failing, failing_with, routine, site_stored};
use back_leaves::registers::{list_of, registers, words_stored};
use back_leaves::steps::{call, push_four, push_two, three, word};
use back_leaves::words::{
    FUNCTION, GENERIC, LEVEL, MOST_REGISTERS, PROGRAM_ERROR_CLASS, UNDEFINED_FUNCTION_CLASS,
};
use back_lowering::{Placement, SitePlace};
use base::{Name, NoMemory};
use flat_language::FlatProcedure;
use lang_meaning::{Callee, FunctionRow};
use mid_arena::steps::{constant, load};
use mid_arena::words::NIL;
use mid_code::{Code, Register, RegisterList};
use std::alloc::Global;

/// The word of the symbol of a name.
pub fn symbol_word(at: &Placement, name: Name) -> u32
    ensures { result ≡ symbol_word at.now name.0 }
{
    match at.symbols.get(name.0) {
        Some(word) => *word,
        None => NIL,
    }
}

/// So many words in registers from d on are those of a block, whose address is in the register behind them, while the steps run.
pub fn with_words(
    code: &mut Code,
    alloc: Global,
    count: usize,
    d: Register,
    running: Code,
) -> Result<(), NoMemory>
    requires { d + count < 2 ^ 61 }
    ensures { OnOk result (code.new ≡ code.old ++ (mid.with_block (d + count) count d (code_of (steps.words_stored count d (d + count) (d + count + 1) 0 ++ running)) (code_of []) ∷ [])) }
{
    let words = word(count)?;
    let mut inside = Code::new(alloc);
    words_stored(&mut inside, count, d, d + count, d + count + 1)?;
    inside.append_list(running)?;
    code.push(with_block(d + count, words, d, inside, Code::new(alloc)))
}

// A site is stored for a body that asks for it.
fn site_for(
    code: &mut Code,
    asks: bool,
    site: SitePlace,
    d: Register,
    t: Register,
) -> Result<(), NoMemory>
    ensures { OnOk result (code.new ≡ code.old ++ calls.site_for asks site d t) }
{
    if asks {
        site_stored(code, site, d, t)?;
    }
    Ok(())
}

// A method that is called by its name has no chain: a register three times behind its variables.
fn without_chain(variables: &mut RegisterList, method: bool, t: Register) -> Result<(), NoMemory>
    ensures { OnOk result (variables.new ≡ variables.old ++ calls.no_method method t) }
{
    if method {
        variables.push(t)?;
        variables.push(t)?;
        variables.push(t)?;
    }
    Ok(())
}

/// The number of the body of a procedure.
pub fn body_of_procedure(at: &Placement, number: usize) -> Result<usize, NoMemory>
    ensures { IfOk result (λ n. n ≡ body_of_procedure at.now number) }
{
    if at.procedures >= MOST_REGISTERS || at.lambdas >= MOST_REGISTERS || number >= MOST_REGISTERS {
        return Err(NoMemory);
    }
    Ok(at.procedures + at.lambdas + number)
}

// Whether the body of a procedure looks at the site.
fn asks_of(given: &Given, number: usize, procedure: &FlatProcedure) -> bool
    requires tabled { IsTabled given.now }
    requires found { slice_get given.now.program.now.procedures number ≡ Some procedure.now }
    ensures { result ≡ asks_site procedure.now.body }
{
    flag(&given.tables.asking, number)
}

// Whether it is a method.
fn method_of(given: &Given, number: usize, procedure: &FlatProcedure) -> bool
    requires tabled { IsTabled given.now }
    requires found { slice_get given.now.program.now.procedures number ≡ Some procedure.now }
    ensures { result ≡ calls.is_method given.now.program.now number }
{
    flag(&given.tables.methods, number)
}

// The body of a procedure is entered with the words in registers.
fn enter_body(
    code: &mut Code,
    given: &Given,
    number: usize,
    procedure: &FlatProcedure,
    variables: RegisterList,
    d: Register,
    t: Register,
    site: SitePlace,
) -> Result<(), NoMemory>
    requires tabled { IsTabled given.now }
    requires found { slice_get given.now.program.now.procedures number ≡ Some procedure.now }
    requires free { t < 2 ^ 62 }
    ensures { OnOk result (code.new ≡ code.old ++ calls.enter_body given.now.at.now given.now.program.now number procedure.now variables d t site) }
{
    let body = body_of_procedure(given.at, number)?;
    let asks = asks_of(given, number, procedure);
    let method = method_of(given, number, procedure);
    let mut arguments = variables;
    without_chain(&mut arguments, method, t)?;
    site_for(code, asks, site, t, t + 1)?;
    push_two(code, constant(t, 0), call(d, body, arguments))
}

// A wrong number of arguments is judged where there is a level.
fn wrong_number(
    code: &mut Code,
    alloc: Global,
    given: &Given,
    d: Register,
    site: SitePlace,
) -> Result<(), NoMemory>
    requires { d < 2 ^ 62 }
    ensures { OnOk result (code.new ≡ code.old ++ calls.wrong_number given.now.at.now given.now.program.now d site) }
{
    let level = routine(given.at, LEVEL)?;
    code.push(call(d, level, RegisterList::new(alloc)))?;
    failing(code, alloc, given.at, site, d, PROGRAM_ERROR_CLASS)
}

// Whether a generic function takes so many arguments.
fn takes(required: usize, more: bool, count: usize) -> bool
    ensures { result ≡ takes required more count }
{
    if more {
        required <= count
    } else {
        required == count
    }
}

// The words behind those of the required variables are one list, which is made only where there is a level for the body.
fn call_with_rest(
    code: &mut Code,
    alloc: Global,
    given: &Given,
    number: usize,
    procedure: &FlatProcedure,
    count: usize,
    d: Register,
    site: SitePlace,
) -> Result<(), NoMemory>
    requires tabled { IsTabled given.now }
    requires found { slice_get given.now.program.now.procedures number ≡ Some procedure.now }
    requires enough { length procedure.now.required ≤ count }
    requires many { d + count < 2 ^ 60 }
    ensures { OnOk result (code.new ≡ code.old ++ calls.call_with_rest given.now.at.now given.now.program.now number procedure.now count d site) }
{
    let level = routine(given.at, LEVEL)?;
    let required = procedure.required.len();
    let mut variables = registers(alloc, d, required)?;
    variables.push(d + count)?;
    code.push(call(d + count, level, RegisterList::new(alloc)))?;
    list_of(code, count - required, d + required, d + count)?;
    enter_body(
        code,
        given,
        number,
        procedure,
        variables,
        d,
        d + count + 1,
        site,
    )
}

// A procedure that is there is called.
fn call_found(
    code: &mut Code,
    alloc: Global,
    given: &Given,
    number: usize,
    procedure: &FlatProcedure,
    count: usize,
    d: Register,
    site: SitePlace,
) -> Result<(), NoMemory>
    requires tabled { IsTabled given.now }
    requires found { slice_get given.now.program.now.procedures number ≡ Some procedure.now }
    requires many { d + count < 2 ^ 60 }
    ensures { OnOk result (code.new ≡ code.old ++ calls.call_procedure given.now.at.now given.now.program.now number (Some procedure.now) count d site) }
{
    let required = procedure.required.len();
    if procedure.rest.is_some() {
        if required <= count {
            call_with_rest(code, alloc, given, number, procedure, count, d, site)
        } else {
            wrong_number(code, alloc, given, d, site)
        }
    } else if required == count {
        let variables = registers(alloc, d, count)?;
        enter_body(
            code,
            given,
            number,
            procedure,
            variables,
            d,
            d + count,
            site,
        )
    } else {
        wrong_number(code, alloc, given, d, site)
    }
}

// A procedure is called by its number.
fn call_procedure(
    code: &mut Code,
    alloc: Global,
    given: &Given,
    number: usize,
    count: usize,
    d: Register,
    site: SitePlace,
) -> Result<(), NoMemory>
    requires tabled { IsTabled given.now }
    requires many { d + count < 2 ^ 60 }
    ensures { OnOk result (code.new ≡ code.old ++ calls.call_procedure given.now.at.now given.now.program.now number (slice_get given.now.program.now.procedures number) count d site) }
{
    match given.program.procedures.get(number) {
        Some(procedure) => call_found(code, alloc, given, number, procedure, count, d, site),
        None => no_procedure(code, alloc, given, d),
    }
}

// There is no such procedure.
fn no_procedure(code: &mut Code, alloc: Global, given: &Given, d: Register) -> Result<(), NoMemory>
    ensures { OnOk result (code.new ≡ code.old ++ (steps.call d (level_routine given.now.at.now) [] ∷ steps.constant d nil_word ∷ [])) }
{
    let level = routine(given.at, LEVEL)?;
    push_two(
        code,
        call(d, level, RegisterList::new(alloc)),
        constant(d, NIL),
    )
}

// The address of the word of a generic function.
fn generic_address(at: &Placement, number: usize) -> Result<u32, NoMemory>
    ensures { IfOk result (λ w. w ≡ at.now.generics + 4 * number) }
{
    if number >= MOST_REGISTERS {
        return Err(NoMemory);
    }
    word(at.generics as usize + 4 * number)
}

// A generic function that takes the arguments is applied by the address of its words.
fn apply_generic(
    alloc: Global,
    at: &Placement,
    number: usize,
    count: usize,
    d: Register,
    site: SitePlace,
) -> Result<Code, NoMemory>
    requires { d + count < 2 ^ 60 }
    ensures { IfOk result (λ code. code ≡ generic_applied at.now number count d site) }
{
    let generic = routine(at, GENERIC)?;
    let address = generic_address(at, number)?;
    let words = word(count)?;
    let t = d + count + 1;
    let counting = d + count + 2;
    let mut code = Code::new(alloc);
    site_stored(&mut code, site, t, counting)?;
    let arguments = three(alloc, t, counting, d + count)?;
    push_four(
        &mut code,
        constant(t, address),
        load(t, t, 0),
        constant(counting, words),
        call(d, generic, arguments),
    )?;
    Ok(code)
}

// A generic function is called by its number.
fn call_generic(
    code: &mut Code,
    alloc: Global,
    given: &Given,
    number: usize,
    count: usize,
    d: Register,
    site: SitePlace,
) -> Result<(), NoMemory>
    requires many { d + count < 2 ^ 60 }
    ensures { OnOk result (code.new ≡ code.old ++ calls.call_generic given.now.at.now given.now.program.now number (slice_get given.now.program.now.generics number) count d site) }
{
    match given.program.generics.get(number) {
        Some(row) => {
            if takes(row.required as usize, row.rest, count) {
                let running = apply_generic(alloc, given.at, number, count, d, site)?;
                with_words(code, alloc, count, d, running)
            } else {
                failing(code, alloc, given.at, site, d, PROGRAM_ERROR_CLASS)
            }
        }
        None => code.push(constant(d, NIL)),
    }
}

/// The function of a name is applied to the words in registers from d on.
pub fn call_name(
    code: &mut Code,
    alloc: Global,
    given: &Given,
    name: Name,
    row: Option<FunctionRow>,
    count: usize,
    d: Register,
    site: SitePlace,
) -> Result<(), NoMemory>
    requires tabled { IsTabled given.now }
    requires many { d + count < 2 ^ 60 }
    ensures { OnOk result (code.new ≡ code.old ++ calls.call_name given.now.at.now given.now.program.now name.0 row count d site) }
{
    let Some(function) = row else {
        let symbol = symbol_word(given.at, name);
        return failing_with(
            code,
            alloc,
            given.at,
            site,
            d,
            UNDEFINED_FUNCTION_CLASS,
            symbol,
        );
    };
    match function.callee {
        Callee::Procedure(number) => call_procedure(code, alloc, given, number, count, d, site),
        Callee::Generic(number) => call_generic(code, alloc, given, number, count, d, site),
    }
}

// A function that is a value is applied to so many words.
fn apply_function(
    alloc: Global,
    at: &Placement,
    count: usize,
    d: Register,
    site: SitePlace,
) -> Result<Code, NoMemory>
    requires { d + count < 2 ^ 60 }
    ensures { IfOk result (λ code. code ≡ function_applied at.now count d site) }
{
    let function = routine(at, FUNCTION)?;
    let words = word(count)?;
    let t = d + count + 2;
    let mut code = Code::new(alloc);
    site_stored(&mut code, site, t, d + count + 3)?;
    let arguments = three(alloc, d, t, d + 1 + count)?;
    push_two(&mut code, constant(t, words), call(d, function, arguments))?;
    Ok(code)
}

/// The value in d is applied to the words in the registers behind it.
pub fn call_value_code(
    code: &mut Code,
    alloc: Global,
    given: &Given,
    count: usize,
    d: Register,
    site: SitePlace,
) -> Result<(), NoMemory>
    requires { d + count < 2 ^ 60 }
    ensures { OnOk result (code.new ≡ code.old ++ calls.call_value_code given.now.at.now given.now.program.now count d site) }
{
    let running = apply_function(alloc, given.at, count, d, site)?;
    with_words(code, alloc, count, d + 1, running)
}
