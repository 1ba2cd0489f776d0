// The code of literals, of global variables and of dynamic variables.

ghost use Rattle.std.specs.Prelude.{◌≡◌, ◌++◌, ◌+◌, ◌<◌, ◌^◌, slice_get, Some, OnOk, IfOk};
ghost use Rattle.lang_meaning.specs.Objects.{unbound_variable_class};
ghost use Rattle.lang_meaning.specs.declared.program.LiteralRow.TheVariants as row;
ghost use Rattle.back_lowering.specs.Codes as codes;
ghost use Rattle.back_lowering.specs.Leaves as leaves;
ghost use Rattle.back_lowering.specs.Placement.{global_address, dynamic_address, symbol_word};
ghost use Rattle.back_calls.specs.Tabled.{IsTabled};

use crate::calls::symbol_word;
use crate::given::{Given, row_of};
use back_leaves::known::literal_word;
use back_leaves::leaves::{failing_with, routine};
use back_leaves::steps::{call, if_equal, load_from, one, push_three, push_two, store_to};
use back_leaves::words::{BINDING, UNBOUND_VARIABLE_CLASS, UNDEFINED_FUNCTION_CLASS};
use back_lowering::{Placement, SitePlace};
use base::{Name, NoMemory};
use lang_meaning::{LiteralId, LiteralRow};
use mid_arena::steps::{constant, load, store};
use mid_arena::words::UNBOUND;
use mid_code::{Code, Register};
use std::alloc::Global;

// The function of a name, whose literal that is.
fn function_literal(
    code: &mut Code,
    alloc: Global,
    given: &Given,
    site: SitePlace,
    d: Register,
    number: LiteralId,
    name: Name,
) -> Result<(), NoMemory>
    requires tabled { IsTabled given.now }
    requires free { d < 2 ^ 62 }
    ensures { OnOk result (code.new ≡ code.old ++ codes.literal_code given.now.names.now given.now.at.now given.now.program.now site d number (Some (row.Function name))) }
{
    match row_of(given, name) {
        Some(_) => code.push(constant(d, literal_word(given.at, number))),
        None => {
            let symbol = symbol_word(given.at, name);
            failing_with(
                code,
                alloc,
                given.at,
                site,
                d,
                UNDEFINED_FUNCTION_CLASS,
                symbol,
            )
        }
    }
}

/// A literal.
pub fn literal_code(
    code: &mut Code,
    alloc: Global,
    given: &Given,
    site: SitePlace,
    d: Register,
    number: LiteralId,
) -> Result<(), NoMemory>
    requires tabled { IsTabled given.now }
    requires free { d < 2 ^ 62 }
    ensures { OnOk result (code.new ≡ code.old ++ codes.literal_code given.now.names.now given.now.at.now given.now.program.now site d number (slice_get given.now.program.now.literals number)) }
{
    match given.program.literals.get(number) {
        Some(LiteralRow::Function(name)) => {
            function_literal(code, alloc, given, site, d, number, *name)
        }
        Some(LiteralRow::Datum(_)) => code.push(constant(d, literal_word(given.at, number))),
        Some(LiteralRow::Class(_)) => code.push(constant(d, literal_word(given.at, number))),
        None => code.push(constant(d, literal_word(given.at, number))),
    }
}

// The address of the word of a global variable.
fn global_address(at: &Placement, name: Name) -> u32
    ensures { result ≡ global_address at.now name.0 }
{
    match at.globals.get(name.0) {
        Some(address) => *address,
        None => 0,
    }
}

/// The address of the word of an outermost dynamic value.
pub fn dynamic_address(at: &Placement, name: Name) -> u32
    ensures { result ≡ dynamic_address at.now name.0 }
{
    match at.dynamics.get(name.0) {
        Some(address) => *address,
        None => 0,
    }
}

// The variable has no value.
fn unbound(
    alloc: Global,
    at: &Placement,
    site: SitePlace,
    d: Register,
    name: Name,
) -> Result<Code, NoMemory>
    requires { d < 2 ^ 62 }
    ensures { IfOk result (λ code. code ≡ leaves.failing_with at.now site d unbound_variable_class (symbol_word at.now name.0)) }
{
    let symbol = symbol_word(at, name);
    let mut code = Code::new(alloc);
    failing_with(
        &mut code,
        alloc,
        at,
        site,
        d,
        UNBOUND_VARIABLE_CLASS,
        symbol,
    )?;
    Ok(code)
}

// The value of a variable that may have none, in d.
fn if_bound(
    code: &mut Code,
    alloc: Global,
    given: &Given,
    site: SitePlace,
    d: Register,
    name: Name,
) -> Result<(), NoMemory>
    requires { d < 2 ^ 62 }
    ensures { OnOk result (code.new ≡ code.old ++ codes.if_bound given.now.names.now given.now.at.now given.now.program.now site d name.0) }
{
    let wrong = unbound(alloc, given.at, site, d, name)?;
    push_two(
        code,
        constant(d + 1, UNBOUND),
        if_equal(d, d + 1, wrong, Code::new(alloc)),
    )
}

/// The value of a global variable.
pub fn global_code(
    code: &mut Code,
    alloc: Global,
    given: &Given,
    site: SitePlace,
    d: Register,
    name: Name,
) -> Result<(), NoMemory>
    requires { d < 2 ^ 62 }
    ensures { OnOk result (code.new ≡ code.old ++ codes.global_code given.now.names.now given.now.at.now given.now.program.now site d name.0) }
{
    load_from(code, d, d, global_address(given.at, name))?;
    if_bound(code, alloc, given, site, d, name)
}

/// The word in d is the variable's, where it has a value.
pub fn set_global_code(
    code: &mut Code,
    alloc: Global,
    given: &Given,
    site: SitePlace,
    d: Register,
    name: Name,
) -> Result<(), NoMemory>
    requires { d < 2 ^ 62 }
    ensures { OnOk result (code.new ≡ code.old ++ codes.set_global_code given.now.names.now given.now.at.now given.now.program.now site d name.0) }
{
    let address = global_address(given.at, name);
    let wrong = unbound(alloc, given.at, site, d, name)?;
    let mut set = Code::new(alloc);
    store_to(&mut set, d, d + 1, address)?;
    load_from(code, d + 1, d + 1, address)?;
    push_two(
        code,
        constant(d + 2, UNBOUND),
        if_equal(d + 1, d + 2, wrong, set),
    )
}

/// The word in d is that of a variable that is defined.
pub fn def_global_code(
    code: &mut Code,
    given: &Given,
    d: Register,
    name: Name,
) -> Result<(), NoMemory>
    requires { d < 2 ^ 62 }
    ensures { OnOk result (code.new ≡ code.old ++ codes.def_global_code given.now.names.now given.now.at.now given.now.program.now d name.0) }
{
    store_to(code, d, d + 1, global_address(given.at, name))?;
    code.push(constant(d, symbol_word(given.at, name)))
}

// The address of the value of a dynamic variable comes to t.
fn binding_into(
    code: &mut Code,
    alloc: Global,
    given: &Given,
    t: Register,
    name: Name,
) -> Result<(), NoMemory>
    ensures { OnOk result (code.new ≡ code.old ++ codes.binding_into given.now.names.now given.now.at.now given.now.program.now t name.0) }
{
    let binding = routine(given.at, BINDING)?;
    let arguments = one(alloc, t)?;
    push_two(
        code,
        constant(t, dynamic_address(given.at, name)),
        call(t, binding, arguments),
    )
}

/// The value of a dynamic variable.
pub fn dynamic_code(
    code: &mut Code,
    alloc: Global,
    given: &Given,
    site: SitePlace,
    d: Register,
    name: Name,
) -> Result<(), NoMemory>
    requires { d < 2 ^ 62 }
    ensures { OnOk result (code.new ≡ code.old ++ codes.dynamic_code given.now.names.now given.now.at.now given.now.program.now site d name.0) }
{
    binding_into(code, alloc, given, d, name)?;
    code.push(load(d, d, 0))?;
    if_bound(code, alloc, given, site, d, name)
}

/// The word in d is the variable's, where it has a value.
pub fn set_dynamic_code(
    code: &mut Code,
    alloc: Global,
    given: &Given,
    site: SitePlace,
    d: Register,
    name: Name,
) -> Result<(), NoMemory>
    requires { d < 2 ^ 62 }
    ensures { OnOk result (code.new ≡ code.old ++ codes.set_dynamic_code given.now.names.now given.now.at.now given.now.program.now site d name.0) }
{
    let wrong = unbound(alloc, given.at, site, d, name)?;
    let mut set = Code::new(alloc);
    set.push(store(d, d + 1, 0))?;
    binding_into(code, alloc, given, d + 1, name)?;
    push_three(
        code,
        load(d + 2, d + 1, 0),
        constant(d + 3, UNBOUND),
        if_equal(d + 2, d + 3, wrong, set),
    )
}

/// The word in d is the outermost one of a dynamic variable.
pub fn def_dynamic_code(
    code: &mut Code,
    given: &Given,
    d: Register,
    name: Name,
) -> Result<(), NoMemory>
    requires { d < 2 ^ 62 }
    ensures { OnOk result (code.new ≡ code.old ++ codes.def_dynamic_code given.now.names.now given.now.at.now given.now.program.now d name.0) }
{
    store_to(code, d, d + 1, dynamic_address(given.at, name))?;
    code.push(constant(d, symbol_word(given.at, name)))
}
