// The bodies of functions.

ghost use Rattle.std.specs.Prelude.{◌≡◌, ◌++◌, ◌<◌, ◌^◌, length, OnOk, IfOk};
ghost use Rattle.flat_language.specs.FlatNodes.{homes};
ghost use Rattle.back_lowering.specs.Program as lowering;
ghost use Rattle.back_lowering.specs.Sites.{asks_site};
ghost use Rattle.back_calls.specs.Tabled.{IsTabled};
ghost use Rattle.back_procedures.specs.Extras.{meant};

use crate::extra::{Extra, extra_count};
use crate::frames::procedure_with;
use back_calls::Given;
use back_forms::forms::value;
use back_leaves::boxes::boxes_made;
use back_leaves::registers::registers;
use back_leaves::steps::load_from;
use back_leaves::words::{MOST_REGISTERS, SITE_ADDRESS};
use back_lowering::{ExitList, Scope, SitePlace};
use back_tables::sites::asks_site;
use base::NoMemory;
use flat_language::{FlatProcedure, HomeList};
use mid_arena::steps::return_word;
use mid_code::{Code, Counted, MidProcedure, Register};
use std::alloc::Global;

// Where all variables of a procedure live.
fn homes_of(alloc: Global, procedure: &FlatProcedure) -> Result<HomeList, NoMemory>
    ensures { IfOk result (λ list. list ≡ homes procedure.now) }
{
    let mut list = HomeList::new(alloc);
    for home in procedure.required.as_slice() {
        list.push(*home)?;
    }
    if let Some(home) = procedure.rest {
        list.push(home)?;
    }
    Ok(list)
}

// The register of the method's chain.
fn method_at(given: &Given, extra: Extra, register: Register) -> Option<Register>
    ensures { result ≡ lowering.method_at given.now.names.now given.now.at.now given.now.program.now (meant extra) register }
{
    match extra {
        Extra::Method => Some(register),
        Extra::Nothing | Extra::Itself => None,
    }
}

// What the code of a body knows where it begins: its variables, and what it takes behind them, where the site is behind both.
fn scope_of(
    alloc: Global,
    given: &Given,
    procedure: &FlatProcedure,
    extra: Extra,
    variables: usize,
    asks: bool,
) -> Result<Scope, NoMemory>
    requires count { variables ≡ length (homes procedure.now) }
    requires few { variables < 2 ^ 61 }
    requires asked { asks ≡ asks_site procedure.now.body }
    ensures { IfOk result (λ scope. scope ≡ lowering.scope_of given.now.names.now given.now.at.now given.now.program.now (meant extra) procedure.now) }
{
    let site = if asks {
        SitePlace::Held(variables + extra_count(extra))
    } else {
        SitePlace::Known(0)
    };
    Ok(Scope {
        slots: registers(alloc, 0, variables)?,
        exits: ExitList::new(alloc),
        function: variables,
        method: method_at(given, extra, variables),
        site,
    })
}

// The site is taken into its register where the body looks at it.
fn site_taken(
    code: &mut Code,
    given: &Given,
    procedure: &FlatProcedure,
    extra: Extra,
    asks: bool,
    site: Register,
) -> Result<(), NoMemory>
    requires place { site ≡ lowering.site_register given.now.names.now given.now.at.now given.now.program.now (meant extra) procedure.now }
    requires asked { asks ≡ asks_site procedure.now.body }
    ensures { OnOk result (code.new ≡ code.old ++ lowering.site_taken given.now.names.now given.now.at.now given.now.program.now (meant extra) procedure.now) }
{
    if asks {
        load_from(code, site, site, SITE_ADDRESS)
    } else {
        Ok(())
    }
}

/// The body of a function, which takes something behind its variables. Fails for want of memory.
pub fn body_of(
    alloc: Global,
    given: &Given,
    extra: Extra,
    procedure: &FlatProcedure,
) -> Result<MidProcedure, NoMemory>
    requires { IsTabled given.now }
    ensures { IfOk result (λ p. p ≡ lowering.body_of given.now.names.now given.now.at.now given.now.program.now (meant extra) procedure.now) }
{
    let homes = homes_of(alloc, procedure)?;
    let variables = homes.len();
    if variables >= MOST_REGISTERS {
        return Err(NoMemory);
    }
    let asks = asks_site(&procedure.body);
    let parameters = variables + extra_count(extra);
    let mut scope = scope_of(alloc, given, procedure, extra, variables, asks)?;
    let mut code = Code::new(alloc);
    site_taken(&mut code, given, procedure, extra, asks, parameters)?;
    boxes_made(&mut code, &homes, 0, parameters + 1)?;
    value(
        &mut code,
        alloc,
        given,
        &mut scope,
        parameters + 1,
        &procedure.body,
    )?;
    code.push(return_word(parameters + 1))?;
    procedure_with(alloc, Counted::Level, parameters, code)
}
