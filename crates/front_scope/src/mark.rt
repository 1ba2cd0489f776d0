// The way back after a stop: what was added to the tables is cut off again.

ghost use Rattle.std.specs.Prelude.{◌≡◌, ◌≤◌, length, map, IfOk, OnOk, OnErr};
ghost use Rattle.lang_meaning.specs.Objects.{built_in_classes};
ghost use Rattle.front_profile.specs.Cuts.{mark_of, method_counts, ReachesMark, ReachMethods, cut_generics, cut_to, opened, closed};

use base::NoMemory;
use front_profile::{Lengths, Mark, Tables};
use lang_dispatch::Generics;
use std::alloc::Global;
use std::mem;

// How many methods each generic function has.
pub(crate) fn method_counts(alloc: Global, generics: &Generics) -> Result<Lengths, NoMemory>
    ensures { IfOk result (λ counts. counts ≡ method_counts generics.now) }
{
    let mut counts = Lengths::new(alloc);
    for generic in generics.rows().as_slice() {
        counts.push(generic.methods.len())?;
    }
    Ok(counts)
}

// Where the tables stand.
fn mark_of(alloc: Global, tables: &Tables) -> Result<Mark, NoMemory>
    ensures { IfOk result (λ mark. mark ≡ mark_of tables.now) }
{
    let methods = method_counts(alloc, &tables.generics)?;
    Ok(Mark {
        literals: tables.literals.len(),
        procedures: tables.procedures.len(),
        functions: tables.functions.len(),
        macros: tables.macros.len(),
        prelude: tables.prelude.len(),
        classes: tables.classes.rows().len(),
        prelude_classes: tables.prelude_classes,
        methods,
        globals: tables.globals.len(),
        set: tables.set.len(),
        dynamics: tables.dynamics.len(),
        sites: tables.sites.len(),
        fresh: tables.fresh.len(),
        main: tables.main.len(),
        variables: tables.variables,
        exits: tables.exits,
        expansions: tables.expansions,
    })
}

// Cuts generic functions and their methods back to so many.
fn cut_generics(generics: &mut Generics, methods: &Lengths)
    requires { ReachMethods methods.now generics.old }
    ensures { generics.new ≡ cut_generics methods.now generics.old }
{
    generics.cut(methods.len());
    for at in 0..methods.len() {
        let Some(len) = methods.get(at) else {
            unreachable!()
        };
        generics.cut_methods(at, *len);
    }
}

// Cuts the tables back to where they stood; takes no memory.
fn cut_to(tables: &mut Tables, mark: &Mark)
    requires built_in { built_in_classes ≤ mark.now.classes }
    requires reaches { ReachesMark mark.now tables.old }
    ensures { tables.new ≡ cut_to mark.now tables.old }
{
    tables.literals.cut(mark.literals);
    tables.procedures.cut(mark.procedures);
    tables.functions.cut(mark.functions);
    tables.macros.cut(mark.macros);
    tables.prelude.cut(mark.prelude);
    tables.classes.cut(mark.classes);
    tables.prelude_classes = mark.prelude_classes;
    cut_generics(&mut tables.generics, &mark.methods);
    tables.globals.cut(mark.globals);
    tables.set.cut(mark.set);
    tables.dynamics.cut(mark.dynamics);
    tables.sites.cut(mark.sites);
    tables.fresh.cut(mark.fresh);
    tables.main.cut(mark.main);
    tables.variables = mark.variables;
    tables.exits = mark.exits;
    tables.expansions = mark.expansions;
}

/// Begins a top-level form: gives the mark of the one before, in whose place stands that of the tables now.
pub(crate) fn open(alloc: Global, tables: &mut Tables) -> Result<Mark, NoMemory>
    ensures opened { OnOk result (tables.new ≡ opened tables.old) }
    ensures before { IfOk result (λ before. before ≡ tables.old.before) }
    ensures unchanged { OnErr result (tables.new ≡ tables.old) }
{
    let mark = mark_of(alloc, tables)?;
    Ok(mem::replace(&mut tables.before, mark))
}

/// The way back to where the top-level form began, and to that mark of the one before; takes no memory.
pub(crate) fn close(tables: &mut Tables, before: Mark)
    requires built_in { built_in_classes ≤ tables.old.before.classes }
    requires reaches { ReachesMark tables.old.before tables.old }
    ensures { tables.new ≡ closed before tables.old }
{
    let mark = mem::replace(&mut tables.before, before);
    cut_to(tables, &mark);
}
