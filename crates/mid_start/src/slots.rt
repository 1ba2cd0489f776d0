// What classes say of slots: the name, the list of the initargs, and the function of the initform.

ghost use Rattle.std.specs.Prelude.{◌≡◌, ℕ, ◌+◌, ◌*◌, ◌^◌, ◌<◌, List, Some, length, map, OnOk, IfOk, slice_get};
ghost use Rattle.std.specs.List.{sum_by};
ghost use Rattle.base.specs.declared.datum.Name.{Name};
ghost use Rattle.base.specs.declared.datum.Symbol.TheVariants.{Named};
ghost use Rattle.base.specs.Data as data_specs;
ghost use Rattle.lang_meaning.specs.declared.program.ClassRow.{ClassRow};
ghost use Rattle.lang_meaning.specs.declared.program.SlotRow.{SlotRow};
ghost use Rattle.lang_meaning.specs.InitialHeap.{initargs_list};
ghost use Rattle.lang_meaning.specs.State.{no_place};
ghost use Rattle.mid_start.specs.Laying.{HasRoom};
ghost use Rattle.lang_meaning.specs.Recipes.{initargs_recipe, initform_recipe, in_turn};
ghost use Rattle.mid_start.specs.Recipes.{slot_recipe, slots_recipe};
ghost use Rattle.mid_start.specs.Making.{IsWord, IsSlot, EachStandsFor, Makes, IsWithin};
ghost use Rattle.mid_start.specs.Settling.{SlotsAreCounted};
ghost use Rattle.mid_start.specs.Rows.{SlotFits, most_slot_words, most_slots_words};

use crate::functions::lay_function;
use crate::names::{NOWHERE, lay_name, symbol_of_name};
use crate::{ArenaWords, lay_datum};
use base::{Datum, DatumList, ItemList, Kind, NameList, Names, NoMemory};
use lang_meaning::{Callee, ClassRows, ProcedureId, SlotRow, SlotRows};
use mid_arena::words::NIL;
use std::alloc::Global;

/// The words of a slot: those of its name, of the list of its initargs, and of its initform's
/// function; of nil for each of the last two that it does not have.
#[derive(Clone, Copy)]
pub struct SlotWords {
    pub name: u32,
    pub initargs: u32,
    pub initform: u32,
}

/// The words of slots, by their places.
pub type SlotWordsList = ItemList<SlotWords>;

/// What all classes say of their slots is laid; the words of each slot, by its class.
pub fn lay_slots(
    alloc: Global,
    classes: &ClassRows,
    names: &Names,
    words: &mut ArenaWords,
) -> Result<ItemList<SlotWordsList>, NoMemory>
    requires fits { (c : ℕ) (row : ClassRow) (i : ℕ) (s : SlotRow) → slice_get classes.now c ≡ Some row → slice_get row.slots i ≡ Some s
        → SlotFits (length names.now) s }
    requires room { HasRoom words.old (sum_by most_slots_words classes.now) }
    ensures within { OnOk result (IsWithin words.old words.new (sum_by most_slots_words classes.now)) }
    ensures counted { IfOk result (λ wss. SlotsAreCounted classes.now wss) }
    ensures made { IfOk result (λ wss. Makes names.now (EachStandsFor (EachStandsFor IsSlot)) (in_turn (slots_recipe names.now) classes.now) words.old words.new wss) }
{
    let mut laid = ItemList::new(alloc);
    for at in 0..classes.len() {
        let Some(class) = classes.get(at) else {
            unreachable!()
        };
        let slots = lay_slots_of(alloc, &class.slots, names, words)?;
        laid.push(slots)?;
    }
    Ok(laid)
}

// The slots of a class.
fn lay_slots_of(
    alloc: Global,
    rows: &SlotRows,
    names: &Names,
    words: &mut ArenaWords,
) -> Result<SlotWordsList, NoMemory>
    requires fits { (i : ℕ) (s : SlotRow) → slice_get rows.now i ≡ Some s → SlotFits (length names.now) s }
    requires room { HasRoom words.old (sum_by most_slot_words rows.now) }
    ensures within { OnOk result (IsWithin words.old words.new (sum_by most_slot_words rows.now)) }
    ensures many { IfOk result (λ ws. length ws ≡ length rows.now) }
    ensures made { IfOk result (λ ws. Makes names.now (EachStandsFor IsSlot) (in_turn (slot_recipe names.now) rows.now) words.old words.new ws) }
{
    let mut laid = SlotWordsList::new(alloc);
    for at in 0..rows.len() {
        let Some(row) = rows.get(at) else {
            unreachable!()
        };
        let slot = lay_slot(alloc, row, names, words)?;
        laid.push(slot)?;
    }
    Ok(laid)
}

fn lay_slot(
    alloc: Global,
    row: &SlotRow,
    names: &Names,
    words: &mut ArenaWords,
) -> Result<SlotWords, NoMemory>
    requires fits { SlotFits (length names.now) row.now }
    requires room { HasRoom words.old (most_slot_words row.now) }
    ensures within { OnOk result (IsWithin words.old words.new (most_slot_words row.now)) }
    ensures made { IfOk result (λ s. Makes names.now IsSlot (slot_recipe names.now row.now) words.old words.new s) }
{
    let name = lay_name(alloc, row.name, names, words)?;
    let initargs = lay_initargs(alloc, row, names, words)?;
    let initform = lay_initform(row.initform, words)?;
    Ok(SlotWords {
        name,
        initargs,
        initform,
    })
}

// The list of a slot's initargs.
fn lay_initargs(
    alloc: Global,
    row: &SlotRow,
    names: &Names,
    words: &mut ArenaWords,
) -> Result<u32, NoMemory>
    requires fits { (i : ℕ) (a : Name) → slice_get row.now.initargs i ≡ Some a → a.0 < length names.now }
    requires room { HasRoom words.old (140 * length row.now.initargs) }
    ensures within { OnOk result (IsWithin words.old words.new (140 * length row.now.initargs)) }
    ensures made { IfOk result (λ w. Makes names.now IsWord (initargs_recipe names.now row.now) words.old words.new w) }
{
    if row.initargs.len() == 0 {
        return Ok(NIL);
    }
    let list = list_of_names(alloc, &row.initargs)?;
    lay_datum(alloc, &list, names, words)
}

// The datum that is the list of the symbols of names.
fn list_of_names(alloc: Global, list: &NameList) -> Result<Datum, NoMemory>
    ensures { IfOk result (λ d. d ≡ data_specs.item no_place
        (data_specs.list (data_specs.items_of (map (λ a. data_specs.item no_place (data_specs.symbol (Named a))) list.now)) data_specs.no_tail)) }
{
    let mut items = DatumList::new(alloc);
    for at in 0..list.len() {
        let Some(name) = list.get(at) else {
            unreachable!()
        };
        items.push(symbol_of_name(*name))?;
    }
    Ok(Datum::new(NOWHERE, Kind::List { items, tail: None }))
}

// The function of an initform, if there is one.
fn lay_initform(initform: Option<ProcedureId>, words: &mut ArenaWords) -> Result<u32, NoMemory>
    requires fits { (p : ℕ) → initform ≡ Some p → p < 2 ^ 28 }
    requires room { HasRoom words.old 2 }
    ensures within { OnOk result (IsWithin words.old words.new 2) }
    ensures made { IfOk result (λ w. (names : List (List ℕ)) → Makes names IsWord (initform_recipe initform) words.old words.new w) }
{
    match initform {
        Some(procedure) => lay_function(Callee::Procedure(procedure), words),
        None => Ok(NIL),
    }
}
