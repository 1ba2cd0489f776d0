// The cells of all dispatch tables, kept from form to form.

ghost use Rattle.std.specs.Prelude.{◌≡◌, [], true, slice_get, Some, IfOk, OnOk};
ghost use Rattle.front_cells.specs.Flags.{AreFlags};
ghost use Rattle.front_cells.specs.Counts.{IsCellCount, WasCellCount, IsRecount, AreEstimates, IsCountOf};
ghost use Rattle.front_cells.specs.Counts.{IsCurrent, HasMethodsOf};

use crate::flags::{ClassFlags, no_flags};
use crate::generic_count::{GenericCount, counted, estimated, recounted};
use base::{ItemList, NoMemory};
use lang_dispatch::cells::cells;
use lang_meaning::{ClassRows, GenericRow, GenericRows};
use std::alloc::Global;

/// The most cells that the dispatch tables of a program may have.
const MOST_CELLS: u64 = 262_144;

/// The counts of generic functions, in their order.
pub(crate) type GenericCounts = ItemList<GenericCount>;

/// The cells of the dispatch tables of so many classes and of generic functions, no more than 262,144.
#[derive(Drop)]
pub struct CellCount {
    pub(crate) classes: usize,
    pub(crate) generics: GenericCounts,
}

/// What comes of a count when classes, generic functions or methods may have been added.
#[derive(Drop)]
pub enum Recount {
    /// Nothing was added.
    Same,
    /// The count behind them.
    New(CellCount),
    /// There are more than 262,144 cells then.
    TooMany,
}

// The counts of generic functions, and no fewer than all their cells.
#[derive(Drop)]
pub(crate) struct Estimates {
    pub(crate) total: u64,
    pub(crate) generics: GenericCounts,
}

impl CellCount {
    /// The count of so many classes without a generic function; takes no memory.
    pub fn new(alloc: Global, classes: &ClassRows) -> CellCount
        ensures { IsCellCount classes.now [] result }
    {
        CellCount {
            classes: classes.len(),
            generics: ItemList::new(alloc),
        }
    }

    // Whether there are as many classes, generic functions and methods as were counted.
    fn is_current(&self, classes: &ClassRows, generics: &GenericRows) -> bool
        ensures { result ≡ true → IsCurrent classes.now generics.now self.now }
    {
        if self.classes != classes.len() || self.generics.len() != generics.len() {
            return false;
        }
        for at in 0..generics.len() {
            if !self.has_methods_of(at, generics) {
                return false;
            }
        }
        true
    }

    // Whether that generic function has as many methods as were counted.
    fn has_methods_of(&self, at: usize, generics: &GenericRows) -> bool
        ensures { result ≡ true → HasMethodsOf at generics.now self.now.generics }
    {
        let Some(count) = self.generics.get(at) else {
            return false;
        };
        let Some(generic) = generics.get(at) else {
            return false;
        };
        count.methods == generic.methods.len()
    }

    // The count of one generic function.
    fn estimate(
        &self,
        alloc: Global,
        classes: &ClassRows,
        flags: &mut ClassFlags,
        generics: &GenericRows,
        at: usize,
        generic: &GenericRow,
    ) -> Result<GenericCount, NoMemory>
        requires cleared { AreFlags [] flags.old }
        requires before { WasCellCount classes.now generics.now self.now }
        requires there { slice_get generics.now at ≡ Some generic.now }
        ensures counted { IfOk result (λ count. IsCountOf classes.now generic.now count) }
        ensures cleared { OnOk result (AreFlags [] flags.new) }
    {
        match self.generics.get(at) {
            Some(count) if count.methods == generic.methods.len() => {
                recounted(alloc, classes, flags, generic, count, self.classes)
            }
            _ => estimated(alloc, classes, flags, generic),
        }
    }

    // The counts of all generic functions, each by itself no less than its cells.
    fn estimates(
        &self,
        alloc: Global,
        classes: &ClassRows,
        generics: &GenericRows,
    ) -> Result<Estimates, NoMemory>
        requires { WasCellCount classes.now generics.now self.now }
        ensures { IfOk result (λ found. AreEstimates classes.now generics.now found) }
    {
        let mut flags = no_flags(alloc, classes.len())?;
        let mut found = Estimates {
            total: 0,
            generics: ItemList::new(alloc),
        };
        for at in 0..generics.len() {
            let Some(generic) = generics.get(at) else {
                unreachable!()
            };
            let count = self.estimate(alloc, classes, &mut flags, generics, at, generic)?;
            found.total = found.total.saturating_add(count.most);
            found.generics.push(count)?;
        }
        Ok(found)
    }

    /// The count behind what was added to the classes and generic functions that were counted; or, exactly where there
    /// are then more than 262,144 cells, that these are too many. What was counted is not changed.
    pub fn recount(
        &self,
        alloc: Global,
        classes: &ClassRows,
        generics: &GenericRows,
    ) -> Result<Recount, NoMemory>
        requires { WasCellCount classes.now generics.now self.now }
        ensures { IfOk result (λ recount. IsRecount classes.now generics.now self.now recount) }
    {
        if self.is_current(classes, generics) {
            return Ok(Recount::Same);
        }
        let found = self.estimates(alloc, classes, generics)?;
        if found.total <= MOST_CELLS {
            return Ok(Recount::New(CellCount {
                classes: classes.len(),
                generics: found.generics,
            }));
        }
        sharpened(alloc, classes, generics, &found, self)
    }
}

// The count itself, of one that was not counted so yet, where too many cells are left.
fn sharpen(
    alloc: Global,
    classes: &ClassRows,
    generic: &GenericRow,
    count: &GenericCount,
    left: u64,
) -> Result<GenericCount, NoMemory>
    requires { IsCountOf classes.now generic.now count.now }
    ensures { IfOk result (λ count. IsCountOf classes.now generic.now count) }
{
    if count.exact || left <= MOST_CELLS {
        Ok(*count)
    } else {
        counted(alloc, classes, generic)
    }
}

// The counts where, one generic function after another, the cells themselves are counted, until they are few.
fn sharpen_all(
    alloc: Global,
    classes: &ClassRows,
    generics: &GenericRows,
    found: &Estimates,
) -> Result<Estimates, NoMemory>
    requires { AreEstimates classes.now generics.now found.now }
    ensures { IfOk result (λ found. AreEstimates classes.now generics.now found) }
{
    let mut left = found.total;
    let mut sharp = Estimates {
        total: 0,
        generics: ItemList::new(alloc),
    };
    for at in 0..generics.len() {
        let Some(generic) = generics.get(at) else {
            unreachable!()
        };
        let Some(count) = found.generics.get(at) else {
            unreachable!()
        };
        let sharper = sharpen(alloc, classes, generic, count, left)?;
        left = left.saturating_sub(count.most).saturating_add(sharper.most);
        sharp.total = sharp.total.saturating_add(sharper.most);
        sharp.generics.push(sharper)?;
    }
    Ok(sharp)
}

// The same, where the estimates alone are too many: then the cells are counted.
fn sharpened(
    alloc: Global,
    classes: &ClassRows,
    generics: &GenericRows,
    found: &Estimates,
    count: &CellCount,
) -> Result<Recount, NoMemory>
    requires { AreEstimates classes.now generics.now found.now }
    ensures { IfOk result (λ recount. IsRecount classes.now generics.now count.now recount) }
{
    let sharp = sharpen_all(alloc, classes, generics, found)?;
    if sharp.total <= MOST_CELLS {
        return Ok(Recount::New(CellCount {
            classes: classes.len(),
            generics: sharp.generics,
        }));
    }
    let all = cells(alloc, generics, classes)?;
    if all > MOST_CELLS {
        return Ok(Recount::TooMany);
    }
    Ok(Recount::New(CellCount {
        classes: classes.len(),
        generics: sharp.generics,
    }))
}
