// What code knows of a form's surroundings when it is written: the registers of slots and exits, of the function itself and of the
// method's call, and what the site is.

use base::ItemList;
use mid_code::{Register, RegisterList};

/// What the site is: a number that is known, or the word in a register.
#[derive(Clone, Copy)]
pub enum SitePlace {
    Known(u32),
    Held(Register),
}

/// How an exit of the same activation may be left: by a cut to its record at once, since no cleanup stands between; by a transfer to
/// its record, which is known to be valid; or after a search, since a cleanup runs here in which it may be no longer valid.
#[derive(Clone, Copy)]
pub enum Reach {
    AtOnce,
    ByTransfer,
    BySearch,
}

/// An exit of the same activation: the registers of its serial number and of its record, and how it may be left.
#[derive(Clone, Copy)]
pub struct OwnExit {
    pub serial: Register,
    pub record_register: Register,
    pub reach: Reach,
}

/// Exits, the outermost first.
pub type ExitList = ItemList<OwnExit>;

/// What code knows of a form's surroundings.
#[derive(Drop)]
pub struct Scope {
    /// The register of each slot.
    pub slots: RegisterList,
    /// The exits around.
    pub exits: ExitList,
    /// The register of the pointer to the function itself.
    pub function: Register,
    /// The register of the chain of the method; in the next ones are how many arguments it was called with, and where they are. None where
    /// the code is of no method.
    pub method: Option<Register>,
    pub site: SitePlace,
}
