// Places, and the places of a program of lines.

use base::ItemList;
use mid_code::Register;

/// Where the word of a virtual register is: in a machine register, by its number; in a slot, a word of the frame by its number from
/// 1; or nowhere, because it is that constant, which is made again wherever it is read.
#[derive(Clone, Copy)]
pub enum Place {
    InRegister(u8),
    InSlot(u32),
    AsConstant(u32),
}

/// Where a line reads a register.
#[derive(Clone, Copy)]
pub struct Reading {
    pub register: Register,
    pub place: Place,
}

/// What is decided for a line: where it reads its registers, where the word goes that it gives, and whether the return address is
/// still in its register there.
#[derive(Drop)]
pub struct LinePlaces {
    pub readings: ItemList<Reading>,
    pub target: Place,
    pub is_linked: bool,
}

/// What is decided for a procedure: where its parameters go at its entry, whether it keeps the return address in the first word of
/// its frame, how many words its frame has, and its lines.
#[derive(Drop)]
pub struct ProcedurePlaces {
    pub parameters: ItemList<Place>,
    pub saves: bool,
    pub frame: u32,
    pub lines: ItemList<LinePlaces>,
}

/// What is decided for the procedures of a program, by their numbers.
pub type ProcedurePlacesList = ItemList<ProcedurePlaces>;
