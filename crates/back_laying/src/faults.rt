// Why words are not laid, and addresses.

ghost use Rattle.std.specs.Prelude.{◌≡◌, ◌+◌, ◌*◌, ◌^◌, ◌≤◌, IfOk, OnErr};

use base::NoMemory;

/// Why words are not laid: for want of memory, or because a number or an address does not fit into
/// its word.
#[derive(Clone, Copy, Debug)]
pub enum LayingFault {
    NoMemory,
    TooLarge,
}

impl From<NoMemory> for LayingFault {
    ghost use Rattle.std.specs.Prelude.{◌≡◌};
    ghost use Rattle.back_laying.specs.declared.faults.LayingFault.TheVariants as fault;

    ghost from_gives = { λ _ e. e ≡ fault.NoMemory };

    fn from(_want: NoMemory) -> LayingFault {
        LayingFault::NoMemory
    }
}

// So many words end below the address 2^32.
const MOST_WORDS: usize = 1_073_741_823;

const LAST_ADDRESS: u64 = 4_294_967_295;

/// The address so many words behind another one.
pub(crate) fn behind(address: u32, words: usize) -> Result<u32, LayingFault>
    ensures ok { IfOk result (λ end. end ≡ address + 4 * words) }
    ensures too_large { OnErr result (2 ^ 32 ≤ address + 4 * words) }
{
    if words > MOST_WORDS {
        return Err(LayingFault::TooLarge);
    }
    let end = u64::from(address) + 4 * words as u64;
    if end > LAST_ADDRESS {
        return Err(LayingFault::TooLarge);
    }
    Ok(end as u32)
}
