// Numbers of 32 bits, least byte first.

ghost use Rattle.std.specs.Prelude.{◌≡◌, ◌+◌, ◌≤◌, ◌++◌, length, OnOk};
ghost use Rattle.rv_machine.specs.Memory.{bytes_of_number};
ghost use Rattle.rv_image_file.specs.BadText.{number_in};

use base::{Bytes, NoMemory};

// The number behind so many bytes.
pub(crate) fn number_at(bytes: &[u8], from: usize) -> u32
    requires { from + 4 ≤ length bytes.now }
    ensures { result ≡ number_in bytes.now from }
{
    u32::from_le_bytes([
        bytes[from],
        bytes[from + 1],
        bytes[from + 2],
        bytes[from + 3],
    ])
}

// Appends the bytes of a number.
pub(crate) fn put_number(out: &mut Bytes, number: u32) -> Result<(), NoMemory>
    ensures { OnOk result (out.new ≡ out.old ++ bytes_of_number 4 number) }
{
    out.append(&number.to_le_bytes())
}
