// Reads all the bytes of a name.
ghost use Rattle.std.specs.Prelude.{◌≡◌, ◌^◌, ◌<◌, ◌≤◌, ◌↔◌, Some, true, IfOk, IsErrOf, length};
ghost use Rattle.std.specs.String.{string_bytes};
ghost use Rattle.xn_io.specs.Causes.{Rose};
ghost use Rattle.xn_io.specs.Input.{AreAllOf, IsLonger};

use crate::Input;
use std::alloc::Global;

// How many bytes are read at a time, at most.
const BUFFER: usize = 8192;

/// Why a name was not read.
#[derive(Clone, Copy, Debug, PartialEq, Eq)]
pub enum ReadErr {
    /// A call of the input failed.
    Fault,
    /// The name has more bytes than the limit.
    TooLong,
    /// Memory was wanting.
    Memory,
}

/// All the bytes of a name, of which there are at most `limit`. After a refusal a part of the name
/// may have been read.
pub fn read_all<I: Input>(
    alloc: Global,
    input: &mut I,
    name: String,
    limit: u64,
) -> Result<Vec<u8>, ReadErr>
    requires { limit ≤ 2 ^ 62 }
    ensures all { IfOk result (λ v. AreAllOf (I.told input.old) (string_bytes name) v.items) }
    ensures got { IfOk result (λ v. I.got input.new ≡ length v.items) }

    // A fault comes exactly where a call failed.
    ensures fault { IsErrOf result ReadErr.Fault ↔ (I.failed input.new ≡ true) }
    ensures rose { IsErrOf result ReadErr.Fault → Rose (I.faults input.old) (I.faults input.new) }

    // Too many bytes come exactly where more than the limit were taken, and then the name has them.
    ensures too_long { IsErrOf result ReadErr.TooLong ↔ (limit < I.got input.new) }
    ensures longer { IsErrOf result ReadErr.TooLong
        → IsLonger (I.told input.old) (string_bytes name) limit }

    ensures name { I.name input.new ≡ Some (string_bytes name) }
    ensures told { I.told input.new ≡ I.told input.old }
    ensures later { I.faults input.old ≤ I.faults input.new }
{
    let mut all = Vec::new(alloc);
    input.begin(name).map_err(|_| ReadErr::Fault)?;
    let mut buf = [0; BUFFER];
    loop {
        let count = input.read(&mut buf).map_err(|_| ReadErr::Fault)?;
        if count == 0 {
            return Ok(all);
        }
        if count as u64 > limit - all.len() as u64 {
            return Err(ReadErr::TooLong);
        }
        all.extend_from_slice(&buf[..count])
            .map_err(|_| ReadErr::Memory)?;
    }
}
