//! Inputs, read to their end.
ghost use Rattle.std.specs.Prelude.{◌≡◌, ◌<◌, ◌≤◌, length, IfOk, IfSome, IsErr, IsErrOf};
ghost use Rattle.rje_store.specs.declared.store.StoreFault.TheVariants.{TooLong};

use crate::store::StoreFault;
use std::alloc::Global;
use std::io::Read;

/// The most bytes of an input.
pub const MAX_INPUT: usize = 16_777_216;

/// How many bytes are read at once.
const PIECE: usize = 65_536;

/// All bytes of a reader, which has at most `MAX_INPUT`. Too long where it has more, and failed where a read fails,
/// an interruption included.
pub fn read_all<I: Read>(alloc: Global, input: &mut I) -> Result<Vec<u8>, StoreFault>
    ensures all { IfOk result (λ bytes.
        IfSome (I.remaining input.old) (λ rest. bytes.items ≡ rest)) }
    ensures limit { IfOk result (λ bytes. length bytes.items ≤ MAX_INPUT) }
    ensures too_much { IfSome (I.remaining input.old)
        (λ rest. MAX_INPUT < length rest → IsErr result) }
    ensures long { IsErrOf result TooLong → IfSome (I.remaining input.old)
        (λ rest. MAX_INPUT < length rest) }
{
    let mut bytes = Vec::new(alloc);
    let mut piece = [0u8; PIECE];
    loop {
        let count = match input.read(&mut piece) {
            Ok(count) => count,
            Err(error) => return Err(StoreFault::Failed(error.kind())),
        };
        if count == 0 {
            return Ok(bytes);
        }
        if MAX_INPUT - bytes.len() < count {
            return Err(StoreFault::TooLong);
        }
        if bytes.extend_from_slice(&piece[..count]).is_err() {
            return Err(StoreFault::OutOfMemory);
        }
    }
}
