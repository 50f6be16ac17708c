//! From a source to its bytes.

ghost use Rattle.std.specs.Prelude.{◌≡◌, ◌<◌, ◌^◌, length, vec_len, take, Err, OnErr, IfOk, IfSome};
ghost use Rattle.ct_streams.specs.Streams.{FailsOnce, read_part};

use crate::input_fault::InputFault;
use crate::source::Source;
use std::alloc::Global;

// How many bytes are read at most: one more than a record or a schedule may have.
const MOST: usize = 67_108_865;

// How many bytes are read at a time.
const PIECE: usize = 65_536;

/// All that the source has, or its first bytes, one more than a record or a schedule may have. Where what the source has
/// is not known, nothing is said of the bytes.
pub fn read_all<R: Source>(alloc: Global, reader: &mut R) -> Result<Vec<u8>, InputFault>
    requires { R.failures reader.old < 2 ^ 63 }
    ensures bytes { IfOk result (λ bytes. IfSome (R.left reader.old) (λ input. bytes.items ≡ read_part input)) }
    ensures failures { FailsOnce result InputFault.Reader (R.failures reader.old) (R.failures reader.new) }
{
    let mut piece = piece(alloc)?;
    read_up_to(alloc, reader, &mut piece, MOST)
}

// Room for one read.
fn piece(alloc: Global) -> Result<Vec<u8>, InputFault>
    ensures room { IfOk result (λ piece. 0 < vec_len piece) }
    ensures err { OnErr result (result ≡ Err InputFault.Memory) }
{
    match vec![in alloc; 0u8; PIECE] {
        Ok(piece) => Ok(piece),
        Err(_) => Err(InputFault::Memory),
    }
}

// What the source has, and no more than the limit.
fn read_up_to<R: Source>(
    alloc: Global,
    reader: &mut R,
    piece: &mut [u8],
    limit: usize,
) -> Result<Vec<u8>, InputFault>
    requires count { R.failures reader.old < 2 ^ 63 }
    requires room { 0 < length piece.old }
    ensures bytes { IfOk result (λ bytes. IfSome (R.left reader.old) (λ input. bytes.items ≡ take limit input)) }
    ensures failures { FailsOnce result InputFault.Reader (R.failures reader.old) (R.failures reader.new) }
{
    let mut bytes = Vec::new(alloc);
    while bytes.len() < limit {
        let room = piece.len().min(limit - bytes.len());
        let Ok(n) = reader.read(&mut piece[..room]) else {
            return Err(InputFault::Reader);
        };
        if n == 0 {
            return Ok(bytes);
        }
        if bytes.extend_from_slice(&piece[..n]).is_err() {
            return Err(InputFault::Memory);
        }
    }
    Ok(bytes)
}
