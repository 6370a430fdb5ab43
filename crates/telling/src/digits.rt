// Bytes written as hexadecimal digits.
ghost use Rattle.std.specs.Prelude.{◌≡◌, IfOk, Ok};
ghost use Rattle.hex.specs.Hex.{decode_of};

use hex::FromHexError;
use std::alloc::{AllocError, Global};
use std::io;

fn not_digits() -> io::Error {
    io::Error::from(io::ErrorKind::InvalidData)
}

// The bytes that pairs of small digits write; an error where they write none.
pub fn from_hex(heap: Global, text: &[u8]) -> io::Result<Vec<u8>>
    ensures { IfOk result (λ bytes. decode_of text.now ≡ Ok bytes.items) }
{
    if text.iter().any(|c| c.is_ascii_uppercase()) {
        return Err(not_digits());
    }
    hex::decode(heap, text).map_err(|fault| match fault {
        FromHexError::OutOfMemory => io::Error::from(AllocError),
        _ => not_digits(),
    })
}
