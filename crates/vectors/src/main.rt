// Runs digest vectors: for each line of standard input, a byte string in hexadecimal, prints its fnv, its sum and
// its length.
//
// The fnv of the first 25 lines are published vectors: of the empty string, of single letters and of the other prefixes
// of "foobar", each of these also with a zero byte behind it, and of "chongo was here!\n". The fnv of the other lines,
// and all sums, come from an independent computation. The last two lines are not hexadecimal.
#![tactic(auto)]

ghost use Rattle.std.specs.Prelude.{◌≡◌, ◌<◌, IfSome};
ghost use Rattle.vectors.specs.Hex.{hex_value};

use digest::{Digest, Fnv, Sum};
use std::alloc::{AllocError, Global};

// Why a line gives no bytes.
#[derive(Drop)]
enum LineError {
    NotHexadecimal,
    OutOfMemory(AllocError),
}

impl From<AllocError> for LineError {
    fn from(error: AllocError) -> LineError {
        LineError::OutOfMemory(error)
    }
}

// The value of a hexadecimal digit, or none where `b` is no such digit.
fn digit(b: u8) -> Option<u8>
    ensures value { result ≡ hex_value b }
    ensures small { IfSome result (λ v. v < 16) }
{
    match b {
        b'0'..=b'9' => Some(b - b'0'),
        b'a'..=b'f' => Some(b - b'a' + 10),
        _ => None,
    }
}

// The byte of two hexadecimal digits, or none where one of them is no such digit.
fn byte([high, low]: &[u8; 2]) -> Option<u8> {
    Some(digit(*high)? * 16 + digit(*low)?)
}

// The bytes that a line spells, two digits each.
fn bytes_of(heap: Global, line: &[u8]) -> Result<Vec<u8>, LineError> {
    let (pairs, rest) = line.as_chunks::<2>();
    if !rest.is_empty() {
        return Err(LineError::NotHexadecimal);
    }
    pairs
        .iter()
        .map(|pair| byte(pair).ok_or(LineError::NotHexadecimal))
        .try_collect(heap)
}

fn main(rt: HostRuntime) -> anyhow::Result<()> {
    for line in rt.lines(rt.alloc()) {
        match bytes_of(rt.alloc(), line?.as_bytes()) {
            Ok(bytes) => {
                let fnv = Fnv.digest(&bytes);
                let sum = Sum.digest(&bytes);
                println!(rt; "{fnv:016x} {sum} {}", bytes.len())?;
            }
            Err(LineError::NotHexadecimal) => println!(rt; "not hexadecimal")?,
            Err(LineError::OutOfMemory(error)) => return Err(error.into()),
        }
    }
    Ok(())
}
