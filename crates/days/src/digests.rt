// A text's digest: 64 bits by FNV-1a, printed in hexadecimal digits. Not `bench_api`'s, which takes a number in one step.
use std::fmt;

const OFFSET: u64 = 0xcbf29ce484222325;

const PRIME: u64 = 0x100000001b3;

#[derive(Clone, Copy)]
pub struct Digest(u64);

impl Digest {
    pub fn of(text: &str) -> Digest {
        let step = |hash: u64, byte: &u8| (hash ^ u64::from(*byte)).wrapping_mul(PRIME);
        Digest(text.as_bytes().iter().fold(OFFSET, step))
    }
}

impl fmt::Display for Digest {
    fn fmt<W: fmt::Write>(&self, f: &mut fmt::Formatter<W>) -> fmt::Result {
        write!(f, "{:016x}", self.0)
    }
}
