// For measuring the library's speed: exported calls that each do one kind of work many times.
#![tactic(auto)]

mod boards;
mod digests;
mod exports;

pub use exports::{Move, bench_accepts, bench_digest, bench_moves, bench_readings, bench_records};
