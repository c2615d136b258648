//! The workloads of the benchmark: `sf_workloads NAME COUNT SEED` does the jobs of the workload with
//! this name for `COUNT` inputs, which it makes from the seed, and prints a digest of all results.
#![tactic(auto)]

mod awkward;
mod bench;
mod cache_keys;
mod digest;
mod fields;
mod large;
mod random;
mod requests;
mod responses;
mod signatures;
mod texts;

use crate::bench::Bench;
use anyhow::anyhow;
use std::env;

fn main(rt: HostRuntime) -> anyhow::Result<()> {
    let words: Vec<String> = env::args(&rt)?.collect(rt.alloc())?;
    let [_, name, count, seed] = words.as_slice() else {
        return Err(anyhow!("usage: sf_workloads NAME COUNT SEED"));
    };
    let count: u64 = count.parse()?;
    let mut bench = Bench::new(rt.alloc(), seed.parse()?)?;
    match name.as_str() {
        "responses" => responses::answer(&mut bench, count)?,
        "requests" => requests::answer(&mut bench, count)?,
        "signatures" => signatures::answer(&mut bench, count)?,
        "keys" => cache_keys::answer(&mut bench, count)?,
        "large" => large::answer(&mut bench, count)?,
        "awkward" => awkward::answer(&mut bench, count)?,
        _ => return Err(anyhow!("no such workload")),
    }
    let digest = bench.digest.value();
    println!(rt; "{digest:016x}")?;
    Ok(())
}
