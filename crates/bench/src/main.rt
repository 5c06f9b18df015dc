// Runs commands on a store: reads lines from standard input, and prints a row for each.
#![tactic(auto)]

use bench_calls::runs::run_input;
use std::io::Read;
use std::process::ExitCode;

fn main(rt: HostRuntime) -> anyhow::Result<ExitCode> {
    let mut input = Vec::new(rt.alloc());
    rt.stdin().read_to_end(&mut input)?;
    match run_input(rt.alloc(), &input) {
        Ok(text) => {
            print!(rt; "{text}")?;
            Ok(ExitCode::SUCCESS)
        }
        Err(fault) => {
            eprintln!(rt; "bench: {fault}")?;
            Ok(ExitCode::FAILURE)
        }
    }
}
