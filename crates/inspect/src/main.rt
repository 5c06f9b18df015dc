// Says what a chip image holds: inspect nand|nor FILE.
#![tactic(auto)]

use chip::Chip;
use inspection::arguments::{Make, Request, USAGE, parse_arguments};
use inspection::images::{left_over, words_of};
use inspection::reports::report;
use nand::Nand;
use nor::Nor;
use std::process::ExitCode;
use std::{env, fs};

fn print_report<C: Chip>(
    rt: &HostRuntime,
    make: Make,
    file_bytes: usize,
    chip: &C,
) -> anyhow::Result<()> {
    let text = report(rt.alloc(), make, left_over(file_bytes, chip), chip)?;
    print!(rt; "{text}")?;
    Ok(())
}

fn inspect(rt: &HostRuntime, request: Request) -> anyhow::Result<()> {
    let mut bytes = fs::read(rt, request.file)?;
    let file_bytes = bytes.len();
    match request.make {
        Make::Nand => print_report(rt, request.make, file_bytes, &Nand::new(&mut bytes)),
        Make::Nor => {
            let mut words = words_of(rt.alloc(), &bytes)?;
            print_report(rt, request.make, file_bytes, &Nor::new(&mut words))
        }
    }
}

fn main(rt: HostRuntime) -> anyhow::Result<ExitCode> {
    let arguments: Vec<String> = env::args(&rt)?.collect(rt.alloc())?;
    let Ok(request) = parse_arguments(&arguments) else {
        eprintln!(rt; "{USAGE}")?;
        return Ok(ExitCode::FAILURE);
    };
    if let Err(fault) = inspect(&rt, request) {
        let file = request.file;
        eprintln!(rt; "inspect: {file}: {fault}")?;
        return Ok(ExitCode::FAILURE);
    }
    Ok(ExitCode::SUCCESS)
}
