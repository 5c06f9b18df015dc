// The calls that commands make.
ghost use Rattle.std.specs.Prelude.{◌≡◌, [], ◌++◌, map, IfOk, OnOk, slice_index_or};
ghost use Rattle.session.specs.Requests.{call_of};
ghost use Rattle.bench_calls.specs.Calls.{first_call, calls_for, calls_in};

use crate::fills::SECTOR_BYTES;
use bench_lines::commands::Command;
use chip::SectorNumber;
use rules::Tick;
use session::Request;
use std::alloc::{AllocError, Global};

// The sector that is filled with a byte.
fn fill_of(fills: &[[u8; SECTOR_BYTES]], byte: u8) -> &[u8]
    ensures { result.now ≡ slice_index_or fills.now byte [] }
{
    fills.get(byte as usize).map_or(&[], |fill| fill.as_slice())
}

// The first or only call of a command.
fn first_call<'a>(command: Command, fills: &'a [[u8; SECTOR_BYTES]]) -> Request<'a>
    ensures { call_of result ≡ first_call fills.now command }
{
    match command {
        Command::Write { sector, fill } => Request::Write {
            sector: SectorNumber(sector),
            given: fill_of(fills, fill),
        },
        Command::Delete(sector) => Request::Delete {
            sector: SectorNumber(sector),
        },
        Command::Read(sector) => Request::Read {
            sector: SectorNumber(sector),
            buffer: fill_of(fills, 0),
        },
        Command::Look { state, sector } => Request::Look {
            state: Tick(state),
            sector: SectorNumber(sector),
            buffer: fill_of(fills, 0),
        },
        Command::Freeze => Request::Freeze,
        Command::Release(state) => Request::Release { state: Tick(state) },
        Command::Revert(state) => Request::Revert { state: Tick(state) },
        Command::Clean => Request::Clean,
        Command::Remount => Request::Close,
    }
}

// Appends the calls of a command.
fn push_calls<'a>(
    requests: &mut Vec<Request<'a>>,
    command: Command,
    fills: &'a [[u8; SECTOR_BYTES]],
) -> Result<(), AllocError>
    ensures { OnOk result (map call_of requests.new.items ≡ map call_of requests.old.items ++ calls_for fills.now command) }
{
    requests.push(first_call(command, fills))?;
    if command == Command::Remount {
        requests.push(Request::Mount)?;
    }
    Ok(())
}

// The calls of all commands, in their order.
pub fn requests_of<'a>(
    heap: Global,
    lines: &[Option<Command>],
    fills: &'a [[u8; SECTOR_BYTES]],
) -> Result<Vec<Request<'a>>, AllocError>
    ensures { IfOk result (λ requests. map call_of requests.items ≡ calls_in fills.now lines.now) }
{
    let mut requests = Vec::new(heap);
    // Over `lines.iter().flatten()` the check asks for an invariant on that iterator; only this loop's was proved.
    for line in lines {
        if let Some(command) = line {
            push_calls(&mut requests, *command, fills)?;
        }
    }
    Ok(requests)
}
