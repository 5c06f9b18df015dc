// The program from its input to its output.
ghost use Rattle.std.specs.Prelude.{◌≡◌, Some, IfOk, string_bytes};
ghost use Rattle.bench_calls.specs.Runs.{Ran, Printed};
ghost use Rattle.bench_calls.specs.Faults.{fault_of, fault_text};
ghost use Rattle.bench_calls.specs.declared.runs.BenchFault.TheVariants.{NoMemory};

use crate::asking::requests_of;
use crate::fills::all_fills;
use crate::telling::replies_to;
use bench_lines::commands::Command;
use bench_lines::lines::parse_lines;
use bench_lines::replies::rows;
use nor::Nor;
use session::{Halt, Made, Request, run_session};
use std::alloc::{AllocError, Global};
use std::fmt;

// Words of a NOR chip of 4 blocks.
const CHIP_WORDS: usize = 8448;

// Why the program prints no rows.
#[derive(Clone, Copy)]
pub enum BenchFault {
    NoMemory,
    NotFormatted,
}

impl fmt::Display for BenchFault {
    ghost output = { λ fault. Some (fault_text fault) };

    fn fmt<W: fmt::Write>(&self, f: &mut fmt::Formatter<W>) -> fmt::Result {
        match self {
            BenchFault::NoMemory => write!(f, "no memory"),
            BenchFault::NotFormatted => write!(f, "the chip can't be formatted"),
        }
    }
}

impl From<AllocError> for BenchFault {
    ghost from_gives = { λ _ fault. fault ≡ NoMemory };

    fn from(_: AllocError) -> BenchFault {
        Self::NoMemory
    }
}

impl From<Halt> for BenchFault {
    ghost from_gives = { λ halt fault. fault ≡ fault_of halt };

    fn from(halt: Halt) -> BenchFault {
        match halt {
            Halt::NoMemory => BenchFault::NoMemory,
            Halt::Refused(_) => BenchFault::NotFormatted,
        }
    }
}

// Makes the calls on a store with label K7 on a NOR chip of 4 blocks.
fn run_requests<'a>(heap: Global, requests: &[Request<'a>]) -> Result<Vec<Made<'a>>, BenchFault>
    ensures { IfOk result (λ calls. Ran requests.now calls.items) }
{
    let mut words = Vec::from_elem(heap, 0xFFFFu16, CHIP_WORDS)?;
    let chip = Nor::new(words.as_mut_slice());
    let (_, outcome) = run_session(heap, chip, b"K7", requests);
    Ok(outcome?)
}

// The rows of all lines.
pub fn run_input(heap: Global, input: &[u8]) -> Result<String, BenchFault>
    ensures { IfOk result (λ text. Printed input.now (string_bytes text)) }
{
    let lines = parse_lines(heap, input)?;
    let fills = all_fills(heap)?;
    let requests = requests_of(heap, lines.as_slice(), fills.as_slice())?;
    let calls = run_requests(heap, requests.as_slice())?;
    let replies = replies_to(heap, calls.as_slice())?;
    Ok(rows(heap, lines.as_slice(), replies.as_slice())?)
}
