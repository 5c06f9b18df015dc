// The lines of the program's input.
ghost use Rattle.std.specs.Prelude.{◌≡◌, IfOk};
ghost use Rattle.bench_lines.specs.Lines.{commands_in};

use crate::commands::{Command, parse_command};
use std::alloc::{AllocError, Global};

// The command of each line; `None` for a line that is no command.
pub fn parse_lines(heap: Global, input: &[u8]) -> Result<Vec<Option<Command>>, AllocError>
    ensures { IfOk result (λ commands. commands.items ≡ commands_in input.now) }
{
    let mut commands = Vec::new(heap);
    // No chain: tried `.map(..).collect(heap)`, and `search` did not prove that it gives each line's command.
    for line in input.split_inclusive(|byte| *byte == b'\n') {
        let line = line.strip_suffix(b"\n").unwrap_or(line);
        commands.push(parse_command(line))?;
    }
    Ok(commands)
}
