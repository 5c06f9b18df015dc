// What the program prints: a row for each line of its input.
ghost use Rattle.std.specs.Prelude.{◌≡◌, ◌++◌, IfOk, string_bytes, OnOk};
ghost use Rattle.bench_lines.specs.Replies.{row_of, rows_of};

use crate::commands::Command;
use std::alloc::{AllocError, Global};

// What the store replied to a command: the number of the outcome, and the value if it has one.
// (No `Result`: a row shows any number with any value.)
#[derive(Clone, Copy, Debug, PartialEq, Eq)]
pub struct Reply {
    pub number: u8,
    pub value: Option<u32>,
}

// The row of a command: its letter, the number of the reply, and the value or `-`.
pub fn row(heap: Global, command: Command, reply: Reply) -> Result<String, AllocError>
    ensures { IfOk result (λ text. string_bytes text ≡ row_of command reply) }
{
    let letter = command.letter();
    let number = reply.number;
    match reply.value {
        Some(value) => format!(in heap; "{letter} {number} {value}\n"),
        None => format!(in heap; "{letter} {number} -\n"),
    }
}

// Appends the row of a command.
fn push_row(
    heap: Global,
    text: &mut String,
    command: Command,
    reply: Reply,
) -> Result<(), AllocError>
    ensures { OnOk result (string_bytes text.new ≡ string_bytes text.old ++ row_of command reply) }
{
    let row = row(heap, command, reply)?;
    text.push_str(row.as_str())
}

// The row of each line: `?` where the line is no command, else the row of the command with the next reply.
// The rows end where the replies run out.
pub fn rows(
    heap: Global,
    lines: &[Option<Command>],
    replies: &[Reply],
) -> Result<String, AllocError>
    ensures { IfOk result (λ text. string_bytes text ≡ rows_of lines.now replies.now) }
{
    let mut text = String::new(heap);
    let mut replies = replies.iter();
    // No chain: it would have to end where the replies run out.
    for line in lines {
        match line {
            None => text.push_str("?\n")?,
            Some(command) => {
                let Some(reply) = replies.next() else {
                    return Ok(text);
                };
                push_row(heap, &mut text, *command, *reply)?;
            }
        }
    }
    Ok(text)
}
