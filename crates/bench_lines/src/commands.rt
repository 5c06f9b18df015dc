// The commands of the program `bench`, one to a line.
ghost use Rattle.std.specs.Prelude.{◌≡◌};
ghost use Rattle.bench_lines.specs.Replies.{letter_of};
ghost use Rattle.bench_lines.specs.Commands.{bare_of, one_of, write_of, look_of, two_of, numbers_of, words_of, command_of};

use crate::numbers::parse_number;
use crate::splits::split_once;

// The most bytes of a line, without its line feed.
const LINE_BYTES: usize = 40;

#[derive(Clone, Copy, Debug, PartialEq, Eq)]
pub enum Command {
    Write { sector: u32, fill: u8 },
    Delete(u32),
    Read(u32),
    Look { state: u32, sector: u32 },
    Freeze,
    Release(u32),
    Revert(u32),
    Clean,
    Remount,
}

impl Command {
    // (No `Display`: a row has the letter and not the command's numbers.)
    pub(crate) fn letter(self) -> &'static str
        ensures { result.now ≡ letter_of self }
    {
        match self {
            Command::Write { .. } => "w",
            Command::Delete(_) => "d",
            Command::Read(_) => "r",
            Command::Look { .. } => "l",
            Command::Freeze => "f",
            Command::Release(_) => "x",
            Command::Revert(_) => "v",
            Command::Clean => "c",
            Command::Remount => "z",
        }
    }
}

// A command of a letter alone.
fn parse_bare(letter: u8) -> Option<Command>
    ensures { result ≡ bare_of letter }
{
    match letter {
        b'f' => Some(Command::Freeze),
        b'c' => Some(Command::Clean),
        b'z' => Some(Command::Remount),
        _ => None,
    }
}

// A command of a letter and a number.
fn parse_one(letter: u8, word: &[u8]) -> Option<Command>
    ensures { result ≡ one_of letter word.now }
{
    let number = parse_number(word, u32::MAX)?;
    match letter {
        b'd' => Some(Command::Delete(number)),
        b'r' => Some(Command::Read(number)),
        b'x' => Some(Command::Release(number)),
        b'v' => Some(Command::Revert(number)),
        _ => None,
    }
}

fn parse_write(sector: &[u8], fill: &[u8]) -> Option<Command>
    ensures { result ≡ write_of sector.now fill.now }
{
    let sector = parse_number(sector, u32::MAX)?;
    let fill = parse_number(fill, 255)? as u8;
    Some(Command::Write { sector, fill })
}

fn parse_look(state: &[u8], sector: &[u8]) -> Option<Command>
    ensures { result ≡ look_of state.now sector.now }
{
    let state = parse_number(state, u32::MAX)?;
    let sector = parse_number(sector, u32::MAX)?;
    Some(Command::Look { state, sector })
}

// A command of a letter and two numbers.
fn parse_two(letter: u8, first: &[u8], second: &[u8]) -> Option<Command>
    ensures { result ≡ two_of letter first.now second.now }
{
    match letter {
        b'w' => parse_write(first, second),
        b'l' => parse_look(first, second),
        _ => None,
    }
}

// A command of a letter and what stands after the space.
fn parse_numbers(letter: u8, rest: &[u8]) -> Option<Command>
    ensures { result ≡ numbers_of letter rest.now }
{
    match split_once(rest, b' ') {
        Some((first, second)) => parse_two(letter, first, second),
        None => parse_one(letter, rest),
    }
}

// A command by its words, with one space between them.
fn parse_words(line: &[u8]) -> Option<Command>
    ensures { result ≡ words_of line.now }
{
    match line {
        [letter] => parse_bare(*letter),
        [letter, b' ', rest @ ..] => parse_numbers(*letter, rest),
        _ => None,
    }
}

// The command of a line without its line feed; `None` where the line is no command.
pub fn parse_command(line: &[u8]) -> Option<Command>
    ensures { result ≡ command_of line.now }
{
    if line.len() > LINE_BYTES {
        return None;
    }
    parse_words(line)
}
