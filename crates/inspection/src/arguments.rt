// The arguments of the program: the chip's make and the image's file.
ghost use Rattle.std.specs.Prelude.{◌≡◌, map, Some, string_bytes};
ghost use Rattle.std.specs.Option.{ok_or};
ghost use Rattle.inspection.specs.declared.arguments.UsageFault.TheVariants.{UnknownMake};
ghost use Rattle.inspection.specs.Arguments.{name_of, make_of, request_of, asked};

use std::fmt;
use std::str::FromStr;

// The line for arguments that the program can't follow.
pub const USAGE: &str = "usage: inspect nand|nor FILE";

#[derive(Clone, Copy, Debug, PartialEq, Eq)]
pub enum Make {
    Nand,
    Nor,
}

impl Make {
    pub fn name(self) -> &'static str
        ensures { result.now ≡ name_of self }
    {
        match self {
            Make::Nand => "nand",
            Make::Nor => "nor",
        }
    }
}

impl fmt::Display for Make {
    ghost output = { λ make. Some (name_of make) };

    fn fmt<W: fmt::Write>(&self, f: &mut fmt::Formatter<W>) -> fmt::Result {
        f.write_str(self.name())
    }
}

impl FromStr for Make {
    type Err = UsageFault;

    ghost from_str_gives = { λ name make. make ≡ ok_or (make_of name) UnknownMake };

    fn from_str(name: &str) -> Result<Make, UsageFault> {
        match name {
            "nand" => Ok(Make::Nand),
            "nor" => Ok(Make::Nor),
            _ => Err(UsageFault::UnknownMake),
        }
    }
}

// What the arguments ask for: the make of the chip, and the file of its image.
#[derive(Clone, Copy, Debug, PartialEq, Eq)]
pub struct Request<'a> {
    pub make: Make,
    pub file: &'a str,
}

// Why the arguments ask for nothing.
#[derive(Clone, Copy, Debug, PartialEq, Eq)]
pub enum UsageFault {
    // Not two arguments after the program's name.
    ArgumentCount,
    UnknownMake,
}

// The program's name comes first among the arguments.
pub fn parse_arguments(arguments: &[String]) -> Result<Request<'_>, UsageFault>
    ensures { asked result ≡ request_of (map string_bytes arguments.now) }
{
    let [_, make, file] = arguments else {
        return Err(UsageFault::ArgumentCount);
    };
    Ok(Request {
        make: make.parse()?,
        file: file.as_str(),
    })
}
