// What is asked of a store, and what it answered.
use chip::SectorNumber;
use refusals::Refusal;
use rules::{Count, Holding, Tick};

// A call with its arguments. A buffer is the one that is handed over, as it is before the call.
#[derive(Clone, Copy)]
pub enum Request<'a> {
    Mount,
    Close,
    Count,
    Clean,
    Freeze,
    Open,
    Write {
        sector: SectorNumber,
        given: &'a [u8],
    },
    Delete {
        sector: SectorNumber,
    },
    Read {
        sector: SectorNumber,
        buffer: &'a [u8],
    },
    Look {
        state: Tick,
        sector: SectorNumber,
        buffer: &'a [u8],
    },
    Since {
        sector: SectorNumber,
    },
    SinceIn {
        state: Tick,
        sector: SectorNumber,
    },
    Held {
        buffer: &'a [u32],
    },
    Label {
        buffer: &'a [u8],
    },
    Release {
        state: Tick,
    },
    Revert {
        state: Tick,
    },
    // Spend the slip of the open that gave this number.
    Keep {
        state: Tick,
    },
    Back {
        state: Tick,
    },
}

// What a call that was granted answers.
#[derive(Clone, Copy, Debug, PartialEq, Eq)]
pub enum Value {
    // The clock, or the number of the state that was frozen.
    Tick(Tick),
    Holding(Holding),
    // The birth of what a sector holds, if it holds anything.
    Since(Option<Tick>),
    Count(Count),
    // How many numbers or bytes were filled in, or how many pages were reclaimed.
    Size(usize),
    Nothing,
}

// What was answered, and the buffer afterwards, which is one of bytes or, for held, one of numbers.
// (Both stand beside one another: who reads a reply knows by the request which of the two is filled.)
#[derive(Drop)]
pub struct Reply {
    pub outcome: Result<Value, Refusal>,
    pub bytes: Vec<u8>,
    pub numbers: Vec<u32>,
}

// A call that was made.
#[derive(Drop)]
pub struct Made<'a> {
    pub request: Request<'a>,
    pub reply: Reply,
}

// Why a session made no call.
#[derive(Clone, Copy)]
pub enum Halt {
    NoMemory,
    Refused(Refusal),
}
