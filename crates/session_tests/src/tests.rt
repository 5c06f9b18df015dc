// A session on a chip: slips that are named, not in hand, and left over.
use chip::SectorNumber;
use nor::Nor;
use refusals::Refusal;
use rules::{Holding, Tick};
use session::{Halt, Made, Request, Value, run_session};
use std::process::Abort;
use std::test::Fail;

fn answer_is(
    rt: &impl Abort,
    made: &[Made],
    at: usize,
    outcome: Result<Value, Refusal>,
) -> Result<(), Fail> {
    let Some(call) = made.get(at) else {
        return Err(Fail::new("a call is missing"));
    };
    assert_eq!(rt; call.reply.outcome, outcome);
    Ok(())
}

#[test]
fn a_slip_not_in_hand_makes_no_call_and_one_left_over_is_kept(rt: HostRuntime) -> Result<(), Fail> {
    let mut words = [0xFFFFu16; 4 * 2112];
    let chip = Nor::new(&mut words);
    let data = [7u8; 512];
    let buffer = [9u8; 512];
    let sector = SectorNumber(3);
    let requests = [
        Request::Write {
            sector,
            given: &data,
        },
        Request::Open,
        Request::Delete { sector },
        Request::Read {
            sector,
            buffer: &buffer,
        },
        Request::Keep { state: Tick(99) },
        Request::Back { state: Tick(3) },
        Request::Read {
            sector,
            buffer: &buffer,
        },
        Request::Open,
    ];
    let (_, result) = run_session(rt.alloc(), chip, b"label", &requests);
    let Ok(made) = result else {
        return Err(Fail::new("no session"));
    };
    assert_eq!(rt; made.len(), 8);
    answer_is(&rt, made.as_slice(), 0, Ok(Value::Tick(Tick(2))))?;
    answer_is(&rt, made.as_slice(), 1, Ok(Value::Tick(Tick(3))))?;
    answer_is(&rt, made.as_slice(), 2, Ok(Value::Tick(Tick(4))))?;
    answer_is(&rt, made.as_slice(), 3, Ok(Value::Holding(Holding::Empty)))?;
    answer_is(&rt, made.as_slice(), 4, Ok(Value::Tick(Tick(5))))?;
    answer_is(&rt, made.as_slice(), 5, Ok(Value::Holding(Holding::Data)))?;
    answer_is(&rt, made.as_slice(), 6, Ok(Value::Tick(Tick(6))))?;
    answer_is(&rt, made.as_slice(), 7, Ok(Value::Tick(Tick(7))))
}

#[test]
fn a_label_too_long_ends_the_session(rt: HostRuntime) -> Result<(), Fail> {
    let mut words = [0xFFFFu16; 2 * 2112];
    let chip = Nor::new(&mut words);
    let (_, result) = run_session(rt.alloc(), chip, &[0; 33], &[Request::Freeze]);
    match result {
        Err(Halt::Refused(refusal)) => {
            assert_eq!(rt; refusal.number(), 4);
            Ok(())
        },
        _ => Err(Fail::new("the format was not refused")),
    }
}
