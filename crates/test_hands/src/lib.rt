// For tests of the store: its calls in plain numbers, where what is granted is a value and a refusal
// its number, as docs/store.md has it, and pages for crafted chips.
#![tactic(auto)]

ghost use Rattle.std.specs.Prelude.{◌≡◌};
ghost use Rattle.rules.specs.Calls as calls;
ghost use Rattle.rules.specs.Told.{holding_value, size_value};
ghost use Rattle.store.specs.Views.{seen};
ghost use Rattle.test_hands.specs.Hands.{numbered, FilledBy};

mod checks;
mod pages;
mod steps;

pub use checks::{check, check_eq, check_ne};
use chip::{Chip, SectorNumber};
pub use pages::{changed, data_page, deletion_page, put, register_page};
use refusals::Refusal;
use rules::{Holding, Tick};
pub use steps::{Step, play, play_on};
use store::Store;

// What is granted, or the number of the refusal.
pub fn numbered<T>(answer: Result<T, Refusal>) -> Result<T, u8>
    ensures { result ≡ numbered answer }
{
    answer.map_err(Refusal::number)
}

pub fn tick(answer: Result<Tick, Refusal>) -> Result<u32, u8> {
    numbered(answer).map(|clock| clock.0)
}

// The birth, if there is one.
fn birth(answer: Result<Option<Tick>, Refusal>) -> Result<Option<u32>, u8> {
    numbered(answer).map(|birth| birth.map(|clock| clock.0))
}

// 512 bytes that differ at both ends.
pub fn sector_of(byte: u8) -> [u8; 512] {
    let mut bytes = [byte; 512];
    bytes[0] = 1;
    bytes[511] = 2;
    bytes
}

pub fn format<C: Chip>(store: &mut Store<C>, label: &[u8]) -> Result<u32, u8> {
    tick(store.format(label))
}

pub fn mount<C: Chip>(store: &mut Store<C>) -> Result<u32, u8> {
    tick(store.mount())
}

pub fn close<C: Chip>(store: &mut Store<C>) -> Result<(), u8> {
    numbered(store.close())
}

pub fn write<C: Chip>(store: &mut Store<C>, sector: u32, byte: u8) -> Result<u32, u8> {
    tick(store.write(SectorNumber(sector), &sector_of(byte)))
}

pub fn delete<C: Chip>(store: &mut Store<C>, sector: u32) -> Result<u32, u8> {
    tick(store.delete(SectorNumber(sector)))
}

pub fn freeze<C: Chip>(store: &mut Store<C>) -> Result<u32, u8> {
    tick(store.freeze())
}

pub fn release<C: Chip>(store: &mut Store<C>, state: u32) -> Result<u32, u8> {
    tick(store.release(Tick(state)))
}

pub fn revert<C: Chip>(store: &mut Store<C>, state: u32) -> Result<u32, u8> {
    tick(store.revert(Tick(state)))
}

pub fn clean<C: Chip>(store: &mut Store<C>) -> Result<usize, u8> {
    numbered(store.clean())
}

pub fn since<C: Chip>(store: &Store<C>, sector: u32) -> Result<Option<u32>, u8> {
    birth(store.since(SectorNumber(sector)))
}

pub fn since_in<C: Chip>(store: &Store<C>, state: u32, sector: u32) -> Result<Option<u32>, u8> {
    birth(store.since_in(Tick(state), SectorNumber(sector)))
}

// Needed versions and capacity.
pub fn count<C: Chip>(store: &Store<C>) -> Result<(usize, usize), u8> {
    numbered(store.count()).map(|count| (count.needed, count.capacity))
}

// An answer, and what is in the buffer then.
pub type Filled<T, B> = (Result<T, u8>, B);

pub fn read<C: Chip>(
    store: &Store<C>,
    sector: u32,
    mut buffer: [u8; 512],
) -> Filled<Holding, [u8; 512]>
    ensures { FilledBy (calls.read sector buffer) (seen C.Chip store.now) holding_value result }
{
    let answer = store.read(SectorNumber(sector), &mut buffer);
    (numbered(answer), buffer)
}

pub fn look<C: Chip>(
    store: &Store<C>,
    state: u32,
    sector: u32,
    mut buffer: [u8; 512],
) -> Filled<Holding, [u8; 512]>
    ensures { FilledBy (calls.look state sector buffer) (seen C.Chip store.now) holding_value result }
{
    let answer = store.look(Tick(state), SectorNumber(sector), &mut buffer);
    (numbered(answer), buffer)
}

pub fn held<C: Chip>(store: &Store<C>, mut buffer: [u32; 8]) -> Filled<usize, [u32; 8]>
    ensures { FilledBy (calls.ask_held buffer) (seen C.Chip store.now) size_value result }
{
    let answer = store.held(&mut buffer);
    (numbered(answer), buffer)
}

pub fn label<C: Chip>(store: &Store<C>, mut buffer: [u8; 32]) -> Filled<usize, [u8; 32]>
    ensures { FilledBy (calls.ask_label buffer) (seen C.Chip store.now) size_value result }
{
    let answer = store.label(&mut buffer);
    (numbered(answer), buffer)
}
