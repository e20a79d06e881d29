//! Eight devices that four threads share: a monitor reads a row of them, an operator writes, a maintainer rises where it finds a device that is worn, and an
//! inspector begins with one device and asks for its neighbour if that one is worn.
#![tactic(auto)]

ghost use Rattle.std.specs.Prelude.{◌≡◌, ◌≤◌};
ghost use Rattle.rnlp_lock.specs.Seats.{who};

mod device;

use device::{Change, Device, Mode};
use rnlp_lock::{
    Lock, Nesting, Nests, Reading, ResourceSet, Rises, Rising, Seat, Sits, Stop, leave, together,
};
use std::alloc::Global;
use std::io;
use std::sync::Wait;
use std::thread::Threads;

// The first four devices, or the last four.
fn row(second: bool) -> ResourceSet {
    if second {
        ResourceSet::one(4).with(5).with(6).with(7)
    } else {
        ResourceSet::one(0).with(1).with(2).with(3)
    }
}

// How many runs the devices of a section have together, modulo 2^64.
fn runs_of(values: &Reading<'_, Device>) -> u64 {
    let mut runs = 0u64;
    for l in 0..8u8 {
        if values.has(l) {
            runs = runs.wrapping_add(values.get(l).runs);
        }
    }
    runs
}

// The first device of a section that is worn.
fn worn(values: &Rising<'_, Device>) -> Option<u8> {
    for l in 0..8u8 {
        if values.has(l) && matches!(values.get(l).mode, Mode::Worn) {
            return Some(l);
        }
    }
    None
}

// How many runs the devices of a row have together.
fn monitor<R: Wait>(rt: &R, seat: &mut Seat<'_, Device>, second: bool) -> Result<u64, Stop>
    ensures { who seat.new ≡ who seat.old }
{
    seat.read(rt, row(second), |values| runs_of(values))
}

// A device that is ready runs once, and is worn after that.
fn operate<R: Wait>(rt: &R, seat: &mut Seat<'_, Device>, l: u8) -> Result<(), Stop>
    requires { l ≤ 7 }
    ensures { who seat.new ≡ who seat.old }
{
    seat.write(rt, ResourceSet::one(l), |values| {
        values.make(l, Change::Run)?;
        values.make(l, Change::Turn(Mode::Worn))
    })
}

// The first device of a row that is worn is made ready.
fn maintain<R: Wait>(rt: &R, seat: &mut Seat<'_, Device>, second: bool) -> Result<Option<()>, Stop>
    ensures { who seat.new ≡ who seat.old }
{
    seat.upgrade(
        rt,
        row(second),
        |values| worn(values),
        |values, l: u8| values.make(l, Change::Turn(Mode::Ready)),
    )
}

// Turns off the first device that a section holds if it is worn, and its neighbour with it, which is asked for then alone.
fn turn_off<R: Wait>(
    rt: &R,
    values: &mut Nesting<'_, Device>,
    first: u8,
    next: u8,
) -> Result<(), Stop>
    requires { next ≤ 7 }
    ensures { values.new.place ≡ values.old.place }
{
    if !values.has(first) {
        return Err(Stop::NotHeld);
    }
    if !matches!(values.get(first).mode, Mode::Worn) {
        return Ok(());
    }
    values.ask(rt, ResourceSet::one(next))?;
    values.make(first, Change::Turn(Mode::Off))?;
    values.make(next, Change::Turn(Mode::Off))
}

// A device and its neighbour are turned off if the device is worn.
fn inspect<R: Wait>(rt: &R, seat: &mut Seat<'_, Device>, l: u8) -> Result<(), Stop>
    requires { l ≤ 6 }
    ensures { who seat.new ≡ who seat.old }
{
    let first = ResourceSet::one(l);
    seat.nested(
        rt,
        ResourceSet::empty(),
        first.with(l + 1),
        first,
        |values| turn_off(rt, values, l, l + 1),
    )
}

// What the thread of this number does.
fn work<R: Wait>(rt: &R, seat: &mut Seat<'_, Device>, thread: usize)
    ensures { who seat.new ≡ who seat.old }
{
    for turn in 0..100u8 {
        match thread {
            0 => drop(monitor(rt, seat, turn % 2 == 1)),
            1 => drop(operate(rt, seat, turn % 8)),
            2 => drop(maintain(rt, seat, turn % 2 == 1)),
            _ => drop(inspect(rt, seat, turn % 7)),
        }
    }
}

/// Whether the history has an entry for each run of a device, once the four threads are done: None if memory ran out.
pub fn run<R: Threads + Wait + Sync>(rt: &R, alloc: Global) -> Option<bool> {
    let device = Device {
        mode: Mode::Ready,
        runs: 0,
    };
    let devices = vec![in alloc; device; 8].ok()?;
    let (lock, passes) = Lock::of(alloc, devices, &[row(false), row(true)], 4).ok()?;
    let mut seats = lock.seats(alloc, passes).ok()?;
    together(
        rt,
        &mut seats,
        &|k, seat: &mut Seat<'_, Device>| work(rt, seat, k),
    );
    let passes = leave(alloc, &lock, seats).ok()?;
    let (history, devices) = lock.close(passes);
    let mut runs = 0u64;
    for device in &devices {
        runs = runs.wrapping_add(device.runs);
    }
    Some(runs <= history.len() as u64)
}

fn main(rt: HostRuntime) -> io::Result<()> {
    match run(&rt, rt.alloc()) {
        Some(line) => println!(rt; "eight devices, four threads: {line}"),
        None => println!(rt; "no memory"),
    }
}
