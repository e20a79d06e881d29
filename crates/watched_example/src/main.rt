//! An example of watching: a count of a lock's events that another thread reads while the lock runs.
#![tactic(auto)]

mod alone;
mod boxed;
mod gauge;
mod reading;
mod section;
mod watched;

use std::io;

// How many sections each of the two threads makes.
const TIMES: u32 = 500;

fn main(rt: HostRuntime) -> io::Result<()> {
    match reading::gauged(&rt, rt.alloc(), TIMES) {
        Some((counted, published)) => {
            println!(rt; "{counted} issues were counted, {published} were published")?
        }
        None => println!(rt; "no memory")?,
    }
    match boxed::boxed(&rt, rt.alloc(), TIMES) {
        Some(counted) => println!(rt; "{counted} issues were counted in a box"),
        None => println!(rt; "no memory"),
    }
}
