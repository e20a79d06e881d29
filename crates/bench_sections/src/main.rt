//! What sections cost under guards: `bench_sections THREADS SECTIONS RESOURCES WHERE`.
//!
//! Each of THREADS threads, 64 at most, makes SECTIONS sections of RESOURCES records. WHERE is `hot` (all of them the same records), `apart`
//! (each thread its own) or `reads` (the same records, but only each tenth section writes them; the others read the first one). A section
//! that writes adds 1 to each of its records. The sum of the history is written at the end.
#![tactic(auto)]

mod measure;
mod section;
mod words;

use std::io;

fn main(rt: HostRuntime) -> io::Result<()> {
    match words::asked_by_words(&rt) {
        None => println!(rt; "bench_sections THREADS SECTIONS RESOURCES hot|apart|reads"),
        Some(asked) => match measure::measured(&rt, rt.alloc(), &asked) {
            Some(sum) => println!(rt; "{sum}"),
            None => println!(rt; "no memory"),
        },
    }
}
