//! What the program is asked to measure.
ghost use Rattle.std.specs.Prelude.{◌<◌, ◌≤◌, IsNone, IfSome, map, string_bytes};
ghost use Rattle.rset.specs.declared.TheConstants.{SEATS};
ghost use Rattle.bench_sections.specs.Words.{AsksFor};
ghost use Rattle.bench_sections.specs.declared.words.Asked.{Asked};

use rset::{RESOURCES, SEATS};
use std::env;
use std::rt::Env;

/// What is measured.
#[derive(Drop)]
pub struct Asked {
    /// How many threads there are.
    pub threads: u8,
    /// How many sections each of them makes.
    pub sections: u32,
    /// How many records a section writes.
    pub resources: u8,
    /// Whether each thread has records of its own.
    pub apart: bool,
    /// Whether only each tenth section writes; the others then read.
    pub reads: bool,
}

/// What the words of the command line ask for, if they ask for anything.
pub fn asked_by_words<R: Env + AllocGlobal>(rt: &R) -> Option<Asked>
    ensures { IfSome result (λ a. (0 < a.threads) × (a.threads ≤ SEATS)) }
{
    let words: Vec<String> = env::args(rt).ok()?.collect(rt.alloc()).ok()?;
    asked_in(words.as_slice())
}

// What these words ask for, if they ask for anything; the first one is the program's name.
fn asked_in(words: &[String]) -> Option<Asked>
    ensures asked { IfSome result (AsksFor (map string_bytes words.now)) }
    ensures none { IsNone result → (asked : Asked) → ¬ AsksFor (map string_bytes words.now) asked }
    ensures some { IfSome result (λ a. (0 < a.threads) × (a.threads ≤ SEATS)) }
{
    let [_, threads, sections, resources, place] = words else {
        return None;
    };
    let threads = threads.parse::<u8>().ok()?;
    let sections = sections.parse::<u32>().ok()?;
    let resources = resources.parse::<u8>().ok()?;
    if threads == 0 || threads > SEATS || u16::from(resources) > RESOURCES {
        return None;
    }
    Some(Asked {
        threads,
        sections,
        resources,
        apart: place.as_str() == "apart",
        reads: place.as_str() == "reads",
    })
}
