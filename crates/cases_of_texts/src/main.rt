//! The worked cases of the program's texts: each is read from data/, run over memory, and compared byte by byte.
//!
//! A case begins with a line `==== NAME | WORDS | STATUS`; then come its input, a line `----`, and its output. In
//! `odd_cases` a line break of the file is not part of the text: `\n` and `\r` stand for one, `\xHH` for a byte, `\\`
//! for `\`.
#![tactic(auto)]

use io_ends::{MemSink, MemSource};
use rnlp_cli::ToolStatus;
use rnlp_edge::answer;
use rrun::NoPace;
use rwatch::{Counter, WatchKind, Watcher, Watchers};
use std::alloc::{AllocError, Global};
use std::sync::Wait;
use std::thread::Threads;
use std::{fs, io};

// More bytes than any output here has.
const ROOM: usize = 200_000;

// What is counted, as the program counts it.
const KINDS: [WatchKind; 7] = [
    WatchKind::Issues,
    WatchKind::Finishes,
    WatchKind::Rises,
    WatchKind::Asks,
    WatchKind::Entitled,
    WatchKind::Satisfied,
    WatchKind::Grants,
];

// A case, as it is in its file.
#[derive(Drop)]
struct Case<'a> {
    name: &'a str,
    words: &'a str,
    status: &'a str,
    input: &'a str,
    output: &'a str,
}

// How many cases there were, and how many of them agreed.
#[derive(Drop)]
struct Count {
    all: u64,
    agreed: u64,
}

fn main(rt: HostRuntime) -> io::Result<()> {
    let alloc = rt.alloc();
    let mut count = Count { all: 0, agreed: 0 };
    let plain = fs::read_to_string(&rt, "cases")?;
    for text in plain.split("==== ").skip(1) {
        count_case(&rt, alloc, text, false, &mut count)?;
    }
    let odd = fs::read_to_string(&rt, "odd_cases")?;
    for text in odd.split("==== ").skip(1) {
        count_case(&rt, alloc, text, true, &mut count)?;
    }
    let Count { all, agreed } = count;
    println!(rt; "{agreed} of {all} cases agree")
}

// Counts a case, and names it if it does not agree.
fn count_case<R: Print + Threads + Wait + Sync>(
    rt: &R,
    alloc: Global,
    text: &str,
    is_odd: bool,
    count: &mut Count,
) -> io::Result<()> {
    count.all = count.all.saturating_add(1);
    let Some(case) = case_in(text) else {
        return println!(rt; "no case: {text}");
    };
    if agrees(rt, alloc, &case, is_odd)? {
        count.agreed = count.agreed.saturating_add(1);
        Ok(())
    } else {
        println!(rt; "differs: {}", case.name)
    }
}

// The case in a text, if there is one.
fn case_in(text: &str) -> Option<Case<'_>> {
    let (head, rest) = text.split_once("\n")?;
    let (input, output) = rest.split_once("----\n")?;
    let (name, asked) = head.split_once(" | ")?;
    let (words, status) = asked.split_once(" | ")?;
    Some(Case {
        name,
        words,
        status,
        input,
        output,
    })
}

// Whether a run of the case ends with its status and writes its output.
fn agrees<R: Threads + Wait + Sync>(
    rt: &R,
    alloc: Global,
    case: &Case<'_>,
    is_odd: bool,
) -> Result<bool, AllocError> {
    let words = words_in(alloc, case.words)?;
    let input = bytes_of(alloc, case.input, is_odd)?;
    let output = bytes_of(alloc, case.output, is_odd)?;
    let mut source = MemSource::new(input, Vec::new(alloc));
    let mut sink = MemSink::new(alloc, ROOM, Vec::new(alloc))?;
    let status = answered(rt, alloc, &words, &mut source, &mut sink)?;
    Ok(is_status(status, case.status) && sink.written() == output.as_slice())
}

// How the program answers the words, watched by a counter of each kind.
fn answered<R: Threads + Wait + Sync>(
    rt: &R,
    alloc: Global,
    words: &[String],
    source: &mut MemSource,
    sink: &mut MemSink,
) -> Result<ToolStatus, AllocError> {
    let mut list = Vec::new(alloc);
    for kind in KINDS {
        let counter: Box<dyn Watcher + Send> = Box::new(alloc, Counter::new(kind))?;
        list.push(counter)?;
    }
    let mut watchers = Watchers::new(list);
    let mut receipts = Vec::new(alloc);
    Ok(answer(
        rt,
        alloc,
        words,
        source,
        sink,
        &NoPace,
        &mut receipts,
        &mut watchers,
    ))
}

fn is_status(status: ToolStatus, number: &str) -> bool {
    match number.parse::<u8>() {
        Ok(n) => n == status.number(),
        Err(_) => false,
    }
}

// Words, each after a space.
fn words_in(alloc: Global, text: &str) -> Result<Vec<String>, AllocError> {
    let mut words = Vec::new(alloc);
    for word in text.split(' ') {
        if !word.is_empty() {
            words.push(String::from_str(alloc, word)?)?;
        }
    }
    Ok(words)
}

// The bytes that a text of a file stands for.
fn bytes_of(alloc: Global, text: &str, is_odd: bool) -> Result<Vec<u8>, AllocError> {
    if is_odd {
        unescaped(alloc, text.as_bytes())
    } else {
        text.as_bytes().to_vec(alloc)
    }
}

// How far an escape was read.
#[derive(Clone, Copy)]
enum Place {
    Plain,
    Escape,
    High,
    Low(u8),
}

// The bytes that an escaped text stands for; its line breaks are left out.
fn unescaped(alloc: Global, text: &[u8]) -> Result<Vec<u8>, AllocError> {
    let mut bytes = Vec::new(alloc);
    let mut place = Place::Plain;
    for byte in text {
        place = match (place, *byte) {
            (Place::Plain, b'\n') => Place::Plain,
            (Place::Plain, b'\\') => Place::Escape,
            (Place::Plain, other) => {
                bytes.push(other)?;
                Place::Plain
            }
            (Place::Escape, b'x') => Place::High,
            (Place::Escape, other) => {
                bytes.push(escaped(other))?;
                Place::Plain
            }
            (Place::High, digit) => Place::Low(digit_of(digit)),
            (Place::Low(high), digit) => {
                bytes.push(high.wrapping_mul(16).wrapping_add(digit_of(digit)))?;
                Place::Plain
            }
        };
    }
    Ok(bytes)
}

// The byte that the character after a `\` stands for.
fn escaped(byte: u8) -> u8 {
    match byte {
        b'n' => b'\n',
        b'r' => b'\r',
        other => other,
    }
}

// The value of a hexadecimal digit; 0 if it is not one.
fn digit_of(byte: u8) -> u8 {
    match byte {
        b'0'..=b'9' => byte - b'0',
        b'A'..=b'F' => byte - b'A' + 10,
        _ => 0,
    }
}
