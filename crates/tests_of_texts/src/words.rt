// What the program makes of the environment it is started in.
ghost use Rattle.std.specs.Io.{WritesAtMost};

use crate::runs::{SMALLEST, SMALLEST_REPORT, one_word};
use io_ends::{MemSink, MemSource};
use rnlp_cli::ToolStatus;
use rnlp_edge::{answer, given_words, words_of};
use rrun::NoPace;
use rwatch::Watchers;
use std::alloc::Global;
use std::env::FillError;
use std::rt::Env;
use std::sync::Wait;
use std::test::Fail;
use std::thread::Threads;

// An environment whose program was started with these arguments; its own name is the first.
#[derive(Drop)]
struct Started<'a> {
    args: &'a [&'a [u8]],
}

impl<'a> Env for Started<'a> {
    fn arg(&self, i: usize, buf: &mut [u8]) -> Result<usize, FillError> {
        let Some(arg) = self.args.get(i) else {
            return Err(FillError::NotPresent);
        };
        fill(arg, buf)
    }

    fn var(&self, _name: &str, _buf: &mut [u8]) -> Result<usize, FillError> {
        Err(FillError::NotPresent)
    }

    fn var_at(&self, _i: usize, _buf: &mut [u8]) -> Result<usize, FillError> {
        Err(FillError::NotPresent)
    }
}

// Copies all the bytes to the start of the buffer, where they fit.
fn fill(bytes: &[u8], buf: &mut [u8]) -> Result<usize, FillError>
    ensures { WritesAtMost result buf.new }
{
    let n = bytes.len();
    if n > buf.len() {
        return Err(FillError::TooLong);
    }
    buf[..n].copy_from_slice(bytes);
    Ok(n)
}

// Whether a program that was started with these arguments is given these words.
fn gives(alloc: Global, args: &[&[u8]], wanted: &[&str]) -> bool {
    match words_of(given_words(&(Started { args }, alloc))) {
        Ok(words) => are_words(&words, wanted),
        Err(_) => false,
    }
}

fn are_words(words: &[String], wanted: &[&str]) -> bool {
    if words.len() != wanted.len() {
        return false;
    }
    let mut same = true;
    for (word, one) in words.iter().zip(wanted) {
        same = same && word.as_str() == *one;
    }
    same
}

#[test]
fn words_are_those_behind_the_name(rt: HostRuntime) {
    let alloc = rt.alloc();
    let all = gives(alloc, &[], &[])
        && gives(alloc, &[b"rnlp"], &[])
        && gives(alloc, &[b"rnlp", b"replay"], &["replay"])
        && gives(alloc, &[b"rnlp", b"", b"two"], &["", "two"])
        && gives(
            alloc,
            &[b"rnlp", b"bound", b"4", b"more", b"rnlp"],
            &["bound", "4", "more", "rnlp"],
        );
    assert!(rt; all);
}

#[test]
fn words_that_are_no_text_are_wrong(rt: HostRuntime) {
    let wrong = match words_of(given_words(&(
        Started {
            args: &[b"rnlp", b"\xFF"],
        },
        rt.alloc(),
    ))) {
        Ok(_) => false,
        Err(status) => status == ToolStatus::Words,
    };
    assert!(rt; wrong);
}

// Whether the answer to this word is a write fault, with nothing written, if the first write fails.
fn breaks_off<R: Threads + Wait + Sync>(rt: &R, alloc: Global, word: &str) -> Result<bool, Fail> {
    let mut source = MemSource::new(SMALLEST.to_vec(alloc)?, Vec::new(alloc));
    let mut sink = MemSink::new(alloc, SMALLEST_REPORT.len(), [1].to_vec(alloc)?)?;
    let status = program_answer(rt, alloc, word, &mut source, &mut sink)?;
    Ok(status == ToolStatus::WriteFault && sink.written().is_empty())
}

// How the program that is started with this word ends between these devices.
fn program_answer<R: Threads + Wait + Sync>(
    rt: &R,
    alloc: Global,
    word: &str,
    source: &mut MemSource,
    sink: &mut MemSink,
) -> Result<ToolStatus, Fail> {
    let words = one_word(alloc, word)?;
    let mut receipts = Vec::new(alloc);
    let mut nobody = Watchers::new(Vec::new(alloc));
    Ok(answer(
        rt,
        alloc,
        &words,
        source,
        sink,
        &NoPace,
        &mut receipts,
        &mut nobody,
    ))
}

// Whether each text of the program, and a report, is broken off.
fn each_breaks_off<R: Threads + Wait + Sync>(rt: &R, alloc: Global) -> Result<bool, Fail> {
    Ok(
        breaks_off(rt, alloc, "--help")?
            && breaks_off(rt, alloc, "--version")?
            && breaks_off(rt, alloc, "replay")?,
    )
}

#[test]
fn a_text_of_the_program_is_broken_off(rt: HostRuntime) -> Result<(), Fail> {
    let broken = each_breaks_off(&rt, rt.alloc())?;
    assert!(rt; broken);
    Ok(())
}
