// Runs over memory, and whether they end as they should.
ghost use Rattle.std.specs.Prelude.{◌≤◌};

use io_ends::{MemSink, MemSource};
use rnlp_cli::{ToolStatus, plain_tool};
use rwatch::Watchers;
use std::alloc::Global;
use std::test::Fail;

/// The list of one resource and one task, and its report.
pub const SMALLEST: &[u8] = b"rnlp,1\nresource,a\ntask,t1\nend\n";

pub const SMALLEST_REPORT: &[u8] = b"rnlp,1\nresource,a\ntask,t1\ncap,1\nledger,a,0,0\nend\n";

// More bytes than any output here has.
const ROOM: usize = 200_000;

/// What a run is given: its word, its input, and the numbers of the reads and writes that fail.
#[derive(Clone, Copy, Drop)]
pub struct Given<'a> {
    pub word: &'a str,
    pub input: &'a [u8],
    pub reads: &'a [u64],
    pub writes: &'a [u64],
}

/// One word.
pub fn one_word(alloc: Global, word: &str) -> Result<Vec<String>, Fail> {
    let mut words = Vec::new(alloc);
    words.push(String::from_str(alloc, word)?)?;
    Ok(words)
}

// How a run of this word between these devices ends.
fn answer_of(
    alloc: Global,
    word: &str,
    source: &mut MemSource,
    sink: &mut MemSink,
) -> Result<ToolStatus, Fail> {
    let words = one_word(alloc, word)?;
    let mut nobody = Watchers::new(Vec::new(alloc));
    Ok(plain_tool(alloc, &words, source, sink, &mut nobody))
}

/// Whether such a run ends with this status and has written these bytes.
pub fn ends(
    alloc: Global,
    given: Given<'_>,
    status: ToolStatus,
    output: &[u8],
) -> Result<bool, Fail> {
    let mut source = MemSource::new(given.input.to_vec(alloc)?, given.reads.to_vec(alloc)?);
    let mut sink = MemSink::new(alloc, ROOM, given.writes.to_vec(alloc)?)?;
    let answer = answer_of(alloc, given.word, &mut source, &mut sink)?;
    Ok(answer == status && sink.written() == output)
}

/// The same for a run whose input comes one byte per read, and whose output goes at most this many bytes per write.
pub fn trickles(
    alloc: Global,
    given: Given<'_>,
    most: usize,
    status: ToolStatus,
    output: &[u8],
) -> Result<bool, Fail>
    requires { 1 ≤ most }
{
    let mut source = MemSource::short(given.input.to_vec(alloc)?, given.reads.to_vec(alloc)?, 1);
    let mut sink = MemSink::short(alloc, ROOM, given.writes.to_vec(alloc)?, most)?;
    let answer = answer_of(alloc, given.word, &mut source, &mut sink)?;
    Ok(answer == status && sink.written() == output)
}

/// Whether a replay of an input, with no device failing, ends with this status, and its output ends with this.
pub fn replay_ends(
    alloc: Global,
    input: &[u8],
    status: ToolStatus,
    last: &[u8],
) -> Result<bool, Fail> {
    let mut source = MemSource::new(input.to_vec(alloc)?, Vec::new(alloc));
    let mut sink = MemSink::new(alloc, ROOM, Vec::new(alloc))?;
    let answer = answer_of(alloc, "replay", &mut source, &mut sink)?;
    Ok(answer == status && sink.written().ends_with(last))
}
