// Tests of `io_ends`.
ghost use Rattle.std.specs.Prelude.{◌≤◌, IfOk};

use io_ends::{
    Failed, MemSink, MemSource, ReadErr, ReaderSource, Sink, Source, WriteFault, WriterSink,
    read_all, write_all,
};
use std::alloc::{AllocError, Global};
use std::io;
use std::io::{Error, ErrorKind, Read, Write};
use std::test::Fail;

// Whether the bytes are read with a limit of their length, and are too long with a limit of one less.
fn is_read_up_to_its_length(alloc: Global, bytes: &[u8]) -> Result<bool, Fail> {
    let all = read_all(alloc, &mut source(alloc, bytes, &[])?, bytes.len())?;
    let longer = read_all(
        alloc,
        &mut source(alloc, bytes, &[])?,
        bytes.len().saturating_sub(1),
    );
    Ok(all.as_slice() == bytes && longer.err() == Some(ReadErr::TooLong))
}

// A source of these bytes whose reads with these numbers fail.
fn source(alloc: Global, bytes: &[u8], fails: &[u64]) -> Result<MemSource, AllocError> {
    Ok(MemSource::new(bytes.to_vec(alloc)?, fails.to_vec(alloc)?))
}

// The second read fails, and what the first one took is lost.
fn fails_once(alloc: Global) -> Result<bool, Fail> {
    let mut failing = source(alloc, b"hello", &[2])?;
    let first = read_all(alloc, &mut failing, 9);
    let second = read_all(alloc, &mut failing, 9)?;
    Ok(first.err() == Some(ReadErr::ReadFault) && second.is_empty())
}

// A sink whose first write fails takes its room after that, and no more.
fn takes_its_room(alloc: Global) -> Result<bool, Fail> {
    let mut sink = MemSink::new(alloc, 4, [1].to_vec(alloc)?)?;
    let first = write_all(&mut sink, b"he");
    let second = write_all(&mut sink, b"he");
    let third = write_all(&mut sink, b"llo");
    let answers = first == Err(WriteFault) && second == Ok(()) && third == Err(WriteFault);
    Ok(answers && sink.written() == b"hell".as_slice())
}

// A device whose first call is interrupted, and whose third and fifth calls fail, each in its own way.
#[derive(Drop)]
struct Stumbling {
    calls: u8,
}

impl Stumbling {
    fn call(&mut self, len: usize) -> io::Result<usize>
        ensures { IfOk result (λ n. n ≤ len) }
    {
        self.calls = self.calls.saturating_add(1);
        match self.calls {
            1 => Err(Error::from(ErrorKind::Interrupted)),
            3 => Err(Error::from(ErrorKind::BrokenPipe)),
            5 => Err(Error::from(ErrorKind::WouldBlock)),
            _ => Ok(len.min(3)),
        }
    }
}

impl Read for Stumbling {
    fn read(&mut self, buf: &mut [u8]) -> io::Result<usize> {
        self.call(buf.len())
    }
}

impl Write for Stumbling {
    fn write(&mut self, piece: &[u8]) -> io::Result<usize> {
        self.call(piece.len())
    }

    fn flush(&mut self) -> io::Result<()> {
        Ok(())
    }
}

// An interrupted read is made again, a fault of either kind is reported at once, and the read after it is made.
fn reads_again() -> bool {
    let mut source = ReaderSource::new(Stumbling { calls: 0 });
    let mut buf = [0u8; 5];
    let first = source.read(&mut buf);
    let second = source.read(&mut buf);
    let third = source.read(&mut buf);
    let fourth = source.read(&mut buf);
    first == Ok(3) && second == Err(Failed) && third == Ok(3) && fourth == Err(Failed)
}

// The same for a write; and taking nothing of an empty piece is no fault.
fn writes_again() -> bool {
    let mut sink = WriterSink::new(Stumbling { calls: 0 });
    let first = sink.write(b"hello");
    let second = sink.write(b"hello");
    let third = sink.write(b"hello");
    let fourth = sink.write(b"hello");
    let empty = sink.write(b"");
    let faults = second == Err(Failed) && fourth == Err(Failed);
    faults && first == Ok(3) && third == Ok(3) && empty == Ok(0)
}

// The bytes of a reader and of a writer pass through, and a writer that is full fails.
fn passes_bytes_on(alloc: Global) -> Result<bool, Fail> {
    let all = read_all(alloc, &mut ReaderSource::new(b"hello".as_slice()), 9)?;
    let mut room = [0u8; 4];
    let full = write_all(&mut WriterSink::new(&mut room[..]), &all);
    Ok(
        all.as_slice() == b"hello".as_slice()
            && full == Err(WriteFault)
            && room.as_slice() == b"hell".as_slice(),
    )
}

#[test]
fn sources_are_read_to_their_end(rt: HostRuntime) -> Result<(), Fail> {
    assert!(rt; is_read_up_to_its_length(rt.alloc(), b"hello")?);
    Ok(())
}

#[test]
fn a_long_source_is_read_in_pieces(rt: HostRuntime) -> Result<(), Fail> {
    let bytes = vec![in rt.alloc(); b'x'; 200_000]?;
    assert!(rt; is_read_up_to_its_length(rt.alloc(), &bytes)?);
    Ok(())
}

#[test]
fn faults_of_memory_are_told(rt: HostRuntime) -> Result<(), Fail> {
    assert!(rt; fails_once(rt.alloc())? && takes_its_room(rt.alloc())?);
    Ok(())
}

#[test]
fn devices_are_tried_again(rt: HostRuntime) -> Result<(), Fail> {
    assert!(rt; reads_again() && writes_again() && passes_bytes_on(rt.alloc())?);
    Ok(())
}
