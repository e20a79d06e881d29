// Records that do not end: no more of them is held than can mean something.
use io_ends::MemSource;
use rshort::{cut_place, shorten};
use rtrace::{AuditErr, audit_stream};
use rtrace_form::{Code, Fault};
use std::alloc::Global;
use std::test::Fail;

// A text that begins so and goes on with so many times the same.
fn endless(alloc: Global, first: &[u8], again: &[u8], times: u64) -> Result<Vec<u8>, Fail> {
    let mut text = first.to_vec(alloc)?;
    for _ in 0..times {
        text.extend_from_slice(again)?;
    }
    Ok(text)
}

// Whether no more bytes than these are kept of each such text.
fn all_are_short(alloc: Global, table: &[(&[u8], &[u8], usize)]) -> Result<bool, Fail> {
    for (first, again, most) in table {
        let text = endless(alloc, first, again, 1_000)?;
        match shorten(alloc, &text)? {
            Some(short) => {
                if short.len() > *most {
                    return Ok(false);
                }
            }
            None => return Ok(false),
        }
    }
    Ok(true)
}

#[test]
fn what_can_mean_nothing_is_left_out(rt: HostRuntime) -> Result<(), Fail> {
    let short = all_are_short(
        rt.alloc(),
        &[
            (b"", b"0", 22),
            (b"\"", b"0", 23),
            (b"\"", b"\"\"", 46),
            (b"\xef\xbb\xbf", b"0", 22),
            (b"\n\n\n", b"\xef\xbb\xbf", 22),
            (b"resource,", b"abc", 31),
            (b"", b",", 10),
            (b"", b"\r", 1),
            (b"group,", b"a+", 11),
            (b"group,", b"+", 9),
            (b"group,", b"a+b+c+", 13),
            (b"group,\"", b"a+b+c+", 14),
            (b"group,\"a+\"", b"+a", 15),
        ],
    )?;
    assert!(rt; short);
    Ok(())
}

// A set of so many different names.
fn many_names(alloc: Global, times: u64) -> Result<Vec<u8>, Fail> {
    let mut text = b"group,".to_vec(alloc)?;
    for n in 0..times {
        text.extend_from_slice(format!(in alloc; "a{n}+")?.as_bytes())?;
    }
    Ok(text)
}

// How many bytes are kept of them.
fn kept_of_names(alloc: Global, times: u64) -> Result<Option<usize>, Fail> {
    let text = many_names(alloc, times)?;
    match shorten(alloc, &text)? {
        Some(short) => Ok(Some(short.len())),
        None => Ok(None),
    }
}

#[test]
fn of_many_names_65_are_kept(rt: HostRuntime) -> Result<(), Fail> {
    let few = kept_of_names(rt.alloc(), 64)?;
    let many = kept_of_names(rt.alloc(), 1_000)?;
    assert!(rt; few == Some(7 + 10 * 3 + 54 * 4));
    assert!(rt; many == Some(7 + 10 * 3 + 55 * 4));
    Ok(())
}

// Whether each of these texts may be cut at the place beside it.
fn all_are_cut(table: &[(&[u8], Option<usize>)]) -> bool {
    for (text, place) in table {
        if cut_place(text) != *place {
            return false;
        }
    }
    true
}

#[test]
fn a_text_is_cut_at_the_last_end_of_a_record(rt: HostRuntime) -> Result<(), Fail> {
    let cut = all_are_cut(&[
        (b"rnlp,1\nresource,a", Some(6)),
        (b"rnlp,1\rresource,a\rtask", Some(17)),
        (b"rnlp,\"1\"\nresource,\"a\nb", Some(8)),
        (b"\xef\xbb\xbf\"rnlp\",1\nresource", Some(11)),
        (b"\"rnlp,1\n", None),
        (b"\nresource", None),
    ]);
    assert!(rt; cut);
    Ok(())
}

// What an audit answers of a record that goes on for longer than a window, after the head.
fn audit_of(alloc: Global, again: &[u8]) -> Result<Option<Fault>, Fail> {
    let text = endless(alloc, b"rnlp,1\n", again, 200_000)?;
    let mut source = MemSource::new(text, Vec::new(alloc));
    Ok(match audit_stream(alloc, &mut source, 1_000_000) {
        Err(AuditErr::Bad(fault)) => Some(fault),
        _ => None,
    })
}

#[test]
fn a_record_longer_than_a_window_has_its_fault(rt: HostRuntime) -> Result<(), Fail> {
    let bad = Fault {
        line: 2,
        code: Code::BadField,
    };
    let zeros = audit_of(rt.alloc(), b"0")? == Some(bad);
    let quotes = audit_of(rt.alloc(), b"\"")? == Some(bad);
    let commas = audit_of(rt.alloc(), b",")? == Some(bad);
    assert!(rt; zeros);
    assert!(rt; quotes);
    assert!(rt; commas);
    Ok(())
}

// What an audit answers of a report whose one request names its resource so often.
fn audit_of_set(alloc: Global, times: u64) -> Result<Option<u64>, Fail> {
    let first = b"rnlp,1\nresource,a\ntask,t\ncap,1\nissue,t,write,a";
    let mut text = endless(alloc, first, b"+a", times)?;
    text.extend_from_slice(b",1\nnow,t,write,satisfied\ngrant,t,a\nfinish,t\nledger,a,0,0\nend\n")?;
    let mut source = MemSource::new(text, Vec::new(alloc));
    Ok(match audit_stream(alloc, &mut source, 1_000_000) {
        Ok(counts) => Some(counts.events),
        _ => None,
    })
}

#[test]
fn a_set_longer_than_a_window_is_read(rt: HostRuntime) -> Result<(), Fail> {
    let events = audit_of_set(rt.alloc(), 200_000)?;
    assert!(rt; events == Some(2));
    Ok(())
}
