// Lists at their limits, and past them.
use crate::runs::replay_ends;
use rnlp_cli::ToolStatus;
use std::alloc::Global;
use std::test::Fail;

// A text with the same lines many times between two other texts.
fn text_of(
    alloc: Global,
    head: &str,
    lines: &str,
    times: u16,
    tail: &str,
) -> Result<Vec<u8>, Fail> {
    let mut text = String::from_str(alloc, head)?;
    for _ in 0..times {
        text.push_str(lines)?;
    }
    text.push_str(tail)?;
    Ok(text.as_bytes().to_vec(alloc)?)
}

// Whether a list with this many groups ends with this status, and with an output that ends this way.
fn groups_end(alloc: Global, groups: u16, status: ToolStatus, last: &[u8]) -> Result<bool, Fail> {
    let text = text_of(
        alloc,
        "rnlp,1\nresource,a\n",
        "group,a\n",
        groups,
        "task,t1\nend\n",
    )?;
    replay_ends(alloc, &text, status, last)
}

#[test]
fn as_many_groups_as_there_may_be(rt: HostRuntime) -> Result<(), Fail> {
    let done = groups_end(rt.alloc(), 256, ToolStatus::Done, b"ledger,a,0,0\nend\n")?;
    assert!(rt; done);
    Ok(())
}

#[test]
fn one_group_too_many(rt: HostRuntime) -> Result<(), Fail> {
    let told = groups_end(rt.alloc(), 257, ToolStatus::Trace, b"error,259,1\n")?;
    assert!(rt; told);
    Ok(())
}

// Whether a list of many records is replayed to its end.
fn many_end(alloc: Global) -> Result<bool, Fail> {
    let text = text_of(
        alloc,
        "rnlp,1\nresource,a\nresource,b\ntask,t1\n",
        "issue,t1,write,a,1\nfinish,t1\n",
        2_000,
        "end\n",
    )?;
    let last = b"finish,t1\nledger,a,0,0\nledger,b,0,0\nend\n";
    replay_ends(alloc, &text, ToolStatus::Done, last)
}

#[test]
fn many_records(rt: HostRuntime) -> Result<(), Fail> {
    let done = many_end(rt.alloc())?;
    assert!(rt; done);
    Ok(())
}
