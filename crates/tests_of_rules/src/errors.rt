// Tests of the words of errors: one table for each error, with all its variants.
use io_ends::{Failed, ReadErr, WriteFault};
use rclaim::RequestErr;
use rexpand::GroupErr;
use rmodel::Refused;
use rset::NameErr;
use std::alloc::Global;
use std::fmt::Display;
use std::test::Fail;

// Whether an error is printed in these words.
fn is_worded<E: Display>(alloc: Global, error: &E, words: &str) -> Result<bool, Fail> {
    let told = format!(in alloc; "{error}")?;
    Ok(told.as_str() == words)
}

// Whether each error of a table is printed in the words beside it.
fn are_worded<E: Display>(alloc: Global, table: &[(E, &str)]) -> Result<bool, Fail> {
    for (error, words) in table {
        if !is_worded(alloc, error, words)? {
            return Ok(false);
        }
    }
    Ok(true)
}

fn devices(alloc: Global) -> Result<bool, Fail> {
    let reading = [
        (ReadErr::ReadFault, "reading failed"),
        (ReadErr::TooLong, "the input is too long"),
        (ReadErr::Memory, "out of memory"),
    ];
    Ok(
        is_worded(alloc, &Failed, "the device failed")?
            && is_worded(alloc, &WriteFault, "writing failed")?
            && are_worded(alloc, &reading)?,
    )
}

fn names(alloc: Global) -> Result<bool, Fail> {
    let bad = "no name: 1 to 16 of a to z, 0 to 9 and _ that begin with a letter";
    are_worded(
        alloc,
        &[
            (NameErr::BadName, bad),
            (NameErr::Repeated, "the name is there already"),
            (NameErr::TooMany, "too many names"),
            (NameErr::Memory, "out of memory"),
        ],
    )
}

fn groups(alloc: Global) -> Result<bool, Fail> {
    are_worded(
        alloc,
        &[
            (GroupErr::EmptyGroup, "the group has no member"),
            (GroupErr::TooMany, "too many groups"),
            (GroupErr::Memory, "out of memory"),
        ],
    )
}

fn requests(alloc: Global) -> Result<bool, Fail> {
    let empty = "the request has nothing to read, or nothing to write";
    let undeclared = "the resources to read are not declared together";
    let outside = "the first part is empty or not within the request";
    are_worded(
        alloc,
        &[
            (RequestErr::EmptyRequest, empty),
            (RequestErr::Undeclared, undeclared),
            (RequestErr::FirstOutside, outside),
        ],
    )
}

fn events(alloc: Global) -> Result<bool, Fail> {
    let busy = "the seat has an incomplete request";
    let full = "as many requests are incomplete as may be";
    let none = "the seat holds nothing, or an ask of it is pending";
    let rise = "the seat's request is no upgrade, or it has risen";
    let nested = "the seat's request is not nested";
    let ask = "what is asked for is empty, or not within what the request reads and writes";
    are_worded(
        alloc,
        &[
            (Refused::SeatBusy, busy),
            (Refused::Full, full),
            (Refused::NotHolding, none),
            (Refused::NotUpgradeable, rise),
            (Refused::NotNested, nested),
            (Refused::AskOutside, ask),
        ],
    )
}

// Whether all errors are printed in their words.
fn all_are_worded(alloc: Global) -> Result<bool, Fail> {
    let below = devices(alloc)? && names(alloc)? && groups(alloc)?;
    Ok(below && requests(alloc)? && events(alloc)?)
}

#[test]
fn errors_are_told_in_their_words(rt: HostRuntime) -> Result<(), Fail> {
    let worded = all_are_worded(rt.alloc())?;
    assert!(rt; worded);
    Ok(())
}
