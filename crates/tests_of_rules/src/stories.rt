// Tests of `rcover`: covers that were worked out by hand.
use crate::covers::{Move, Turn, are_right, set};
use rbound::Which;
use rclaim::Kind;
use rcover_laws::WaitEnd;
use std::alloc::Global;
use std::test::Fail;

// A seat makes a move that ends no wait.
fn makes(seat: u8, makes: Move) -> Turn {
    Turn {
        seat,
        makes,
        first: None,
        second: None,
    }
}

// The request of a seat is complete, which ends this wait.
fn ends(seat: u8, end: WaitEnd) -> Turn {
    Turn {
        first: Some(end),
        ..makes(seat, Move::Finish)
    }
}

// A seat issues a request, which ends no wait.
fn issues(seat: u8, kind: Kind, reads: &[u8], writes: &[u8], len: u32, later: u32) -> Turn {
    makes(seat, Move::Issue(kind, set(reads), set(writes), len, later))
}

// A wait ended, for the request of a seat with this stamp.
fn end(seat: u8, stamp: u64, which: Which, numbers: (u64, u64, u64)) -> WaitEnd {
    let (reads, writes, units) = numbers;
    WaitEnd {
        seat,
        stamp,
        which,
        reads,
        writes,
        units,
    }
}

// Entitlement keeps out only conflicts; then one phase each.
fn phases(alloc: Global) -> Result<bool, Fail> {
    are_right(
        alloc,
        &[
            issues(0, Kind::Read, &[0, 1], &[], 3, 0),
            issues(1, Kind::Write, &[], &[0], 2, 0),
            issues(2, Kind::Read, &[0], &[], 1, 0),
            issues(3, Kind::Read, &[1], &[], 1, 0),
            ends(0, end(1, 1, Which::First, (1, 0, 3))),
            ends(1, end(2, 2, Which::First, (1, 1, 5))),
        ],
    )
}

// Places keep apart writes that do not conflict.
fn places(alloc: Global) -> Result<bool, Fail> {
    are_right(
        alloc,
        &[
            issues(0, Kind::Write, &[], &[0], 2, 0),
            issues(1, Kind::Write, &[], &[1], 5, 0),
            ends(0, end(1, 1, Which::First, (0, 1, 2))),
        ],
    )
}

// A waiting read that touches the places of a write holds it back.
fn reads_between(alloc: Global) -> Result<bool, Fail> {
    let read = end(1, 1, Which::First, (0, 1, 2));
    let write = end(2, 2, Which::First, (0, 1, 2));
    let both = Turn {
        second: Some(write),
        ..ends(0, read)
    };
    are_right(
        alloc,
        &[
            issues(0, Kind::Write, &[], &[0], 2, 0),
            issues(1, Kind::Read, &[0, 1], &[], 3, 0),
            issues(2, Kind::Write, &[], &[2], 4, 0),
            both,
        ],
    )
}

// A read and a write wait for the same write.
fn both_wait(alloc: Global) -> Result<bool, Fail> {
    let read = end(1, 1, Which::First, (0, 1, 2));
    let write = end(2, 2, Which::First, (0, 1, 2));
    let both = Turn {
        second: Some(write),
        ..ends(0, read)
    };
    are_right(
        alloc,
        &[
            issues(0, Kind::Write, &[], &[3, 4], 2, 0),
            issues(1, Kind::Read, &[3], &[], 1, 0),
            issues(2, Kind::Write, &[], &[4], 1, 0),
            both,
        ],
    )
}

// A mixed section holds up a write by its reading.
fn reading_beside(alloc: Global) -> Result<bool, Fail> {
    are_right(
        alloc,
        &[
            issues(0, Kind::Mixed, &[0], &[3], 2, 0),
            issues(1, Kind::Read, &[0], &[], 3, 0),
            issues(2, Kind::Write, &[], &[0], 1, 0),
            makes(1, Move::Finish),
            ends(0, end(2, 2, Which::First, (0, 1, 2))),
        ],
    )
}

// The least of a line changes while it is there.
fn line_changes(alloc: Global) -> Result<bool, Fail> {
    are_right(
        alloc,
        &[
            issues(0, Kind::Mixed, &[0], &[1], 1, 0),
            issues(1, Kind::Mixed, &[0], &[5], 1, 0),
            issues(2, Kind::Read, &[4], &[], 5, 0),
            issues(3, Kind::Write, &[], &[4, 5], 1, 0),
            makes(1, Move::Finish),
            ends(2, end(3, 3, Which::First, (1, 1, 6))),
        ],
    )
}

// An upgrade that does not rise.
fn stays(alloc: Global) -> Result<bool, Fail> {
    are_right(
        alloc,
        &[
            issues(0, Kind::Upgrade, &[0], &[], 3, 2),
            issues(1, Kind::Read, &[0], &[], 1, 0),
            ends(0, end(1, 1, Which::First, (1, 0, 3))),
        ],
    )
}

// An upgrade that rises.
fn rises(alloc: Global) -> Result<bool, Fail> {
    are_right(
        alloc,
        &[
            issues(0, Kind::Upgrade, &[0], &[], 3, 2),
            issues(1, Kind::Read, &[0], &[], 1, 0),
            makes(0, Move::Rise),
            ends(0, end(1, 1, Which::First, (1, 1, 5))),
        ],
    )
}

// A nested request asks for more.
fn asks(alloc: Global) -> Result<bool, Fail> {
    are_right(
        alloc,
        &[
            issues(0, Kind::Read, &[3], &[], 3, 0),
            issues(1, Kind::Nested, &[], &[0, 3], 4, 0),
            makes(1, Move::Ask(set(&[3]))),
            ends(0, end(1, 1, Which::Ask(0), (1, 0, 3))),
        ],
    )
}

// A nested request leaves while it is only entitled.
fn leaves(alloc: Global) -> Result<bool, Fail> {
    are_right(
        alloc,
        &[
            issues(0, Kind::Read, &[3], &[], 3, 0),
            issues(1, Kind::Nested, &[], &[0, 3], 4, 0),
            issues(2, Kind::Read, &[0], &[], 1, 0),
            ends(1, end(2, 2, Which::First, (1, 0, 3))),
        ],
    )
}

// Whether the covers of all these stories are right.
fn all_are_right(alloc: Global) -> Result<bool, Fail> {
    let writes = phases(alloc)? && places(alloc)? && reads_between(alloc)?;
    let lines = both_wait(alloc)? && reading_beside(alloc)? && line_changes(alloc)?;
    let upgrades = stays(alloc)? && rises(alloc)?;
    Ok(writes && lines && upgrades && asks(alloc)? && leaves(alloc)?)
}

#[test]
fn covers_are_those_worked_by_hand(rt: HostRuntime) -> Result<(), Fail> {
    let right = all_are_right(rt.alloc())?;
    assert!(rt; right);
    Ok(())
}
