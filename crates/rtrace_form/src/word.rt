// What a record of a list or of a report may be: the words of the table of records.
use rclaim::Kind;

/// Which wait of a request a record reports.
#[derive(Clone, Copy, Debug, PartialEq, Eq)]
pub enum Stage {
    /// `first`: the wait that begins with its issue.
    First,
    /// `rise`: the wait of an upgrade that rises.
    Rise,
    /// `ask`: the wait of one of its asks.
    Ask,
}

/// What a record is. Each has its own list of fields.
#[derive(Clone, Copy, Debug, PartialEq, Eq)]
pub enum Word {
    /// `rnlp,1`
    Version,
    /// `resource,NAME`
    Resource,
    /// `group,SET`
    Group,
    /// `task,NAME`
    Task,
    /// `cap,M`
    Cap,
    /// `issue,TASK,KIND,..`: the fields after KIND are those of the kind.
    Issue(Kind),
    /// `finish,TASK`
    Finish,
    /// `rise,TASK`
    Rise,
    /// `ask,TASK,SET`
    Ask,
    /// `show,RES,NUMBER`
    Show,
    /// `add,RES,N,yes` or `no`
    Add { done: bool },
    /// `take,RES,N,yes` or `no`
    Take { done: bool },
    /// `set,RES,N,yes` or `no`
    Put { done: bool },
    /// `now,TASK,CLAIM,entitled`
    Entitled { write_half: bool },
    /// `now,TASK,CLAIM,satisfied`
    Satisfied { write_half: bool },
    /// `grant,TASK,SET`
    Grant,
    /// `wait,TASK,WHICH,READS,WRITES,UNITS,BREADS,BWRITES,BUNITS`, where the stage gives WHICH.
    Wait(Stage),
    /// `ledger,NAME,BALANCE,EDITS`
    Ledger,
    /// `end`
    End,
}
