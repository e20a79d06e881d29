// What a record of a script may be: the words of the table of records.
use rclaim::Kind;

/// What a record is. Each has its own list of fields.
#[derive(Clone, Copy)]
pub enum ScriptWord {
    /// `rnlp,1`
    Version,
    /// `resource,NAME`
    Resource,
    /// `group,SET`
    Group,
    /// `task,NAME`
    Task,
    /// `read`, `write`, `mixed`, `upgrade` or `nested`, with the fields of the kind: a section begins.
    Begin(Kind),
    /// `show,RES`
    Show,
    /// `add,RES,N`
    Add,
    /// `take,RES,N`
    Take,
    /// `set,RES,N`
    Put,
    /// `ask,SET`
    Ask,
    /// `rise`
    Rise,
    /// `finish`
    Finish,
    /// `end`
    End,
}
