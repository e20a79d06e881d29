// What is wrong with a text that is not a script.
ghost use Rattle.std.specs.Prelude.{◌≡◌};
ghost use Rattle.rscript.specs.Codes.{code_number};

/// What is wrong with a record. If several of these hold, the first in this order is reported.
#[derive(Clone, Copy, Debug, PartialEq, Eq)]
pub enum ScriptCode {
    /// Its first field is not a record word, it has another number of fields, or the version is not 1.
    BadField,
    /// It may not come at this place.
    BadOrder,
    /// It is a task or the end, and no resource comes before it.
    NoResources,
    /// It is the end, and no task comes before it.
    NoTask,
    /// The name that it declares is not a name.
    BadName,
    /// The name that it declares is declared already.
    Repeated,
    /// There are as many resources, tasks or groups as there may be.
    TooMany,
    /// A piece of a set, or its resource, is not a declared resource.
    UnknownName,
    /// A number is not a number, or is above its limit.
    BadNumber,
    /// Its group has no member.
    EmptyGroup,
    /// Its request is a read or an upgrade and has nothing to read, or is of another kind and has nothing to write.
    EmptyRequest,
    /// The set of its read or upgrade is not declared.
    Undeclared,
    /// The first part of its request is empty, or not within the request.
    FirstOutside,
    /// It shows or edits what the section does not hold, or the set it asks for is empty or not within the request.
    NotHeld,
    /// It edits what the section holds for reading only.
    NotWritable,
    /// The records end without `end`.
    NoEnd,
}

impl ScriptCode {
    /// Its number, as users see it.
    pub fn number(self) -> u8
        ensures { result ≡ code_number self }
    {
        match self {
            ScriptCode::BadName => 1,
            ScriptCode::Repeated => 2,
            ScriptCode::TooMany => 3,
            ScriptCode::EmptyGroup => 4,
            ScriptCode::EmptyRequest => 5,
            ScriptCode::Undeclared => 6,
            ScriptCode::FirstOutside => 7,
            ScriptCode::UnknownName => 8,
            ScriptCode::BadNumber => 9,
            ScriptCode::BadField => 10,
            ScriptCode::BadOrder => 11,
            ScriptCode::NotHeld => 12,
            ScriptCode::NotWritable => 13,
            ScriptCode::NoEnd => 14,
            ScriptCode::NoResources => 15,
            ScriptCode::NoTask => 16,
        }
    }
}
