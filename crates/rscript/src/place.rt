// Where records may come.
ghost use Rattle.std.specs.Prelude.{◌≡◌};
ghost use Rattle.rscript.specs.Statements.{is_there};
ghost use Rattle.rscript.specs.Places.{stands};

use crate::section::OpenSection;
use crate::word::ScriptWord;
use rclaim::Kind;

/// Where in a task a record may come.
#[derive(Clone, Copy)]
pub enum Where {
    /// Outside a section.
    Outside,
    /// In a section.
    Inside,
    /// In a nested section.
    InNested,
    /// In an upgrade section that has not risen.
    BeforeRise,
}

/// Where a record may come: the first and the last place it may come after, and where in a task.
#[derive(Clone, Copy)]
pub struct Stand {
    /// The first place it may come after.
    pub least: u8,
    /// The last such place.
    pub most: u8,
    /// Where in a task.
    pub inside: Where,
}

// The places of records: the place of the last record, in the order in which records may come.

/// Nothing was read.
pub const AT_START: u8 = 0;

/// The version was read.
pub const AT_VERSION: u8 = 1;

/// The last record declares a resource.
pub const AT_RESOURCES: u8 = 2;

/// The last record declares a group.
pub const AT_GROUPS: u8 = 3;

/// The last record declares a task, or is a statement of one.
pub const AT_TASKS: u8 = 4;

/// The end was read.
pub const AT_END: u8 = 5;

/// Where a record of a word may come.
pub fn stand_of(word: ScriptWord) -> Stand
    ensures { result ≡ stands word }
{
    let (least, most, inside) = match word {
        ScriptWord::Version => (AT_START, AT_START, Where::Outside),
        ScriptWord::Resource => (AT_VERSION, AT_RESOURCES, Where::Outside),
        ScriptWord::Group => (AT_RESOURCES, AT_GROUPS, Where::Outside),
        ScriptWord::Task | ScriptWord::End => (AT_VERSION, AT_TASKS, Where::Outside),
        ScriptWord::Begin(_) => (AT_TASKS, AT_TASKS, Where::Outside),
        ScriptWord::Show
        | ScriptWord::Add
        | ScriptWord::Take
        | ScriptWord::Put
        | ScriptWord::Finish => { (AT_TASKS, AT_TASKS, Where::Inside) }
        ScriptWord::Ask => (AT_TASKS, AT_TASKS, Where::InNested),
        ScriptWord::Rise => (AT_TASKS, AT_TASKS, Where::BeforeRise),
    };
    Stand {
        least,
        most,
        inside,
    }
}

/// Whether this holds where this section is open, or no section is.
pub fn is_there(inside: Where, section: &Option<OpenSection>) -> bool
    ensures { result ≡ is_there inside section.now }
{
    match section {
        None => match inside {
            Where::Outside => true,
            Where::Inside | Where::InNested | Where::BeforeRise => false,
        },
        Some(section) => match inside {
            Where::Outside => false,
            Where::Inside => true,
            Where::InNested => matches!(section.request.kind(), Kind::Nested),
            Where::BeforeRise => {
                matches!(section.request.kind(), Kind::Upgrade) && !section.risen
            }
        },
    }
}
