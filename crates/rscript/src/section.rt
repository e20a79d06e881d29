// The section that is open after the statements of a task, and what it holds.
ghost use Rattle.std.specs.Prelude.{◌≡◌, ◌<◌, option_map};
ghost use Rattle.rset.specs.declared.TheConstants.{RESOURCES};
ghost use Rattle.rscript.specs.Statements.{section_next, with_asked, with_risen, held_as, held_in, is_writable, is_held, may_ask_for};

use crate::statement::Statement;
use rclaim::{Kind, Request};
use rmodel::Granted;
use rset::ResourceSet;

/// A section that is open.
#[derive(Clone, Copy)]
pub struct OpenSection {
    /// The request that it began with.
    pub request: Request,
    /// Whether it has risen.
    pub risen: bool,
    /// What it has asked for so far, with its first part.
    pub asked: ResourceSet,
}

/// The section that is open after a statement, if any; `section` is the one open before it.
pub fn section_after(section: Option<OpenSection>, statement: &Statement) -> Option<OpenSection>
    ensures { result ≡ section_next section statement.now }
{
    match statement {
        Statement::Begin(request) => Some(OpenSection {
            request: *request,
            risen: false,
            asked: request.first(),
        }),
        Statement::Edit { .. } | Statement::Show { .. } => section,
        Statement::Ask { set } => with_asked(section, *set),
        Statement::Rise => with_risen(section),
        Statement::Finish => None,
    }
}

// The section after it has asked for another part.
fn with_asked(section: Option<OpenSection>, part: ResourceSet) -> Option<OpenSection>
    ensures { result ≡ option_map (with_asked part) section }
{
    let OpenSection {
        request,
        risen,
        asked,
    } = section?;
    Some(OpenSection {
        request,
        risen,
        asked: asked.union(part),
    })
}

// The section after it has risen.
fn with_risen(section: Option<OpenSection>) -> Option<OpenSection>
    ensures { result ≡ option_map with_risen section }
{
    let OpenSection { request, asked, .. } = section?;
    Some(OpenSection {
        request,
        risen: true,
        asked,
    })
}

/// Whether a resource is held for writing where this section is open.
pub fn is_writable(section: &Option<OpenSection>, place: u8) -> bool
    requires { place < RESOURCES }
    ensures { result ≡ is_writable section.now place }
{
    held_in(section).writes.has(place)
}

/// Whether a resource is held where this section is open, for reading or for writing.
pub fn is_held(section: &Option<OpenSection>, place: u8) -> bool
    requires { place < RESOURCES }
    ensures { result ≡ is_held section.now place }
{
    let held = held_in(section);
    held.reads.has(place) || held.writes.has(place)
}

/// Whether a set is a part, not empty, of the sets in the open section's request.
pub fn may_ask_for(section: &Option<OpenSection>, part: ResourceSet) -> bool
    ensures { result ≡ may_ask_for section.now part }
{
    match section {
        None => false,
        Some(section) => {
            let request = &section.request;
            part.len() > 0 && part.within(request.reads().union(request.writes()))
        }
    }
}

// What is held where this section is open; nothing outside a section.
fn held_in(section: &Option<OpenSection>) -> Granted
    ensures { result ≡ held_in section.now }
{
    let none = ResourceSet::empty();
    match section {
        None => Granted {
            reads: none,
            writes: none,
        },
        Some(section) => held_by(section),
    }
}

// What a section holds.
fn held_by(section: &OpenSection) -> Granted
    ensures { result ≡ held_as section.now.request.kind section.now }
{
    let none = ResourceSet::empty();
    let reads = section.request.reads();
    let writes = section.request.writes();
    match section.request.kind() {
        Kind::Read | Kind::Write | Kind::Mixed => Granted { reads, writes },
        Kind::Upgrade if section.risen => Granted {
            reads: none,
            writes: reads,
        },
        Kind::Upgrade => Granted {
            reads,
            writes: none,
        },
        Kind::Nested => Granted {
            reads: section.asked.meet(reads),
            writes: section.asked.meet(writes),
        },
    }
}
