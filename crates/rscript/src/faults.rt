// What is wrong with a statement that comes after others.
ghost use Rattle.std.specs.Prelude.{◌≡◌, ◌<◌, [], ◌∷◌, not, option_map};
ghost use Rattle.rset.specs.declared.TheConstants.{RESOURCES};
ghost use Rattle.rexpand.specs.Groups.{is_declared};
ghost use Rattle.rclaim.specs.Requests.{IsNormal};
ghost use Rattle.rmodel.specs.Claims.{is_admitted};
ghost use Rattle.rtrace_form.specs.Events.{request_refusal};
ghost use Rattle.rtrace_form.specs.Walks.{first_of, when};
ghost use Rattle.rscript.specs.Statements.{is_held, is_writable};
ghost use Rattle.rscript.specs.declared.code.ScriptCode.TheVariants.{NotHeld, NotWritable};
ghost use Rattle.rscript.specs.Causes.{request_code, statement_causes, groups_in};
ghost use Rattle.rscript.specs.Told.{HasPlace};

use crate::code::ScriptCode;
use crate::section::{OpenSection, is_held, is_writable, may_ask_for};
use crate::statement::Statement;
use rclaim::{Kind, Request};
use rexpand::Groups;
use rset::ResourceSet;

/// What is wrong with a statement where this section is open, if anything is.
pub fn fault_of(
    groups: &Option<Groups>,
    section: &Option<OpenSection>,
    statement: &Statement,
) -> Option<ScriptCode>
    requires { HasPlace RESOURCES statement.now }
    ensures { result ≡ first_of (statement_causes (groups_in groups.now) section.now statement.now) }
{
    match statement {
        Statement::Begin(request) => begin_fault(groups, request),
        Statement::Edit { place, .. } => edit_fault(section, *place),
        Statement::Show { place } => unless_held(is_held(section, *place)),
        Statement::Ask { set } => unless_held(may_ask_for(section, *set)),
        Statement::Rise => None,
        Statement::Finish => None,
    }
}

// What is wrong with a request under read groups. It is in normal form, so it can only be undeclared.
fn begin_fault(groups: &Option<Groups>, request: &Request) -> Option<ScriptCode>
    ensures { result ≡ option_map request_code (request_refusal (groups_in groups.now) request.now) }
{
    if is_admitted(groups, request) {
        None
    } else {
        Some(ScriptCode::Undeclared)
    }
}

// Whether a request is admitted under read groups.
fn is_admitted(groups: &Option<Groups>, request: &Request) -> bool
    ensures value { result ≡ is_admitted (groups_in groups.now) request.now }
    ensures normal { IsNormal request.now }
{
    match request.kind() {
        Kind::Read | Kind::Upgrade => is_declared(groups, request.reads()),
        Kind::Write | Kind::Mixed | Kind::Nested => true,
    }
}

// Whether a set is declared by read groups.
fn is_declared(groups: &Option<Groups>, set: ResourceSet) -> bool
    ensures { result ≡ is_declared (groups_in groups.now) set }
{
    match groups {
        Some(groups) => groups.declared(set),
        None => set.len() == 1,
    }
}

// What is wrong with an edit of a resource.
fn edit_fault(section: &Option<OpenSection>, place: u8) -> Option<ScriptCode>
    requires { place < RESOURCES }
    ensures { result ≡ first_of (when (not (is_held section.now place)) NotHeld ∷ when (not (is_writable section.now place)) NotWritable ∷ []) }
{
    if !is_held(section, place) {
        Some(ScriptCode::NotHeld)
    } else if !is_writable(section, place) {
        Some(ScriptCode::NotWritable)
    } else {
        None
    }
}

// The fault if something is not held.
fn unless_held(held: bool) -> Option<ScriptCode>
    ensures { result ≡ first_of (when (not held) NotHeld ∷ []) }
{
    if held {
        None
    } else {
        Some(ScriptCode::NotHeld)
    }
}
