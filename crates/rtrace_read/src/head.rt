// The lines of the head.
ghost use Rattle.std.specs.Prelude.{◌≡◌, ◌<◌, ◌≤◌, ◌++◌, ◌∷◌, [], length, Some, true, false, Bool, OnOk, OnErr, IfOk, IfErr, IsTrue};
ghost use Rattle.std.specs.Option.{option_or};
ghost use Rattle.rset.specs.Sets.{all_below};
ghost use Rattle.rset.specs.declared.TheConstants.{RESOURCES, SEATS};
ghost use Rattle.rexpand.specs.declared.TheConstants.{GROUPS};
ghost use Rattle.rtrace_form.specs.Heads.{is_bad_name};
ghost use Rattle.rtrace_form.specs.Lines.{Opens, HasResource, HasGroup, HasTask, HasCap};
ghost use Rattle.rtrace_form.specs.SoFar.{SoFar};
ghost use Rattle.rtrace_form.specs.declared.fault.Code.{Code};
ghost use Rattle.rtrace_read.specs.Knows.{Knows};
ghost use Rattle.rtrace_read.specs.LineTakes.{Takes, Refuses, StillDue, IsAsBefore, MayStand, AreMade, groups_over, with_group};

use crate::place::{AT_CAP, AT_GROUPS, AT_RESOURCES, AT_START, AT_TASKS, AT_VERSION};
use crate::reading::ReportReader;
use rexpand::{GroupErr, Groups};
use rset::{NameErr, NameTable, ResourceSet};
use rtrace_form::{Code, RowErr};
use rvalue::Ledger;
use std::alloc::{AllocError, Global};

impl ReportReader {
    /// Takes the version.
    ///
    /// # Errors
    ///
    /// What is wrong with it there. Nothing changes then.
    pub fn open(&mut self) -> Result<(), Code>
        ensures taken { OnOk result (Takes self.old self.new Opens) }
        ensures bad { IfErr result (λ code. Refuses self.old Opens code) }
        ensures still { OnErr result (self.new ≡ self.old) }
    {
        if let Some(code) = self.misplaced(AT_START, AT_START) {
            return Err(code);
        }
        self.last = AT_VERSION;
        Ok(())
    }

    /// Takes a resource and opens its ledger.
    ///
    /// # Errors
    ///
    /// What is wrong with it there, or out of memory. Where it is wrong, what was due is still due, and no name but
    /// this one was declared. Out of memory, nothing changes but the room for ledgers.
    pub fn resource(&mut self, name: &[u8]) -> Result<(), RowErr>
        ensures taken { OnOk result (Takes self.old self.new (HasResource name.now)) }
        ensures bad { (code : Code) → result ≡ Err (RowErr.Bad code) → Refuses self.old (HasResource name.now) code }
        ensures still { (code : Code) → result ≡ Err (RowErr.Bad code) → StillDue self.old self.new }
        ensures names { (code : Code) → result ≡ Err (RowErr.Bad code)
            → IsAsBefore (record self.old { resources = self.new.resources }) self.new × MayStand self.old.resources self.new.resources name.now }
        ensures memory { result ≡ Err RowErr.Memory → IsAsBefore self.old self.new }
    {
        let misplaced = self.misplaced(AT_VERSION, AT_RESOURCES);
        // Room first: after it nothing but the name takes memory.
        let Ok(()) = self.ledgers.reserve(1) else {
            return Err(RowErr::Memory);
        };
        if let Err(e) = declare(&mut self.resources, name) {
            return Err(e);
        }
        if let Some(code) = misplaced {
            return Err(RowErr::Bad(code));
        }
        self.ledgers.push_reserved(Ledger::new());
        self.last = AT_RESOURCES;
        Ok(())
    }

    /// Takes a task.
    ///
    /// # Errors
    ///
    /// What is wrong with it there, or out of memory. Where it is wrong, what was due is still due, and no name but
    /// this one was declared. Out of memory, nothing changes.
    pub fn task(&mut self, alloc: Global, name: &[u8]) -> Result<(), RowErr>
        ensures taken { OnOk result (Takes self.old self.new (HasTask name.now)) }
        ensures bad { (code : Code) → result ≡ Err (RowErr.Bad code) → Refuses self.old (HasTask name.now) code }
        ensures still { (code : Code) → result ≡ Err (RowErr.Bad code) → StillDue self.old self.new }
        ensures names { (code : Code) → result ≡ Err (RowErr.Bad code)
            → (self.new ≡ record self.old { tasks = self.new.tasks }) × MayStand self.old.tasks self.new.tasks name.now }
        ensures memory { result ≡ Err RowErr.Memory → self.new ≡ self.old }
    {
        let misplaced = self.misplaced(AT_RESOURCES, AT_TASKS);
        // The groups first: after them nothing but the name takes memory.
        let Ok(first) = first_groups(alloc, &self.groups, self.resources.len()) else {
            return Err(RowErr::Memory);
        };
        if let Err(e) = declare(&mut self.tasks, name) {
            return Err(e);
        }
        if let Some(code) = misplaced {
            return Err(RowErr::Bad(code));
        }
        keep_first(&mut self.groups, first);
        self.last = AT_TASKS;
        Ok(())
    }

    /// Takes a read group, if there is room for one more.
    ///
    /// # Errors
    ///
    /// What is wrong with it there, or out of memory. Nothing changes then.
    pub fn group(&mut self, alloc: Global, set: ResourceSet) -> Result<(), RowErr>
        requires known { (whole : Bool) × (s : SoFar) × Knows whole self.old s }
        requires room { (whole : Bool) (s : SoFar) → Knows whole self.old s → length s.groups < GROUPS }
        requires below { IsTrue (all_below (length self.old.resources) set) }
        ensures taken { OnOk result (Takes self.old self.new (HasGroup set)) }
        ensures bad { (code : Code) → result ≡ Err (RowErr.Bad code) → Refuses self.old (HasGroup set) code }
        ensures still { (code : Code) → result ≡ Err (RowErr.Bad code) → StillDue self.old self.new }
        ensures unchanged { OnErr result (self.new ≡ self.old) }
    {
        if set.is_empty() {
            return Err(RowErr::Bad(Code::BadField));
        }
        if let Some(code) = self.misplaced(AT_RESOURCES, AT_GROUPS) {
            return Err(RowErr::Bad(code));
        }
        let Ok(()) = add_group(alloc, &mut self.groups, self.resources.len(), set) else {
            return Err(RowErr::Memory);
        };
        self.last = AT_GROUPS;
        Ok(())
    }

    /// Takes the cap, in seats.
    ///
    /// # Errors
    ///
    /// What is wrong with it there. Nothing changes then.
    pub fn limit(&mut self, cap: u8) -> Result<(), Code>
        requires { (1 ≤ cap) × (cap ≤ SEATS) }
        ensures taken { OnOk result (Takes self.old self.new (HasCap cap)) }
        ensures bad { IfErr result (λ code. Refuses self.old (HasCap cap) code) }
        ensures still { OnErr result (self.new ≡ self.old) }
    {
        if let Some(code) = self.misplaced(AT_TASKS, AT_TASKS) {
            return Err(code);
        }
        self.cap = Some(cap);
        self.last = AT_CAP;
        Ok(())
    }
}

// The groups over so many resources, if there are resources and no groups yet.
fn first_groups(alloc: Global, groups: &Option<Groups>, q: u8) -> Result<Option<Groups>, AllocError>
    requires { q ≤ RESOURCES }
    ensures { IfOk result (λ first. AreMade q groups.now (option_or first groups.now)) }
{
    if groups.is_some() || q == 0 {
        return Ok(None);
    }
    Ok(Some(Groups::new(alloc, q)?))
}

// Keeps the first groups, if there are any.
fn keep_first(groups: &mut Option<Groups>, first: Option<Groups>)
    ensures { groups.new ≡ option_or first groups.old }
{
    if first.is_some() {
        *groups = first;
    }
}

// Adds a group after the others. Where there are none yet, they are made over so many resources.
fn add_group(
    alloc: Global,
    groups: &mut Option<Groups>,
    q: u8,
    set: ResourceSet,
) -> Result<(), GroupErr>
    requires some { 1 ≤ q }
    requires few { q ≤ RESOURCES }
    requires below { IsTrue (all_below (groups_over q groups.old).q set) }
    ensures ok { OnOk result (groups.new ≡ Some (with_group (groups_over q groups.old) set)) }
    ensures err { OnErr result (groups.new ≡ groups.old) }
{
    match groups {
        Some(groups) => groups.declare(set),
        None => {
            let mut first = Groups::new(alloc, q)?;
            first.declare(set)?;
            *groups = Some(first);
            Ok(())
        }
    }
}

// A table of names holds as many names as there can be resources. That must be the limit of tasks too, since one
// function declares both.
const _: () = prove!(rset::SEATS as u16 == rset::RESOURCES);

// Adds a declared name, of a resource or of a task, to its table.
fn declare(table: &mut NameTable, name: &[u8]) -> Result<(), RowErr>
    ensures ok { OnOk result ((is_bad_name RESOURCES table.old name.now ≡ false) × (table.new ≡ table.old ++ name.now ∷ [])) }
    ensures bad { (code : Code) → result ≡ Err (RowErr.Bad code) → (is_bad_name RESOURCES table.old name.now ≡ true) × (code ≡ Code.BadField) }
    ensures still { OnErr result (table.new ≡ table.old) }
{
    match table.add(name) {
        Ok(_) => Ok(()),
        Err(NameErr::Memory) => Err(RowErr::Memory),
        Err(NameErr::BadName | NameErr::Repeated | NameErr::TooMany) => {
            Err(RowErr::Bad(Code::BadField))
        }
    }
}
