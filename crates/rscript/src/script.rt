// A script, and how it is read.
ghost use Rattle.std.specs.Prelude.{◌≡◌, ◌<◌, ℕ, List, Some, IfOk, IfErr, length, slice_get};
ghost use Rattle.rscript.specs.Scripts.{IsScript, IsTextOf};
ghost use Rattle.rscript.specs.SoFar.{SoFar, nothing_yet, told_in};
ghost use Rattle.rscript.specs.Texts.{error_of, IsFirstFault};
ghost use Rattle.rscript.specs.Reading.{Knows};
ghost use Rattle.rscript.specs.Sections.{section_at};
ghost use Rattle.rscript.specs.declared.statement.Statement.{Statement};

use crate::code::ScriptCode;
use crate::reading::ScriptReader;
use crate::statement::Statement;
use crate::steps::{Steps, all_steps};
use rexpand::Groups;
use rset::NameTable;
use rtrace_form::{TextErr, take_text};
use std::alloc::Global;
use std::marker::Model;
use std::mem;

/// Why a text was not read as a script.
#[derive(Clone, Copy, Debug, PartialEq, Eq)]
pub enum ScriptErr {
    /// It does not spell a script: its first faulty record, counted from 1, has this fault.
    Bad { line: u64, code: ScriptCode },
    /// Memory ran out.
    Memory,
}

/// A script: what it declares, and what each task does. It can be written as a text without a fault.
#[derive(Drop)]
pub struct Script {
    resources: NameTable,
    groups: Groups,
    tasks: NameTable,
    steps: Vec<Steps>,
}

impl Model for Script {
    ghost use Rattle.std.specs.Prelude.{◌≡◌, length};
    ghost use Rattle.rscript.specs.Scripts.{ScriptFields, IsScript};
    ghost use Rattle.rscript.specs.ScriptCodes.{script_code};

    ghost Value = { ScriptFields };

    ghost coded = { script_code };

    ghost view = { λ a. record { resources = a.resources; groups = a.groups.groups; tasks = a.tasks; steps = a.steps.items } };

    ghost invariant = { λ a. (a.groups.q ≡ length a.resources)
        × IsScript (record { resources = a.resources; groups = a.groups.groups; tasks = a.tasks; steps = a.steps.items }) };
}

impl Script {
    /// Its resources.
    pub fn resources(&self) -> &NameTable
        ensures value { result.now ≡ self.now.resources }
        ensures script { IsScript self.now }
    {
        &self.resources
    }

    /// Its read groups, over its resources.
    pub fn groups(&self) -> &Groups
        ensures { result.now ≡ record { q = length self.now.resources; groups = self.now.groups } }
    {
        &self.groups
    }

    /// Its tasks.
    pub fn tasks(&self) -> &NameTable
        ensures value { result.now ≡ self.now.tasks }
        ensures script { IsScript self.now }
    {
        &self.tasks
    }

    /// The statements of a task, section by section.
    pub fn steps(&self, task: u8) -> &[Statement]
        requires { task < length self.now.tasks }
        ensures steps { slice_get self.now.steps task ≡ Some result.now }
        ensures script { IsScript self.now }
    {
        self.steps[usize::from(task)].all()
    }

    /// The statements of the section number `k` of a task, counted from 0; none if it has no such section. Each section is
    /// found at once.
    pub fn section(&self, task: u8, k: u64) -> &[Statement]
        requires { task < length self.now.tasks }
        ensures { (statements : List Statement) → slice_get self.now.steps task ≡ Some statements → result.now ≡ section_at k statements }
    {
        self.steps[usize::from(task)].section(k)
    }

    // The script that a reader has read, moved out of the reader. Its groups are there, since it has a task.
    fn of(reading: &mut ScriptReader) -> Result<Script, ScriptErr>
        requires { (s : SoFar) × Knows reading.old s × IsScript (told_in s) }
        ensures said { IfOk result (λ script. (s : SoFar) → Knows reading.old s → script ≡ told_in s) }
        ensures memory { IfErr result (λ e. e ≡ ScriptErr.Memory) }
    {
        let Ok(()) = reading.close_task(false) else {
            return Err(ScriptErr::Memory);
        };
        let alloc = reading.alloc;
        let read = mem::replace(&mut reading.steps, Vec::new(alloc));
        let Ok(steps) = all_steps(alloc, read) else {
            return Err(ScriptErr::Memory);
        };
        match reading.groups.take() {
            Some(groups) => Ok(Script {
                resources: mem::replace(&mut reading.resources, NameTable::new(alloc)),
                groups,
                tasks: mem::replace(&mut reading.tasks, NameTable::new(alloc)),
                steps,
            }),
            None => Err(ScriptErr::Memory),
        }
    }
}

/// Reads a script.
///
/// # Errors
///
/// The first faulty record of a text that does not spell a script, with the first of its codes; or out of memory.
pub fn read_script(alloc: Global, bytes: &[u8]) -> Result<Script, ScriptErr>
    ensures script { IfOk result (IsTextOf bytes.now) }
    ensures bad { (line : ℕ) (code : ScriptCode) → result ≡ Err (ScriptErr.Bad line code) → IsFirstFault bytes.now line code }
{
    take_script(alloc, bytes, &mut ScriptReader::new(alloc))
}

// The same, with a reader that has read nothing.
fn take_script(alloc: Global, bytes: &[u8], reading: &mut ScriptReader) -> Result<Script, ScriptErr>
    requires { Knows reading.old nothing_yet }
    ensures script { IfOk result (IsTextOf bytes.now) }
    ensures bad { (line : ℕ) (code : ScriptCode) → result ≡ Err (ScriptErr.Bad line code) → IsFirstFault bytes.now line code }
{
    match take_text(alloc, bytes, reading) {
        Ok(()) => Script::of(reading),
        Err(e) => Err(error_of(e)),
    }
}

// Why a text was not taken as a script.
fn error_of(e: TextErr<ScriptCode>) -> ScriptErr
    ensures { result ≡ error_of e }
{
    match e {
        TextErr::Bad(fault) => ScriptErr::Bad {
            line: fault.line,
            code: fault.code,
        },
        TextErr::Memory => ScriptErr::Memory,
    }
}
