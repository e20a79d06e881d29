// The reader of a script, record by record.
ghost use Rattle.std.specs.Prelude.{◌≡◌, ◌≤◌, ◌==◌, None, Some, true, OnOk, IfErr};
ghost use Rattle.csv.specs.Records.{fields_of};
ghost use Rattle.rscript.specs.Places.{at_resources, at_tasks};
ghost use Rattle.rscript.specs.Words.{word_in};
ghost use Rattle.rscript.specs.Told.{is_statement};
ghost use Rattle.rscript.specs.SoFar.{SoFar, nothing_yet};
ghost use Rattle.rscript.specs.Faults.{stands_at};
ghost use Rattle.rscript.specs.Reading.{Knows, Adds, Closes, Takes, Refuses};

use crate::code::ScriptCode;
use crate::faults::fault_of;
use crate::place::{
    AT_END, AT_GROUPS, AT_RESOURCES, AT_START, AT_TASKS, AT_VERSION, is_there, stand_of,
};
use crate::section::{OpenSection, section_after};
use crate::statement::Statement;
use crate::tables::{add_group, declare, has_all_groups, make_groups};
use crate::told::statement_of;
use crate::word::ScriptWord;
use csv::ByteRecord;
use rexpand::Groups;
use rset::NameTable;
use rtrace_form::{RowErr, field_of, set_of};
use std::alloc::Global;
use std::mem;

/// What the records so far have said.
#[derive(Drop)]
pub struct ScriptReader {
    /// Where the memory for statements comes from.
    pub alloc: Global,
    /// The place of the last record.
    pub last: u8,
    /// The names of the resources.
    pub resources: NameTable,
    /// The read groups, made at the first group or task; no resource is declared after that.
    pub groups: Option<Groups>,
    /// The names of the tasks.
    pub tasks: NameTable,
    /// The statements of each task but the latest.
    pub steps: Vec<Vec<Statement>>,
    /// The statements of the latest task.
    pub latest: Vec<Statement>,
    /// The section that is open.
    pub section: Option<OpenSection>,
}

impl ScriptReader {
    /// Nothing was read.
    pub fn new(alloc: Global) -> ScriptReader
        ensures { Knows result nothing_yet }
    {
        ScriptReader {
            alloc,
            last: AT_START,
            resources: NameTable::new(alloc),
            groups: None,
            tasks: NameTable::new(alloc),
            steps: Vec::new(alloc),
            latest: Vec::new(alloc),
            section: None,
        }
    }

    /// Whether a record of a word may come here.
    pub fn may_stand(&self, word: ScriptWord) -> bool
        ensures { result ≡ stands_at self.now.last self.now.section word }
    {
        let stand = stand_of(word);
        stand.least <= self.last && self.last <= stand.most && is_there(stand.inside, &self.section)
    }

    /// Takes a record of a word that may come here.
    ///
    /// # Errors
    ///
    /// The first thing that is wrong with it, and then nothing has changed; or out of memory.
    pub fn take_word(
        &mut self,
        word: ScriptWord,
        fields: &ByteRecord,
    ) -> Result<(), RowErr<ScriptCode>>
        requires known { (s : SoFar) × Knows self.old s }
        requires form { word_in (fields_of fields.now) ≡ Some word }
        requires stands { stands_at self.old.last self.old.section word ≡ true }
        ensures taken { OnOk result (Takes self.old self.new (fields_of fields.now) word) }
        ensures bad { (cause : ScriptCode) → result ≡ Err (RowErr.Bad cause) → Refuses self.old (fields_of fields.now) word cause }
        ensures still { (cause : ScriptCode) → result ≡ Err (RowErr.Bad cause) → self.new ≡ self.old }
    {
        match word {
            ScriptWord::Version => self.take_version(fields),
            ScriptWord::Resource => self.take_resource(fields),
            ScriptWord::Group => self.take_group(fields),
            ScriptWord::Task => self.take_task(fields),
            ScriptWord::End => self.take_end(fields),
            _ => self.take_statement(word, fields),
        }
    }

    // Takes the record of the version.
    fn take_version(&mut self, fields: &ByteRecord) -> Result<(), RowErr<ScriptCode>>
        requires form { word_in (fields_of fields.now) ≡ Some ScriptWord.Version }
        requires early { self.old.last ≤ at_resources }
        ensures taken { OnOk result (Takes self.old self.new (fields_of fields.now) ScriptWord.Version) }
        ensures bad { (cause : ScriptCode) → result ≡ Err (RowErr.Bad cause) → Refuses self.old (fields_of fields.now) ScriptWord.Version cause }
        ensures still { (cause : ScriptCode) → result ≡ Err (RowErr.Bad cause) → self.new ≡ self.old }
    {
        // Its fields are just its word: only the contract speaks of them.
        let _ = fields;
        self.last = AT_VERSION;
        Ok(())
    }

    // Takes a resource.
    fn take_resource(&mut self, fields: &ByteRecord) -> Result<(), RowErr<ScriptCode>>
        requires form { word_in (fields_of fields.now) ≡ Some ScriptWord.Resource }
        requires early { self.old.last ≤ at_resources }
        ensures taken { OnOk result (Takes self.old self.new (fields_of fields.now) ScriptWord.Resource) }
        ensures bad { (cause : ScriptCode) → result ≡ Err (RowErr.Bad cause) → Refuses self.old (fields_of fields.now) ScriptWord.Resource cause }
        ensures still { (cause : ScriptCode) → result ≡ Err (RowErr.Bad cause) → self.new ≡ self.old }
    {
        declare(&mut self.resources, field_of(fields, 1))?;
        self.last = AT_RESOURCES;
        Ok(())
    }

    // Takes a read group.
    fn take_group(&mut self, fields: &ByteRecord) -> Result<(), RowErr<ScriptCode>>
        requires known { (s : SoFar) × Knows self.old s }
        requires form { word_in (fields_of fields.now) ≡ Some ScriptWord.Group }
        ensures taken { OnOk result (Takes self.old self.new (fields_of fields.now) ScriptWord.Group) }
        ensures bad { (cause : ScriptCode) → result ≡ Err (RowErr.Bad cause) → Refuses self.old (fields_of fields.now) ScriptWord.Group cause }
        ensures still { (cause : ScriptCode) → result ≡ Err (RowErr.Bad cause) → self.new ≡ self.old }
    {
        if has_all_groups(&self.groups) {
            return Err(RowErr::Bad(ScriptCode::TooMany));
        }
        let Some(set) = set_of(&self.resources, field_of(fields, 1)) else {
            return Err(RowErr::Bad(ScriptCode::UnknownName));
        };
        if set.is_empty() {
            return Err(RowErr::Bad(ScriptCode::EmptyGroup));
        }
        add_group(self.alloc, &mut self.groups, self.resources.len(), set)?;
        self.last = AT_GROUPS;
        Ok(())
    }

    // Takes a task.
    fn take_task(&mut self, fields: &ByteRecord) -> Result<(), RowErr<ScriptCode>>
        requires known { (s : SoFar) × Knows self.old s }
        requires form { word_in (fields_of fields.now) ≡ Some ScriptWord.Task }
        requires closed { self.old.section ≡ None }
        ensures taken { OnOk result (Takes self.old self.new (fields_of fields.now) ScriptWord.Task) }
        ensures bad { (cause : ScriptCode) → result ≡ Err (RowErr.Bad cause) → Refuses self.old (fields_of fields.now) ScriptWord.Task cause }
        ensures still { (cause : ScriptCode) → result ≡ Err (RowErr.Bad cause) → self.new ≡ self.old }
    {
        let q = self.resources.len();
        if q == 0 {
            return Err(RowErr::Bad(ScriptCode::NoResources));
        }
        let first = self.tasks.len() == 0;
        declare(&mut self.tasks, field_of(fields, 1))?;
        make_groups(self.alloc, &mut self.groups, q)?;
        self.close_task(first)?;
        self.last = AT_TASKS;
        Ok(())
    }

    /// Keeps the statements of the latest task with those of the tasks before it; does nothing if there is no task.
    ///
    /// # Errors
    ///
    /// Out of memory.
    pub fn close_task(&mut self, none: bool) -> Result<(), RowErr<ScriptCode>>
        ensures ok { OnOk result (Closes none self.old self.new) }
        ensures memory { IfErr result (λ e. e ≡ RowErr.Memory) }
    {
        if none {
            return Ok(());
        }
        let latest = mem::replace(&mut self.latest, Vec::new(self.alloc));
        match self.steps.push(latest) {
            Ok(()) => Ok(()),
            Err(_) => Err(RowErr::Memory),
        }
    }

    // Takes the end.
    fn take_end(&mut self, fields: &ByteRecord) -> Result<(), RowErr<ScriptCode>>
        requires form { word_in (fields_of fields.now) ≡ Some ScriptWord.End }
        ensures taken { OnOk result (Takes self.old self.new (fields_of fields.now) ScriptWord.End) }
        ensures bad { (cause : ScriptCode) → result ≡ Err (RowErr.Bad cause) → Refuses self.old (fields_of fields.now) ScriptWord.End cause }
        ensures still { (cause : ScriptCode) → result ≡ Err (RowErr.Bad cause) → self.new ≡ self.old }
    {
        // Its fields are just its word: only the contract speaks of them.
        let _ = fields;
        if self.resources.len() == 0 {
            return Err(RowErr::Bad(ScriptCode::NoResources));
        }
        if self.tasks.len() == 0 {
            return Err(RowErr::Bad(ScriptCode::NoTask));
        }
        self.last = AT_END;
        Ok(())
    }

    // Takes a statement of the latest task.
    fn take_statement(
        &mut self,
        word: ScriptWord,
        fields: &ByteRecord,
    ) -> Result<(), RowErr<ScriptCode>>
        requires form { word_in (fields_of fields.now) ≡ Some word }
        requires kind { is_statement word ≡ true }
        requires behind { self.old.last ≡ at_tasks }
        ensures taken { OnOk result (Takes self.old self.new (fields_of fields.now) word) }
        ensures bad { (cause : ScriptCode) → result ≡ Err (RowErr.Bad cause) → Refuses self.old (fields_of fields.now) word cause }
        ensures still { (cause : ScriptCode) → result ≡ Err (RowErr.Bad cause) → self.new ≡ self.old }
    {
        match statement_of(&self.resources, word, fields) {
            Err(code) => Err(RowErr::Bad(code)),
            Ok(statement) => match fault_of(&self.groups, &self.section, &statement) {
                Some(code) => Err(RowErr::Bad(code)),
                None => self.add(statement),
            },
        }
    }

    // Keeps a statement of the latest task.
    fn add(&mut self, statement: Statement) -> Result<(), RowErr<ScriptCode>>
        ensures ok { OnOk result (Adds self.old self.new statement) }
        ensures memory { IfErr result (λ e. e ≡ RowErr.Memory) }
    {
        self.section = section_after(self.section, &statement);
        match self.latest.push(statement) {
            Ok(()) => Ok(()),
            Err(_) => Err(RowErr::Memory),
        }
    }
}
