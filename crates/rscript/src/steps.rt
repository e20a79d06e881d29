// The statements of a task, section by section.
ghost use Rattle.std.specs.Prelude.{◌≡◌, ◌≤◌, [], length, IfOk, OnOk};
ghost use Rattle.rscript.specs.Reading.{statements_in};
ghost use Rattle.rscript.specs.Sections.{end_of, ends_from, section_at, start_of};

use crate::statement::Statement;
use std::alloc::{AllocError, Global};
use std::marker::Model;

/// The statements of a task. Where its sections end is found once, so that each section is found at once.
#[derive(Drop)]
pub(crate) struct Steps {
    statements: Vec<Statement>,
    // After how many statements each section ends.
    ends: Vec<usize>,
}

impl Model for Steps {
    ghost use Rattle.std.specs.Prelude.{◌≡◌, List};
    ghost use Rattle.std.specs.Coded.{coded_list};
    ghost use Rattle.rscript.specs.ScriptCodes.{statement_code};
    ghost use Rattle.rscript.specs.Sections.{ends_from};
    ghost use Rattle.rscript.specs.declared.statement.Statement.{Statement};

    ghost Value = { List Statement };

    ghost coded = { coded_list statement_code };

    ghost view = { λ a. a.statements.items };

    ghost invariant = { λ a. a.ends.items ≡ ends_from 0 a.statements.items };
}

impl Steps {
    // These statements.
    fn of(alloc: Global, statements: Vec<Statement>) -> Result<Steps, AllocError>
        ensures { IfOk result (λ steps. steps ≡ statements.items) }
    {
        let mut ends = Vec::new(alloc);
        push_ends(&mut ends, statements.as_slice())?;
        Ok(Steps { statements, ends })
    }

    /// All of them.
    pub(crate) fn all(&self) -> &[Statement]
        ensures { result.now ≡ self.now }
    {
        self.statements.as_slice()
    }

    /// Those of the section number `k`, counted from 0; none if there is no such section.
    pub(crate) fn section(&self, k: u64) -> &[Statement]
        ensures { result.now ≡ section_at k self.now }
    {
        &self.statements[self.start(k)..self.end(k)]
    }

    // After how many statements the section number `k` begins.
    fn start(&self, k: u64) -> usize
        ensures start { result ≡ start_of 0 self.now k }
        ensures before { result ≤ end_of 0 self.now k }
    {
        match k.checked_sub(1) {
            Some(before) => self.end(before),
            None => 0,
        }
    }

    // After how many statements the section number `k` ends; after all of them if there is no such section.
    fn end(&self, k: u64) -> usize
        ensures end { result ≡ end_of 0 self.now k }
        ensures within { result ≤ length self.now }
    {
        if k < self.ends.len() as u64 {
            self.ends[k as usize]
        } else {
            self.statements.len()
        }
    }
}

// Adds after how many statements each section ends.
fn push_ends(ends: &mut Vec<usize>, statements: &[Statement]) -> Result<(), AllocError>
    requires { ends.old.items ≡ [] }
    ensures { OnOk result (ends.new.items ≡ ends_from 0 statements.now) }
{
    for (i, statement) in statements.iter().enumerate() {
        if statement.ends_section() {
            ends.push(i + 1)?;
        }
    }
    Ok(())
}

/// The statements of each task.
///
/// # Errors
///
/// Out of memory. The statements are dropped.
pub(crate) fn all_steps(alloc: Global, tasks: Vec<Vec<Statement>>) -> Result<Vec<Steps>, AllocError>
    ensures { IfOk result (λ all. all.items ≡ statements_in tasks.items) }
{
    let mut all = Vec::new(alloc);
    for statements in tasks {
        all.push(Steps::of(alloc, statements)?)?;
    }
    Ok(all)
}
