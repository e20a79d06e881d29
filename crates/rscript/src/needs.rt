// What a script needs.
ghost use Rattle.std.specs.Prelude.{◌≡◌, ◌<◌, [], IfOk, OnOk, length, slice_set};
ghost use Rattle.rbound.specs.TaskNeeds.{requests_of};
ghost use Rattle.rscript.specs.Statements.{IsTask};
ghost use Rattle.rscript.specs.Needs.{requests_in, needs_of, none_yet, with_statement, GoesOn};

use crate::script::Script;
use crate::statement::Statement;
use rbound::Needs;
use std::alloc::{AllocError, Global};

impl Script {
    /// What its tasks need, over the script's groups: for each task by number, the requests of its sections in order,
    /// each with the sets the section asks for.
    ///
    /// # Errors
    ///
    /// Out of memory.
    pub fn needs(&self, alloc: Global) -> Result<Needs, AllocError>
        ensures { IfOk result (λ needs. needs ≡ needs_of self.now) }
    {
        let groups = self.groups().copy(alloc)?;
        let mut needs = Needs::new(alloc, groups, self.tasks().len())?;
        push_tasks(&mut needs, self)?;
        Ok(needs)
    }
}

// Adds what each task of the script needs, where nothing is needed yet.
fn push_tasks(needs: &mut Needs, script: &Script) -> Result<(), AllocError>
    requires { needs.old ≡ none_yet script.now }
    ensures { OnOk result (needs.new ≡ needs_of script.now) }
{
    for task in 0..script.tasks().len() {
        push_task(needs, task, script.steps(task))?;
    }
    Ok(())
}

// Adds what the statements of a task need, where nothing is needed for it yet.
fn push_task(needs: &mut Needs, task: u8, statements: &[Statement]) -> Result<(), AllocError>
    requires task { task < length needs.old.tasks }
    requires statements { IsTask needs.old.groups.q needs.old.groups.groups statements.now }
    requires none { requests_of needs.old.tasks task ≡ [] }
    ensures { OnOk result (needs.new ≡ record needs.old { tasks = slice_set needs.old.tasks task (requests_in statements.now) }) }
{
    for statement in statements {
        push_statement(needs, task, statement)?;
    }
    Ok(())
}

// Adds what a statement needs after what the statements before it need.
fn push_statement(needs: &mut Needs, task: u8, statement: &Statement) -> Result<(), AllocError>
    requires task { task < length needs.old.tasks }
    requires goes_on { GoesOn needs.old.groups.q (requests_of needs.old.tasks task) statement.now }
    ensures { OnOk result (needs.new ≡ record needs.old { tasks = with_statement needs.old.tasks task statement.now }) }
{
    match statement {
        Statement::Begin(request) => needs.push(task, *request),
        Statement::Ask { set } => needs.push_ask(task, *set),
        Statement::Edit { .. } | Statement::Show { .. } | Statement::Rise | Statement::Finish => {
            Ok(())
        }
    }
}
