// The names of a text, ready to be put on its lines.
ghost use Rattle.std.specs.Prelude.{◌≡◌, ◌≤◌, ◌<◌, ◌+◌, ◌++◌, length, take, vec_len, IfOk};
ghost use Rattle.rtrace_form.specs.SetFields.{name_at};
ghost use Rattle.rset.specs.declared.TheConstants.{LONGEST_NAME, RESOURCES};

use crate::pieces::put;
use rset::{LONGEST_NAME, NameTable};
use std::alloc::{AllocError, Global};
use std::marker::Model;

/// A name at the front of a row of fixed length, so that it is copied in one step.
#[derive(Drop)]
struct NameRow {
    bytes: [u8; LONGEST_NAME],
    len: u8,
}

impl Model for NameRow {
    ghost use Rattle.std.specs.Prelude.{ℕ, List, ◌≤◌, take};
    ghost use Rattle.rset.specs.declared.TheConstants.{LONGEST_NAME};

    ghost Value = { List ℕ };

    ghost view = { λ a. take a.len a.bytes };

    ghost invariant = { λ a. a.len ≤ LONGEST_NAME };
}

impl NameRow {
    // The row of a name.
    fn of(name: &[u8]) -> NameRow
        requires { length name.now ≤ LONGEST_NAME }
        ensures { result ≡ name.now }
    {
        let mut bytes = [0; LONGEST_NAME];
        bytes[..name.len()].copy_from_slice(name);
        NameRow {
            bytes,
            len: name.len() as u8,
        }
    }

    // Puts the name on a page.
    #[inline]
    fn put(&self, page: &mut [u8], at: usize) -> usize
        requires { at + LONGEST_NAME ≤ length page.old }
        ensures text { take result page.new ≡ take at page.old ++ self.now }
        ensures end { result ≤ at + LONGEST_NAME }
    {
        put(page, at, self.bytes);
        at + usize::from(self.len)
    }
}

/// The names of a text: its resources and its tasks, each by its number.
#[derive(Drop)]
pub struct NameRows {
    resources: Vec<NameRow>,
    tasks: Vec<NameRow>,
}

impl Model for NameRows {
    ghost use Rattle.std.specs.Prelude.{◌≤◌, vec_len};
    ghost use Rattle.rset.specs.declared.TheConstants.{RESOURCES};
    ghost use Rattle.rtrace_form.specs.Fields.{Names};

    ghost Value = { Names };

    ghost view = { λ a. record { resources = a.resources.items; tasks = a.tasks.items } };

    ghost invariant = { λ a. (vec_len a.resources ≤ RESOURCES) × (vec_len a.tasks ≤ RESOURCES) };
}

impl NameRows {
    /// The names of these tables.
    ///
    /// # Errors
    ///
    /// Out of memory.
    pub fn new(
        alloc: Global,
        resources: &NameTable,
        tasks: &NameTable,
    ) -> Result<NameRows, AllocError>
        ensures { IfOk result (λ names. names ≡ record { resources = resources.now; tasks = tasks.now }) }
    {
        Ok(NameRows {
            resources: rows_of(alloc, resources)?,
            tasks: rows_of(alloc, tasks)?,
        })
    }

    /// The number of resources.
    pub fn resources(&self) -> u8
        ensures { result ≡ length self.now.resources }
    {
        self.resources.len() as u8
    }

    /// The number of tasks.
    pub fn tasks(&self) -> u8
        ensures { result ≡ length self.now.tasks }
    {
        self.tasks.len() as u8
    }

    /// Puts the name of a task at a place of a page, and answers where it ends; nothing where there is no such task.
    #[inline]
    pub(crate) fn put_task(&self, page: &mut [u8], at: usize, seat: u8) -> usize
        requires { at + LONGEST_NAME ≤ length page.old }
        ensures text { take result page.new ≡ take at page.old ++ name_at self.now.tasks seat }
        ensures end { result ≤ at + LONGEST_NAME }
    {
        put_name_at(page, at, &self.tasks, seat)
    }

    /// Puts the name of a resource at a place of a page, and answers where it ends; nothing where there is no such resource.
    #[inline]
    pub(crate) fn put_resource(&self, page: &mut [u8], at: usize, place: u8) -> usize
        requires { at + LONGEST_NAME ≤ length page.old }
        ensures text { take result page.new ≡ take at page.old ++ name_at self.now.resources place }
        ensures end { result ≤ at + LONGEST_NAME }
    {
        put_name_at(page, at, &self.resources, place)
    }
}

// Puts the name with a number; nothing where there is no such name.
#[inline]
fn put_name_at(page: &mut [u8], at: usize, rows: &[NameRow], n: u8) -> usize
    requires { at + LONGEST_NAME ≤ length page.old }
    ensures text { take result page.new ≡ take at page.old ++ name_at rows.now n }
    ensures end { result ≤ at + LONGEST_NAME }
{
    let place = usize::from(n);
    if place < rows.len() {
        rows[place].put(page, at)
    } else {
        at
    }
}

// The rows of the names of a table.
fn rows_of(alloc: Global, names: &NameTable) -> Result<Vec<NameRow>, AllocError>
    ensures names { IfOk result (λ rows. rows.items ≡ names.now) }
    ensures few { IfOk result (λ rows. vec_len rows ≤ RESOURCES) }
{
    let mut rows = Vec::new(alloc);
    for n in 0..names.len() {
        rows.push(NameRow::of(names.name_of(n)))?;
    }
    Ok(rows)
}
