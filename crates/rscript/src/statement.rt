// What a task does, statement by statement.
ghost use Rattle.std.specs.Prelude.{◌≡◌};
ghost use Rattle.rscript.specs.Sections.{ends_section};

use rclaim::Request;
use rset::ResourceSet;
use rvalue::Edit;

/// One statement of a task.
#[derive(Clone, Copy)]
pub enum Statement {
    /// A section begins with this request.
    Begin(Request),
    /// The section edits a resource.
    Edit { place: u8, edit: Edit },
    /// The section shows a resource.
    Show { place: u8 },
    /// The nested section asks for a further part.
    Ask { set: ResourceSet },
    /// The upgrade section is done reading, and goes on to write.
    Rise,
    /// The section ends.
    Finish,
}

impl Statement {
    /// Whether a section ends with it.
    pub fn ends_section(&self) -> bool
        ensures { result ≡ ends_section self.now }
    {
        matches!(self, Statement::Finish)
    }
}
