// What a request holds.
ghost use Rattle.std.specs.Prelude.{◌≡◌};
ghost use Rattle.rmodel.specs.Holds.{nothing, both, is_nothing, is_within};

use rset::ResourceSet;

/// What a request holds.
#[derive(Clone, Copy)]
pub struct Granted {
    /// The resources that it holds for reading.
    pub reads: ResourceSet,
    /// The resources that it holds for writing.
    pub writes: ResourceSet,
}

impl Granted {
    /// Nothing held.
    pub fn nothing() -> Granted
        ensures { result ≡ nothing }
    {
        Granted {
            reads: ResourceSet::empty(),
            writes: ResourceSet::empty(),
        }
    }

    /// Whether nothing is held.
    pub fn is_nothing(&self) -> bool
        ensures { result ≡ is_nothing self.now }
    {
        self.reads.len() == 0 && self.writes.len() == 0
    }

    /// What is held by either.
    pub fn both(&self, other: &Granted) -> Granted
        ensures { result ≡ both self.now other.now }
    {
        Granted {
            reads: self.reads.union(other.reads),
            writes: self.writes.union(other.writes),
        }
    }

    /// Whether each resource held here for reading or writing is held there in the same way.
    pub fn is_within(&self, other: &Granted) -> bool
        ensures { result ≡ is_within self.now other.now }
    {
        self.reads.within(other.reads) && self.writes.within(other.writes)
    }
}
