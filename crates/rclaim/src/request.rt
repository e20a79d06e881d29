// What a task asks for, in normal form.
ghost use Rattle.std.specs.Prelude.{◌≡◌, ◌≢◌, ◌≤◌, ◌↔◌, ◌&&◌, nat_lt, false, IfOk, IfErr};
ghost use Rattle.rclaim.specs.Requests.{IsNormal, asked_set, first_fits, is_part, normalised, refusal_number};
ghost use Rattle.std.specs.FinSet as set;

use crate::LENGTH_LIMIT;
use rset::ResourceSet;
use std::alloc::AllocError;
use std::marker::Model;
use thiserror::Error;

/// What a request does with its resources.
#[derive(Clone, Copy, Debug, PartialEq, Eq)]
pub enum Kind {
    /// It reads a set of resources.
    Read,
    /// It writes a set of resources.
    Write,
    /// It reads a set of resources, which may be empty, and writes another.
    Mixed,
    /// It reads a set of resources, and may rise to write them.
    Upgrade,
    /// It reads and writes like a mixed request, but gets only the parts that it asks for, one after another.
    Nested,
}

/// Why a request is refused.
#[derive(Clone, Copy, Debug, PartialEq, Eq, Error)]
pub enum RequestErr {
    /// A read or an upgrade has nothing to read, or a request of another kind has nothing to write.
    #[error("the request has nothing to read, or nothing to write")]
    EmptyRequest = 1,
    /// The resources to read are not a declared set.
    #[error("the resources to read are not declared together")]
    Undeclared = 2,
    /// The first part is empty, or not within the request.
    #[error("the first part is empty or not within the request")]
    FirstOutside = 3,
}

impl RequestErr {
    /// The number of the refusal, from 1 to 3, in the order in which refusals are reported.
    pub fn number(self) -> u8
        ensures { result ≡ refusal_number self }
    {
        self as u8
    }
}

/// What a task asks for: a kind, resources to read and to write, and the greatest length of its section.
#[derive(Debug)]
pub struct Request {
    kind: Kind,
    reads: ResourceSet,
    writes: ResourceSet,
    first: ResourceSet,
    len: u32,
    later: u32,
}

impl Model for Request {
    ghost use Rattle.rclaim.specs.Requests.{RequestFields, request_code};

    ghost Value = { RequestFields };

    ghost coded = { request_code };

    ghost use Rattle.rclaim.specs.Requests.{IsNormal};

    ghost view = { λ a. record { kind = a.kind; reads = a.reads; writes = a.writes; first = a.first; len = a.len; later = a.later } };

    ghost invariant = { λ a. IsNormal (record { kind = a.kind; reads = a.reads; writes = a.writes; first = a.first; len = a.len; later = a.later }) };

    ghost inverse = { λ r. record { kind = r.kind; reads = r.reads; writes = r.writes; first = r.first; len = r.len; later = r.later } };
}

// Whether a set is not empty and a part of another.
fn is_part(part: ResourceSet, whole: ResourceSet) -> bool
    ensures { result ≡ is_part part whole }
{
    part.len() > 0 && part.within(whole)
}

// Whether a request of this kind may have this first part.
fn first_fits(kind: Kind, reads: ResourceSet, writes: ResourceSet, first: ResourceSet) -> bool
    ensures { result ≡ first_fits kind reads writes first }
{
    match kind {
        Kind::Nested => is_part(first, reads.union(writes)),
        Kind::Read | Kind::Write | Kind::Mixed | Kind::Upgrade => true,
    }
}

impl Clone for Request {
    ghost use Rattle.std.specs.Prelude.{◌≡◌, ⊤};

    ghost is_clone = { λ x y. y ≡ x };

    ghost is_infallible = { λ _. ⊤ };

    fn clone(&self) -> Result<Self, AllocError> {
        Ok(*self)
    }
}

impl Copy for Request {}

impl Request {
    /// A request in normal form. A read and an upgrade take `reads` and ignore `writes`, a write takes `writes` and
    /// ignores `reads`. A mixed and a nested request take both; a resource that is in both is only written.
    /// `first` is the part that a nested request asks for at once; every other kind ignores it.
    /// `len` is the length of its section, in units that the caller chooses, and `later` is that of the section in which
    /// an upgrade writes; every other kind ignores `later`.
    ///
    /// # Errors
    ///
    /// In this order: `EmptyRequest` where the set that the kind needs is empty, which is what a read or an upgrade
    /// reads and what any other kind writes; `FirstOutside` where the first part of a nested request is empty or not
    /// within what it reads and writes.
    pub fn new(
        kind: Kind,
        reads: ResourceSet,
        writes: ResourceSet,
        first: ResourceSet,
        len: u32,
        later: u32,
    ) -> Result<Request, RequestErr>
        requires len { len ≤ LENGTH_LIMIT }
        requires later { later ≤ LENGTH_LIMIT }
        ensures empty { (result ≡ Err RequestErr.EmptyRequest) ↔ (asked_set kind reads writes ≡ set.empty) }
        ensures outside { (result ≡ Err RequestErr.FirstOutside)
            ↔ ((asked_set kind reads writes ≢ set.empty) × (first_fits kind reads writes first ≡ false)) }
        ensures only { IfErr result (λ cause. cause ≢ RequestErr.Undeclared) }
        ensures made { IfOk result (λ r. r ≡ normalised kind reads writes first len later) }
        ensures normal { IfOk result IsNormal }
    {
        let none = ResourceSet::empty();
        let fits = first_fits(kind, reads, writes, first);
        let (reads, writes, about) = match kind {
            Kind::Read | Kind::Upgrade => (reads, none, reads),
            Kind::Write => (none, writes, writes),
            Kind::Mixed | Kind::Nested => (reads.minus(writes), writes, writes),
        };
        if about.is_empty() {
            return Err(RequestErr::EmptyRequest);
        }
        if !fits {
            return Err(RequestErr::FirstOutside);
        }
        let (first, later) = match kind {
            Kind::Nested => (first, 0),
            Kind::Upgrade => (none, later),
            Kind::Read | Kind::Write | Kind::Mixed => (none, 0),
        };
        Ok(Request {
            kind,
            reads,
            writes,
            first,
            len,
            later,
        })
    }

    /// What the request does.
    pub fn kind(&self) -> Kind
        ensures value { result ≡ self.now.kind }
        ensures normal { IsNormal self.now }
    {
        self.kind
    }

    /// The resources to read; none of them is written.
    pub fn reads(&self) -> ResourceSet
        ensures value { result ≡ self.now.reads }
        ensures normal { IsNormal self.now }
    {
        self.reads
    }

    /// The resources to write.
    pub fn writes(&self) -> ResourceSet
        ensures value { result ≡ self.now.writes }
        ensures normal { IsNormal self.now }
    {
        self.writes
    }

    /// The part that a nested request asks for at once; empty for every other kind.
    pub fn first(&self) -> ResourceSet
        ensures { result ≡ self.now.first }
    {
        self.first
    }

    /// The length of its section.
    pub fn len(&self) -> u32
        ensures value { result ≡ self.now.len }
        ensures bound { result ≤ LENGTH_LIMIT }
    {
        self.len
    }

    /// The length of the section in which an upgrade writes; 0 for every other kind.
    pub fn later(&self) -> u32
        ensures value { result ≡ self.now.later }
        ensures bound { result ≤ LENGTH_LIMIT }
    {
        self.later
    }
}
