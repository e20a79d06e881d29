// The keys by which shapes and asks are looked up, and their order.
ghost use Rattle.std.specs.Prelude.{◌≡◌, []};
ghost use Rattle.std.specs.Ordering.{nat_cmp, ordering_then};
ghost use Rattle.rbound_history.specs.SetOrder.{least, set_cmp};
ghost use Rattle.rbound_history.specs.ShapeKeys.{sets_cmp, key_of};
ghost use Rattle.rclaim.specs.Codes.{kind_number};

use rclaim::{Kind, Request};
use rset::ResourceSet;
use std::alloc::AllocError;
use std::cmp::Ordering;

/// What requests of one shape have in common.
pub(crate) struct ShapeKey {
    pub(crate) task: u8,
    pub(crate) kind: u8,
    pub(crate) reads: ResourceSet,
    pub(crate) writes: ResourceSet,
    pub(crate) first: ResourceSet,
}

impl Clone for ShapeKey {
    ghost use Rattle.std.specs.Prelude.{◌≡◌, ⊤};

    ghost is_clone = { λ x y. y ≡ x };

    ghost is_infallible = { λ _. ⊤ };

    fn clone(&self) -> Result<Self, AllocError> {
        Ok(*self)
    }
}

impl Copy for ShapeKey {}

impl PartialEq for ShapeKey {
    ghost use Rattle.std.specs.Cmp.{partial_equiv_from_equiv};
    ghost use Rattle.rbound_history.specs.ShapeKeys.{same_key};
    ghost use Rattle.rbound_history.specs.KeyFacts.{same_key_equivalence};

    ghost eq = { same_key };

    ghost laws = { partial_equiv_from_equiv same_key_equivalence };

    fn eq(&self, other: &ShapeKey) -> bool {
        self.task == other.task
            && (self.kind == other.kind
                && self.reads == other.reads
                && self.writes == other.writes
                && self.first == other.first)
    }
}

impl Eq for ShapeKey {
    ghost use Rattle.rbound_history.specs.KeyFacts.{same_key_equivalence};

    ghost laws = { same_key_equivalence };
}

impl PartialOrd for ShapeKey {
    ghost use Rattle.std.specs.Prelude.{Some};
    ghost use Rattle.rbound_history.specs.ShapeKeys.{key_cmp};
    ghost use Rattle.rbound_history.specs.KeyFacts.{key_cmp_partial};

    ghost partial_cmp = { λ a b. Some (key_cmp a b) };

    ghost laws = { key_cmp_partial };

    fn partial_cmp(&self, other: &ShapeKey) -> Option<Ordering> {
        Some(self.cmp(other))
    }
}

impl Ord for ShapeKey {
    ghost use Rattle.std.specs.Prelude.{refl};
    ghost use Rattle.rbound_history.specs.ShapeKeys.{key_cmp};
    ghost use Rattle.rbound_history.specs.KeyFacts.{key_cmp_total, same_key_ties};

    ghost cmp = { key_cmp };

    ghost total = { key_cmp_total };

    ghost matches_partial_cmp = { λ a b. refl };

    ghost matches_eq = { same_key_ties };

    fn cmp(&self, other: &ShapeKey) -> Ordering {
        match self.task.cmp(&other.task) {
            Ordering::Less => Ordering::Less,
            Ordering::Equal => request_cmp(self, other),
            Ordering::Greater => Ordering::Greater,
        }
    }
}

/// The order of the requests of two keys.
fn request_cmp(a: &ShapeKey, b: &ShapeKey) -> Ordering
    ensures { result ≡ ordering_then (nat_cmp a.now.kind b.now.kind) (sets_cmp a.now b.now) }
{
    match a.kind.cmp(&b.kind) {
        Ordering::Less => Ordering::Less,
        Ordering::Equal => sets_cmp(a, b),
        Ordering::Greater => Ordering::Greater,
    }
}

/// The order of the sets of two keys.
fn sets_cmp(a: &ShapeKey, b: &ShapeKey) -> Ordering
    ensures { result ≡ sets_cmp a.now b.now }
{
    match set_cmp(a.reads, b.reads) {
        Ordering::Less => Ordering::Less,
        Ordering::Equal => written_cmp(a, b),
        Ordering::Greater => Ordering::Greater,
    }
}

/// The order of what two keys write and of their first parts.
fn written_cmp(a: &ShapeKey, b: &ShapeKey) -> Ordering
    ensures { result ≡ ordering_then (set_cmp a.now.writes b.now.writes) (set_cmp a.now.first b.now.first) }
{
    match set_cmp(a.writes, b.writes) {
        Ordering::Less => Ordering::Less,
        Ordering::Equal => set_cmp(a.first, b.first),
        Ordering::Greater => Ordering::Greater,
    }
}

/// A set that was asked for.
pub(crate) struct AskedSet {
    pub(crate) set: ResourceSet,
}

impl Clone for AskedSet {
    ghost use Rattle.std.specs.Prelude.{◌≡◌, ⊤};

    ghost is_clone = { λ x y. y ≡ x };

    ghost is_infallible = { λ _. ⊤ };

    fn clone(&self) -> Result<Self, AllocError> {
        Ok(*self)
    }
}

impl Copy for AskedSet {}

impl PartialEq for AskedSet {
    ghost use Rattle.std.specs.Cmp.{partial_equiv_from_equiv};
    ghost use Rattle.rbound_history.specs.ShapeKeys.{same_asked};
    ghost use Rattle.rbound_history.specs.KeyFacts.{same_asked_equivalence};

    ghost eq = { same_asked };

    ghost laws = { partial_equiv_from_equiv same_asked_equivalence };

    fn eq(&self, other: &AskedSet) -> bool {
        self.set == other.set
    }
}

impl Eq for AskedSet {
    ghost use Rattle.rbound_history.specs.KeyFacts.{same_asked_equivalence};

    ghost laws = { same_asked_equivalence };
}

impl PartialOrd for AskedSet {
    ghost use Rattle.std.specs.Prelude.{Some};
    ghost use Rattle.rbound_history.specs.ShapeKeys.{asked_cmp};
    ghost use Rattle.rbound_history.specs.KeyFacts.{asked_cmp_partial};

    ghost partial_cmp = { λ a b. Some (asked_cmp a b) };

    ghost laws = { asked_cmp_partial };

    fn partial_cmp(&self, other: &AskedSet) -> Option<Ordering> {
        Some(self.cmp(other))
    }
}

impl Ord for AskedSet {
    ghost use Rattle.std.specs.Prelude.{refl};
    ghost use Rattle.rbound_history.specs.ShapeKeys.{asked_cmp};
    ghost use Rattle.rbound_history.specs.KeyFacts.{asked_cmp_total, same_asked_ties};

    ghost cmp = { asked_cmp };

    ghost total = { asked_cmp_total };

    ghost matches_partial_cmp = { λ a b. refl };

    ghost matches_eq = { same_asked_ties };

    fn cmp(&self, other: &AskedSet) -> Ordering {
        set_cmp(self.set, other.set)
    }
}

/// The least member of a set.
fn least(set: ResourceSet) -> Option<u8>
    ensures { result ≡ least set }
{
    set.first()
}

/// The order of two sets: by the least resource that only one of them has, and the one that has it comes first.
#[tactic(auto, unfolding(crate::specs::SetOrder::set_cmp))]
fn set_cmp(a: ResourceSet, b: ResourceSet) -> Ordering
    ensures { result ≡ set_cmp a b }
{
    match (least(a.minus(b)), least(b.minus(a))) {
        (None, None) => Ordering::Equal,
        (None, Some(_)) => Ordering::Greater,
        (Some(_), None) => Ordering::Less,
        (Some(x), Some(y)) => x.cmp(&y),
    }
}

/// The number of a kind.
pub(crate) fn kind_number(kind: Kind) -> u8
    ensures { result ≡ kind_number kind }
{
    kind as u8
}

/// The key of the shape of a request of a task.
pub(crate) fn key_of(task: u8, request: &Request) -> ShapeKey
    ensures { result ≡ key_of (record { task = task; request = request.now; asks = [] }) }
{
    ShapeKey {
        task,
        kind: kind_number(request.kind()),
        reads: request.reads(),
        writes: request.writes(),
        first: request.first(),
    }
}
