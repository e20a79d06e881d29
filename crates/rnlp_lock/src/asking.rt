//! The requests of sections, as far as the lock has what they are about.
ghost use Rattle.std.specs.Prelude.{◌≡◌, ◌≢◌, IfOk, IfErr, IsTrue};
ghost use Rattle.std.specs.FinSet.{empty};
ghost use Rattle.rset.specs.Sets.{all_below};
ghost use Rattle.rguard.specs.Sections.{read_of};
ghost use Rattle.rnlp_lock.specs.Asking.{MayAsk, MayNest, MayWriteBy, asked, nested_of};
ghost use Rattle.rnlp_lock.specs.Causes.{HasAll, StopsNested, StopsRead, StopsWrite};
ghost use Rattle.rnlp_lock.specs.Upgrades.{upgrade_of};

use crate::stop::Stop;
use rclaim::{Kind, Request};
use rexpand::Groups;
use rset::ResourceSet;

/// The request to read these.
///
/// # Errors
///
/// The set is empty, or has members that the lock has not; it is not declared.
pub fn to_read(groups: &Groups, all: ResourceSet, set: ResourceSet) -> Result<Request, Stop>
    requires below { IsTrue (all_below groups.now.q all) }
    requires all { HasAll groups.now.q all }
    ensures made { IfOk result (λ request. request ≡ read_of set) }
    ensures may { IfOk result (MayAsk groups.now) }
    ensures cause { IfErr result (StopsRead groups.now set (read_of set)) }
{
    let none = ResourceSet::empty();
    if set.is_empty() {
        return Err(Stop::NotThere);
    }
    if !set.within(all) {
        return Err(Stop::NotThere);
    }
    if !groups.declared(set) {
        return Err(Stop::Undeclared);
    }
    match Request::new(Kind::Read, set, none, none, 1, 0) {
        Ok(request) => Ok(request),
        Err(_) => Err(Stop::NotThere),
    }
}

/// The request to write some of these and to read the others.
///
/// # Errors
///
/// There is nothing to write, or a set has members that the lock has not.
pub fn to_write(
    groups: &Groups,
    all: ResourceSet,
    kind: Kind,
    reads: ResourceSet,
    writes: ResourceSet,
) -> Result<Request, Stop>
    requires below { IsTrue (all_below groups.now.q all) }
    requires all { HasAll groups.now.q all }
    requires kind { MayWriteBy kind }
    ensures made { IfOk result (λ request. request ≡ asked kind reads writes) }
    ensures may { IfOk result (MayAsk groups.now) }
    ensures some { IfOk result (λ _. writes ≢ empty) }
    ensures cause { IfErr result (StopsWrite groups.now reads writes (asked kind reads writes)) }
{
    // For the proof: the clauses speak of the groups.
    let _ = groups;
    if !reads.within(all) {
        return Err(Stop::NotThere);
    }
    if !writes.within(all) {
        return Err(Stop::NotThere);
    }
    match Request::new(kind, reads, writes, ResourceSet::empty(), 1, 0) {
        Ok(request) => Ok(request),
        Err(_) => Err(Stop::NotThere),
    }
}

/// The request to read these, and perhaps to write them later.
///
/// # Errors
///
/// The set is empty, or has members that the lock has not; it is not declared.
pub fn to_upgrade(groups: &Groups, all: ResourceSet, set: ResourceSet) -> Result<Request, Stop>
    requires below { IsTrue (all_below groups.now.q all) }
    requires all { HasAll groups.now.q all }
    ensures made { IfOk result (λ request. request ≡ upgrade_of set) }
    ensures may { IfOk result (MayAsk groups.now) }
    ensures cause { IfErr result (StopsRead groups.now set (upgrade_of set)) }
{
    let none = ResourceSet::empty();
    if set.is_empty() {
        return Err(Stop::NotThere);
    }
    if !set.within(all) {
        return Err(Stop::NotThere);
    }
    if !groups.declared(set) {
        return Err(Stop::Undeclared);
    }
    match Request::new(Kind::Upgrade, set, none, none, 1, 1) {
        Ok(request) => Ok(request),
        Err(_) => Err(Stop::NotThere),
    }
}

/// The nested request to write some of these and to read the others, which begins with a first part of them.
///
/// # Errors
///
/// There is nothing to write, a set has members that the lock has not, or the first part is empty or no part of the others.
pub fn to_nested(
    groups: &Groups,
    all: ResourceSet,
    reads: ResourceSet,
    writes: ResourceSet,
    first: ResourceSet,
) -> Result<Request, Stop>
    requires below { IsTrue (all_below groups.now.q all) }
    requires all { HasAll groups.now.q all }
    ensures made { IfOk result (λ request. request ≡ nested_of reads writes first) }
    ensures may { IfOk result (λ _. MayNest groups.now reads writes first) }
    ensures cause { IfErr result (StopsNested groups.now reads writes first) }
{
    // For the proof: the clauses speak of the groups.
    let _ = groups;
    if !reads.within(all) {
        return Err(Stop::NotThere);
    }
    if !writes.within(all) {
        return Err(Stop::NotThere);
    }
    match Request::new(Kind::Nested, reads, writes, first, 1, 0) {
        Ok(request) => Ok(request),
        Err(_) => Err(Stop::NotThere),
    }
}
