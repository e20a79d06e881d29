// The least claims of the line of a write, over the moments of its wait.
ghost use Rattle.std.specs.Prelude.{◌≡◌, ◌&&◌, IfOk, OnOk};
ghost use Rattle.std.specs.List.{list_any, filter_map};
ghost use Rattle.rcover_laws.specs.Line.{least_of, is_least, is_kept_least, kept_moments, leasts, read_for, write_sections};
ghost use Rattle.rmodel.specs.Rules.{is_earlier_write};
ghost use Rattle.rcover_plain.specs.Lists.{with_lowest, lowest_of, moments_in, sections_of};
ghost use Rattle.rcover_laws.specs.Moments.{holds_at, is_claim};
ghost use Rattle.rcover_laws.specs.Sections.{different};
ghost use Rattle.rcover_laws.specs.Lists.{with_different, with_option};

use crate::cover::Cover;
use crate::holder::holder_of;
use crate::moments::push_if;
use rclaim::Claim;
use rcover_laws::{Wanted, holds_at, is_claim};
use rmodel::Claimed;
use rset::ResourceSet;
use std::alloc::{AllocError, Global};

/// The least claim of a line as found from its end, and the places of all its claims.
#[derive(Clone, Copy)]
pub(crate) struct Lowest {
    pub(crate) least: Claim,
    pub(crate) places: ResourceSet,
}

/// What is found of the line of a write once a claim before the others is looked at.
fn with_lowest(c: &Claim, low: Lowest, x: &Claimed) -> Lowest
    ensures { result ≡ with_lowest c.now low x.now }
{
    if is_earlier_write(c, &x.claim) && x.claim.places.meets(low.places) {
        Lowest {
            least: x.claim,
            places: x.claim.places.union(low.places),
        }
    } else {
        low
    }
}

/// What is found of the line of a write at a moment.
#[tactic(auto, unfolding(crate::specs::Lists::lowest_of))]
fn lowest_of(c: &Claim, moment: &[Claimed]) -> Lowest
    ensures { result ≡ lowest_of c.now moment.now }
{
    let itself = Lowest {
        least: *c,
        places: c.places,
    };
    moment
        .iter()
        .rev()
        .fold(itself, |low, x| with_lowest(c, low, x))
}

/// The least claim of the line of a write at a moment.
pub fn least_of(c: &Claim, moment: &[Claimed]) -> Claim
    ensures { result ≡ least_of c.now moment.now }
{
    lowest_of(c, moment).least
}

/// Whether a claim is the least of the line of a write at a moment, and not satisfied there.
fn is_kept_least(c: &Claim, d: &Claim, moment: &[Claimed]) -> bool
    ensures { result ≡ is_kept_least c.now d.now moment.now }
{
    is_claim(d, &least_of(c, moment)) && !holds_at(d, moment)
}

/// The moments at which a claim is the least of the line of a write, and not satisfied.
fn kept_moments(
    alloc: Global,
    c: &Claim,
    d: &Claim,
    moments: &[Vec<Claimed>],
) -> Result<Vec<Vec<Claimed>>, AllocError>
    ensures { IfOk result (λ kept. moments_in kept.items ≡ kept_moments c.now d.now (moments_in moments.now)) }
{
    let mut kept = Vec::new(alloc);
    for moment in moments {
        push_if(alloc, &mut kept, is_kept_least(c, d, moment), moment)?;
    }
    Ok(kept)
}

/// Whether a claim is among these.
fn is_among(claims: &[Claim], d: &Claim) -> bool
    ensures { result ≡ list_any (λ c. is_claim c d.now) claims.now }
{
    claims.iter().any(|c| is_claim(c, d))
}

/// Adds a claim, if it is not there.
fn add_different(claims: &mut Vec<Claim>, d: Claim) -> Result<(), AllocError>
    ensures { OnOk result (claims.new.items ≡ with_different claims.old.items d) }
{
    if is_among(claims, &d) {
        return Ok(());
    }
    claims.push(d)?;
    Ok(())
}

/// Adds the claim, if there is one and it is not there.
fn add_option(claims: &mut Vec<Claim>, found: Option<Claim>) -> Result<(), AllocError>
    ensures { OnOk result (claims.new.items ≡ with_option claims.old.items found) }
{
    match found {
        Some(d) => add_different(claims, d),
        None => Ok(()),
    }
}

/// The least claims of the line of a write, over these moments.
fn leasts_of(alloc: Global, c: &Claim, moments: &[Vec<Claimed>]) -> Result<Vec<Claim>, AllocError>
    ensures { IfOk result (λ ds. ds.items ≡ leasts c.now (moments_in moments.now)) }
{
    let mut leasts = Vec::new(alloc);
    for moment in moments {
        add_different(&mut leasts, least_of(c, moment))?;
    }
    Ok(leasts)
}

/// Adds the read that is taken for one of the least claims.
fn add_read_for(
    alloc: Global,
    reads: &mut Vec<Claim>,
    c: &Claim,
    d: &Claim,
    moments: &[Vec<Claimed>],
) -> Result<(), AllocError>
    ensures { OnOk result (reads.new.items ≡ with_option reads.old.items (read_for c.now (moments_in moments.now) d.now)) }
{
    let kept = kept_moments(alloc, c, d, moments)?;
    add_option(reads, holder_of(&Wanted::ReadAgainst(*d), &kept))
}

/// The reads that are taken for the least claims, each once.
fn reads_for(
    alloc: Global,
    c: &Claim,
    leasts: &[Claim],
    moments: &[Vec<Claimed>],
) -> Result<Vec<Claim>, AllocError>
    ensures { IfOk result (λ rs. rs.items ≡ different (filter_map (read_for c.now (moments_in moments.now)) leasts.now)) }
{
    let mut reads = Vec::new(alloc);
    for d in leasts {
        add_read_for(alloc, &mut reads, c, d, moments)?;
    }
    Ok(reads)
}

/// Whether a claim is the least of the line of a write, and satisfied, in some of these lists.
fn is_held_in_some(c: &Claim, d: &Claim, moments: &[Vec<Claimed>]) -> bool
    ensures { result ≡ list_any (λ m. is_least c.now d.now m.items && holds_at d.now m.items) moments.now }
{
    moments
        .iter()
        .any(|m| is_claim(d, &least_of(c, m)) && holds_at(d, m))
}

/// Whether a claim is the least of the line of a write, and satisfied, at some moment.
fn is_held_least(c: &Claim, d: &Claim, moments: &[Vec<Claimed>]) -> bool
    ensures { result ≡ list_any (λ m. is_least c.now d.now m && holds_at d.now m) (moments_in moments.now) }
{
    is_held_in_some(c, d, moments)
}

/// The sections of a write wait.
pub(crate) fn write_cover(
    alloc: Global,
    c: &Claim,
    moments: &[Vec<Claimed>],
) -> Result<Cover, AllocError>
    ensures { IfOk result (λ a. sections_of a ≡ write_sections c.now (moments_in moments.now)) }
{
    let mut writes = leasts_of(alloc, c, moments)?;
    let reads = reads_for(alloc, c, &writes, moments)?;
    writes.retain(|d| is_held_least(c, d, moments));
    Ok(Cover { reads, writes })
}

/// Whether a claim is a write of smaller stamp than another.
pub(crate) fn is_earlier_write(c: &Claim, d: &Claim) -> bool
    ensures { result ≡ is_earlier_write c.now d.now }
{
    d.write_half && d.stamp < c.stamp
}
