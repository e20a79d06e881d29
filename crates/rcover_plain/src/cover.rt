// The cover of a wait, by its definition.
ghost use Rattle.std.specs.Prelude.{◌≡◌, ◌∷◌, [], IfOk, if◌then◌else◌};
ghost use Rattle.std.specs.List.{list_any};
ghost use Rattle.rbound.specs.declared.which.Which.TheVariants.{First};
ghost use Rattle.rmodel.specs.declared.claimed.Claimed.{Claimed};
ghost use Rattle.rcover_laws.specs.Ended.{sections_in};
ghost use Rattle.rcover_plain.specs.Lists.{moments_in, sections_of};
ghost use Rattle.rcover_laws.specs.Moments.{holds_at};
ghost use Rattle.rcover_laws.specs.Sections.{keeper_of, moments_without, sections_by, read_sections, ask_sections};
ghost use Rattle.std.specs.Option.{option_to_list};

use crate::holder::holder_of;
use crate::leasts::write_cover;
use crate::moments::push_if;
use rbound::Which;
use rclaim::Claim;
use rcover_laws::{Wanted, holds_at, keeper_at};
use rmodel::Claimed;
use rset::ResourceSet;
use std::alloc::{AllocError, Global};

/// The sections of a wait, each once.
#[derive(Drop)]
pub(crate) struct Cover {
    /// Those that count as reads.
    pub(crate) reads: Vec<Claim>,
    /// Those that count as writes.
    pub(crate) writes: Vec<Claim>,
}

/// The write that keeps a read claim waiting, at the first of these moments.
fn keeper_of(c: &Claim, moments: &[Vec<Claimed>]) -> Option<Claim>
    ensures { result ≡ keeper_of c.now (moments_in moments.now) }
{
    match moments.split_first() {
        Some((moment, _)) => keeper_at(c, moment),
        None => None,
    }
}

/// Whether a claim is satisfied in some of these lists.
fn holds_in_some(c: &Claim, moments: &[Vec<Claimed>]) -> bool
    ensures { result ≡ list_any (λ m. holds_at c.now m.items) moments.now }
{
    moments.iter().any(|m| holds_at(c, m))
}

/// Whether a claim is satisfied at some of these moments.
fn holds_at_some(c: &Claim, moments: &[Vec<Claimed>]) -> bool
    ensures { result ≡ list_any (holds_at c.now) (moments_in moments.now) }
{
    holds_in_some(c, moments)
}

/// The moments at which a claim is not satisfied.
fn moments_without(
    alloc: Global,
    v: &Claim,
    moments: &[Vec<Claimed>],
) -> Result<Vec<Vec<Claimed>>, AllocError>
    ensures { IfOk result (λ left. moments_in left.items ≡ moments_without v.now (moments_in moments.now)) }
{
    let mut left = Vec::new(alloc);
    for moment in moments {
        push_if(alloc, &mut left, !holds_at(v, moment), moment)?;
    }
    Ok(left)
}

/// A list of one claim, or of none.
fn claims_if(alloc: Global, holds: bool, c: Claim) -> Result<Vec<Claim>, AllocError>
    ensures { IfOk result (λ cs. cs.items ≡ (if holds then c ∷ [] else [])) }
{
    let mut claims = Vec::new(alloc);
    if holds {
        claims.push(c)?;
        return Ok(claims);
    }
    Ok(claims)
}

/// A list of the claim, if there is one.
fn claims_from(alloc: Global, found: Option<Claim>) -> Result<Vec<Claim>, AllocError>
    ensures { IfOk result (λ cs. cs.items ≡ option_to_list found) }
{
    match found {
        Some(c) => claims_if(alloc, true, c),
        None => Ok(Vec::new(alloc)),
    }
}

/// The sections of a read wait that `v` keeps waiting.
fn cover_by(alloc: Global, v: &Claim, moments: &[Vec<Claimed>]) -> Result<Cover, AllocError>
    ensures { IfOk result (λ a. sections_of a ≡ sections_by v.now (moments_in moments.now)) }
{
    let without = moments_without(alloc, v, moments)?;
    let reads = claims_from(alloc, holder_of(&Wanted::Against(*v), &without))?;
    let writes = claims_if(alloc, holds_at_some(v, moments), *v)?;
    Ok(Cover { reads, writes })
}

/// The sections of a read wait.
fn read_cover(alloc: Global, c: &Claim, moments: &[Vec<Claimed>]) -> Result<Cover, AllocError>
    ensures { IfOk result (λ a. sections_of a ≡ read_sections c.now (moments_in moments.now)) }
{
    match keeper_of(c, moments) {
        Some(v) => cover_by(alloc, &v, moments),
        None => Ok(Cover {
            reads: Vec::new(alloc),
            writes: Vec::new(alloc),
        }),
    }
}

/// The sections of an ask.
fn ask_cover(
    alloc: Global,
    c: &Claim,
    part: ResourceSet,
    moments: &[Vec<Claimed>],
) -> Result<Cover, AllocError>
    ensures { IfOk result (λ a. sections_of a ≡ ask_sections c.now part (moments_in moments.now)) }
{
    let reads = claims_from(alloc, holder_of(&Wanted::OnPart(*c, part), moments))?;
    Ok(Cover {
        reads,
        writes: Vec::new(alloc),
    })
}

/// The sections of the first wait of a claim.
fn first_cover(alloc: Global, c: &Claim, moments: &[Vec<Claimed>]) -> Result<Cover, AllocError>
    ensures { (x : Claimed) → x.claim ≡ c.now → IfOk result (λ a. sections_of a ≡ sections_in First x (moments_in moments.now)) }
{
    if c.write_half {
        return write_cover(alloc, c, moments);
    }
    read_cover(alloc, c, moments)
}

/// The sections of a wait of a claim, over its moments.
pub(crate) fn cover_in(
    alloc: Global,
    which: Which,
    x: &Claimed,
    moments: &[Vec<Claimed>],
) -> Result<Cover, AllocError>
    ensures { IfOk result (λ a. sections_of a ≡ sections_in which x.now (moments_in moments.now)) }
{
    match which {
        Which::First => first_cover(alloc, &x.claim, moments),
        Which::Rise => write_cover(alloc, &x.claim, moments),
        Which::Ask(_) => ask_cover(alloc, &x.claim, x.asked, moments),
    }
}
