// A section that is kept, with its length.
ghost use Rattle.std.specs.Prelude.{◌≡◌, ◌≤◌, ◌<◌, ◌++◌, ◌∷◌, [], ℕ, ◌^◌, IfSome, length, vec_capacity};
ghost use Rattle.rclaim.specs.declared.claim.Claim.{Claim};
ghost use Rattle.rcover.specs.Kept.{claims_of, claim_if, length_by, section_of, HaveLengths};
ghost use Rattle.std.specs.Option.{option_map};
ghost use Rattle.rcover_laws.specs.Lists.{with_different, with_option};
ghost use Rattle.std.specs.List.{list_any, sum_by};
ghost use Rattle.rset.specs.declared.TheConstants.{SEATS};
ghost use Rattle.rcover_laws.specs.Moments.{is_claim};

use rclaim::Claim;
use rcover_laws::is_claim;
use rmodel::is_upgrade;

/// A section of a wait, with its length.
#[derive(Clone, Copy)]
pub struct CoverSection {
    /// The claim whose section it is.
    pub claim: Claim,
    /// How long it is, in units.
    pub len: u32,
}

/// The lengths of the last request of a seat.
#[derive(Clone, Copy)]
pub struct Lengths {
    /// The length of its section; for an upgrade, of its section before it rises.
    pub len: u32,
    /// The length of an upgrade's section once it rose.
    pub later: u32,
}

/// The length of the section of a claim, by the lengths of the requests of seats.
pub(crate) fn length_by(lengths: &[Lengths], c: &Claim) -> u32
    ensures { result ≡ length_by lengths.now c.now }
{
    match lengths.get(c.seat as usize) {
        Some(by) => {
            if is_upgrade(c.kind) && c.write_half {
                by.later
            } else {
                by.len
            }
        }
        None => 0,
    }
}

/// Whether the section of a claim is among these.
fn has_section(sections: &[CoverSection], d: &Claim) -> bool
    ensures { result ≡ list_any (λ s. is_claim s.claim d.now) sections.now }
{
    sections.iter().any(|s| is_claim(&s.claim, d))
}

/// The section of a claim, with its length.
pub fn section_of(lengths: &[Lengths], d: &Claim) -> CoverSection
    ensures { result ≡ section_of lengths.now d.now }
{
    CoverSection {
        claim: *d,
        len: length_by(lengths, d),
    }
}

/// The section of a claim, if there is one.
pub(crate) fn section_if(lengths: &[Lengths], found: Option<Claim>) -> Option<CoverSection>
    ensures { result ≡ option_map (section_of lengths.now) found }
{
    match found {
        Some(d) => Some(section_of(lengths, &d)),
        None => None,
    }
}

/// Adds a section.
pub(crate) fn push_section(sections: &mut Vec<CoverSection>, section: &CoverSection)
    requires { length sections.old.items < vec_capacity sections.old }
    ensures claims { claims_of sections.new.items ≡ claims_of sections.old.items ++ section.now.claim ∷ [] }
    ensures capacity { vec_capacity sections.new ≡ vec_capacity sections.old }
    ensures lengths { (len : Claim → ℕ) → section.now.len ≡ len section.now.claim → HaveLengths len sections.old.items → HaveLengths len sections.new.items }
{
    sections.push_reserved(*section);
}

/// Adds a section, if it is not in the list.
fn add_section(sections: &mut Vec<CoverSection>, section: &CoverSection)
    requires { length (with_different (claims_of sections.old.items) section.now.claim) ≤ vec_capacity sections.old }
    ensures claims { claims_of sections.new.items ≡ with_different (claims_of sections.old.items) section.now.claim }
    ensures capacity { vec_capacity sections.new ≡ vec_capacity sections.old }
    ensures lengths { (len : Claim → ℕ) → section.now.len ≡ len section.now.claim → HaveLengths len sections.old.items → HaveLengths len sections.new.items }
{
    if has_section(sections, &section.claim) {
        return;
    }
    push_section(sections, section);
}

/// Adds a section, if there is one and it is not in the list.
pub(crate) fn add_found(sections: &mut Vec<CoverSection>, found: &Option<CoverSection>)
    requires { length (with_option (claims_of sections.old.items) (claim_if found.now)) ≤ vec_capacity sections.old }
    ensures claims { claims_of sections.new.items ≡ with_option (claims_of sections.old.items) (claim_if found.now) }
    ensures capacity { vec_capacity sections.new ≡ vec_capacity sections.old }
    ensures lengths { (len : Claim → ℕ) → IfSome found.now (λ s. s.len ≡ len s.claim) → HaveLengths len sections.old.items → HaveLengths len sections.new.items }
{
    match found {
        Some(section) => add_section(sections, section),
        None => {}
    }
}

/// Makes sections a copy of others, in the room that they have.
pub(crate) fn copy_sections(to: &mut Vec<CoverSection>, from: &[CoverSection])
    requires { length from.now ≤ vec_capacity to.old }
    ensures items { to.new.items ≡ from.now }
    ensures capacity { vec_capacity to.new ≡ vec_capacity to.old }
{
    to.clear();
    for s in from {
        to.push_reserved(*s);
    }
}

/// The sum of the lengths of sections.
pub(crate) fn sum_of(sections: &[CoverSection]) -> u64
    requires { length sections.now ≤ SEATS }
    ensures value { result ≡ sum_by (λ s. s.len) sections.now }
    ensures bound { result ≤ 2 ^ 40 }
{
    let mut sum = 0;
    for s in sections {
        sum += s.len as u64;
    }
    sum
}
