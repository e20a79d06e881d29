// The sections of a wait at its last moment.
ghost use Rattle.std.specs.Prelude.{◌≡◌, true, [], ℕ, IfSome};
ghost use Rattle.std.specs.Option.{option_to_list};
ghost use Rattle.rclaim.specs.declared.claim.Claim.{Claim};
ghost use Rattle.rset.specs.declared.TheConstants.{SEATS};
ghost use Rattle.rbound.specs.declared.which.Which.TheVariants.{First};
ghost use Rattle.rcover_laws.specs.Ended.{wait_end};
ghost use Rattle.rcover.specs.Kept.{kept_in, length_by, HasRoom, AreLong, AreOf};
ghost use Rattle.rcover.specs.Last.{first_at};
ghost use Rattle.rcover_laws.specs.Lists.{is_wanted, AreAtMost};
ghost use Rattle.rcover.specs.Shown.{write_shown, needs_head};
ghost use Rattle.rcover_laws.specs.Moments.{holds_at};
ghost use Rattle.rcover.specs.Lines.{head_of};
ghost use Rattle.rcover.specs.Tracked.{read_shown, read_shown_if, shown};
ghost use Rattle.rcover_laws.specs.Within.{numbers_of};

use crate::lines::Head;
use crate::run::{Run, section_at};
use crate::section::{Lengths, add_found, copy_sections, push_section, section_of, sum_of};
use rbound::Which;
use rclaim::Claim;
use rcover_laws::{WaitEnd, Wanted, holds_at, keeper_at};
use rmodel::Claimed;

/// Makes `shown` the sections of a write wait whose least claim is this.
fn show_write(shown: &mut Run, run: &Run, lengths: &[Lengths], least: &Head, moment: &[Claimed])
    requires holds { least.now.holds ≡ holds_at least.now.claim moment.now }
    requires room { HasRoom shown.old }
    requires few { AreAtMost SEATS (write_shown least.now.claim (kept_in run.now) moment.now) }
    ensures shown { kept_in shown.new ≡ write_shown least.now.claim (kept_in run.now) moment.now }
    ensures room { HasRoom shown.new }
    ensures lengths { (len : Claim → ℕ) → AreOf (length_by lengths.now) len moment.now → length_by lengths.now least.now.claim ≡ len least.now.claim → AreLong len run.now → AreLong len shown.new }
{
    copy_sections(&mut shown.reads, &run.reads);
    copy_sections(&mut shown.writes, &run.writes);
    if least.holds {
        push_section(&mut shown.writes, &section_of(lengths, &least.claim));
        return;
    }
    add_found(
        &mut shown.reads,
        &section_at(lengths, &Wanted::ReadAgainst(least.claim), moment),
    );
}

/// Makes `shown` the read that is wanted at the last moment, or no section.
fn show_found(shown: &mut Run, lengths: &[Lengths], wanted: &Wanted, moment: &[Claimed])
    requires room { HasRoom shown.old }
    ensures shown { kept_in shown.new ≡ record { reads = option_to_list (first_at (is_wanted wanted.now) moment.now); writes = [] } }
    ensures room { HasRoom shown.new }
    ensures lengths { (len : Claim → ℕ) → AreOf (length_by lengths.now) len moment.now → AreLong len shown.new }
{
    shown.writes.clear();
    shown.reads.clear();
    add_found(&mut shown.reads, &section_at(lengths, wanted, moment));
}

/// Makes `shown` the sections of a read wait that this write keeps waiting.
fn show_read(shown: &mut Run, run: &Run, lengths: &[Lengths], v: &Claim, moment: &[Claimed])
    requires room { HasRoom shown.old }
    requires few { AreAtMost SEATS (read_shown v.now (kept_in run.now).reads moment.now) }
    ensures shown { kept_in shown.new ≡ read_shown v.now (kept_in run.now).reads moment.now }
    ensures room { HasRoom shown.new }
    ensures lengths { (len : Claim → ℕ) → AreOf (length_by lengths.now) len moment.now → length_by lengths.now v.now ≡ len v.now → AreLong len run.now → AreLong len shown.new }
{
    if !holds_at(v, moment) {
        show_found(shown, lengths, &Wanted::Against(*v), moment);
        return;
    }
    copy_sections(&mut shown.reads, &run.reads);
    shown.writes.clear();
    push_section(&mut shown.writes, &section_of(lengths, v));
}

/// Makes `shown` the sections of a read wait, by the write that keeps it waiting, if there is one.
fn show_read_if(
    shown: &mut Run,
    run: &Run,
    lengths: &[Lengths],
    keeper: Option<Claim>,
    moment: &[Claimed],
)
    requires room { HasRoom shown.old }
    requires few { AreAtMost SEATS (read_shown_if keeper (kept_in run.now).reads moment.now) }
    ensures shown { kept_in shown.new ≡ read_shown_if keeper (kept_in run.now).reads moment.now }
    ensures room { HasRoom shown.new }
    ensures lengths { (len : Claim → ℕ) → AreOf (length_by lengths.now) len moment.now → IfSome keeper (λ v. length_by lengths.now v ≡ len v) → AreLong len run.now → AreLong len shown.new }
{
    match keeper {
        Some(v) => show_read(shown, run, lengths, &v, moment),
        None => {
            shown.reads.clear();
            shown.writes.clear();
        }
    }
}

/// Makes `into` the sections of a claim's wait at its last moment; the run keeps the closed ones. `least` is the head of the
/// claim, if that is a write.
pub fn show(
    into: &mut Run,
    run: &Run,
    lengths: &[Lengths],
    which: Which,
    least: &Head,
    x: &Claimed,
    moment: &[Claimed],
)
    requires least { needs_head which x.now ≡ true → least.now ≡ head_of moment.now x.now.claim }
    requires room { HasRoom into.old }
    requires few { AreAtMost SEATS (shown which x.now (kept_in run.now) moment.now) }
    ensures shown { kept_in into.new ≡ shown which x.now (kept_in run.now) moment.now }
    ensures room { HasRoom into.new }
    ensures lengths { (len : Claim → ℕ) → AreOf (length_by lengths.now) len moment.now → length_by lengths.now x.now.claim ≡ len x.now.claim → AreLong len run.now → AreLong len into.new }
{
    let c = &x.claim;
    match which {
        Which::First => {
            if c.write_half {
                show_write(into, run, lengths, least, moment);
            } else {
                show_read_if(into, run, lengths, keeper_at(c, moment), moment);
            }
        }
        Which::Rise => show_write(into, run, lengths, least, moment),
        Which::Ask(_) => show_found(into, lengths, &Wanted::OnPart(*c, x.asked), moment),
    }
}

/// What is reported of a wait with these sections.
pub fn end_of(shown: &Run, which: Which, c: &Claim) -> WaitEnd
    requires { AreAtMost SEATS (kept_in shown.now) }
    ensures { (len : Claim → ℕ) → AreLong len shown.now → result ≡ wait_end which c.now (numbers_of len (kept_in shown.now)) }
{
    WaitEnd {
        seat: c.seat,
        stamp: c.stamp,
        which,
        reads: shown.reads.len() as u64,
        writes: shown.writes.len() as u64,
        units: sum_of(&shown.reads) + sum_of(&shown.writes),
    }
}
