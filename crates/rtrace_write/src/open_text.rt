// A text that grows line by line, and stays open where the bounds of waits belong.
ghost use Rattle.std.specs.Prelude.{◌≡◌, ◌≤◌, ◌++◌, [], List, length, map, take, drop, OnOk, OnErr, IfOk};
ghost use Rattle.rbound.specs.Bounds.{numbers_in};
ghost use Rattle.rtrace_form.specs.Lines.{Happens, Does};
ghost use Rattle.rtrace_form.specs.Reports.{status_lines, grant_line, wait_line};
ghost use Rattle.rtrace_form.specs.Waits.{no_bounds};
ghost use Rattle.rcover_laws.specs.declared.wait_end.WaitEnd.{WaitEnd};
ghost use Rattle.rcover.specs.Past.{Past};
ghost use Rattle.rtrace_write.specs.Behind.{bound_by};
ghost use Rattle.rtrace_write.specs.Gathered.{KnowsGathered, AreBoundsIn};
ghost use Rattle.rtrace_write.specs.Waits.{bound_text};
ghost use Rattle.rtrace_write.specs.Gaps.{with_gaps, AreRising, gaps_in, filled};
ghost use Rattle.rtrace_write.specs.Open.{open_line, open_told};

use crate::gathered::Gathered;
use crate::names::NameRows;
use crate::page::Page;
use crate::wait::push_bound;
use rbound::Bound;
use rbound_history::WaitBounds;
use rclaim::{Event, GrantChange, StatusChange};
use rcover_laws::WaitEnd;
use rexpand::Groups;
use rvalue::{Act, Edit};
use std::alloc::{AllocError, Global};
use std::marker::Model;

/// A text that grows by lines. On the lines of waits the bounds are gaps, until it is closed.
#[derive(Drop)]
pub struct OpenText {
    page: Page,
    // Before which byte each gap is.
    gaps: Vec<usize>,
}

impl Model for OpenText {
    ghost use Rattle.std.specs.Prelude.{ℕ, List, Option, length};
    ghost use Rattle.rtrace_write.specs.Gaps.{with_gaps, AreRising};

    ghost Value = { List (Option ℕ) };

    ghost view = { λ a. with_gaps 0 a.gaps.items a.page };

    ghost invariant = { λ a. AreRising 0 a.gaps.items (length a.page) };
}

impl OpenText {
    /// An empty text. No memory is taken.
    pub fn new(alloc: Global) -> OpenText
        ensures { result ≡ [] }
    {
        OpenText {
            page: Page::new(alloc),
            gaps: Vec::new(alloc),
        }
    }

    // Appends the line of an event.
    pub(crate) fn push_event(&mut self, names: &NameRows, event: &Event) -> Result<(), AllocError>
        ensures ok { OnOk result (self.new ≡ self.old ++ open_line names.now (Happens event.now)) }
        ensures err { OnErr result (self.new ≡ self.old) }
    {
        self.page.push_event(names, event)
    }

    // Appends the line of an act.
    pub(crate) fn push_act(&mut self, names: &NameRows, act: &Act<Edit>) -> Result<(), AllocError>
        ensures ok { OnOk result (self.new ≡ self.old ++ open_line names.now (Does act.now)) }
        ensures err { OnErr result (self.new ≡ self.old) }
    {
        self.page.push_act(names, act)
    }

    // Appends the line of a claim's new status; a claim that waits has none.
    pub(crate) fn push_status(
        &mut self,
        names: &NameRows,
        change: &StatusChange,
    ) -> Result<(), AllocError>
        ensures ok { OnOk result (self.new ≡ self.old ++ open_told names.now (status_lines change.now.seat change.now.write_half change.now.status)) }
        ensures err { OnErr result (self.new ≡ self.old) }
    {
        self.page.push_status(names, change)
    }

    // Appends the line of what a request holds now.
    pub(crate) fn push_grant(
        &mut self,
        names: &NameRows,
        change: &GrantChange,
    ) -> Result<(), AllocError>
        ensures ok { OnOk result (self.new ≡ self.old ++ open_line names.now (grant_line change.now)) }
        ensures err { OnErr result (self.new ≡ self.old) }
    {
        self.page.push_grant(names, change)
    }

    // Appends the line of a wait, with a gap for its bound and for the end of the line. Room for the gap is made first.
    pub(crate) fn push_wait(&mut self, names: &NameRows, wait: &WaitEnd) -> Result<(), AllocError>
        ensures ok { OnOk result (self.new ≡ self.old ++ open_line names.now (wait_line no_bounds wait.now)) }
        ensures err { OnErr result (self.new ≡ self.old) }
    {
        self.gaps.reserve(1)?;
        self.page.push_cover(names, wait)?;
        self.gaps.push_reserved(self.page.len());
        Ok(())
    }

    // The text, with its gaps filled by the bounds of the waits that were gathered. A text without a gap is returned as
    // it is.
    pub(crate) fn closed(
        self,
        alloc: Global,
        gathered: &Gathered,
        groups: &Groups,
        cap: u8,
    ) -> Result<Page, AllocError>
        requires { (p : Past) × (ws : List WaitEnd) × KnowsGathered gathered.now p ws × (groups.now ≡ p.groups) × (cap ≡ p.cap) × (1 ≤ cap) × (length ws ≡ gaps_in self) }
        ensures { IfOk result (λ page. (p : Past) (ws : List WaitEnd) → KnowsGathered gathered.now p ws → groups.now ≡ p.groups → cap ≡ p.cap → page ≡ filled (map (bound_by p) ws) self) }
    {
        let OpenText { page, gaps } = self;
        if gaps.is_empty() {
            return Ok(page);
        }
        let bounds = gathered.bounds(alloc, groups, cap)?;
        fill(alloc, page.as_slice(), &gaps, gathered, &bounds)
    }
}

// The text with a bound in each gap, and with the end of its line.
fn fill(
    alloc: Global,
    text: &[u8],
    gaps: &[usize],
    gathered: &Gathered,
    bounds: &WaitBounds,
) -> Result<Page, AllocError>
    requires rising { AreRising 0 gaps.now (length text.now) }
    requires each { (p : Past) × (ws : List WaitEnd) × AreBoundsIn bounds.now gathered.now p ws × (length ws ≡ length gaps.now) }
    ensures { IfOk result (λ page. (p : Past) (ws : List WaitEnd) → AreBoundsIn bounds.now gathered.now p ws → page ≡ filled (map (bound_by p) ws) (with_gaps 0 gaps.now text.now)) }
{
    let mut closed = Vec::with_capacity(alloc, text.len())?;
    let mut at = 0;
    for (number, gap) in gaps.iter().enumerate() {
        push_part(&mut closed, text, at, *gap, gathered.bound(bounds, number))?;
        at = *gap;
    }
    closed.extend_from_slice(&text[at..])?;
    Ok(Page::of(closed))
}

// Appends the bytes from one place to another, and a bound after them.
fn push_part(
    closed: &mut Vec<u8>,
    text: &[u8],
    from: usize,
    to: usize,
    bound: Bound,
) -> Result<(), AllocError>
    requires { (from ≤ to) × (to ≤ length text.now) }
    ensures { OnOk result (closed.new.items ≡ closed.old.items ++ (drop from (take to text.now) ++ bound_text (numbers_in bound))) }
{
    closed.extend_from_slice(&text[from..to])?;
    push_bound(closed, bound)
}
