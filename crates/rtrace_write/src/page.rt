// A text that grows line by line, with room made ahead.
ghost use Rattle.std.specs.Prelude.{◌≡◌, ◌≤◌, ◌<◌, ◌+◌, ◌++◌, [], length, take, vec_len, OnOk, OnErr};
ghost use Rattle.rtrace_form.specs.Fields.{Names};
ghost use Rattle.rtrace_form.specs.Lines.{HasResource, HasGroup, HasTask, HasCap, Happens, Does, Leaves};
ghost use Rattle.rtrace_form.specs.Reports.{status_lines, grant_line};
ghost use Rattle.rtrace_form.specs.SetFields.{name_at};
ghost use Rattle.rtrace_form.specs.Waits.{stage_of, cover_of};
ghost use Rattle.rtrace_write.specs.Waits.{cover_text};
ghost use Rattle.rtrace_write.specs.Told.{told, told_line};

use crate::LINE_ROOM;
use crate::act::put_act;
use crate::change::{put_grant, put_status};
use crate::event::put_event;
use crate::frame::{
    put_cap_line, put_group_line, put_ledger_line, put_resource_line, put_task_line,
};
use crate::names::NameRows;
use crate::pieces::put;
use crate::wait::put_cover;
use rclaim::{Event, GrantChange, StatusChange};
use rcover_laws::WaitEnd;
use rset::ResourceSet;
use rvalue::{Act, Edit, Ledger};
use std::alloc::{AllocError, Global};
use std::marker::Model;

/// How many bytes are made ahead, besides the room for a line. They are zeroes at first; there are so few of them that
/// they are still near the processor when they are written.
const AHEAD: usize = 1024;

/// A text that grows by lines.
///
/// Bytes are made ahead, so room is tested once per line. Contracts see only the text.
#[derive(Drop)]
pub struct Page {
    bytes: Vec<u8>,
    used: usize,
}

impl Model for Page {
    ghost use Rattle.std.specs.Prelude.{ℕ, List, ◌≤◌, take, vec_len};

    ghost Value = { List ℕ };

    ghost view = { λ a. take a.used a.bytes.items };

    ghost invariant = { λ a. a.used ≤ vec_len a.bytes };
}

impl Page {
    /// An empty text. No memory is taken.
    pub fn new(alloc: Global) -> Page
        ensures { result ≡ [] }
    {
        Page {
            bytes: Vec::new(alloc),
            used: 0,
        }
    }

    /// The text that these bytes are.
    pub fn of(bytes: Vec<u8>) -> Page
        ensures { result ≡ bytes.items }
    {
        let used = bytes.len();
        Page { bytes, used }
    }

    /// The number of its bytes.
    pub fn len(&self) -> usize
        ensures { result ≡ length self.now }
    {
        self.used
    }

    /// The text.
    pub fn as_slice(&self) -> &[u8]
        ensures { result.now ≡ self.now }
    {
        &self.bytes[..self.used]
    }

    /// Appends bytes of known length.
    ///
    /// # Errors
    ///
    /// Out of memory. The text is then as it was.
    pub fn push<const N: usize>(&mut self, piece: &[u8; N]) -> Result<(), AllocError>
        requires { N ≤ LINE_ROOM }
        ensures ok { OnOk result (self.new ≡ self.old ++ piece.now) }
        ensures err { OnErr result (self.new ≡ self.old) }
    {
        make_room(&mut self.bytes, self.used)?;
        self.used = put(&mut self.bytes, self.used, *piece);
        Ok(())
    }

    /// Appends bytes.
    ///
    /// # Errors
    ///
    /// Out of memory. The text is then as it was.
    pub fn push_slice(&mut self, piece: &[u8]) -> Result<(), AllocError>
        ensures ok { OnOk result (self.new ≡ self.old ++ piece.now) }
        ensures err { OnErr result (self.new ≡ self.old) }
    {
        self.bytes.truncate(self.used);
        self.bytes.extend_from_slice(piece)?;
        self.used = self.bytes.len();
        Ok(())
    }

    // Appends the line of a resource.
    pub(crate) fn push_resource(&mut self, names: &NameRows, place: u8) -> Result<(), AllocError>
        ensures ok { OnOk result (self.new ≡ self.old ++ told_line names.now (HasResource (name_at names.now.resources place))) }
        ensures err { OnErr result (self.new ≡ self.old) }
    {
        make_room(&mut self.bytes, self.used)?;
        self.used = put_resource_line(&mut self.bytes, self.used, names, place);
        Ok(())
    }

    // Appends the line of a read group.
    pub(crate) fn push_group(
        &mut self,
        names: &NameRows,
        group: ResourceSet,
    ) -> Result<(), AllocError>
        ensures ok { OnOk result (self.new ≡ self.old ++ told_line names.now (HasGroup group)) }
        ensures err { OnErr result (self.new ≡ self.old) }
    {
        make_room(&mut self.bytes, self.used)?;
        self.used = put_group_line(&mut self.bytes, self.used, names, group);
        Ok(())
    }

    // Appends the line of a task.
    pub(crate) fn push_task(&mut self, names: &NameRows, seat: u8) -> Result<(), AllocError>
        ensures ok { OnOk result (self.new ≡ self.old ++ told_line names.now (HasTask (name_at names.now.tasks seat))) }
        ensures err { OnErr result (self.new ≡ self.old) }
    {
        make_room(&mut self.bytes, self.used)?;
        self.used = put_task_line(&mut self.bytes, self.used, names, seat);
        Ok(())
    }

    /// Appends the line of an event.
    ///
    /// # Errors
    ///
    /// Out of memory. The text is then as it was.
    pub fn push_event(&mut self, names: &NameRows, event: &Event) -> Result<(), AllocError>
        ensures ok { OnOk result (self.new ≡ self.old ++ told_line names.now (Happens event.now)) }
        ensures err { OnErr result (self.new ≡ self.old) }
    {
        make_room(&mut self.bytes, self.used)?;
        self.used = put_event(&mut self.bytes, self.used, names, event);
        Ok(())
    }

    /// Appends the line of an act.
    ///
    /// # Errors
    ///
    /// Out of memory. The text is then as it was.
    pub fn push_act(&mut self, names: &NameRows, act: &Act<Edit>) -> Result<(), AllocError>
        ensures ok { OnOk result (self.new ≡ self.old ++ told_line names.now (Does act.now)) }
        ensures err { OnErr result (self.new ≡ self.old) }
    {
        make_room(&mut self.bytes, self.used)?;
        self.used = put_act(&mut self.bytes, self.used, names, act);
        Ok(())
    }

    /// Appends the line of a claim's new status; a claim that waits has none.
    ///
    /// # Errors
    ///
    /// Out of memory. The text is then as it was.
    pub fn push_status(&mut self, names: &NameRows, change: &StatusChange) -> Result<(), AllocError>
        ensures ok { OnOk result (self.new ≡ self.old ++ told names.now (status_lines change.now.seat change.now.write_half change.now.status)) }
        ensures err { OnErr result (self.new ≡ self.old) }
    {
        make_room(&mut self.bytes, self.used)?;
        self.used = put_status(&mut self.bytes, self.used, names, change);
        Ok(())
    }

    /// Appends the line of what a request holds now.
    ///
    /// # Errors
    ///
    /// Out of memory. The text is then as it was.
    pub fn push_grant(&mut self, names: &NameRows, change: &GrantChange) -> Result<(), AllocError>
        ensures ok { OnOk result (self.new ≡ self.old ++ told_line names.now (grant_line change.now)) }
        ensures err { OnErr result (self.new ≡ self.old) }
    {
        make_room(&mut self.bytes, self.used)?;
        self.used = put_grant(&mut self.bytes, self.used, names, change);
        Ok(())
    }

    /// Appends the beginning of the line of a wait, up to its cover.
    ///
    /// # Errors
    ///
    /// Out of memory. The text is then as it was.
    pub fn push_cover(&mut self, names: &NameRows, wait: &WaitEnd) -> Result<(), AllocError>
        ensures ok { OnOk result (self.new ≡ self.old ++ cover_text names.now wait.now.seat (stage_of wait.now.which) (cover_of wait.now)) }
        ensures err { OnErr result (self.new ≡ self.old) }
    {
        make_room(&mut self.bytes, self.used)?;
        self.used = put_cover(&mut self.bytes, self.used, names, wait);
        Ok(())
    }

    // Appends the line of what is left in a resource. `rnlp_cli` spells it too (`due_line`): a further field goes into
    // both.
    pub(crate) fn push_ledger(
        &mut self,
        names: &NameRows,
        place: u8,
        ledger: &Ledger,
    ) -> Result<(), AllocError>
        ensures ok { OnOk result (self.new ≡ self.old ++ told_line names.now (Leaves place ledger.now)) }
        ensures err { OnErr result (self.new ≡ self.old) }
    {
        make_room(&mut self.bytes, self.used)?;
        self.used = put_ledger_line(&mut self.bytes, self.used, names, place, ledger);
        Ok(())
    }

    // Appends the line of the cap.
    pub(crate) fn push_cap(&mut self, cap: u8) -> Result<(), AllocError>
        ensures ok { OnOk result ((names : Names) → self.new ≡ self.old ++ told_line names (HasCap cap)) }
        ensures err { OnErr result (self.new ≡ self.old) }
    {
        make_room(&mut self.bytes, self.used)?;
        self.used = put_cap_line(&mut self.bytes, self.used, cap);
        Ok(())
    }
}

// Makes the bytes longer, if there is no room for a line after those that are used.
#[inline]
fn make_room(bytes: &mut Vec<u8>, used: usize) -> Result<(), AllocError>
    requires { used ≤ vec_len bytes.old }
    ensures front { take used bytes.new.items ≡ take used bytes.old.items }
    ensures room { OnOk result (used + LINE_ROOM ≤ vec_len bytes.new) }
    ensures longer { vec_len bytes.old ≤ vec_len bytes.new }
{
    if bytes.len() - used >= LINE_ROOM {
        return Ok(());
    }
    lengthen(bytes, used)
}

// Makes the bytes longer by room for lines. It is kept out of the path of each line.
#[cold]
#[inline(never)]
fn lengthen(bytes: &mut Vec<u8>, used: usize) -> Result<(), AllocError>
    requires { used ≤ vec_len bytes.old }
    ensures front { take used bytes.new.items ≡ take used bytes.old.items }
    ensures room { OnOk result (used + LINE_ROOM ≤ vec_len bytes.new) }
    ensures longer { vec_len bytes.old ≤ vec_len bytes.new }
{
    let longer = used.checked_add(LINE_ROOM + AHEAD).ok_or(AllocError)?;
    bytes.resize(longer.max(bytes.len()), 0)
}
