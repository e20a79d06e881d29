// The end of a history: its open text is given the bounds of its waits.
ghost use Rattle.std.specs.Prelude.{◌≡◌, ◌≤◌, [], true, List, IfOk};
ghost use Rattle.rtrace_form.specs.Fields.{Names};
ghost use Rattle.rtrace_form.specs.Heads.{Head, read_groups};
ghost use Rattle.rtrace_form.specs.Reports.{Entry, history_lines};
ghost use Rattle.rtrace_form.specs.Waits.{bound_in};
ghost use Rattle.rtrace_write.specs.Behind.{IsToldWhole};
ghost use Rattle.rtrace_write.specs.Told.{told};

use crate::gathered::Gathered;
use crate::open_text::OpenText;
use crate::page::Page;
use rexpand::Groups;
use std::alloc::{AllocError, Global};

/// The text of a whole history, with the bounds of the waits that it ended, over its groups and under its cap. A text
/// without waits is returned as it is, and no bound is computed.
///
/// # Errors
///
/// Out of memory.
pub fn close_history(
    alloc: Global,
    text: OpenText,
    gathered: &Gathered,
    groups: &Groups,
    cap: u8,
) -> Result<Page, AllocError>
    requires { (names : Names) × (head : Head) × (entries : List Entry) × IsToldWhole text gathered.now names head entries
        × (groups.now ≡ read_groups head) × (cap ≡ head.cap) × (1 ≤ cap) }
    ensures { IfOk result (λ page. (names : Names) (head : Head) (entries : List Entry) → IsToldWhole text gathered.now names head entries
        → groups.now ≡ read_groups head → cap ≡ head.cap → page ≡ told names (history_lines true (bound_in head entries) head [] entries)) }
{
    text.closed(alloc, gathered, groups, cap)
}
