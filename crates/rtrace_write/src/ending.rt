// The end of a report: a ledger of each resource, and `end`.
ghost use Rattle.std.specs.Prelude.{◌≡◌, ◌≤◌, ◌++◌, ◌∷◌, [], length, OnOk, IfOk};
ghost use Rattle.rset.specs.declared.TheConstants.{RESOURCES};
ghost use Rattle.rtrace_form.specs.Lines.{Ends};
ghost use Rattle.rtrace_write.specs.Told.{told, leaves_from};

use crate::names::NameRows;
use crate::page::Page;
use rvalue::Ledger;
use std::alloc::{AllocError, Global};

/// The text of what is left in each resource, by number, and `end`.
///
/// # Errors
///
/// Out of memory.
pub fn ending_of(alloc: Global, names: &NameRows, ledgers: &[Ledger]) -> Result<Page, AllocError>
    requires { length ledgers.now ≤ RESOURCES }
    ensures { IfOk result (λ page. page ≡ told names.now (leaves_from 0 ledgers.now ++ Ends ∷ [])) }
{
    let mut page = Page::new(alloc);
    push_ledgers(&mut page, names, ledgers)?;
    page.push(b"end\n")?;
    Ok(page)
}

// Appends a line for each ledger.
fn push_ledgers(page: &mut Page, names: &NameRows, ledgers: &[Ledger]) -> Result<(), AllocError>
    requires { length ledgers.now ≤ RESOURCES }
    ensures { OnOk result (page.new ≡ page.old ++ told names.now (leaves_from 0 ledgers.now)) }
{
    for (place, ledger) in ledgers.iter().enumerate() {
        page.push_ledger(names, place as u8, ledger)?;
    }
    Ok(())
}
