// Which requests the read groups admit.
ghost use Rattle.std.specs.Prelude.{◌≡◌, ◌↔◌, IsTrue, IsOk, IsErrOf};
ghost use Rattle.rmodel.specs.Claims.{is_admitted, IsUndeclared, needs_declared};

use rclaim::{Kind, Request, RequestErr};
use rexpand::Groups;

/// Whether the set of a request of this kind must be declared.
fn needs_declared(kind: Kind) -> bool
    ensures { result ≡ needs_declared kind }
{
    matches!(kind, Kind::Read | Kind::Upgrade)
}

/// Admits or refuses a request under read groups. A read or an upgrade is admitted where its set is declared: it has
/// one member, or it lies inside one group. Every other request is admitted.
///
/// # Errors
///
/// `Undeclared` exactly where the set of a read or of an upgrade is not declared.
pub fn admit(groups: &Groups, request: &Request) -> Result<(), RequestErr>
    ensures admitted { IsOk result ↔ IsTrue (is_admitted groups.now.groups request.now) }
    ensures undeclared { IsErrOf result RequestErr.Undeclared ↔ IsUndeclared groups.now.groups request.now }
{
    if needs_declared(request.kind()) && !groups.declared(request.reads()) {
        return Err(RequestErr::Undeclared);
    }
    Ok(())
}
