// Requests of one shape, and the greater of their lengths.
ghost use Rattle.std.specs.Prelude.{◌≡◌, ◌&&◌, nat_le, true};
ghost use Rattle.rbound_history.specs.Shapes.{same_shape, lengthened};

use crate::shape_key::kind_number;
use rclaim::Request;

/// Whether two requests differ in nothing but their lengths.
pub(crate) fn same_shape(a: &Request, b: &Request) -> bool
    ensures { result ≡ same_shape a.now b.now }
{
    kind_number(a.kind()) == kind_number(b.kind())
        && a.reads() == b.reads()
        && a.writes() == b.writes()
        && a.first() == b.first()
}

/// Whether a request has no smaller lengths than another.
pub(crate) fn is_as_long(known: &Request, other: &Request) -> bool
    ensures exact { result ≡ (nat_le other.now.len known.now.len && nat_le other.now.later known.now.later) }
    ensures stays { result ≡ true → lengthened known.now other.now ≡ known.now }
{
    other.len() <= known.len() && other.later() <= known.later()
}

/// The request with the greater lengths of two requests of one shape.
pub(crate) fn lengthened(known: &Request, other: &Request) -> Request
    requires { same_shape other.now known.now ≡ true }
    ensures { result ≡ lengthened known.now other.now }
{
    let made = Request::new(
        other.kind(),
        known.reads(),
        known.writes(),
        known.first(),
        known.len().max(other.len()),
        known.later().max(other.later()),
    );
    match made {
        Ok(request) => request,
        // A request in normal form is never refused.
        Err(_) => *known,
    }
}
