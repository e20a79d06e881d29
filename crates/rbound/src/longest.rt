// The longest of some claims, where there are any.
ghost use Rattle.std.specs.Prelude.{◌≡◌};
ghost use Rattle.rbound.specs.Longest.{longer};

/// The greater of two lengths, of which either may be missing.
pub fn longer(a: Option<u32>, b: Option<u32>) -> Option<u32>
    ensures { result ≡ longer a b }
{
    match (a, b) {
        (None, b) => b,
        (a, None) => a,
        (Some(a), Some(b)) => Some(a.max(b)),
    }
}
