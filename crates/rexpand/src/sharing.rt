// What is shared with each resource, kept as one set for each.
ghost use Rattle.std.specs.Prelude.{◌≡◌, ◌<◌, ◌≤◌, ℕ, IfOk, IsTrue, fold, length, slice_index_or, vec_len};
ghost use Rattle.std.specs.FinSet.{empty, insert};
ghost use Rattle.rset.specs.Sets.{all_below, rising};
ghost use Rattle.rexpand.specs.Kept.{widen};

use rset::{RESOURCES, ResourceSet};
use std::alloc::{AllocError, Global};

// No group is declared yet, so each of `q` resources is shared with itself alone.
pub(crate) fn alone(alloc: Global, q: u8) -> Result<Vec<ResourceSet>, AllocError>
    requires { q ≤ RESOURCES }
    ensures len { IfOk result (λ shared. vec_len shared ≡ q) }
    ensures itself { IfOk result (λ shared. (l : ℕ) → l < q
        → slice_index_or shared.items l empty ≡ insert empty l) }
{
    let mut shared = Vec::with_capacity(alloc, usize::from(q))?;
    for l in 0..q {
        shared.push(ResourceSet::one(l))?;
    }
    Ok(shared)
}

// Adds a group to what is shared with each of its members.
pub(crate) fn share(shared: &mut [ResourceSet], group: ResourceSet)
    requires { IsTrue (all_below (length shared.old) group) }
    ensures { shared.new ≡ fold (widen (λ l. l) group) shared.old (rising group) }
{
    for l in group.iter() {
        let place = usize::from(l);
        shared[place] = shared[place].union(group);
    }
}
