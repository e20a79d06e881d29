// What a step changes, as two lists whose room is made beforehand.
ghost use Rattle.std.specs.Prelude.{◌≡◌, ◌<◌, [], ◌∷◌, ◌++◌, length, IfOk};
ghost use Rattle.rclaim.specs.Changes.{no_changes};

use crate::{GRANT_ROOM, STATUS_ROOM, Status};
use rset::ResourceSet;
use std::alloc::{AllocError, Global};
use std::marker::Model;

/// A claim of the seat has another status.
#[derive(Clone, Copy)]
pub struct StatusChange {
    /// The seat whose claim it is.
    pub seat: u8,
    /// Whether it is a write claim.
    pub write_half: bool,
    /// Its status now.
    pub status: Status,
}

/// A request of the seat holds more than before.
#[derive(Clone, Copy)]
pub struct GrantChange {
    /// The seat whose request it is.
    pub seat: u8,
    /// Everything that it now holds for reading.
    pub reads: ResourceSet,
    /// Everything that it now holds for writing.
    pub writes: ResourceSet,
}

/// What a step changes. The room for the changes of all seats is made by [`Changes::new`], so that a step takes no memory.
#[derive(Drop)]
pub struct Changes {
    /// The claims whose status differs from before.
    pub statuses: Vec<StatusChange>,
    /// The requests that hold more than before.
    pub grants: Vec<GrantChange>,
}

impl Model for Changes {
    ghost use Rattle.rclaim.specs.Changes.{ChangeLists, changes_code};

    ghost Value = { ChangeLists };

    ghost coded = { changes_code };

    ghost use Rattle.std.specs.Prelude.{◌≡◌, vec_capacity};
    ghost use Rattle.rclaim.specs.declared.TheConstants.{STATUS_ROOM, GRANT_ROOM};

    ghost view = { λ a. record { statuses = a.statuses.items; grants = a.grants.items } };

    // The room is as it was made: adding a change takes no memory.
    ghost invariant = { λ a. (vec_capacity a.statuses ≡ STATUS_ROOM) × (vec_capacity a.grants ≡ GRANT_ROOM) };
}

impl Changes {
    /// No changes, and room for those of all seats.
    ///
    /// # Errors
    ///
    /// Out of memory.
    pub fn new(alloc: Global) -> Result<Changes, AllocError>
        ensures { IfOk result (λ made. made ≡ no_changes) }
    {
        Ok(Changes {
            statuses: Vec::with_capacity(alloc, STATUS_ROOM)?,
            grants: Vec::with_capacity(alloc, GRANT_ROOM)?,
        })
    }

    /// Forgets all changes. The room stays.
    pub fn clear(&mut self)
        ensures { self.new ≡ no_changes }
    {
        self.statuses.clear();
        self.grants.clear();
    }

    /// Adds a change of status.
    pub fn push_status(&mut self, change: StatusChange)
        requires { length self.old.statuses < STATUS_ROOM }
        ensures { self.new ≡ record self.old { statuses = self.old.statuses ++ change ∷ [] } }
    {
        self.statuses.push_reserved(change);
    }

    /// Adds a grant.
    pub fn push_grant(&mut self, change: GrantChange)
        requires { length self.old.grants < GRANT_ROOM }
        ensures { self.new ≡ record self.old { grants = self.old.grants ++ change ∷ [] } }
    {
        self.grants.push_reserved(change);
    }
}
