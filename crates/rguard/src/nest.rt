//! The guard of a nested request.
ghost use Rattle.std.specs.Prelude.{◌≡◌, true, ◌∷◌, [], IfOk, IfErr};
ghost use Rattle.rclaim.specs.declared.event.Event.TheVariants.{Ask};
ghost use Rattle.rguard.specs.Seats.{Goes, ComesBack, bare};
ghost use Rattle.rguard.specs.Guards.{IsPartOf, KeepsValues, KeepsHolding, HasAsked, IsReady};

use crate::awaited::Awaited;
use crate::kinds::Nesting;
use crate::pending::Pending;
use crate::section_guard::SectionGuard;
use rmodel::Machine;
use rset::ResourceSet;
use rvalue::Editable;
use std::alloc::{AllocError, Global};
use std::sync::Wait;

/// The guard of a nested request. It must be spent.
pub type NestGuard<'a, T, M> = SectionGuard<'a, T, M, Nesting>;

impl<'a, T: Editable, M: Machine> SectionGuard<'a, T, M, Nesting> {
    /// Asks for a further part of what its request is about, in one turn, and waits for it. Its values and acts stay with the
    /// wait.
    ///
    /// # Errors
    ///
    /// Out of memory. Nothing was asked for, and the guard comes back with its acts and values: it holds what it held, and may
    /// ask again.
    pub fn begin_ask<R: Wait>(
        self,
        rt: &R,
        alloc: Global,
        set: ResourceSet,
    ) -> Result<Pending<'a, T, M>, (NestGuard<'a, T, M>, AllocError)>
        requires { IsPartOf self.seat set }
        ensures ok { IfOk result (HasAsked self.entry set) }
        ensures err { IfErr result (λ e. (e.0.site ≡ self.entry.site) × (e.0.acts ≡ self.entry.acts) × Goes self.entry.seat [] e.0.seat) }
        ensures turn_err { IfErr result (λ e. ComesBack self.entry.seat e.0.seat) }
        ensures values { IfErr result (λ e. KeepsValues T.after self.entry e.0) }
        ensures holding { IfErr result (λ e. KeepsHolding self.entry.seat e.0.seat) }
    {
        let _ = alloc;
        let SectionGuard { section, kind: _ } = self;
        match section.ask(rt, set) {
            Ok(section) => Ok(Pending {
                section,
                awaited: Awaited::Nest,
            }),
            Err((section, e)) => {
                let guard = SectionGuard {
                    section,
                    kind: Nesting,
                };
                Err((guard, e))
            }
        }
    }

    /// Asks for a further part, and waits until nothing of the seat is pending, looking and resting in turn. Its values and acts
    /// stay with it.
    ///
    /// # Errors
    ///
    /// Out of memory. Nothing was asked for, and the guard comes back with its acts and values: it holds what it held, and may
    /// ask again.
    pub fn ask<R: Wait>(
        self,
        rt: &R,
        alloc: Global,
        set: ResourceSet,
    ) -> Result<NestGuard<'a, T, M>, (NestGuard<'a, T, M>, AllocError)>
        requires { IsPartOf self.seat set }
        ensures same { IfOk result (λ guard. (guard.site ≡ self.entry.site) × (guard.acts ≡ self.entry.acts)) }
        ensures goes { IfOk result (λ guard. Goes self.entry.seat (bare (Ask self.entry.seat.number set) ∷ []) guard.seat) }
        ensures ready { IfOk result (λ guard. IsReady guard.seat true) }
        ensures err { IfErr result (λ e. (e.0.site ≡ self.entry.site) × (e.0.acts ≡ self.entry.acts) × Goes self.entry.seat [] e.0.seat) }
        ensures turn_err { IfErr result (λ e. ComesBack self.entry.seat e.0.seat) }
        ensures values { IfErr result (λ e. KeepsValues T.after self.entry e.0) }
        ensures holding { IfErr result (λ e. KeepsHolding self.entry.seat e.0.seat) }
    {
        let _ = alloc;
        let SectionGuard { section, kind: _ } = self;
        match section.ask(rt, set) {
            Ok(section) => {
                let section = section.wait(rt);
                Ok(SectionGuard {
                    section,
                    kind: Nesting,
                })
            }
            Err((section, e)) => {
                let guard = SectionGuard {
                    section,
                    kind: Nesting,
                };
                Err((guard, e))
            }
        }
    }
}
