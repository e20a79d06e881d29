//! Kinds of guards as types.
ghost use Rattle.std.specs.Prelude.{◌≡◌, true, refl};
ghost use Rattle.rguard.specs.LentSections.{may_edit, no_loans};
ghost use Rattle.rguard.specs.declared.kind.GuardKind.{GuardKind};
ghost use Rattle.rguard.specs.declared.kind.GuardKind.TheVariants.{Read, Write, Rise, Nest};

use rstate::Lent;
use std::alloc::Global;

/// A kind of guards, as a type: what a guard of the kind has besides its section.
pub trait Guarding: Drop {
    /// The kind.
    ghost kind: { GuardKind };
}

/// A kind whose guards may edit.
pub trait Editing: Guarding {
    /// Its guards may edit.
    ghost may: { may_edit Self.kind ≡ true };
}

/// A guard that reads has only its section.
#[derive(Drop)]
pub struct Reading;

/// A guard that writes has only its section.
#[derive(Drop)]
pub struct Writing;

/// An upgrade that rises gives back what it was lent and is lent other values: the room for these.
#[derive(Drop)]
pub struct Rising<T> {
    pub(crate) next: Lent<T>,
    pub(crate) alloc: Global,
    ghost room: { next ≡ no_loans },
}

/// A guard of a nested request has only its section.
#[derive(Drop)]
pub struct Nesting;

impl Guarding for Reading {
    ghost kind = { Read };
}

impl Guarding for Writing {
    ghost kind = { Write };
}

impl<T: Drop> Guarding for Rising<T> {
    ghost kind = { Rise };
}

impl Guarding for Nesting {
    ghost kind = { Nest };
}

impl Editing for Writing {
    ghost may = { refl };
}

impl Editing for Nesting {
    ghost may = { refl };
}
