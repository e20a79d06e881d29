//! The rule of the published image, and what is known after its steps.
use crate::front::Front;
use crate::image::{Change, Image};
use atomic_table::{Join, Split};
use crossbeam_utils::rule::{Outcome, Protocol};
use left_right::reader::Reader;
use left_right::writer::Writer;
use rexpand::Groups;

/// What a machine was made with. No value of it is ever made.
pub struct Opening {
    pub groups: Groups,
    pub seats: u64,
    pub cap: u64,
}

/// What a seat at the image knows: how the image began, and which feed it belongs to. No value of it is ever made.
pub struct Told {
    pub opening: Opening,
    pub front: Front,
}

/// The image is what its events lead to.
pub struct Ruled;

impl Protocol<Image, Option<Told>> for Ruled {
    ghost use Rattle.std.specs.Prelude.{None};
    ghost use Rattle.rmon.specs.Rules.{IsRuled};

    ghost holds = { IsRuled };

    ghost first = { None };
}

/// A step after which an empty image is known.
pub struct Begins;

impl Outcome<Image, Option<Told>> for Begins {
    ghost use Rattle.rmon.specs.Rules.{Begins};

    ghost then = { Begins };
}

/// A step that publishes no more than is known.
pub struct Publishes;

impl Outcome<Image, Option<Told>> for Publishes {
    ghost use Rattle.std.specs.Prelude.{◌≡◌};

    ghost then = { λ v x y w. w ≡ v };
}

/// A look at the image.
pub struct Looks;

impl Outcome<Image, Option<Told>> for Looks {
    ghost use Rattle.rmon.specs.Rules.{Looks};

    ghost then = { Looks };
}

/// What is known is passed on.
pub struct Copies;

impl Split<Option<Told>> for Copies {
    ghost left = { λ v. v };

    ghost right = { λ v. v };
}

/// What was passed on is known.
pub struct Learns;

impl Join<Option<Told>> for Learns {
    ghost use Rattle.std.specs.Prelude.{None};

    ghost both = { λ v w. w };

    ghost spent = { None };
}

/// Reads what was last published.
pub type ImageReader = Reader<Image, Option<Told>, Ruled>;

/// Has both copies.
pub type ImageWriter = Writer<Image, Change, Option<Told>, Ruled>;
