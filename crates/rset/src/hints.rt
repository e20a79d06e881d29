// Guesses at the numbers of names, so that most names are found without their hash.
ghost use Rattle.std.specs.Prelude.{◌<◌};

/// The number of places, at each of which one number is kept.
const PLACES: usize = 1024;

/// What number a name may have. A hint promises nothing: whoever takes it looks at the name with that number.
#[derive(Clone, Copy)]
pub(crate) struct Hints {
    numbers: [u8; PLACES],
}

impl Hints {
    /// No name was noted yet, so each hint is 0.
    pub(crate) fn new() -> Hints {
        Hints {
            numbers: [0; PLACES],
        }
    }

    /// The number that was noted last for a name with the place of this one.
    #[inline]
    pub(crate) fn of(&self, name: &[u8]) -> u8 {
        self.numbers[place_of(name)]
    }

    /// Notes the number of a name.
    pub(crate) fn note(&mut self, name: &[u8], number: u8) {
        self.numbers[place_of(name)] = number;
    }
}

// Names mostly differ in how they begin or in how they end.
#[inline]
fn place_of(name: &[u8]) -> usize
    ensures { result < PLACES }
{
    match name {
        [.., before, last] => {
            let first = name[0];
            let ends = usize::from(*last) + 21 * usize::from(*before);
            (ends + 67 * usize::from(first)) % PLACES
        }
        [only] => usize::from(*only),
        [] => 0,
    }
}
