// The two longest of some lengths of tasks: they give the longest of all tasks but any one.
ghost use Rattle.std.specs.Prelude.{◌≡◌};
ghost use Rattle.rbound_table.specs.Two.{no_length, only, two_at, is_longer, led_by, two_of_both};

use rbound::longer;

/// The longest length, a task that has it, and the longest of all other tasks.
#[derive(Clone, Copy)]
pub struct TwoLongest {
    /// A task that has the longest; where no task has a length, one of the tasks that were taken in, or 0.
    pub task: u8,
    /// The longest of all tasks; None where no task has a length.
    pub longest: Option<u32>,
    /// The longest of all tasks but that one.
    pub next: Option<u32>,
}

/// No task has a length.
pub fn no_length() -> TwoLongest
    ensures { result ≡ no_length }
{
    only(0, None)
}

/// Only this task may have a length.
pub fn only(task: u8, length: Option<u32>) -> TwoLongest
    ensures { result ≡ only task length }
{
    TwoLongest {
        task,
        longest: length,
        next: None,
    }
}

/// The longest of all tasks but this one, if one of them has a length.
pub fn two_at(two: TwoLongest, me: u8) -> Option<u32>
    ensures { result ≡ two_at two me }
{
    if two.task == me {
        two.next
    } else {
        two.longest
    }
}

/// Whether there is a first length and it is greater than the second, or there is no second.
fn is_longer(a: Option<u32>, b: Option<u32>) -> bool
    ensures { result ≡ is_longer a b }
{
    match (a, b) {
        (None, _) => false,
        (Some(_), None) => true,
        (Some(a), Some(b)) => b < a,
    }
}

/// The longest of the first, and the longest that other tasks have in either.
fn led_by(a: TwoLongest, b: TwoLongest) -> TwoLongest
    ensures { result ≡ led_by a b }
{
    TwoLongest {
        task: a.task,
        longest: a.longest,
        next: longer(a.next, two_at(b, a.task)),
    }
}

/// The two longest of both, each of which covers some tasks.
pub fn two_of_both(a: TwoLongest, b: TwoLongest) -> TwoLongest
    ensures { result ≡ two_of_both a b }
{
    if is_longer(b.longest, a.longest) {
        led_by(b, a)
    } else {
        led_by(a, b)
    }
}
