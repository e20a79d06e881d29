// The two longest of all tasks but one, for any one of them.
ghost use Rattle.std.specs.Prelude.{◌≡◌};
ghost use Rattle.rbound_table.specs.Two.{two_at};
ghost use Rattle.rbound_table.specs.Leaders.{beside_at, leaders_at, led_beside};

use crate::lengths::two_longest_at;
use crate::table::{Cell, cell_at};
use crate::two::{TwoLongest, no_length, only, two_at, two_of_both};

/// The two longest of all tasks, and the two longest of all tasks but the one that has the longest.
#[derive(Clone, Copy)]
pub(crate) struct Leaders {
    all: TwoLongest,
    others: TwoLongest,
}

/// The two longest that a table has at a resource, leaving one task out.
fn beside_at(cells: &[Cell], tasks: u8, but: u8, m: u8) -> TwoLongest
    ensures { result ≡ beside_at cells.now tasks but m }
{
    (0..tasks).fold(no_length(), |two, task| {
        if task == but {
            two
        } else {
            two_of_both(two, only(task, cell_at(cells, task, m).longest))
        }
    })
}

/// The leaders of a table at a resource.
pub(crate) fn leaders_at(cells: &[Cell], tasks: u8, m: u8) -> Leaders
    ensures { result ≡ leaders_at cells.now tasks m }
{
    let all = two_longest_at(cells, tasks, m);
    let others = beside_at(cells, tasks, all.task, m);
    Leaders { all, others }
}

/// The two longest of all tasks but this one.
pub(crate) fn led_beside(leaders: Leaders, but: u8) -> TwoLongest
    ensures { result ≡ led_beside leaders but }
{
    if leaders.all.task == but {
        leaders.others
    } else {
        TwoLongest {
            task: leaders.all.task,
            longest: leaders.all.longest,
            next: two_at(leaders.others, but),
        }
    }
}
