//! The run of a script. [`run_script`] runs its tasks on threads at a runtime of its own, and gives the report of what
//! happened; [`run_watched`] does so with watchers, [`run_monitored`] while monitors look at it. [`run_all`],
//! [`run_all_watched`] and [`run_all_monitored`] do the same where tasks may be stopped, and [`run_over`] over a machine that
//! is passed in. [`run_tasks`] and [`run_section`] run the tasks, or one
//! section of a task, at a runtime that is passed in. A [`Pace`] is called where a worker has begun a section or still
//! waits.
#![tactic(auto)]

mod acts;
mod desk;
mod guards;
mod jobs;
mod monitored;
mod pace;
mod reporting;
mod run;
mod section;
mod steps;
mod task;
mod tasks;
mod waiting;
mod watched;

pub use monitored::{Monitored, run_all_monitored, run_monitored};
pub use pace::{NoPace, Pace};
pub use rtrace_write::{Report, WriteErr, write_report};
pub use run::{Run, run_all, run_over, run_script, whole_run};
pub use section::run_section;
pub use tasks::{Ended, run_tasks};
pub use watched::{run_all_watched, run_watched};
