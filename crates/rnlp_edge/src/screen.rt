// A pace that reports on a terminal how far a run is.
use rmon::Look;
use rnlp_cli::Pace;
use std::sync::atomic::{AtomicBool, AtomicU64, Ordering};
use std::thread;
use std::time::{Clock, Duration};

// How long it waits for a look, in milliseconds: so long that workers are seldom kept from the lock, and so short that a
// run which has ended is not kept waiting.
const ROUND: u64 = 10;

// How many looks there are to a line: two lines a second.
const LOOKS_A_LINE: u64 = 50;

/// Where a person sees how far a run is. On a terminal a run is looked at a hundred times a second, and twice a second a
/// line says on standard error how many requests are complete and incomplete, and how many tasks hold something. If
/// standard error is no terminal, no run is looked at.
#[derive(Drop)]
pub struct Screen<'a, R: Clock + Eprint + Sync> {
    rt: &'a R,
    on_terminal: bool,
    has_ended: AtomicBool,
    looks: AtomicU64,
}

impl<'a, R: Clock + Eprint + Sync> Screen<'a, R> {
    /// A pace of a run that has not begun.
    pub fn new(rt: &'a R, on_terminal: bool) -> Screen<'a, R> {
        Screen {
            rt,
            on_terminal,
            has_ended: AtomicBool::new(false),
            looks: AtomicU64::new(0),
        }
    }
}

impl<'a, R: Clock + Eprint + Sync> Pace for Screen<'a, R> {
    fn section(&self, _task: u8, _k: u64) {}

    fn turn(&self) {}

    fn is_seen(&self) -> bool {
        self.on_terminal
    }

    fn waits_for_look(&self) -> bool {
        if !self.on_terminal || self.has_ended.load(Ordering::SeqCst) {
            return false;
        }
        thread::sleep(self.rt, Duration::from_millis(ROUND));
        !self.has_ended.load(Ordering::SeqCst)
    }

    // If standard error fails, the run goes on.
    fn look(&self, look: &Look, completed: u64) {
        let looks = self.looks.fetch_add(1, Ordering::SeqCst);
        if looks % LOOKS_A_LINE == LOOKS_A_LINE - 1 {
            let _ = self.rt.eprintln(format_args!(
                "rnlp: {completed} requests complete, {} incomplete, tasks that hold something: {}",
                look.incomplete, look.holding
            ));
        }
    }

    fn end(&self) {
        self.has_ended.store(true, Ordering::SeqCst);
    }
}
