//! The file by which the server is stopped, and how long the waits of the edge last, so that each
//! of them sees it soon.
ghost use Rattle.std.specs.Prelude.{◌≡◌, ◌≤◌, IfOk, OnErr};
ghost use Rattle.gt_host.specs.LastLooks.{LastLook, seen_by};

use std::rt::{self, Files};
use std::time::Duration;
use std::{fs, io};

/// The file that ends each wait while it stands in the folder that the program runs in.
const STOP_FILE: &str = "gtrbacd.stop";

/// How many milliseconds one wait lasts at most, and how many pass between two looks for the stop
/// file at a client that is never silent.
pub(crate) const WAIT_MILLIS: u64 = 250;

/// How many looks for the stop file in a row have to fail before that is believed.
pub(crate) const MAX_FAILED: u32 = 20;

/// How many milliseconds pass before a look that failed is tried again.
const AGAIN_MILLIS: u64 = 50;

/// How long one wait lasts at most.
pub(crate) fn one_wait() -> Duration {
    Duration::from_millis(WAIT_MILLIS)
}

/// A file that is looked for. Looks can fail.
pub(crate) trait Sought {
    /// What the last look that did not fail has told, and how many have failed since.
    ghost last_look: { Self → LastLook };

    /// Whether it stands.
    fn look(&mut self) -> io::Result<bool>
        ensures { last_look self.new ≡ seen_by result (last_look self.old) };

    /// Lets a moment pass.
    fn pause(&mut self)
        ensures { last_look self.new ≡ last_look self.old };
}

/// Whether a file stands. A look that fails is tried again, since its cause may pass, and is
/// believed where 20 in a row have failed.
pub(crate) fn look_again<S: Sought>(file: &mut S) -> io::Result<bool>
    ensures stands { IfOk result
        (λ stands. S.last_look file.new ≡ record { stands = stands; failed = 0 }) }
    ensures failed { OnErr result (MAX_FAILED ≤ (S.last_look file.new).failed) }
{
    for _ in 1..MAX_FAILED {
        match file.look() {
            Ok(stands) => return Ok(stands),
            Err(_) => file.pause(),
        }
    }
    file.look()
}

/// The stop file of the folder that the program runs in.
#[derive(Drop)]
struct StopFile<'a, R> {
    rt: &'a R,
    stands: bool,
    failed: u32,
}

impl<'a, R: Files + rt::Clock> Sought for StopFile<'a, R> {
    ghost last_look = { λ f. record { stands = f.stands; failed = f.failed } };

    fn look(&mut self) -> io::Result<bool> {
        match fs::exists(self.rt, STOP_FILE) {
            Ok(stands) => {
                self.stands = stands;
                self.failed = 0;
                Ok(stands)
            }
            Err(fault) => {
                self.failed = self.failed.saturating_add(1);
                Err(fault)
            }
        }
    }

    fn pause(&mut self) {
        self.rt.sleep(Duration::from_millis(AGAIN_MILLIS));
    }
}

/// Whether the stop file stands. It fails only where 20 looks in a row have failed, for a second.
pub(crate) fn is_stopped<R: Files + rt::Clock>(rt: &R) -> io::Result<bool> {
    look_again(&mut StopFile {
        rt,
        stands: false,
        failed: 0,
    })
}

/// Whether the stop file stands, or can't be looked for.
pub(crate) fn must_stop<R: Files + rt::Clock>(rt: &R) -> bool {
    is_stopped(rt).unwrap_or(true)
}

/// Whether a wait was over before anything came.
pub(crate) fn is_over(fault: &io::Error) -> bool {
    matches!(
        fault.kind(),
        io::ErrorKind::WouldBlock | io::ErrorKind::Interrupted
    )
}

/// Whether an accept that failed so will fail again: the listener is no listener any more. All
/// other faults are of one connection, or pass.
pub(crate) fn is_lasting(fault: &io::Error) -> bool {
    // EBADF, EFAULT, EINVAL and ENOTSOCK of Linux
    matches!(fault.raw_os_error(), Some(9 | 14 | 22 | 88))
}

/// Looks at the clock often, and for the stop file, which is dearer, now and then.
#[derive(Drop)]
pub(crate) struct StopWatcher<'a, R> {
    pub(crate) rt: &'a R,
    looked: Duration,
}

impl<'a, R: Files + rt::Clock> StopWatcher<'a, R> {
    /// A watch that is due.
    pub(crate) fn new(rt: &'a R) -> Self {
        StopWatcher {
            rt,
            looked: Duration::ZERO,
        }
    }

    /// Whether it is time to look again; it always is where the clock can't be read.
    pub(crate) fn is_due(&mut self) -> bool {
        let Ok(now) = self.rt.monotonic() else {
            return true;
        };
        if now.saturating_sub(self.looked) < one_wait() {
            return false;
        }
        self.looked = now;
        true
    }

    /// Whether it is time to look, and the stop file then stands.
    pub(crate) fn sees_stop(&mut self) -> bool {
        self.is_due() && must_stop(self.rt)
    }
}
