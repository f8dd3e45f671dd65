use std::sync::atomic::{AtomicU64, Ordering};
use std::thread;

/// How often a test's gate yields before it gives up: some seconds, and half a minute on a busy machine.
const MOST_YIELDS: u64 = 10_000_000;

/// The waits of a test's gate. Once one is given up none waits any more, so that the test of a wrong run ends soon.
pub(crate) struct Waits {
    given_up: AtomicU64,
}

impl Drop for Waits {
    fn drop(self) {
        let Waits { given_up: _ } = self;
    }
}

impl Waits {
    pub(crate) fn make() -> Waits {
        Waits {
            given_up: AtomicU64::new(0),
        }
    }

    /// Waits until the word has at least this value, or gives up.
    pub(crate) fn until(&self, word: &AtomicU64, least: u64) {
        for _yield in 0..MOST_YIELDS {
            if word.load(Ordering::SeqCst) >= least || self.are_given_up() {
                return;
            }
            thread::yield_now();
        }
        self.given_up.store(1, Ordering::SeqCst);
    }

    pub(crate) fn are_given_up(&self) -> bool {
        self.given_up.load(Ordering::SeqCst) > 0
    }
}
