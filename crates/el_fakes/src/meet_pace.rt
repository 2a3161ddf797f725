// A pace under which two pieces meet.
use el_outside::Pace;
use std::sync::atomic::{AtomicU64, Ordering};
use std::thread;

// How many looks there are between two times that the processor is left to others.
const LOOKS_IN_A_ROW: u64 = 1_000;

/// A pace under which two pieces meet, for tests: as each of the two begins for the first time, it looks a
/// bounded number of times whether the other has begun. Where both saw the other, they ran side by side: no
/// body on one thread lets them meet, in whichever order it runs them.
#[derive(Drop)]
pub struct MeetPace {
    one: u64,
    other: u64,
    looks: u64,
    one_began: AtomicU64,
    other_began: AtomicU64,
    one_saw: AtomicU64,
    other_saw: AtomicU64,
}

impl MeetPace {
    /// The pace of these two pieces, each of which looks that many times at most.
    pub fn new(one: u64, other: u64, looks: u64) -> MeetPace {
        MeetPace {
            one,
            other,
            looks,
            one_began: AtomicU64::new(0),
            other_began: AtomicU64::new(0),
            one_saw: AtomicU64::new(0),
            other_saw: AtomicU64::new(0),
        }
    }

    /// Whether each of the two saw the other.
    pub fn met(&self) -> bool {
        self.one_saw.load(Ordering::SeqCst) == 1 && self.other_saw.load(Ordering::SeqCst) == 1
    }
}

// Says that this piece has begun, and the first time looks for the other one.
fn look_for(mine: &AtomicU64, other: &AtomicU64, saw: &AtomicU64, looks: u64) {
    if mine.swap(1, Ordering::SeqCst) == 1 {
        return;
    }
    for look in 0..looks {
        if other.load(Ordering::SeqCst) == 1 {
            saw.store(1, Ordering::SeqCst);
            return;
        }
        if look % LOOKS_IN_A_ROW == LOOKS_IN_A_ROW - 1 {
            thread::yield_now();
        }
    }
}

impl Pace for MeetPace {
    fn enter(&self, piece: u64) {
        if piece == self.one {
            look_for(
                &self.one_began,
                &self.other_began,
                &self.one_saw,
                self.looks,
            );
        }
        if piece == self.other {
            look_for(
                &self.other_began,
                &self.one_began,
                &self.other_saw,
                self.looks,
            );
        }
    }
}
