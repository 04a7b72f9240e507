//! What a clock shows now. No clause says what it is.
use ele_moment::Moment;
use std::time::{Clock, SystemTime, UNIX_EPOCH};

/// Returns the moment that the clock shows. None if it can't be read, or shows a time before 1970 or after the year 9999.
pub fn now<T: Clock>(clock: &T) -> Option<Moment> {
    let Ok(time) = SystemTime::now(clock) else {
        return None;
    };
    match time.duration_since(UNIX_EPOCH) {
        Ok(since) => Moment::new(since.as_secs()),
        Err(_) => None,
    }
}
