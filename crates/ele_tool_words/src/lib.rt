//! Words of other tools and of people: times in seconds, as dates and with times of day in any zone, lengths of
//! time with units, and policies with these. A contract sees a word as its bytes, a time as its moment, a length
//! as its number of seconds and a policy as plain data.
#![tactic(auto)]

mod by_clock;
mod clock;
mod cut;
mod fraction;
mod length;
mod local;
mod policy;
mod rungs;
mod safe;
mod time;
mod zone;

pub use by_clock::{Clocked, read_clocked};
pub use clock::{read_clock, read_offset};
pub use length::read_length;
pub use policy::read_policy;
pub use rungs::{MOST_RUNGS, read_rungs};
pub use safe::safe_numbers;
pub use time::{one_time, read_time};
pub use zone::Offset;
