//! The vault: a core with its stored history. `History` documents its calls, and a contract sees a
//! vault as it sees a history.
#![tactic(auto)]

use ele_core::Core;
use ele_history::History;
pub use ele_history::{Entry, PassEnd, Stop};

/// A core with each event that it answered, and the replies.
pub type Vault = History<Core>;
