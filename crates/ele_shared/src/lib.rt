//! A vault that many threads call, each through a seat of its own. `Shared` and `Seat` of
//! `ele_shared_history` document the calls, and a contract sees both as it sees those.
#![tactic(auto)]

use ele_core::Core;
pub use ele_core::{Event, NoMemory, Reply};
pub use ele_shared_history::{TryStop, TurnHeld};
pub use ele_vault::{Stop, Vault};

/// A vault that many threads call, each through a seat of its own.
pub type Elephant = ele_shared_history::Shared<Core>;

/// A thread's own handle on the vault.
pub type Seat = ele_shared_history::Seat<Core>;
