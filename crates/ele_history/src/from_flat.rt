//! A history that begins in rows. A contract sees the rows as a world.
ghost use Rattle.std.specs.Prelude.{◌≡◌, ◌<◌, IfErr, IfOk};
ghost use Rattle.ele_history.specs.Past.{begun_from, counted_from};
ghost use Rattle.ele_model.specs.Start.{IsStart};
ghost use Rattle.ele_model.specs.declared.refusal.Stop.TheVariants as stop;

use crate::History;
use ele_model::{Flat, FromFlat, Stop};
use std::alloc::Global;

impl<C: FromFlat> History<C> {
    /// Makes the history of a core that is made of these rows, without an entry. `folded` says how
    /// many entries led to them; fewer than one count as one, since only the fresh world has no past.
    ///
    /// `HistoryFull` if these are more than the limits allow. `NoMemory` if memory is refused.
    /// Cost: that of the core's own `from_flat`; the rows become the base.
    pub fn from_flat(alloc: Global, flat: Flat, folded: u64) -> Result<History<C>, Stop>
        requires { IsStart flat }
        ensures ok { IfOk result (λ history. history ≡ begun_from flat folded) }
        ensures full { IfErr result (λ why. why ≡ stop.HistoryFull
            → flat.limits.events < counted_from folded) }
    {
        let folded = folded.max(1);
        if folded > flat.limits.events() {
            return Err(Stop::HistoryFull);
        }
        let Ok(core) = C::from_flat(alloc, &flat) else {
            return Err(Stop::NoMemory);
        };
        Ok(History {
            core,
            base: flat,
            folded,
            entries: Vec::new(alloc),
            alloc,
        })
    }
}
