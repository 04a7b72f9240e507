//! The note, an event that only the history keeps.
ghost use Rattle.ele_events.specs.Does.{DoesAtOnce, done};
ghost use Rattle.ele_model.specs.declared.event.Event.TheVariants as event;

use crate::Core;
use ele_model::{ByteList, Refusal};

impl Core {
    /// Notes the bytes, which changes nothing here: a history has them as an entry. Refused:
    /// `TooBig` for more than 200. It takes no memory.
    /// Cost: constant.
    pub fn note(&self, bytes: &ByteList) -> Result<(), Refusal>
        ensures { DoesAtOnce done self.now.world (event.Note bytes.now) result self.now.world }
    {
        ele_events::note(&self.state, bytes)
    }
}
