//! A core runs events, and can be audited. Generic code over the traits sees it as its flat world.
use crate::Core;
use ele_model::{
    Audit, DeletedNameList, Event, Flat, KeyList, Limits, Moment, NoMemory, Reply, Step, Usage,
};
use std::alloc::Global;

impl Step for Core {
    ghost world = { λ core. core.world };

    fn fresh(alloc: Global, limits: Limits) -> Result<Core, NoMemory> {
        Core::new(alloc, limits)
    }

    fn apply(&mut self, event: &Event) -> Result<Reply, NoMemory> {
        Core::apply(self, event)
    }

    fn flat(&self) -> Result<Flat, NoMemory> {
        Core::flat(self)
    }

    fn now(&self) -> Moment {
        Core::now(self)
    }
}

impl Audit for Core {
    fn due_keys(&self) -> Result<KeyList, NoMemory> {
        Core::due_keys(self)
    }

    fn deleted_names(&self) -> Result<DeletedNameList, NoMemory> {
        Core::deleted_names(self)
    }

    fn usage(&self) -> [Usage; 4] {
        Core::usage(self)
    }
}
