//! A value in an allocation of its own, so that what holds it stays small.
//! A contract sees the value.
ghost use Rattle.std.specs.Prelude.{◌≡◌, IfOk};
ghost use Rattle.std.specs.Cmp.{on_per, on_equiv};

use ele_moment::NoMemory;
use std::alloc::Global;
use std::marker::Model;

/// A value in an allocation of its own.
#[derive(Drop)]
pub struct Boxed<T> {
    value: Box<T>,
}

impl<T> Model for Boxed<T> {
    ghost Value = { T };

    ghost view = { λ boxed. boxed.value.value };
}

impl<T: Drop> Boxed<T> {
    /// Moves the value into an allocation of its own.
    ///
    /// `NoMemory` if memory is refused, and then the value is dropped.
    /// Cost: constant time; takes memory for the value.
    pub fn new(alloc: Global, value: T) -> Result<Boxed<T>, NoMemory>
        ensures { IfOk result (λ boxed. boxed ≡ value) }
    {
        let value = Box::new(alloc, value)?;
        Ok(Boxed { value })
    }

    /// Returns the value.
    /// Cost: constant time.
    pub fn get(&self) -> &T
        ensures { result.now ≡ self.now }
    {
        &self.value
    }
}

impl<T: Copy + Drop> Boxed<T> {
    /// Copies the value into an allocation of its own.
    ///
    /// `NoMemory` if memory is refused.
    /// Cost: constant time; takes memory for the value.
    pub fn copy(&self, alloc: Global) -> Result<Boxed<T>, NoMemory>
        ensures { IfOk result (λ boxed. boxed ≡ self.now) }
    {
        Boxed::new(alloc, *self.get())
    }
}

impl<T: PartialEq> PartialEq for Boxed<T> {
    ghost eq = { λ v w. T.eq v w };

    ghost laws = { on_per (λ v. v) T.laws };

    fn eq(&self, other: &Self) -> bool {
        *self.value == *other.value
    }
}

impl<T: Eq> Eq for Boxed<T> {
    ghost laws = { on_equiv (λ v. v) T.Eq.laws };
}
