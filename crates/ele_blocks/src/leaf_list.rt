//! The length of a content, with the numbers of its leaves.
//! A contract sees both, and how many leaves have memory.
ghost use Rattle.std.specs.Prelude.{◌≡◌, ◌<◌, ◌≤◌, ◌+◌, ◌^◌, [], ◌∷◌, OnOk, IfOk, length, take, vec_capacity};
ghost use Rattle.ele_blocks.specs.LaidOver.{laid_over};
ghost use Rattle.ele_blocks.specs.LeafListInside.{numbers_in};

use crate::laid::lay_leaves;
use std::alloc::{AllocError, Global};
use std::marker::Model;
use std::mem::replace;
use std::slice::from_ref;

/// A length in bytes, with the numbers of leaves. A single number is stored in place, and takes no
/// memory of its own.
#[derive(Drop)]
pub struct LeafList {
    leaves: Leaves,
}

#[derive(Drop)]
enum Leaves {
    Empty(u32),
    One(u32, u32),
    Many(u32, Box<Vec<u32>>),
}

impl Model for LeafList {
    ghost use Rattle.ele_blocks.specs.LeafList.{Numbers};

    ghost Value = { Numbers };

    ghost use Rattle.ele_blocks.specs.LeafListInside.{numbers_in};

    ghost view = { λ list. numbers_in list.leaves };
}

// A list of these numbers with memory for so many.
fn boxed(alloc: Global, numbers: &[u32], count: usize) -> Result<Box<Vec<u32>>, AllocError>
    requires { length numbers.now ≤ count }
    ensures items { IfOk result (λ list. list.value.items ≡ numbers.now) }
    ensures room { IfOk result (λ list. count ≤ vec_capacity list.value) }
{
    let mut list = Vec::with_capacity(alloc, count)?;
    list.extend_from_slice(numbers)?;
    Ok(Box::new(alloc, list)?)
}

impl Leaves {
    // At most one leaf.
    fn few(size: u32, numbers: &[u32]) -> Leaves
        requires { length numbers.now ≤ 1 }
        ensures { numbers_in result ≡ record { size = size; items = numbers.now; room = 1 } }
    {
        match numbers.first() {
            Some(leaf) => Leaves::One(size, *leaf),
            None => Leaves::Empty(size),
        }
    }

    // The same leaves, with memory for so many if it is there.
    fn reserved(self, alloc: Global, count: usize) -> (Leaves, Result<(), AllocError>)
        ensures size { (numbers_in result.0).size ≡ (numbers_in self).size }
        ensures items { (numbers_in result.0).items ≡ (numbers_in self).items }
        ensures room { OnOk result.1 (count ≤ (numbers_in result.0).room) }
    {
        match self {
            Leaves::Many(size, mut list) => {
                let more = count.saturating_sub(list.len());
                let reserved = list.reserve(more);
                (Leaves::Many(size, list), reserved)
            }
            Leaves::Empty(size) => {
                if count <= 1 {
                    return (Leaves::Empty(size), Ok(()));
                }
                match boxed(alloc, &[], count) {
                    Ok(list) => (Leaves::Many(size, list), Ok(())),
                    Err(refused) => (Leaves::Empty(size), Err(refused)),
                }
            }
            Leaves::One(size, leaf) => {
                if count <= 1 {
                    return (Leaves::One(size, leaf), Ok(()));
                }
                match boxed(alloc, from_ref(&leaf), count) {
                    Ok(list) => (Leaves::Many(size, list), Ok(())),
                    Err(refused) => (Leaves::One(size, leaf), Err(refused)),
                }
            }
        }
    }

    // The numbers laid over the leaves from the first place on, and cut to so many.
    fn laid(self, size: u32, from: usize, numbers: &[u32], count: usize) -> Leaves
        requires within { from ≤ length (numbers_in self).items }
        requires room { from + length numbers.now ≤ (numbers_in self).room }
        ensures size { (numbers_in result).size ≡ size }
        ensures items { (numbers_in result).items
            ≡ take count (laid_over from numbers.now (numbers_in self).items) }
    {
        match self {
            Leaves::Many(_, mut list) => {
                lay_leaves(&mut list, from, numbers);
                list.truncate(count);
                if let [leaf] = list.as_slice() {
                    return Leaves::One(size, *leaf);
                }
                Leaves::Many(size, list)
            }
            Leaves::Empty(_) => Leaves::few(size, &numbers[..count.min(numbers.len())]),
            Leaves::One(_, leaf) => {
                if numbers.is_empty() {
                    return Leaves::few(size, &from_ref(&leaf)[..count.min(1)]);
                }
                Leaves::few(size, &numbers[..count.min(numbers.len())])
            }
        }
    }
}

impl LeafList {
    /// Makes the list of an empty content. It takes no memory.
    pub fn new() -> LeafList
        ensures size { result.size ≡ 0 }
        ensures items { result.items ≡ [] }
    {
        LeafList {
            leaves: Leaves::Empty(0),
        }
    }

    /// Returns the length in bytes.
    pub fn size(&self) -> u64
        ensures { result ≡ self.now.size }
    {
        match &self.leaves {
            Leaves::Empty(size) => u64::from(*size),
            Leaves::One(size, _) => u64::from(*size),
            Leaves::Many(size, _) => u64::from(*size),
        }
    }

    /// Returns the numbers of the leaves.
    pub fn as_slice(&self) -> &[u32]
        ensures { result.now ≡ self.now.items }
    {
        match &self.leaves {
            Leaves::Empty(_) => &[],
            Leaves::One(_, leaf) => from_ref(leaf),
            Leaves::Many(_, list) => list.as_slice(),
        }
    }

    /// Makes a copy.
    pub fn copy(&self, alloc: Global) -> Result<LeafList, AllocError>
        ensures size { IfOk result (λ copy. copy.size ≡ self.now.size) }
        ensures items { IfOk result (λ copy. copy.items ≡ self.now.items) }
    {
        let leaves = match &self.leaves {
            Leaves::Empty(size) => Leaves::Empty(*size),
            Leaves::One(size, leaf) => Leaves::One(*size, *leaf),
            Leaves::Many(size, list) => {
                Leaves::Many(*size, boxed(alloc, list.as_slice(), list.len())?)
            }
        };
        Ok(LeafList { leaves })
    }

    /// Reserves memory for so many leaves in all. If memory is refused, the list is as it was.
    pub fn reserve(&mut self, alloc: Global, count: usize) -> Result<(), AllocError>
        ensures size { self.new.size ≡ self.old.size }
        ensures items { self.new.items ≡ self.old.items }
        ensures room { OnOk result (count ≤ self.new.room) }
    {
        let was = replace(&mut self.leaves, Leaves::Empty(0));
        let (leaves, reserved) = was.reserved(alloc, count);
        self.leaves = leaves;
        reserved
    }

    /// Sets the length, replaces numbers from the first place on, in reserved memory, and cuts them
    /// to so many.
    pub fn lay(&mut self, size: u64, from: usize, numbers: &[u32], count: usize)
        requires small { size < 2 ^ 32 }
        requires within { from ≤ length self.old.items }
        requires room { from + length numbers.now ≤ self.old.room }
        ensures size { self.new.size ≡ size }
        ensures items { self.new.items ≡ take count (laid_over from numbers.now self.old.items) }
    {
        let was = replace(&mut self.leaves, Leaves::Empty(0));
        self.leaves = was.laid(size as u32, from, numbers, count);
    }
}
