//! A slot of a block map.
//! A contract sees its writer and the number of its block.
ghost use Rattle.std.specs.Prelude.{◌≡◌};

use crate::store::BlockId;
use ele_moment::VersionNo;
use std::marker::Model;

/// The largest length of a slot, in bytes.
pub const SLOT: usize = 512;

/// The number of a version or a block, in 32 bits.
#[derive(Clone, Copy)]
pub struct Number {
    bits: u32,
}

impl Model for Number {
    ghost use Rattle.std.specs.Prelude.{ℕ};

    ghost Value = { ℕ };

    ghost view = { λ number. number.bits };

    ghost inverse = { λ n. record { bits = n } };
}

impl Number {
    /// Makes a number of its bits.
    pub fn new(bits: u32) -> Number
        ensures { result ≡ bits }
    {
        Number { bits }
    }

    /// Returns the version of this number.
    pub fn version(self) -> VersionNo
        ensures { result ≡ self }
    {
        VersionNo(u64::from(self.bits))
    }

    /// Returns the block of this number.
    pub fn block(self) -> BlockId
        ensures { result ≡ self }
    {
        BlockId {
            key: self.bits as usize,
        }
    }
}

/// The version that last wrote the slot, and the block with the slot's bytes.
#[derive(Clone, Copy)]
pub struct Slot {
    pub writer: Number,
    pub block: Number,
}

impl Default for Slot {
    ghost is_default = { λ slot. slot ≡ record { writer = 0; block = 0 } };

    fn default() -> Slot {
        Slot {
            writer: Number::new(0),
            block: Number::new(0),
        }
    }
}
