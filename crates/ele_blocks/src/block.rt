//! The bytes of a block.
//! A contract sees them as their list.
ghost use Rattle.std.specs.Prelude.{◌≡◌, ◌≤◌, IfOk, length};

use std::alloc::{AllocError, Global};
use std::marker::Model;

/// The largest number of bytes that are stored in place.
const SHORT: usize = 30;

/// Bytes that are stored in place.
#[derive(Drop)]
struct ShortBytes {
    len: u8,
    bytes: [u8; 30],
}

impl Model for ShortBytes {
    ghost use Rattle.std.specs.Prelude.{List, ℕ, take, ◌≤◌};

    ghost Value = { List ℕ };

    ghost view = { λ short. take short.len short.bytes };

    ghost invariant = { λ short. short.len ≤ 30 };
}

impl ShortBytes {
    fn new(all: &[u8]) -> ShortBytes
        requires { length all.now ≤ 30 }
        ensures { result ≡ all.now }
    {
        let mut bytes = [0; 30];
        bytes[..all.len()].copy_from_slice(all);
        ShortBytes {
            len: all.len() as u8,
            bytes,
        }
    }

    fn as_slice(&self) -> &[u8]
        ensures { result.now ≡ self.now }
    {
        &self.bytes[..self.len as usize]
    }
}

/// Bytes. Few are stored in place, and take no memory of their own.
#[derive(Drop)]
pub struct Block {
    bytes: Bytes,
}

#[derive(Drop)]
enum Bytes {
    Short(ShortBytes),
    Long(Vec<u8>),
}

impl Model for Block {
    ghost use Rattle.std.specs.Prelude.{List, ℕ};

    ghost Value = { List ℕ };

    ghost use Rattle.ele_blocks.specs.BlockInside.{bytes_in};

    ghost view = { λ block. bytes_in block.bytes };
}

impl Block {
    /// Makes a block of a copy of the bytes.
    pub fn from_slice(alloc: Global, all: &[u8]) -> Result<Block, AllocError>
        ensures { IfOk result (λ block. block ≡ all.now) }
    {
        if all.len() <= SHORT {
            return Ok(Block {
                bytes: Bytes::Short(ShortBytes::new(all)),
            });
        }
        let long = Vec::from_slice(alloc, all)?;
        Ok(Block {
            bytes: Bytes::Long(long),
        })
    }

    /// Makes a block of the bytes. It takes no memory.
    pub fn from_vec(all: Vec<u8>) -> Block
        ensures { result ≡ all.items }
    {
        if all.len() > SHORT {
            return Block {
                bytes: Bytes::Long(all),
            };
        }
        Block {
            bytes: Bytes::Short(ShortBytes::new(&all)),
        }
    }

    /// Returns the bytes.
    pub fn as_slice(&self) -> &[u8]
        ensures { result.now ≡ self.now }
    {
        match &self.bytes {
            Bytes::Short(short) => short.as_slice(),
            Bytes::Long(long) => long.as_slice(),
        }
    }
}
