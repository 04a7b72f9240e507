//! The line of a hash. A contract sees its bytes.
ghost use Rattle.std.specs.Prelude.{◌≡◌, ◌≤◌, ◌+◌, ◌++◌, [], length};
ghost use Rattle.hex.specs.Hex.{encode_lower};
ghost use Rattle.sha2.specs.Sha256.{sha256};
ghost use Rattle.ele_chain.specs.Chain.{hash_line};

use arrayvec::ArrayVec;
use sha2::{Digest, Sha256};
use std::marker::Model;

/// How many bytes the line of a hash has.
pub const HASH_LINE: usize = 67;

// How many hexadecimal digits a hash has.
const DIGITS: usize = 64;

/// The line of the last hash of a chain, which is empty before the first row.
#[derive(Drop)]
pub struct HashLine {
    bytes: ArrayVec<u8, HASH_LINE>,
}

impl Model for HashLine {
    ghost use Rattle.std.specs.Prelude.{ℕ, List};

    ghost Value = { List ℕ };

    ghost view = { λ line. line.bytes.items };
}

impl HashLine {
    /// Returns the line before the first row, which is empty.
    pub fn none() -> HashLine
        ensures { result ≡ [] }
    {
        HashLine {
            bytes: ArrayVec::new(),
        }
    }

    /// Returns the line below this row, which is below this line.
    pub fn below(&self, row: &[u8]) -> HashLine
        ensures { result ≡ hash_line (self.now ++ row.now) }
    {
        let digits = digits_of(self.bytes.as_slice(), row);
        let mut bytes = ArrayVec::new();
        extend(&mut bytes, b"= ");
        extend(&mut bytes, &digits);
        extend(&mut bytes, b"\n");
        HashLine { bytes }
    }

    /// Returns the bytes of the line.
    pub fn bytes(&self) -> &[u8]
        ensures { result.now ≡ self.now }
    {
        self.bytes.as_slice()
    }
}

// Appends bytes, for which there is room.
fn extend(bytes: &mut ArrayVec<u8, HASH_LINE>, more: &[u8])
    requires { length bytes.old.items + length more.now ≤ HASH_LINE }
    ensures { bytes.new.items ≡ bytes.old.items ++ more.now }
{
    match bytes.try_extend_from_slice(more) {
        Ok(()) => {}
        Err(_) => unreachable!(),
    }
}

// The digits of the hash of a line and a row.
fn digits_of(above: &[u8], row: &[u8]) -> [u8; DIGITS]
    ensures { result ≡ encode_lower (sha256 (above.now ++ row.now)) }
{
    let mut hasher = Sha256::new();
    hasher.update(above);
    hasher.update(row);
    let hash = hasher.finalize();
    let mut digits = [0; DIGITS];
    match hex::encode_to_slice(hash, &mut digits) {
        Ok(()) => digits,
        Err(_) => unreachable!(),
    }
}
