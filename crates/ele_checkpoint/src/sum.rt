//! CRC-32C.
//! A contract sees the bytes, and the sum as a number.
ghost use Rattle.std.specs.Prelude.{◌≡◌, ◌<◌, ℕ, get_or};
ghost use Rattle.ele_checkpoint.specs.Sum.{shifted, sum, times};

/// The Castagnoli polynomial, lowest bit first.
const POLYNOMIAL: u32 = 0x82f6_3b78;

/// Returns the CRC-32C of bytes. It takes no memory.
/// Cost: grows with the bytes, after a table of 256 entries.
pub fn crc32c(bytes: &[u8]) -> u32
    ensures { result ≡ sum bytes.now }
{
    let table = table();
    let mut state = u32::MAX;
    for byte in bytes {
        let place = ((state ^ *byte as u32) & 255) as usize;
        state = table[place] ^ (state >> 8);
    }
    state ^ u32::MAX
}

// The eight bits of each byte.
fn table() -> [u32; 256]
    ensures { (byte : ℕ) → byte < 256 → get_or result byte 0 ≡ times 8 byte }
{
    let mut table = [0; 256];
    for byte in 0..256 {
        table[byte] = eight_bits(byte as u32);
    }
    table
}

// A number, eight bits on.
fn eight_bits(byte: u32) -> u32
    ensures { result ≡ times 8 byte }
{
    let mut state = byte;
    for _ in 0..8_u32 {
        state = shifted(state);
    }
    state
}

// A number, one bit on.
#[tactic(auto, unfolding(crate::specs::Sum::shifted))]
fn shifted(state: u32) -> u32
    ensures { result ≡ shifted state }
{
    if state % 2 == 1 {
        (state / 2) ^ POLYNOMIAL
    } else {
        state / 2
    }
}
