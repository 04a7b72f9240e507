//! Laws of the form: each is the contract of a function that does nothing.
//! A contract sees flat worlds, and bytes.
ghost use Rattle.std.specs.Prelude.{◌≡◌, ◌++◌, ◌∷◌, List, ℕ, codes};
ghost use Rattle.ele_model.specs.declared.flat.Flat.{Flat};
ghost use Rattle.ele_checkpoint.specs.Checkpoint.{checkpoint};
ghost use Rattle.ele_checkpoint.specs.Fits.{IsFlat};
ghost use Rattle.ele_checkpoint.specs.Sum.{AreBytes, sum};

/// Two worlds that have one checkpoint are one world.
pub fn checkpoints_differ()
    ensures { (a b : Flat) → IsFlat a → IsFlat b → checkpoint a ≡ checkpoint b → a ≡ b }
{}

/// No checkpoint begins with the checkpoint of another world.
pub fn checkpoints_end()
    ensures { (a b : Flat) (more : List ℕ) → IsFlat a → IsFlat b
        → checkpoint a ++ more ≡ checkpoint b → a ≡ b }
{}

/// If one byte is changed, the sum changes.
pub fn a_changed_byte_changes_the_sum()
    ensures { (front back : List ℕ) (was is : ℕ) → AreBytes (front ++ was ∷ is ∷ back)
        → sum (front ++ was ∷ back) ≡ sum (front ++ is ∷ back) → was ≡ is }
{}

/// The sum of the digits from 1 to 9 is the one that is published for CRC-32C.
pub fn sum_is_castagnoli()
    ensures { sum (codes "123456789") ≡ 0xE3069283 }
{}
