//! The check of a list of bytes (GA27-3004, CRC-16).
ghost use Rattle.std.specs.Prelude.{◌≡◌, ℕ, List, [], ◌∷◌, ◌++◌};
ghost use Rattle.bsc_check.specs.Check.{check_of, IsCheckOf};

use crate::table::next_register;
use crate::tables::register_after_all;
use std::marker::Model;

/// The check of the bytes that were added so far: what is left of them as a polynomial, divided by x^16 + x^15 + x^2 + 1.
#[derive(Clone, Copy)]
pub struct Check {
    // the remainder so far, its highest coefficient in the low bit
    register: u16,
}

impl Model for Check {
    ghost use Rattle.std.specs.Prelude.{ℕ};

    ghost Value = { ℕ };

    ghost view = { λ c. c.register };

    ghost inverse = { λ n. record { register = n } };
}

impl Check {
    /// The check of no bytes.
    #[tactic(auto, unfolding(crate::specs::Check::check_of))]
    pub fn new() -> Self
        ensures { IsCheckOf result [] }
    {
        Check { register: 0 }
    }

    /// Adds one byte.
    #[tactic(auto, using(crate::proofs::Shifts::one_byte_more))]
    pub fn add(&mut self, byte: u8)
        ensures { (bytes : List ℕ) → IsCheckOf self.old bytes
            → IsCheckOf self.new (bytes ++ byte ∷ []) }
    {
        self.register = next_register(self.register, byte);
    }

    /// Adds each byte, in order.
    #[tactic(auto, using(crate::proofs::Shifts::bytes_more))]
    pub fn add_all(&mut self, bytes: &[u8])
        ensures { (before : List ℕ) → IsCheckOf self.old before
            → IsCheckOf self.new (before ++ bytes.now) }
    {
        self.register = register_after_all(self.register, bytes);
    }

    /// The two bytes of the check in the order of the line, the low-order byte first.
    pub fn bytes(&self) -> [u8; 2]
        ensures { (bytes : List ℕ) → IsCheckOf self.now bytes → result ≡ check_of bytes }
    {
        self.register.to_le_bytes()
    }
}
