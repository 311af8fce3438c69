//! What comes from an adapter, made into transmissions.
ghost use Rattle.std.specs.Prelude.{◌≡◌, ◌≤◌, ◌<◌, ◌+◌, ℕ, List, [], ◌∷◌, ◌++◌, length, take};
ghost use Rattle.arrayvec.specs.ArrayVec.{array_vec_len};
ghost use Rattle.bsc_adapter.specs.Made.{HasMade, Appends};

use crate::place::Place;
use crate::step::step;
use arrayvec::ArrayVec;
use bsc_check::Check;

/// Makes transmissions of what comes from an adapter, in any pieces: it drops pads and SYN in front of a body, puts two SYN there, and puts the
/// check behind the byte that closes a block. It keeps where the bytes stand, and the running check of a text; no call takes memory.
#[derive(Drop)]
pub struct FromAdapter {
    place: Place,
    // in a text, the check of its data bytes so far
    check: Check,
}

impl FromAdapter {
    /// One that has taken nothing.
    pub fn new() -> Self
        ensures { HasMade result [] [] }
    {
        FromAdapter {
            place: Place::Front,
            check: Check::new(),
        }
    }

    /// Makes it as new: what comes next is taken for the front of a transmission.
    pub fn reset(&mut self)
        ensures { HasMade self.new [] [] }
    {
        self.place = Place::Front;
    }

    /// Takes one byte, and gives what is made of it: three bytes at most.
    pub fn take(&mut self, byte: u8) -> ArrayVec<u8, 3>
        ensures { (taken out : List ℕ) → HasMade self.old taken out
            → HasMade self.new (taken ++ byte ∷ []) (out ++ result.items) }
    {
        step(&mut self.place, &mut self.check, byte)
    }

    /// Takes bytes of a piece, as long as there is room for three more, appends what is made of them, and says how many it took.
    pub fn take_piece<const N: usize>(&mut self, piece: &[u8], made: &mut ArrayVec<u8, N>) -> usize
        ensures within { result ≤ length piece.now }
        ensures made { (taken out : List ℕ) → HasMade self.old taken out
            → Appends self.new (taken ++ take result piece.now) out made.old.items made.new.items }
        // Bytes are left only where there is no room for three more.
        ensures whole { result < length piece.now → N < array_vec_len made.new + 3 }
    {
        let mut taken = 0;
        while taken < piece.len() && made.remaining_capacity() >= 3 {
            let more = self.take(piece[taken]);
            append(made, &more);
            taken += 1;
        }
        taken
    }
}

/// Appends what is made of one byte, for which there is room.
fn append<const N: usize>(made: &mut ArrayVec<u8, N>, more: &[u8])
    requires { array_vec_len made.old + length more.now ≤ N }
    ensures { made.new.items ≡ made.old.items ++ more.now }
{
    let Ok(()) = made.try_extend_from_slice(more) else {
        unreachable!()
    };
}
