//! What is made of one byte, by where it stands.
ghost use Rattle.std.specs.Prelude.{◌≡◌, ℕ, List, [], ◌∷◌, ◌++◌, true, false};
ghost use Rattle.bsc_check.specs.Check.{check_of, IsCheckOf};
ghost use Rattle.bsc_adapter.specs.Inside.Making.{Standing, Front, Dle, Text, TextDle, next, says, Stands, is_idle as is_idle_of};

use crate::place::Place;
use arrayvec::ArrayVec;
use bsc_check::Check;
use bsc_codes::{DLE, ENQ, ETB, ETX, PAD, STX, SYN};

/// The pad that may come before a transmission, as FF may.
const LEADING_PAD: u8 = 0x55;

/// Takes one byte, and gives what is made of it.
pub(crate) fn step(place: &mut Place, check: &mut Check, byte: u8) -> ArrayVec<u8, 3>
    ensures says { (s : Standing) → Stands place.old check.old s → result.items ≡ says s byte }
    ensures next { (s : Standing) → Stands place.old check.old s
        → Stands place.new check.new (next s byte) }
{
    match *place {
        Place::Front => at_front(place, check, byte),
        Place::Dle => at_dle(place, check, byte),
        Place::Text(false) => at_normal(place, check, byte),
        Place::Text(true) => at_transparent(place, check, byte),
        Place::TextDle => at_text_dle(place, check, byte),
    }
}

/// Takes a byte in front of a body.
fn at_front(place: &mut Place, check: &mut Check, byte: u8) -> ArrayVec<u8, 3>
    ensures says { result.items ≡ says Front byte }
    ensures next { Stands place.new check.new (next Front byte) }
{
    *place = Place::Front;
    if is_idle(byte) {
        return ArrayVec::new();
    }
    if byte == STX {
        *check = Check::new();
        *place = Place::Text(false);
    } else if byte == DLE {
        *place = Place::Dle;
    }
    three(SYN, SYN, byte)
}

/// Whether a byte says nothing in front of a body.
fn is_idle(byte: u8) -> bool
    ensures { result ≡ is_idle_of byte }
{
    byte == SYN || byte == PAD || byte == LEADING_PAD
}

/// Takes the byte after a DLE in a body's first place.
fn at_dle(place: &mut Place, check: &mut Check, byte: u8) -> ArrayVec<u8, 3>
    ensures says { result.items ≡ says Dle byte }
    ensures next { Stands place.new check.new (next Dle byte) }
{
    if byte == STX {
        *check = Check::new();
        *place = Place::Text(true);
    } else {
        *place = Place::Front;
    }
    one(byte)
}

/// Takes a byte in normal text.
fn at_normal(place: &mut Place, check: &mut Check, byte: u8) -> ArrayVec<u8, 3>
    ensures says { (text : List ℕ) → IsCheckOf check.old text
        → result.items ≡ says (Text false text) byte }
    ensures next { (text : List ℕ) → IsCheckOf check.old text
        → Stands place.new check.new (next (Text false text) byte) }
{
    *place = Place::Text(false);
    match byte {
        SYN => {}
        ENQ => *place = Place::Front,
        ETB | ETX => return closed(place, check, byte),
        _ => check.add(byte),
    }
    one(byte)
}

/// Takes a byte in transparent text.
fn at_transparent(place: &mut Place, check: &mut Check, byte: u8) -> ArrayVec<u8, 3>
    ensures says { (text : List ℕ) → IsCheckOf check.old text
        → result.items ≡ says (Text true text) byte }
    ensures next { (text : List ℕ) → IsCheckOf check.old text
        → Stands place.new check.new (next (Text true text) byte) }
{
    if byte == DLE {
        *place = Place::TextDle;
    } else {
        check.add(byte);
        *place = Place::Text(true);
    }
    one(byte)
}

/// Takes the byte after a DLE in transparent text.
fn at_text_dle(place: &mut Place, check: &mut Check, byte: u8) -> ArrayVec<u8, 3>
    ensures says { (text : List ℕ) → IsCheckOf check.old text
        → result.items ≡ says (TextDle text) byte }
    ensures next { (text : List ℕ) → IsCheckOf check.old text
        → Stands place.new check.new (next (TextDle text) byte) }
{
    *place = Place::Text(true);
    match byte {
        DLE => check.add(byte),
        ENQ => *place = Place::Front,
        ETB | ETX => return closed(place, check, byte),
        _ => {}
    }
    one(byte)
}

/// Closes a block: its last byte, and the check.
fn closed(place: &mut Place, check: &mut Check, byte: u8) -> ArrayVec<u8, 3>
    ensures says { (text : List ℕ) → IsCheckOf check.old text
        → result.items ≡ byte ∷ check_of (text ++ byte ∷ []) }
    ensures next { place.new ≡ Place.Front }
{
    *place = Place::Front;
    check.add(byte);
    let [first, second] = check.bytes();
    three(byte, first, second)
}

fn one(byte: u8) -> ArrayVec<u8, 3>
    ensures { result.items ≡ byte ∷ [] }
{
    let mut made = ArrayVec::new();
    made.push(byte);
    made
}

fn three(first: u8, second: u8, third: u8) -> ArrayVec<u8, 3>
    ensures { result.items ≡ first ∷ second ∷ third ∷ [] }
{
    let mut made = ArrayVec::new();
    made.push(first);
    made.push(second);
    made.push(third);
    made
}
