//! Pieces and numbers that are put into bytes at a place.
ghost use Rattle.std.specs.Prelude.{◌≡◌, ◌+◌, ◌<◌, ◌≤◌, [], ◌++◌, ◌∷◌, length, take, decimal};
ghost use Rattle.om_model.specs.TermText.{place_word};
ghost use Rattle.om_program_text.specs.declared.pieces.TheConstants.{SPACED_BYTES};
ghost use Rattle.om_program_text.specs.Spelt.{AreSpelt};

use crate::spellings::Spelling;
use itoa::Buffer;
use om_ring::DECIMAL_BYTES;

/// The most bytes of a number behind a space.
pub(crate) const SPACED_BYTES: usize = 1 + DECIMAL_BYTES;

/// Puts a piece in, and answers the place behind it.
#[inline(always)]
pub(crate) fn put(to: &mut [u8], at: usize, piece: &[u8]) -> usize
    requires { at + length piece.now ≤ length to.old }
    ensures bytes { take result to.new ≡ take at to.old ++ piece.now }
    ensures end { result ≡ at + length piece.now }
    ensures same { length to.new ≡ length to.old }
{
    let end = at + piece.len();
    to[at..end].copy_from_slice(piece);
    end
}

/// Puts a byte in, and answers the place behind it.
#[inline(always)]
pub(crate) fn put_byte(to: &mut [u8], at: usize, byte: u8) -> usize
    requires { at < length to.old }
    ensures bytes { take result to.new ≡ take at to.old ++ byte ∷ [] }
    ensures end { result ≡ at + 1 }
    ensures same { length to.new ≡ length to.old }
{
    to[at] = byte;
    at + 1
}

/// Puts the number of a place in, which counts from 0, behind a space, and answers the place behind it. Most are among the spelt ones.
#[inline(always)]
pub(crate) fn put_place(to: &mut [u8], at: usize, spelt: &[Spelling], k: u32) -> usize
    requires room { at + SPACED_BYTES ≤ length to.old }
    requires spelt { AreSpelt spelt.now }
    ensures bytes { take result to.new ≡ take at to.old ++ 32 ∷ place_word k }
    ensures short { result ≤ at + SPACED_BYTES }
    ensures same { length to.new ≡ length to.old }
{
    let place = k as usize;
    if place < spelt.len() {
        put_spelt(to, at, &spelt[place])
    } else {
        put_long(to, at, u64::from(k) + 1)
    }
}

/// Puts the decimal of a number in, which mostly has one digit, behind a space, and answers the place behind it.
#[inline(always)]
pub(crate) fn put_short(to: &mut [u8], at: usize, k: u8) -> usize
    requires { at + SPACED_BYTES ≤ length to.old }
    ensures bytes { take result to.new ≡ take at to.old ++ 32 ∷ decimal k }
    ensures short { result ≤ at + SPACED_BYTES }
    ensures same { length to.new ≡ length to.old }
{
    if k < 10 {
        let at = put_byte(to, at, b' ');
        put_byte(to, at, b'0' + k)
    } else {
        put_long(to, at, u64::from(k))
    }
}

// Puts all bytes of a spelt number in, and answers the place behind those that it needs.
#[inline(always)]
fn put_spelt(to: &mut [u8], at: usize, number: &Spelling) -> usize
    requires room { at + SPACED_BYTES ≤ length to.old }
    requires some { number.now.len ≤ 8 }
    ensures bytes { take result to.new ≡ take at to.old ++ take number.now.len number.now.bytes }
    ensures short { result ≤ at + SPACED_BYTES }
    ensures same { length to.new ≡ length to.old }
{
    put(to, at, &number.bytes);
    at + number.len as usize
}

// Apart from the loop over lines, which then keeps what it reads in registers.
#[cold]
#[inline(never)]
fn put_long(to: &mut [u8], at: usize, k: u64) -> usize
    requires { at + SPACED_BYTES ≤ length to.old }
    ensures bytes { take result to.new ≡ take at to.old ++ 32 ∷ decimal k }
    ensures short { result ≤ at + SPACED_BYTES }
    ensures same { length to.new ≡ length to.old }
{
    let at = put(to, at, b" ");
    let mut buffer = Buffer::new();
    put(to, at, buffer.format(k).as_bytes())
}
