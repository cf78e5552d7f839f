// The field of the numbers modulo 257.
ghost use Rattle.std.specs.Prelude.{◌≡◌, refl, ℕ, ◌<◌, MatchOption, ◌≢◌};
ghost use Rattle.field.specs.Residues.{Below};
ghost use Rattle.field.specs.Prime.{prime, symbol, times};
ghost use Rattle.field.specs.PrimeLaws as laws;
ghost use Rattle.std.proofs.Common.{lit<, rules};
ghost use Rattle.field.specs.Below.{modulo-below};

use crate::{Field, TooShort, product_of_squares, write_front};

// The field of 257 symbols, as a type.
#[derive(Clone, Copy, Debug, PartialEq, Eq, Hash)]
pub struct Prime;

// The product. `as`, since each half has 16 bits. 65536 is 1 modulo 257, so its two halves may be added: that keeps every remainder in 16 bits.
fn multiply(a: u16, b: u16) -> u16
    ensures plain { result ≡ times a b }
    ensures symbols { result ≡ (prime.mul (symbol a) (symbol b)).0 }
{
    let product = u32::from(a % 257) * u32::from(b);
    let low = (product % 65536) as u16;
    let high = (product / 65536) as u16;
    (low % 257 + high % 257) % 257
}

// The power 255, by squares.
fn invert(a: u16) -> u16
    ensures { result ≡ (prime.inverse (symbol a)).0 }
{
    product_of_squares(8, 1, a % 257, multiply)
}

// The byte that stands for a symbol: all but 256 have one.
fn byte_of(a: u16) -> Option<u8>
    ensures { MatchOption result ((b : ℕ) → b < 256 → prime.byte b ≢ symbol a) (λ b. (b < 256) × (prime.byte b ≡ symbol a)) }
{
    u8::try_from(a % 257).ok()
}

impl Field for Prime {
    type Symbol = u16;

    const SIZE: usize = 257;

    const WIDTH: usize = 2;

    ghost SIZE = { 257 };

    ghost WIDTH = { 2 };

    ghost elements = { Below 257 };

    ghost model = { prime };

    ghost elem = { symbol };

    ghost sym = { λ e. e.0 };

    ghost sized = { refl };

    ghost wide = { refl };

    ghost lawful = { laws.lawful };

    ghost recovers = { λ e. modulo-below 257 (lit< tt) e };

    ghost small = { Prim.search rules };

    fn zero() -> u16 {
        0
    }

    fn one() -> u16 {
        1
    }

    fn add(a: u16, b: u16) -> u16 {
        (a % 257 + b % 257) % 257
    }

    fn sub(a: u16, b: u16) -> u16 {
        (a % 257 + (257 - b % 257)) % 257
    }

    fn mul(a: u16, b: u16) -> u16 {
        multiply(a, b)
    }

    fn inverse(a: u16) -> u16 {
        invert(a)
    }

    // `as`, since the test says that the number fits: `try_from` would bring an arm that cannot come.
    fn point(j: usize) -> Option<u16> {
        (j < 32).then(|| j as u16)
    }

    fn from_byte(b: u8) -> u16 {
        u16::from(b)
    }

    fn to_byte(a: u16) -> Option<u8> {
        byte_of(a)
    }

    // No one function with the other field's: the patterns and the limits differ, and nothing else is there.
    fn read(bytes: &[u8]) -> Option<u16> {
        let &[low, high] = bytes else {
            return None;
        };
        let number = u16::from_le_bytes([low, high]);
        (number < 257).then_some(number)
    }

    fn write(out: &mut [u8], a: u16) -> Result<(), TooShort> {
        write_front(out, (a % 257).to_le_bytes())
    }
}
