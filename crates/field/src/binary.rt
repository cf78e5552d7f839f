// The field of 256 symbols: bytes as polynomials over 0 and 1, the product reduced by 0x11D.
ghost use Rattle.std.specs.Prelude.{◌≡◌, refl, ℕ, ◌*◌, ◌/◌};
ghost use Rattle.field.specs.Residues.{Below};
ghost use Rattle.field.specs.Binary.{binary, symbol, times, inverse_of, point_of};
ghost use Rattle.field.specs.BinaryLaws as laws;
ghost use Rattle.std.proofs.Common.{lit<, rules};
ghost use Rattle.field.specs.Below.{modulo-below};

use crate::{Field, TooShort, product_of_squares, write_front};

// The field of 256 symbols, as a type.
#[derive(Clone, Copy, Debug, PartialEq, Eq, Hash)]
pub struct Binary;

// What is left of 0x11D where the bit that leaves at the top is set.
fn reduction(a: u8) -> u8
    ensures { result ≡ a / 128 * 0x1D }
{
    a / 128 * 0x1D
}

// The product with x: the bits move up by one, and the one that leaves takes 0x11D away.
#[tactic(auto, using(crate::proofs::Steps::doubled_is))]
fn double(a: u8) -> u8
    ensures { result ≡ times a 2 }
{
    (a % 128 * 2) ^ reduction(a)
}

// The sum, which is the difference too.
#[tactic(auto, using(crate::proofs::Steps::add_plain))]
fn sum_of(a: u8, b: u8) -> u8
    ensures { result ≡ (binary.add (symbol a) (symbol b)).0 }
{
    a ^ b
}

// The product, bit by bit of the second factor and without a branch.
fn multiply(a: u8, b: u8) -> u8
    ensures plain { result ≡ times a b }
    ensures symbols { result ≡ (binary.mul (symbol a) (symbol b)).0 }
{
    // a fold would carry both over in a pair, and be no plainer
    let mut sum: u8 = 0;
    let mut shifted = a;
    for i in 0..8u32 {
        sum ^= (b >> i) % 2 * shifted;
        shifted = double(shifted);
    }
    sum
}

// The power 254, by squares.
fn invert(a: u8) -> u8
    ensures { result ≡ inverse_of a }
{
    product_of_squares(7, 1, multiply(a, a), multiply)
}

// 0, or 2 to the power j - 1.
fn point_at(j: usize) -> u8
    ensures { result ≡ point_of j }
{
    match j {
        0 => 0,
        _ => (1..j).fold(1, |power, _| double(power)),
    }
}

impl Field for Binary {
    type Symbol = u8;

    const SIZE: usize = 256;

    const WIDTH: usize = 1;

    ghost SIZE = { 256 };

    ghost WIDTH = { 1 };

    ghost elements = { Below 256 };

    ghost model = { binary };

    ghost elem = { symbol };

    ghost sym = { λ e. e.0 };

    ghost sized = { refl };

    ghost wide = { refl };

    ghost lawful = { laws.lawful };

    ghost recovers = { λ e. modulo-below 256 (lit< tt) e };

    ghost small = { Prim.search rules };

    fn zero() -> u8 {
        0
    }

    fn one() -> u8 {
        1
    }

    fn add(a: u8, b: u8) -> u8 {
        sum_of(a, b)
    }

    fn sub(a: u8, b: u8) -> u8 {
        sum_of(a, b)
    }

    fn mul(a: u8, b: u8) -> u8 {
        multiply(a, b)
    }

    fn inverse(a: u8) -> u8 {
        invert(a)
    }

    fn point(j: usize) -> Option<u8> {
        (j < 32).then(|| point_at(j))
    }

    fn from_byte(b: u8) -> u8 {
        b
    }

    fn to_byte(a: u8) -> Option<u8> {
        Some(a)
    }

    fn read(bytes: &[u8]) -> Option<u8> {
        let &[byte] = bytes else {
            return None;
        };
        Some(byte)
    }

    fn write(out: &mut [u8], a: u8) -> Result<(), TooShort> {
        write_front(out, [a])
    }
}
