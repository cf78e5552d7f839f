// Fields for a Reed-Solomon code: what a field is, and the fields of 256 and of 257 symbols.
#![tactic(auto)]

ghost use Rattle.std.specs.Prelude.{◌≡◌, ℕ, ◌<◌, ◌≤◌, ◌++◌, length, drop, MatchOption, MatchResult, ◌≢◌};
ghost use denote.Memory.{lone};
ghost use prog.Memory.{size as bytes};
ghost use Rattle.field.specs.Model.{Ops, Laws};
ghost use Rattle.field.specs.Residues.{square_chain};

use std::error::Error;
use std::fmt;

pub mod binary;
pub mod prime;

// A buffer is shorter than the stored form of a symbol.
#[derive(Clone, Copy, Debug, PartialEq, Eq, Hash)]
pub struct TooShort;

// Says so in words.
impl fmt::Display for TooShort {
    ghost use Rattle.std.specs.Prelude.{Some, codes};

    ghost output = { λ _. Some (codes "the buffer is shorter than a stored symbol") };

    fn fmt<W: fmt::Write>(&self, f: &mut fmt::Formatter<W>) -> fmt::Result {
        f.write_str("the buffer is shorter than a stored symbol")
    }
}

impl Error for TooShort {}

// Writes bytes to the start of a buffer, or leaves a buffer that is too short for them as it was.
fn write_front<const N: usize>(out: &mut [u8], bytes: [u8; N]) -> Result<(), TooShort>
    ensures { MatchResult result (λ _. (N ≤ length out.old) × (out.new ≡ bytes.entry ++ drop N out.old)) (λ _. (length out.old < N) × (out.new ≡ out.old)) }
{
    *out.first_chunk_mut().ok_or(TooShort)? = bytes;
    Ok(())
}

// The product of the n squares a, a^2, a^4, .., by which both fields invert: a power of a.
fn product_of_squares<T: Copy, M: Fn(T, T) -> T>(n: u32, one: T, a: T, mul: M) -> T
    requires { M.IsAlwaysCallable mul }
    ensures { (times : T → T → T) → ((x y r : _) → M.post mul x y r → r ≡ times x y) → result ≡ square_chain times n one a }
{
    // a fold would carry both over in a pair, and be no plainer
    let mut product = one;
    let mut square = a;
    for _ in 0..n {
        product = mul(product, square);
        square = mul(square, square);
    }
    product
}

// A field. Every operation takes any symbols and any bytes: a symbol of the machine that is no symbol of the field
// stands for one all the same, and what an operation answers is always a symbol of the field.
pub trait Field {
    type Symbol: Copy;

    // how many symbols there are, and in how many bytes one is stored
    const SIZE: usize;

    const WIDTH: usize;

    // the same two numbers, as clauses and laws name them
    ghost SIZE: { ℕ };

    ghost WIDTH: { ℕ };

    // the symbols as the laws speak of them, and what can be done with them
    ghost elements: { Type 0 };

    ghost model: { Ops elements };

    // what a symbol of the machine stands for, and the symbol of the machine that stands for one of the field
    ghost elem: { Self.Symbol → elements };

    ghost sym: { elements → Self.Symbol };

    // The symbol that adds nothing.
    fn zero() -> Self::Symbol
        ensures { result ≡ sym model.zero };

    // The symbol whose products are the other factor.
    fn one() -> Self::Symbol
        ensures { result ≡ sym model.one };

    // The sum of two symbols.
    fn add(a: Self::Symbol, b: Self::Symbol) -> Self::Symbol
        ensures { result ≡ sym (model.add (elem a) (elem b)) };

    // Their difference.
    fn sub(a: Self::Symbol, b: Self::Symbol) -> Self::Symbol
        ensures { result ≡ sym (model.sub (elem a) (elem b)) };

    // Their product.
    fn mul(a: Self::Symbol, b: Self::Symbol) -> Self::Symbol
        ensures { result ≡ sym (model.mul (elem a) (elem b)) };

    // The inverse of a symbol; zero has none, and gets the answer that the field's definition gives.
    fn inverse(a: Self::Symbol) -> Self::Symbol
        ensures { result ≡ sym (model.inverse (elem a)) };

    // Point number j, of which there are 32.
    fn point(j: usize) -> Option<Self::Symbol>
        ensures { MatchOption result (32 ≤ j) (λ s. (j < 32) × (s ≡ sym (model.point j))) };

    // The symbol that a byte stands for.
    fn from_byte(b: u8) -> Self::Symbol
        ensures { result ≡ sym (model.byte b) };

    // The byte that stands for a symbol, or none.
    fn to_byte(a: Self::Symbol) -> Option<u8>
        ensures { MatchOption result ((b : ℕ) → b < 256 → model.byte b ≢ elem a) (λ b. (b < 256) × (model.byte b ≡ elem a)) };

    // The symbol that is stored as exactly these bytes, or none.
    fn read(bytes: &[u8]) -> Option<Self::Symbol>
        ensures { MatchOption result ((e : elements) → model.stored e ≢ bytes.now) (λ s. (model.stored (elem s) ≡ bytes.now) × (s ≡ sym (elem s))) };

    // Writes the stored form of a symbol to the start of the buffer, or leaves a buffer that is too short for it as it was.
    fn write(out: &mut [u8], a: Self::Symbol) -> Result<(), TooShort>
        ensures { MatchResult result (λ _. (model.width ≤ length out.old) × (out.new ≡ model.stored (elem a) ++ drop model.width out.old)) (λ _. (length out.old < model.width) × (out.new ≡ out.old)) };

    // the two constants are those of the model
    ghost sized: { SIZE ≡ model.size };

    ghost wide: { WIDTH ≡ model.width };

    // the operations keep the laws of a field
    ghost lawful: { Laws model };

    // a symbol of the field is what its symbol of the machine stands for
    ghost recovers: { (e : elements) → elem (sym e) ≡ e };

    // a symbol takes at most 8 bytes of memory, so that an array of symbols fits
    ghost small: { bytes (lone Self.Symbol.row.mir) ≤ 8 };
}

#[cfg(test)]
mod tests {
    use super::Field;
    use super::binary::Binary;
    use super::prime::Prime;

    #[test]
    fn of_256_symbols(rt: HostRuntime) {
        assert_eq!(rt; Binary::mul(2, 128), 29);
        assert_eq!(rt; Binary::inverse(2), 142);
        assert_eq!(rt; Binary::sub(5, 7), 2);
        assert_eq!(rt; Binary::point(9), Some(29));
        assert_eq!(rt; Binary::point(32), None);
        assert_eq!(rt; Binary::read(&[7, 0]), None);
    }

    #[test]
    fn of_257_symbols(rt: HostRuntime) {
        assert_eq!(rt; Prime::mul(16, 32), 255);
        assert_eq!(rt; Prime::inverse(2), 129);
        assert_eq!(rt; Prime::sub(3, 5), 255);
        assert_eq!(rt; Prime::to_byte(256), None);
        assert_eq!(rt; Prime::read(&[0, 1]), Some(256));
        assert_eq!(rt; Prime::read(&[1, 1]), None);
    }

    #[test]
    fn stored_low_byte_first(rt: HostRuntime) {
        let mut out = [9u8; 3];
        assert!(rt; Prime::write(&mut out, 256).is_ok());
        assert_eq!(rt; out, [0, 1, 9]);
        assert!(rt; Prime::write(&mut out[2..], 5).is_err());
        assert_eq!(rt; out, [0, 1, 9]);
    }
}
