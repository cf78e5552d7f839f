// From bytes to symbols and back. Symbols stand in one buffer of a fixed size, with their number beside it: no call allocates (a rule of the project). Loops
// write by place, since a zip with iter_mut lends what it writes to, and of lent elements a proof knows nothing.
ghost use Rattle.std.specs.Prelude.{◌≡◌, ℕ, ◌+◌, ◌*◌, ◌<◌, ◌≤◌, ◌++◌, length, take, drop, MatchResult, ◌≢◌, slice_index};
ghost use Rattle.std.specs.Option.{SomeIff};
ghost use Rattle.code.specs.Shares.{block_length, Sized, serial};
ghost use Rattle.code.specs.Lagrange.{entry, IsByteOf, HasNoByte};

use crate::shape::calls::refuse;
use field::Field;
use refusal::{Fault, Reason};

// A stored symbol is outside the field, or a value is no byte.
#[derive(Clone, Copy, Debug, PartialEq, Eq, Hash)]
pub(crate) struct BadSymbol;

// Such a symbol is a refusal of the call.
impl From<BadSymbol> for Fault {
    ghost use Rattle.code.specs.Calls.{BadSymbolIsTold};

    ghost from_gives = { λ _ fault. BadSymbolIsTold fault };

    fn from(_error: BadSymbol) -> Fault {
        refuse(Reason::BadSymbol)
    }
}

// The length of a block of a file of this length, or none where the file has no shares.
#[tactic(auto, using(crate::proofs::Blocks::rounded))]
pub(crate) fn block_of<F: Field>(len: usize, k: usize) -> Option<usize>
    requires { 1 ≤ k }
    ensures { SomeIff result (Sized len k F.model.width) (block_length len k) }
{
    if len == 0 {
        return None;
    }
    let block = len.div_ceil(k);
    if block.saturating_mul(F::WIDTH) > 1024 {
        None
    } else {
        Some(block)
    }
}

// The symbols of the file, filled with zero bytes.
pub(crate) fn load_file<F: Field>(file: &[u8]) -> [F::Symbol; 16384]
    requires { length file.now ≤ 16384 }
    ensures size { length result ≡ 16384 }
    ensures symbols { (t : ℕ) → t < 16384 → entry F.Field result t ≡ F.model.byte (slice_index file.now t) }
{
    let mut symbols = [F::from_byte(0); 16384];
    for (t, &byte) in file.iter().enumerate() {
        symbols[t] = F::from_byte(byte);
    }
    symbols
}

// Writes the stored forms of the symbols to the start of the buffer.
pub(crate) fn store<F: Field>(symbols: &[F::Symbol], out: &mut [u8])
    requires small { length symbols.now * F.model.width ≤ 1024 }
    requires room { length symbols.now * F.model.width ≤ length out.old }
    ensures { out.new ≡ serial F.model (entry F.Field symbols.now) (length symbols.now) ++ drop (length symbols.now * F.model.width) out.old }
{
    for (i, &symbol) in symbols.iter().enumerate() {
        F::write(&mut out[i * F::WIDTH..], symbol).unwrap();
    }
}

// Reads the symbols that are stored one after another, or fails where one is outside the field. It fills its caller's room: an array in a Result
// would be held twice on the stack.
pub(crate) fn read_symbols<F: Field>(
    bytes: &[u8],
    count: usize,
    symbols: &mut [F::Symbol; 16384],
) -> Result<(), BadSymbol>
    requires few { count ≤ 16384 }
    requires whole { length bytes.now ≡ count * F.model.width }
    requires small { count * F.model.width ≤ 16384 }
    ensures { MatchResult result (λ _. (length symbols.new ≡ 16384) × ((t : ℕ) → t < count → F.model.stored (entry F.Field symbols.new t) ≡ take F.model.width (drop (t * F.model.width) bytes.now))) (λ _. (t : ℕ) × (t < count) × ((e : F.elements) → F.model.stored e ≢ take F.model.width (drop (t * F.model.width) bytes.now))) }
{
    // By place: over chunks_exact the proof was tried, and five goals stayed open.
    for t in 0..count {
        symbols[t] = F::read(&bytes[t * F::WIDTH..t * F::WIDTH + F::WIDTH]).ok_or(BadSymbol)?;
    }
    Ok(())
}

// Writes the bytes that stand for the symbols to the start of the buffer, or fails where one is no byte.
pub(crate) fn bytes_of<F: Field>(symbols: &[F::Symbol], out: &mut [u8]) -> Result<(), BadSymbol>
    requires { length symbols.now ≤ length out.old }
    ensures { MatchResult result (λ _. (i : ℕ) → i < length symbols.now → IsByteOf F.model (entry F.Field symbols.now i) (slice_index out.new i)) (λ _. (i : ℕ) × (i < length symbols.now) × HasNoByte F.model (entry F.Field symbols.now i)) }
{
    for (i, &symbol) in symbols.iter().enumerate() {
        out[i] = F::to_byte(symbol).ok_or(BadSymbol)?;
    }
    Ok(())
}
