// A file from k of its shares. `len` is the length of the file that comes back, and of no buffer here: any may be asked for. The parameters of a call
// are handed on as they come, since a struct of them would be made to be taken apart at once.
ghost use Rattle.std.specs.Prelude.{◌≡◌, ℕ, ◌+◌, ◌*◌, ◌<◌, ◌≤◌, length, MatchBool, MatchResult, slice_index};
ghost use Rattle.code.specs.Lagrange.{value_at, IsByteOf, HasNoByte};
ghost use Rattle.code.specs.Decoding.{Different};
ghost use Rattle.code.specs.Codes.{numbers, field_of};
ghost use Rattle.code.specs.Calls.{Recovers};
ghost use Rattle.code.specs.Theorems.{GivesBack};

use crate::interpolation::{interpolate, points_of};
use crate::shape::calls::refuse;
use crate::shape::{Code, FieldChoice};
use crate::symbols::{BadSymbol, block_of, bytes_of, read_symbols};
use field::Field;
use field::binary::Binary;
use field::prime::Prime;
use refusal::{Fault, Reason};

// Are the share numbers below n, and no two equal?
fn are_different(n: usize, shares: &[usize]) -> bool
    ensures { MatchBool result (Different n shares.now) (Different n shares.now → ⊥) }
{
    // A loop that ends early: with enumerate and all the proof was tried, and its goal stayed open.
    for (i, &share) in shares.iter().enumerate() {
        if share >= n || shares[..i].contains(&share) {
            return false;
        }
    }
    true
}

// The bytes of the blocks, as far as they lie below len. Fails where one is no byte. It fills its caller's room, as read_symbols does.
fn decode_blocks<F: Field>(
    points: &[F::Symbol],
    rows: &[F::Symbol; 16384],
    block: usize,
    len: usize,
    found: &mut [u8; 16384],
) -> Result<(), BadSymbol>
    requires few { length points.now ≤ 16 }
    requires short { block ≤ 1024 }
    requires cut { len ≤ length points.now * block }
    ensures { MatchResult result (λ _. (length found.new ≡ 16384) × ((b i : ℕ) → i < block → b * block + i < len → IsByteOf F.model (value_at F.Field points.now rows.now block (F.model.point b) i) (slice_index found.new (b * block + i)))) (λ _. (b : ℕ) × (i : ℕ) × (i < block) × (b * block + i < len) × HasNoByte F.model (value_at F.Field points.now rows.now block (F.model.point b) i)) }
{
    // By the number b, which is that of the block, of its point and of its place: over chunks_mut it would be counted all the same.
    for b in 0..points.len() {
        let start = b * block;
        if start >= len {
            break;
        }
        let point = F::point(b).unwrap();
        let mut sums = [F::zero(); 1024];
        interpolate::<F>(points, rows, block, point, &mut sums);
        let count = block.min(len - start);
        bytes_of::<F>(&sums[..count], &mut found[start..])?;
    }
    Ok(())
}

// As decode_in, but for its second clause, which follows from the first: so the steps of the code are proved to one clause, and the theorem apart.
fn decode_with<F: Field>(
    code: Code,
    shares: &[usize],
    payloads: &[u8],
    len: usize,
    out: &mut [u8],
) -> Result<(), Fault>
    ensures { Recovers F.model (numbers code) len shares.now payloads.now out.old out.new result }
{
    let k = code.k;
    let Some(block) = block_of::<F>(len, k) else {
        return Err(refuse(Reason::BadLength));
    };
    if shares.len() != k || payloads.len() != k * (block * F::WIDTH) {
        return Err(refuse(Reason::BadLength));
    }
    if !are_different(code.n, shares) {
        return Err(refuse(Reason::BadShare));
    }
    if out.len() < len {
        return Err(refuse(Reason::ShortBuffer));
    }
    let mut symbols = [F::zero(); 16384];
    read_symbols::<F>(payloads, k * block, &mut symbols)?;
    let points = points_of::<F>(shares);
    let mut found = [0u8; 16384];
    decode_blocks::<F>(&points[..k], &symbols, block, len, &mut found)?;
    out[..len].copy_from_slice(&found[..len]);
    Ok(())
}

// As decode_over. The second clause is proved here, so that a wrong call is refused by the contract of decode_over alone (a rule of the project).
fn decode_in<F: Field>(
    code: Code,
    shares: &[usize],
    payloads: &[u8],
    len: usize,
    out: &mut [u8],
) -> Result<(), Fault>
    ensures answers { Recovers F.model (numbers code) len shares.now payloads.now out.old out.new result }
    ensures restores { GivesBack F.model (numbers code) len shares.now payloads.now out.old out.new result }
{
    decode_with::<F>(code, shares, payloads, len, out)
}

impl Code {
    // Writes the file of this length to the start of the buffer, from k different shares with their payloads one after another.
    // The field may be any.
    pub fn decode_over<F: Field>(
        self,
        shares: &[usize],
        payloads: &[u8],
        len: usize,
        out: &mut [u8],
    ) -> Result<(), Fault>
        ensures answers { Recovers F.model (numbers self) len shares.now payloads.now out.old out.new result }
        ensures restores { GivesBack F.model (numbers self) len shares.now payloads.now out.old out.new result }
    {
        decode_in::<F>(self, shares, payloads, len, out)
    }

    // Writes the file of this length to the start of the buffer, from k different shares with their payloads one after another,
    // over the code's field.
    #[tactic(auto, using(crate::proofs::Chosen::over_prime, crate::proofs::Chosen::over_binary))]
    pub fn decode(
        self,
        shares: &[usize],
        payloads: &[u8],
        len: usize,
        out: &mut [u8],
    ) -> Result<(), Fault>
        ensures answers { Recovers (field_of (numbers self).field).model (numbers self) len shares.now payloads.now out.old out.new result }
        ensures restores { GivesBack (field_of (numbers self).field).model (numbers self) len shares.now payloads.now out.old out.new result }
    {
        match self.field {
            FieldChoice::Binary => self.decode_over::<Binary>(shares, payloads, len, out),
            FieldChoice::Prime => self.decode_over::<Prime>(shares, payloads, len, out),
        }
    }
}
