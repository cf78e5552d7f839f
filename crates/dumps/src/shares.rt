// A dump as shares, and the dump from some of them.
ghost use Rattle.std.specs.Prelude.{◌≡◌, IfOk, IfErr, vec_len};
ghost use Rattle.code.specs.Codes.{numbers as code-numbers};
ghost use Rattle.dumps.specs.Failures.{OfCall};
ghost use Rattle.dumps.specs.Shares.{MadeShare, AllMade, joined, BringsBack, absent};

use crate::failure::Failure;
use crate::words::Summed;
use code::Code;
use std::alloc::Global;
use std::fmt;

// The most bytes that a payload has.
pub(crate) const PAYLOAD_LIMIT: usize = 1024;

// A share of a file: its number, and the bytes that it holds.
#[derive(Drop)]
pub struct Share {
    pub number: usize,
    pub payload: Vec<u8>,
}

impl fmt::Display for Share {
    // Writes the number, and what the bytes sum up to.
    fn fmt<W: fmt::Write>(&self, f: &mut fmt::Formatter<W>) -> fmt::Result {
        let number = self.number;
        let payload = Summed(self.payload.as_slice());
        write!(f, "share {number}: {payload}")
    }
}

// The allocator and the code stay two parameters: an allocator goes first wherever memory is taken, and a struct of the two
// would be made at each call only to be taken apart in it.

// One share of the file.
fn make_share(heap: Global, code: Code, file: &[u8], number: usize) -> Result<Share, Failure>
    ensures made { IfOk result (λ share. MadeShare code file.now number share) }
    ensures failure { IfErr result OfCall }
{
    let mut payload = vec![in heap; 0u8; PAYLOAD_LIMIT]?;
    let size = code.encode(file, number, payload.as_mut_slice())?;
    payload.truncate(size);
    Ok(Share { number, payload })
}

// All shares of the file, by their numbers.
pub fn cut(heap: Global, code: Code, file: &[u8]) -> Result<Vec<Share>, Failure>
    ensures made { IfOk result (λ v. (vec_len v ≡ (code-numbers code).n) × AllMade code file.now v.items) }
    ensures failure { IfErr result OfCall }
{
    // a loop: with `map` and `try_collect` the proof was tried many times, and its last step stayed open
    let mut shares = Vec::new(heap);
    for number in 0..code.n() {
        shares.push(make_share(heap, code, file, number)?)?;
    }
    Ok(shares)
}

// The payloads of the shares with these numbers, one after another.
pub fn gather(heap: Global, shares: &[Share], numbers: &[usize]) -> Result<Vec<u8>, Failure>
    ensures { IfOk result (λ v. v.items ≡ joined shares.now numbers.now) }
{
    // a loop: a share that there is not ends it, and each turn may run out of memory
    let mut payloads = Vec::new(heap);
    for number in numbers {
        let Some(share) = shares.get(*number) else {
            return Err(Failure::NoShare(*number));
        };
        payloads.extend_from_slice(share.payload.as_slice())?;
    }
    Ok(payloads)
}

// The file of this length from the shares with these numbers, whose payloads stand one after another.
pub fn restore(
    heap: Global,
    code: Code,
    numbers: &[usize],
    payloads: &[u8],
    len: usize,
) -> Result<Vec<u8>, Failure>
    ensures file { IfOk result (λ v. (vec_len v ≡ len) × BringsBack code numbers.now payloads.now len v.items) }
    ensures failure { IfErr result OfCall }
{
    let mut file = vec![in heap; 0u8; len]?;
    code.decode(numbers, payloads, len, file.as_mut_slice())?;
    Ok(file)
}

// The numbers below n that are not kept, the smallest first.
pub fn lost(heap: Global, n: usize, kept: &[usize]) -> Result<Vec<usize>, Failure>
    ensures lost { IfOk result (λ v. v.items ≡ absent n kept.now) }
    ensures failure { IfErr result OfCall }
{
    Ok(
        (0..n)
            .filter(|number| !kept.contains(number))
            .collect(heap)?,
    )
}
