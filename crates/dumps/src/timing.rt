// How long it takes to make shares.
ghost use Rattle.std.specs.Prelude.{◌≡◌, ◌≤◌, IfOk, IfErr, OnOk, take, replicate, vec_len};
ghost use Rattle.std.specs.List.Sorted.{IsNonDecreasing};
ghost use Rattle.code.specs.Codes.{numbers as code-numbers, numbered, field_number};
ghost use Rattle.code.specs.declared.shape.FieldChoice.TheVariants.{Binary, Prime};
ghost use Rattle.dumps.specs.Failures.{OfCall};
ghost use Rattle.dumps.specs.Timing.{IsMeasured};

use crate::failure::Failure;
use code::{Code, FieldChoice};
use image::check::fnv1a;
use std::alloc::{AllocGlobal, Global};
use std::fmt;
use std::time::{Clock, Instant};

// The number of blocks, and of the shares that are made.
const K: usize = 16;

// The number of all shares, of which those from number k on are made.
const N: usize = 32;

// The bytes of a payload.
const PAYLOAD: usize = 1024;

// How often the time is taken.
const ROUNDS: usize = 21;

// How often the shares are made in a round.
const REPEATS: u64 = 20;

// What is timed: shares of a file that are made one after another into the same buffer.
#[derive(Drop)]
struct Bench {
    code: Code,
    file: Vec<u8>,
    buffer: Vec<u8>,
    // the length of the payload that was made last: the buffer keeps its own, since it is written again and again
    size: usize,
    ghost in_buffer: { size ≤ vec_len buffer },
}

impl Bench {
    ghost use Rattle.dumps.specs.Bench.{HasMade, SameWork};

    // The bench for a file of so many equal bytes.
    fn new(heap: Global, field: FieldChoice, len: usize) -> Result<Bench, Failure>
        ensures bench { IfOk result (λ b. (code-numbers b.code ≡ numbered (field_number field) 16 16 32) × (b.file.items ≡ replicate len 0xA5)) }
        ensures failure { IfErr result OfCall }
    {
        let code = Code::new(usize::from(field), K, K, N)?;
        let file = vec![in heap; 0xA5u8; len]?;
        let buffer = vec![in heap; 0u8; PAYLOAD]?;
        Ok(Bench {
            code,
            file,
            buffer,
            size: 0,
        })
    }

    // The payload that was made last.
    fn payload(&self) -> &[u8]
        ensures { result.now ≡ take self.now.size self.now.buffer.items }
    {
        &self.buffer[..self.size]
    }

    // Makes one share.
    fn make_share(&mut self, share: usize) -> Result<(), Failure>
        ensures made { OnOk result (HasMade self.new share) }
        ensures same { SameWork self.old self.new }
        ensures failure { IfErr result OfCall }
    {
        self.size = self
            .code
            .encode(self.file.as_slice(), share, self.buffer.as_mut_slice())?;
        Ok(())
    }

    // Makes the shares from number k on.
    fn make_shares(&mut self) -> Result<(), Failure>
        ensures made { OnOk result (HasMade self.new 31) }
        ensures same { SameWork self.old self.new }
        ensures failure { IfErr result OfCall }
    {
        // by the numbers of shares, each of which may fail
        for share in K..N {
            self.make_share(share)?;
        }
        Ok(())
    }

    // The nanoseconds that it takes to make the shares once, as the mean of one round.
    fn time_round(&mut self, clock: &impl Clock) -> Result<u64, Failure>
        ensures made { OnOk result (HasMade self.new 31) }
        ensures same { SameWork self.old self.new }
        ensures failure { IfErr result OfCall }
    {
        let start = Instant::now(clock)?;
        // one step again and again, which may fail
        for _ in 0..REPEATS {
            self.make_shares()?;
        }
        let nanos = start.elapsed(clock)?.as_nanos();
        Ok(u64::try_from(nanos).unwrap_or(u64::MAX) / REPEATS)
    }

    // The times of all rounds, the smallest first, after a round whose time does not count.
    fn time_rounds(&mut self, clock: &impl Clock) -> Result<[u64; ROUNDS], Failure>
        ensures sorted { IfOk result IsNonDecreasing }
        ensures made { OnOk result (HasMade self.new 31) }
        ensures same { SameWork self.old self.new }
        ensures failure { IfErr result OfCall }
    {
        let _warm_up = self.time_round(clock)?;
        // a loop: each turn changes the bench, of which the proof would learn nothing from a closure
        let mut times = [0; ROUNDS];
        for time in &mut times {
            *time = self.time_round(clock)?;
        }
        times.sort_unstable();
        Ok(times)
    }
}

// What a measurement tells: the field, the bytes of a block, the smallest and the median time in microseconds,
// and the check sum of the last payload.
#[derive(Clone, Copy, Debug)]
pub struct Measurement {
    pub field: FieldChoice,
    pub block: usize,
    pub smallest: u64,
    pub median: u64,
    pub check: u64,
}

impl fmt::Display for Measurement {
    // Writes what was measured in one line, and what came out in another.
    fn fmt<W: fmt::Write>(&self, f: &mut fmt::Formatter<W>) -> fmt::Result {
        let field = usize::from(self.field);
        let Measurement {
            block,
            smallest,
            median,
            check,
            ..
        } = self;
        writeln!(
            f,
            "field {field}: shares 16 to 31 from 16 blocks of {block} bytes"
        )?;
        write!(
            f,
            "  smallest {smallest} us, median {median} us, the last payload's check sum {check:#018x}"
        )
    }
}

// The first line of what is told of measurements, which is printed before any is made.
#[derive(Clone, Copy, Debug)]
pub struct Heading;

impl fmt::Display for Heading {
    // Writes how many shares are made, and how often.
    fn fmt<W: fmt::Write>(&self, f: &mut fmt::Formatter<W>) -> fmt::Result {
        write!(f, "time to make 16 shares: {ROUNDS} rounds of {REPEATS}")
    }
}

// The measurements of both fields.
#[derive(Clone, Copy, Debug)]
pub struct Report {
    pub binary: Measurement,
    pub prime: Measurement,
}

impl fmt::Display for Report {
    // Writes the heading, and then the measurements.
    fn fmt<W: fmt::Write>(&self, f: &mut fmt::Formatter<W>) -> fmt::Result {
        let Report { binary, prime } = self;
        write!(f, "{}\n{binary}\n{prime}", Heading)
    }
}

// Measures one field with a file of so many equal bytes.
pub fn measure(
    rt: &(impl Clock + AllocGlobal),
    field: FieldChoice,
    len: usize,
) -> Result<Measurement, Failure>
    ensures measured { IfOk result (IsMeasured field len) }
    ensures failure { IfErr result OfCall }
{
    let mut bench = Bench::new(rt.alloc(), field, len)?;
    let times = bench.time_rounds(rt)?;
    Ok(Measurement {
        field,
        block: len / K,
        smallest: times[0] / 1000,
        median: times[ROUNDS / 2] / 1000,
        check: fnv1a(bench.payload()),
    })
}

// Measures each field, with a file of which each payload has 1,024 bytes.
pub fn measure_fields(rt: &(impl Clock + AllocGlobal)) -> Result<Report, Failure>
    ensures binary { IfOk result (λ r. IsMeasured Binary 16384 r.binary) }
    ensures prime { IfOk result (λ r. IsMeasured Prime 8192 r.prime) }
    ensures failure { IfErr result OfCall }
{
    Ok(Report {
        binary: measure(rt, FieldChoice::Binary, 16384)?,
        prime: measure(rt, FieldChoice::Prime, 8192)?,
    })
}

// Measures each field as measure_fields does. Prints the heading first and each measurement as soon as it is made, so that a run that ends early has told
// what it knew.
pub fn show_fields(rt: &(impl Clock + AllocGlobal + Print)) -> Result<Report, Failure>
    ensures binary { IfOk result (λ r. IsMeasured Binary 16384 r.binary) }
    ensures prime { IfOk result (λ r. IsMeasured Prime 8192 r.prime) }
    ensures failure { IfErr result OfCall }
{
    println!(rt; "{}", Heading)?;
    let binary = measure(rt, FieldChoice::Binary, 16384)?;
    println!(rt; "{binary}")?;
    let prime = measure(rt, FieldChoice::Prime, 8192)?;
    println!(rt; "{prime}")?;
    Ok(Report { binary, prime })
}
