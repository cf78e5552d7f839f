// The sleds of two banks in one row: those of the second after those of the first, as far as number 31.
ghost use Rattle.std.specs.Prelude.{◌≡◌, ◌+◌, min, length};
ghost use Rattle.bank.specs.Layers.{joined};
ghost use Rattle.bank.specs.Meaning.{sled_at};
ghost use Rattle.bank.specs.Below.{side_among, side_of, sled_on, FetchesBySide, PutsBySide, BlanksBySide};
ghost use Rattle.bank.specs.Joined.{sound_joined};

use crate::checks::refuse;
use crate::{Bank, Key};
use refusal::{Fault, Reason};

// The bank in which a sled lies, and the number that it has there.
#[derive(Clone, Copy, Debug)]
enum Side {
    First(usize),
    Second(usize),
}

// The side of a sled, if there is one, by the number of the first bank's sleds and that of all.
fn side_by(first: usize, sleds: usize, sled: usize) -> Option<Side>
    ensures { result ≡ side_among first sleds sled }
{
    if sled < first {
        Some(Side::First(sled))
    } else if sled < sleds {
        Some(Side::Second(sled - first))
    } else {
        None
    }
}

// Two banks as one. No `impl Model`: with one, no type could lead through a join to itself, as a type of piles of any depth does.
#[derive(Debug, Drop)]
pub struct Join<L, R> {
    first: L,
    second: R,
}

impl<L: Bank, R: Bank> Join<L, R> {
    // The two banks in this order.
    pub fn new(first: L, second: R) -> Self
        ensures { result ≡ record { first = first; second = second } }
    {
        Join { first, second }
    }

    // The two banks below.
    pub fn into_banks(self) -> (L, R)
        ensures { result ≡ (self.first, self.second) }
    {
        (self.first, self.second)
    }

    // The side on which a sled lies, if there is one of this number.
    fn side(&self, sled: usize) -> Option<Side>
        ensures value { result ≡ side_of (L.meaning self.now.first) (R.meaning self.now.second) sled }
        ensures same { sled_at (joined (L.meaning self.now.first) (R.meaning self.now.second)) sled ≡ sled_on result (L.meaning self.now.first) (R.meaning self.now.second) }
    {
        side_by(self.first.sleds(), self.sleds(), sled)
    }
}

// Each method matches on the side itself: a helper would take two closures at each call, one for each bank, and be no shorter.
// The clauses speak of the two banks below; from them follows what the trait asks of the two as one.
impl<L: Bank, R: Bank> Bank for Join<L, R> {
    ghost meaning = { λ j. joined (L.meaning j.first) (R.meaning j.second) };

    ghost sound = { λ b. sound_joined _ _ (L.sound b.first) (R.sound b.second) };

    fn sleds(&self) -> usize
        ensures { result ≡ min (length (L.meaning self.now.first) + length (R.meaning self.now.second)) 32 }
    {
        (self.first.sleds() + self.second.sleds()).min(32)
    }

    fn has(&self, sled: usize, key: Key) -> bool {
        match self.side(sled) {
            Some(Side::First(k)) => self.first.has(k, key),
            Some(Side::Second(k)) => self.second.has(k, key),
            None => false,
        }
    }

    fn room(&self, sled: usize) -> usize {
        match self.side(sled) {
            Some(Side::First(k)) => self.first.room(k),
            Some(Side::Second(k)) => self.second.room(k),
            None => 0,
        }
    }

    fn size(&self, sled: usize) -> usize {
        match self.side(sled) {
            Some(Side::First(k)) => self.first.size(k),
            Some(Side::Second(k)) => self.second.size(k),
            None => 0,
        }
    }

    fn count(&self, sled: usize) -> usize {
        match self.side(sled) {
            Some(Side::First(k)) => self.first.count(k),
            Some(Side::Second(k)) => self.second.count(k),
            None => 0,
        }
    }

    fn fetch(&self, sled: usize, key: Key, buffer: &mut [u8]) -> Result<usize, Fault>
        ensures { FetchesBySide (L.meaning self.now.first) (R.meaning self.now.second) sled key.id key.number buffer.old buffer.new result }
    {
        match self.side(sled).ok_or(refuse(Reason::BadSled, sled))? {
            Side::First(k) => self.first.fetch(k, key, buffer),
            Side::Second(k) => self.second.fetch(k, key, buffer),
        }
    }

    fn put(&mut self, sled: usize, key: Key, payload: &[u8]) -> Result<(), Fault>
        ensures { PutsBySide (L.meaning self.old.first) (L.meaning self.new.first) (R.meaning self.old.second) (R.meaning self.new.second) sled key.id key.number payload.now result }
    {
        match self.side(sled).ok_or(refuse(Reason::BadSled, sled))? {
            Side::First(k) => self.first.put(k, key, payload),
            Side::Second(k) => self.second.put(k, key, payload),
        }
    }

    fn blank(&mut self, sled: usize) -> Result<(), Fault>
        ensures { BlanksBySide (L.meaning self.old.first) (L.meaning self.new.first) (R.meaning self.old.second) (R.meaning self.new.second) sled result }
    {
        match self.side(sled).ok_or(refuse(Reason::BadSled, sled))? {
            Side::First(k) => self.first.blank(k),
            Side::Second(k) => self.second.blank(k),
        }
    }
}
