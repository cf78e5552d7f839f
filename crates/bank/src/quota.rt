// A quota on the shares of each sled of the bank below.
ghost use Rattle.std.specs.Prelude.{◌≡◌, length, is_some};
ghost use Rattle.bank.specs.Calls.{Fetches, Blanks};
ghost use Rattle.bank.specs.Layers.{quota_of, under, limited};
ghost use Rattle.bank.specs.Below.{PutsUnder};
ghost use Rattle.bank.specs.Meaning.{sled_at, held, count};
ghost use Rattle.bank.specs.Limited.{sound_limited};

use crate::{Bank, Key};
use refusal::Fault;

// The quota of each sled: how many shares it may hold, 0 for one that is only read.
#[derive(Clone, Copy, Debug)]
pub struct Limits {
    numbers: [usize; 32],
}

impl Limits {
    // The quota of one sled: one above 4,096 counts as 4,096, and a sled from number 32 on has none.
    fn quota(&self, sled: usize) -> usize
        ensures { result ≡ quota_of self.now.numbers sled }
    {
        self.numbers.get(sled).map_or(0, |&number| number.min(4096))
    }
}

// A bank whose sleds take no more shares than their quotas; a sled that holds more keeps them. No `impl Model`, as for a join.
#[derive(Debug, Drop)]
pub struct Quota<B> {
    bank: B,
    limits: Limits,
}

impl<B: Bank> Quota<B> {
    // The bank under these quotas, one for each sled.
    pub fn new(bank: B, quotas: [usize; 32]) -> Self
        ensures { result ≡ record { bank = bank; limits = record { numbers = quotas } } }
    {
        Quota {
            bank,
            limits: Limits { numbers: quotas },
        }
    }

    // The bank below.
    pub fn into_bank(self) -> B
        ensures { result ≡ self.bank }
    {
        self.bank
    }
}

// The clauses speak of the bank below; from them follows what the trait asks of the bank under its quotas.
impl<B: Bank> Bank for Quota<B> {
    ghost meaning = { λ q. limited (quota_of q.limits.numbers) (B.meaning q.bank) };

    ghost sound = { λ b. sound_limited _ _ (B.sound b.bank) };

    fn sleds(&self) -> usize
        ensures { result ≡ length (B.meaning self.now.bank) }
    {
        self.bank.sleds()
    }

    fn has(&self, sled: usize, key: Key) -> bool
        ensures { result ≡ is_some (held (sled_at (B.meaning self.now.bank) sled) key.id key.number) }
    {
        self.bank.has(sled, key)
    }

    fn room(&self, sled: usize) -> usize
        ensures { result ≡ (under (quota_of self.now.limits.numbers sled) (sled_at (B.meaning self.now.bank) sled)).room }
    {
        let left = self
            .limits
            .quota(sled)
            .saturating_sub(self.bank.count(sled));
        self.bank.room(sled).min(left)
    }

    fn size(&self, sled: usize) -> usize
        ensures { result ≡ (under (quota_of self.now.limits.numbers sled) (sled_at (B.meaning self.now.bank) sled)).size }
    {
        self.limits.quota(sled).min(self.bank.size(sled))
    }

    fn count(&self, sled: usize) -> usize
        ensures { result ≡ count (sled_at (B.meaning self.now.bank) sled) }
    {
        self.bank.count(sled)
    }

    fn fetch(&self, sled: usize, key: Key, buffer: &mut [u8]) -> Result<usize, Fault>
        ensures { Fetches (B.meaning self.now.bank) sled key.id key.number buffer.old buffer.new result }
    {
        self.bank.fetch(sled, key, buffer)
    }

    fn put(&mut self, sled: usize, key: Key, payload: &[u8]) -> Result<(), Fault>
        ensures below { PutsUnder (quota_of self.old.limits.numbers) (B.meaning self.old.bank) (B.meaning self.new.bank) sled key.id key.number payload.now result }
        ensures limits { self.new.limits ≡ self.old.limits }
    {
        self.check_put(sled, key, payload.len())?;
        self.bank.put(sled, key, payload)
    }

    fn blank(&mut self, sled: usize) -> Result<(), Fault>
        ensures below { Blanks (B.meaning self.old.bank) (B.meaning self.new.bank) sled result }
        ensures limits { self.new.limits ≡ self.old.limits }
    {
        self.bank.blank(sled)
    }
}
