// The shares of a dump on the sleds of a bank.
ghost use Rattle.std.specs.Prelude.{◌≡◌, IfOk, IfErr, vec_len, OnOk};
ghost use Rattle.dumps.specs.Shares.{BringsBack};
ghost use Rattle.dumps.specs.Failures.{OfCall};
ghost use Rattle.dumps.specs.Kept.{AllKept, HoldsPayload, held_payloads};

use crate::failure::Failure;
use crate::shares::{PAYLOAD_LIMIT, Share, restore};
use bank::{Bank, Key};
use code::Code;
use std::alloc::Global;

// Puts the shares on the sleds, one sled after another and again from the first.
pub fn keep<B: Bank>(bank: &mut B, id: u32, shares: &[Share]) -> Result<(), Failure>
    ensures kept { OnOk result (AllKept (B.meaning bank.new) id shares.now) }
    ensures failure { IfErr result OfCall }
{
    let sleds = bank.sleds();
    for share in shares {
        let number = share.number;
        bank.put(number % sleds, Key { id, number }, share.payload.as_slice())?;
    }
    Ok(())
}

// The shares that a bank keeps under an id.
#[derive(Clone, Copy)]
pub struct Kept<'a, B> {
    pub bank: &'a B,
    pub id: u32,
}

impl<B: Bank> Kept<'_, B> {
    // The payload of the share of this number, from the sled that it was put on.
    fn payload(&self, heap: Global, number: usize) -> Result<Vec<u8>, Failure>
        ensures payload { IfOk result (λ v. HoldsPayload (B.meaning self.now.bank.now) self.now.id number v.items) }
        ensures failure { IfErr result OfCall }
    {
        let mut payload = vec![in heap; 0u8; PAYLOAD_LIMIT]?;
        let sled = number % self.bank.sleds();
        let key = Key {
            id: self.id,
            number,
        };
        let size = self.bank.fetch(sled, key, payload.as_mut_slice())?;
        payload.truncate(size);
        Ok(payload)
    }

    // The payloads of the shares of these numbers, one after another.
    fn payloads(&self, heap: Global, numbers: &[usize]) -> Result<Vec<u8>, Failure>
        ensures payloads { IfOk result (λ v. v.items ≡ held_payloads (B.meaning self.now.bank.now) self.now.id numbers.now) }
        ensures failure { IfErr result OfCall }
    {
        // a loop: each turn may fail, by the bank or for want of memory
        let mut payloads = Vec::new(heap);
        for number in numbers {
            let payload = self.payload(heap, *number)?;
            payloads.extend_from_slice(payload.as_slice())?;
        }
        Ok(payloads)
    }

    // A dump of this length from the shares of these numbers.
    pub fn bring_back(
        &self,
        heap: Global,
        code: Code,
        numbers: &[usize],
        len: usize,
    ) -> Result<Vec<u8>, Failure>
        ensures file { IfOk result (λ v. (vec_len v ≡ len) × BringsBack code numbers.now (held_payloads (B.meaning self.now.bank.now) self.now.id numbers.now) len v.items) }
        ensures failure { IfErr result OfCall }
    {
        let payloads = self.payloads(heap, numbers)?;
        restore(heap, code, numbers, payloads.as_slice(), len)
    }
}
