// One place of a sled: its entry of 16 bytes, and its cell of 1,024.
ghost use Rattle.std.specs.Prelude.{◌≡◌, ◌<◌, ◌≤◌, length};

use crate::check::fnv1a;
use bank::Key;

// The entry and the cell of a place.
#[derive(Clone, Copy)]
pub(crate) struct Place<'a> {
    pub(crate) entry: &'a [u8; 16],
    pub(crate) cell: &'a [u8; 1024],
}

impl<'a> Place<'a> {
    ghost use Rattle.image.specs.Places.{is_sound, answers, payload_of};
    ghost use Rattle.image.specs.Sleds.{read};

    // The share number, as the entry tells it.
    fn number(&self) -> usize
        ensures { result ≡ (read self.now).number }
    {
        usize::from(self.entry[1])
    }

    // The length of the payload, as the entry tells it. Of it, the id and the check each has a number type of its own.
    fn length(&self) -> usize
        ensures { result ≡ (read self.now).len }
    {
        let entry = self.entry;
        usize::from(u16::from_le_bytes(entry[2..4].try_into().unwrap()))
    }

    // The id, as the entry tells it.
    fn id(&self) -> u32
        ensures { result ≡ (read self.now).id }
    {
        let entry = self.entry;
        u32::from_le_bytes(entry[4..8].try_into().unwrap())
    }

    // The check, as the entry tells it.
    fn check(&self) -> u64
        ensures { result ≡ (read self.now).check }
    {
        let entry = self.entry;
        u64::from_le_bytes(entry[8..16].try_into().unwrap())
    }

    // The payload: as many bytes of the cell as the entry says, or all of them.
    pub(crate) fn payload(&self) -> &'a [u8]
        ensures { result.now ≡ payload_of (read self.now) }
    {
        let cell = self.cell.as_slice();
        &cell[..self.length().min(cell.len())]
    }

    // Whether the place is sound.
    pub(crate) fn is_sound(&self) -> bool
        ensures { result ≡ is_sound (read self.now) }
    {
        self.entry[0] == 1
            && self.number() < 32
            && (1..=1024).contains(&self.length())
            && fnv1a(self.payload()) == self.check()
    }

    // The key, as the entry tells it.
    pub(crate) fn key(&self) -> Key
        ensures id { result.id ≡ (read self.now).id }
        ensures number { result.number ≡ (read self.now).number }
    {
        Key {
            id: self.id(),
            number: self.number(),
        }
    }

    // Whether the place is sound and has this key, field by field, as the definition says it.
    pub(crate) fn answers(&self, key: Key) -> bool
        ensures { result ≡ answers key.id key.number (read self.now) }
    {
        self.id() == key.id && self.number() == key.number && self.is_sound()
    }
}

// A share that a place can hold: its key, and its payload.
#[derive(Clone, Copy)]
pub(crate) struct Share<'a> {
    pub(crate) key: Key,
    pub(crate) payload: &'a [u8],
    ghost low: { key.number < 32 },
    ghost short: { length payload.now ≤ 1024 },
}

impl Share<'_> {
    ghost use Rattle.image.specs.Places.{entry_of};

    // The entry of a place that holds the share. `as`, since the bounds above say that the numbers fit.
    pub(crate) fn entry(&self) -> [u8; 16]
        ensures { result ≡ entry_of self.now.key.id self.now.key.number self.now.payload.now }
    {
        let [l0, l1] = (self.payload.len() as u16).to_le_bytes();
        let [i0, i1, i2, i3] = self.key.id.to_le_bytes();
        let [c0, c1, c2, c3, c4, c5, c6, c7] = fnv1a(self.payload).to_le_bytes();
        let number = self.key.number as u8;
        [
            1, number, l0, l1, i0, i1, i2, i3, c0, c1, c2, c3, c4, c5, c6, c7,
        ]
    }
}
