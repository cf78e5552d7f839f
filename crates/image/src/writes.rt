// How the bytes of one sled change. The bytes, whose length each method asks for, are a parameter and no field of a struct: each method would
// then also promise that the plan and the reference stay as they were, two clauses in place of one. That there is a place of the number that
// a method takes is asked of each call, since the number is the call's.
ghost use Rattle.std.specs.Prelude.{◌≡◌, ℕ, ◌+◌, ◌*◌, ◌<◌, ◌≤◌, length, slice_index};
ghost use Rattle.std.specs.List.{position_or_len};
ghost use Rattle.image.specs.Layouts.{places, over, freed, written, put_at, sled_after_put, sled_after_blank};
ghost use Rattle.image.specs.Racks.{sled_start, sled_bytes};
ghost use Rattle.image.specs.Places.{is_free};

use crate::place::Share;
use crate::plan::Plan;
use crate::sled::Sled;

impl Plan {
    // Sets the state of a place to 0.
    fn free(self, bytes: &mut [u8], place: usize)
        requires whole { length bytes.old ≡ self.cells * 1040 }
        requires within { place < self.cells }
        ensures { bytes.new ≡ freed self.layout self.cells place bytes.old }
    {
        bytes[self.entry_at(place)] = 0;
    }

    // Writes the entry and the payload of a share to a place.
    fn write(self, bytes: &mut [u8], place: usize, share: &Share<'_>)
        requires whole { length bytes.old ≡ self.cells * 1040 }
        requires within { place < self.cells }
        ensures { bytes.new ≡ written self.layout self.cells place share.now.key.id share.now.key.number share.now.payload.now bytes.old }
    {
        let start = self.entry_at(place);
        bytes[start..start + 16].copy_from_slice(&share.entry());
        let at = self.cell_at(place);
        bytes[at..at + share.payload.len()].copy_from_slice(share.payload);
    }

    // The first free place.
    fn next_place(self, bytes: &[u8]) -> usize
        requires whole { length bytes.now ≡ self.cells * 1040 }
        requires room { position_or_len is_free (places self.layout self.cells bytes.now) < self.cells }
        ensures { result ≡ position_or_len is_free (places self.layout self.cells bytes.now) }
    {
        Sled { plan: self, bytes }.first_free().unwrap()
    }

    // Puts a share to a place.
    fn put_at(self, bytes: &mut [u8], place: usize, share: &Share<'_>)
        requires whole { length bytes.old ≡ self.cells * 1040 }
        requires within { place < self.cells }
        ensures { bytes.new ≡ put_at self.layout self.cells place share.now.key.id share.now.key.number share.now.payload.now bytes.old }
    {
        self.write(bytes, place, share);
        if self.layout.frees_next() && place + 1 < self.cells {
            self.free(bytes, place + 1);
        }
    }

    // Puts a share to this place, which is the first free one.
    fn put_first(self, bytes: &mut [u8], place: usize, share: &Share<'_>)
        requires whole { length bytes.old ≡ self.cells * 1040 }
        requires first { place ≡ position_or_len is_free (places self.layout self.cells bytes.old) }
        requires room { place < self.cells }
        ensures { bytes.new ≡ sled_after_put self.layout self.cells share.now.key.id share.now.key.number share.now.payload.now bytes.old }
    {
        self.put_at(bytes, place, share);
    }

    // Puts a share to the first free place.
    fn put(self, bytes: &mut [u8], share: &Share<'_>)
        requires whole { length bytes.old ≡ self.cells * 1040 }
        requires room { position_or_len is_free (places self.layout self.cells bytes.old) < self.cells }
        ensures { bytes.new ≡ sled_after_put self.layout self.cells share.now.key.id share.now.key.number share.now.payload.now bytes.old }
    {
        let place = self.next_place(bytes);
        self.put_first(bytes, place, share);
    }

    // Empties the sled. A loop, since each turn writes: after `for_each` nothing is known of what its closure wrote.
    fn blank(self, bytes: &mut [u8])
        requires { length bytes.old ≡ self.cells * 1040 }
        ensures { bytes.new ≡ sled_after_blank self.layout self.cells bytes.old }
    {
        for place in 0..self.layout.blanked_places(self.cells) {
            self.free(bytes, place);
        }
    }

    // Puts a share on one sled of an image.
    pub(crate) fn put_on(self, image: &mut [u8], sled: usize, share: &Share<'_>)
        requires there { sled_start self.cells sled + self.cells * 1040 ≤ length image.old }
        requires room { position_or_len is_free (places self.layout self.cells (sled_bytes self.cells image.old sled)) < self.cells }
        ensures after { image.new ≡ over (sled_start self.cells sled) (sled_after_put self.layout self.cells share.now.key.id share.now.key.number share.now.payload.now (sled_bytes self.cells image.old sled)) image.old }
        ensures bytes { (k : ℕ) → slice_index image.new k < 256 }
    {
        let start = self.sled_start(sled);
        self.put(&mut image[start..start + self.size()], share);
    }

    // Empties one sled of an image. As put_on but for the call in it: one over both would take a closure that writes.
    pub(crate) fn blank_on(self, image: &mut [u8], sled: usize)
        requires { sled_start self.cells sled + self.cells * 1040 ≤ length image.old }
        ensures after { image.new ≡ over (sled_start self.cells sled) (sled_after_blank self.layout self.cells (sled_bytes self.cells image.old sled)) image.old }
        ensures bytes { (k : ℕ) → slice_index image.new k < 256 }
    {
        let start = self.sled_start(sled);
        self.blank(&mut image[start..start + self.size()]);
    }
}
