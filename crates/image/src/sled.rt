// The bytes of one sled: its places, how they are looked through, and what they hold.
ghost use Rattle.std.specs.Prelude.{◌≡◌, ◌-◌, ◌*◌, ◌<◌, ◌≤◌, length};

use crate::layout::Layout;
use crate::place::Place;
use crate::plan::Plan;
use bank::Key;

// One sled: how it is laid out, and its bytes.
#[derive(Clone, Copy)]
pub(crate) struct Sled<'a> {
    pub(crate) plan: Plan,
    pub(crate) bytes: &'a [u8],
    ghost whole: { length bytes.now ≡ plan.cells * 1040 },
}

impl<'a> Sled<'a> {
    ghost use Rattle.std.specs.Prelude.{count_by, position};
    ghost use Rattle.std.specs.List.{position_or_len, range_with_len};
    ghost use Rattle.std.specs.Option.{option_map};
    ghost use Rattle.bank.specs.Meaning.{held, count};
    ghost use Rattle.image.specs.Places.{is_free};
    ghost use Rattle.image.specs.Sleds.{read, place_in, places_in, seen_in, free_in, meaning_of};

    // One place.
    fn place(&self, number: usize) -> Place<'a>
        requires { number < self.now.plan.cells }
        ensures { read result ≡ place_in self.now number }
    {
        let entry = self.plan.entry_at(number);
        let cell = self.plan.cell_at(number);
        // From slices of just these lengths: from the rest of the sled, each chunk would be tested for being there.
        Place {
            entry: self.bytes[entry..entry + 16].first_chunk().unwrap(),
            cell: self.bytes[cell..cell + 1024].first_chunk().unwrap(),
        }
    }

    // Whether a place is free, by its state alone: a put asks it of place after place, and need not find their cells.
    fn is_free(&self, number: usize) -> bool
        requires { number < self.now.plan.cells }
        ensures { result ≡ free_in self.now number }
    {
        self.bytes[self.plan.entry_at(number)] == 0
    }

    // The first free place.
    pub(crate) fn first_free(&self) -> Option<usize>
        ensures { result ≡ position (free_in self.now) (range_with_len 0 self.now.plan.cells) }
    {
        (0..self.plan.cells).position(|number| self.is_free(number))
    }

    // How many places there are before the first free one.
    fn log_len(&self) -> usize
        ensures value { result ≡ position_or_len is_free (places_in self.now) }
        ensures within { result ≤ self.now.plan.cells }
        ensures room { self.now.plan.layout ≡ Layout.Zone → self.now.plan.cells - result ≡ (meaning_of self.now).room }
    {
        self.first_free().unwrap_or(self.plan.cells)
    }

    // How many places are free.
    fn free_places(&self) -> usize
        ensures { result ≡ count_by (free_in self.now) (range_with_len 0 self.now.plan.cells) }
    {
        (0..self.plan.cells)
            .filter(|&number| self.is_free(number))
            .count()
    }

    // The places that are seen.
    fn seen(&self) -> Seen<'a>
        ensures sled { result.sled ≡ self.now }
        ensures count { result.count ≡ seen_in self.now }
    {
        let count = match self.plan.layout {
            Layout::Tray => self.plan.cells,
            Layout::Zone => self.log_len(),
        };
        Seen { sled: *self, count }
    }

    // How many more shares the sled takes.
    #[tactic(auto, using(crate::proofs::Scanned::tray_room_is))]
    pub(crate) fn room(&self) -> usize
        ensures { result ≡ (meaning_of self.now).room }
    {
        match self.plan.layout {
            Layout::Tray => self.free_places(),
            Layout::Zone => self.plan.cells - self.log_len(),
        }
    }

    // How many shares the sled holds.
    pub(crate) fn count(&self) -> usize
        ensures { result ≡ count (meaning_of self.now) }
    {
        self.seen().total()
    }

    // The payload that the sled holds under this key.
    pub(crate) fn payload(&self, key: Key) -> Option<&'a [u8]>
        ensures { option_map (λ x. x.now) result ≡ held (meaning_of self.now) key.id key.number }
    {
        let seen = self.seen();
        let j = seen.find(key)?;
        Some(seen.place(j).payload())
    }
}

// The places of a sled that are seen, each at its turn; how many they are is `count`. A turn is a number that each call gives, below `count`.
#[derive(Clone, Copy)]
struct Seen<'a> {
    sled: Sled<'a>,
    count: usize,
    ghost within: { count ≤ sled.plan.cells },
}

impl<'a> Seen<'a> {
    ghost use Rattle.std.specs.Prelude.{count_by, position};
    ghost use Rattle.std.specs.List.{range_with_len};
    ghost use Rattle.image.specs.Scans.{turn};
    ghost use Rattle.image.specs.Sleds.{read, place_in, answers_in, counts_in};

    // The place that has its turn at j.
    fn place(&self, j: usize) -> Place<'a>
        requires { j < self.now.count }
        ensures { read result ≡ place_in self.now.sled (turn self.now.sled.plan.layout self.now.count j) }
    {
        self.sled.place(self.sled.plan.layout.turn(self.count, j))
    }

    // Whether the place that has its turn at j is sound and has this key.
    fn answers(&self, j: usize, key: Key) -> bool
        requires { j < self.now.count }
        ensures { result ≡ answers_in self.now.sled self.now.count key.id key.number j }
    {
        self.place(j).answers(key)
    }

    // The first turn at which a place is sound and has this key.
    fn find(&self, key: Key) -> Option<usize>
        ensures { result ≡ position (answers_in self.now.sled self.now.count key.id key.number) (range_with_len 0 self.now.count) }
    {
        (0..self.count).position(|j| self.answers(j, key))
    }

    // Whether the place that has its turn at j counts: it is sound, and no earlier one has its key.
    fn counts(&self, j: usize) -> bool
        requires { j < self.now.count }
        ensures { result ≡ counts_in self.now.sled self.now.count j }
    {
        let place = self.place(j);
        place.is_sound() && self.find(place.key()) == Some(j)
    }

    // How many of them count.
    fn total(&self) -> usize
        ensures { result ≡ count_by (counts_in self.now.sled self.now.count) (range_with_len 0 self.now.count) }
    {
        (0..self.count).filter(|&j| self.counts(j)).count()
    }
}
