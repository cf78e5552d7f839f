// An open image, and the bank that it is.
ghost use Rattle.std.specs.Prelude.{◌≡◌, ℕ, ◌<◌, take, slice_index};
ghost use Rattle.image.specs.Layouts.{mark};
ghost use Rattle.image.specs.Opening.{Shape};

use crate::header::check_header;
use crate::layout::{Format, TrayFormat, ZoneFormat};
use crate::place::Share;
use crate::plan::Plan;
use crate::sled::Sled;
use bank::checks::{check_fetch, check_sled};
use bank::{Bank, Key};
use refusal::Fault;
use std::marker::PhantomData;

// An open image of a format: it has the mark of its layout, and its header and its length fit each other. What it means is said by its bytes;
// an `impl Model` with the bytes as the value would lose the fields below, from which the law `sound` follows.
#[derive(Drop)]
pub struct Image<F: Format> {
    bytes: Vec<u8>,
    format: PhantomData<F>,
    ghost marked: { take 4 bytes.items ≡ mark F.LAYOUT },
    ghost shape: { Shape bytes.items },
    ghost typed: { (k : ℕ) → slice_index bytes.items k < 256 },
}

// An open tray: an image whose sleds have all their entries before their cells. The lowest free place is filled first.
pub type Tray = Image<TrayFormat>;

// An open zone: an image whose sleds are logs of places, each an entry and its cell. The log ends before the first free place.
pub type Zone = Image<ZoneFormat>;

// An image that was not opened: why, and its bytes.
#[derive(Debug, Drop)]
pub struct Unopened {
    pub fault: Fault,
    pub bytes: Vec<u8>,
}

impl<F: Format> Image<F> {
    ghost use Rattle.std.specs.Prelude.{length, MatchOption};
    ghost use Rattle.std.specs.Option.{option_map};
    ghost use Rattle.refusal.specs.Grounds.{Answers, Clear};
    ghost use Rattle.bank.specs.Meaning.{no_sled, sled_at, held};
    ghost use Rattle.image.specs.Racks.{cells_of, rack_of};
    ghost use Rattle.image.specs.Opening.{open_grounds};
    ghost use Rattle.image.specs.Images.{vec_of, bytes_of, why};
    ghost use Rattle.image.specs.Sleds.{meaning_of};

    // Opens an image, or hands its bytes back.
    pub fn open(bytes: Vec<u8>) -> Result<Self, Unopened>
        ensures { Answers (open_grounds F.LAYOUT bytes.items) why result (λ i. vec_of i ≡ bytes) (λ u. u.bytes ≡ bytes) }
    {
        match check_header::<F>(bytes.as_slice()) {
            Ok(()) => Ok(Image {
                bytes,
                format: PhantomData,
            }),
            Err(fault) => Err(Unopened { fault, bytes }),
        }
    }

    // Closes the image: its bytes, which open again.
    pub fn into_image(self) -> Vec<u8>
        ensures bytes { result ≡ vec_of self }
        ensures opens { Clear (open_grounds F.LAYOUT result.items) }
    {
        let Image { bytes, format: _ } = self;
        bytes
    }

    // How many sleds there are. Below `sleds`, so that an edit of that is refused for what it says.
    fn sled_count(&self) -> usize
        ensures { result ≡ length (rack_of F.LAYOUT (bytes_of self.now)) }
    {
        usize::from(self.bytes.as_slice()[4])
    }

    // How the sleds are laid out.
    fn plan(&self) -> Plan
        ensures layout { result.layout ≡ F.LAYOUT }
        ensures cells { result.cells ≡ cells_of (bytes_of self.now) }
    {
        Plan {
            layout: F::LAYOUT,
            cells: usize::from(self.bytes.as_slice()[5]),
        }
    }

    // The sled of this number, if there is one.
    fn sled(&self, sled: usize) -> Option<Sled<'_>>
        ensures { MatchOption result (sled_at (rack_of F.LAYOUT (bytes_of self.now)) sled ≡ no_sled) (λ s. sled_at (rack_of F.LAYOUT (bytes_of self.now)) sled ≡ meaning_of s) }
    {
        if sled >= self.sleds() {
            return None;
        }
        let image = self.bytes.as_slice();
        let plan = self.plan();
        let start = plan.sled_start(sled);
        Some(Sled {
            plan,
            bytes: &image[start..start + plan.size()],
        })
    }

    // The payload that a sled holds under this key.
    fn payload(&self, sled: usize, key: Key) -> Option<&[u8]>
        ensures { option_map (λ x. x.now) result ≡ held (sled_at (rack_of F.LAYOUT (bytes_of self.now)) sled) key.id key.number }
    {
        self.sled(sled)?.payload(key)
    }
}

impl<F: Format> Bank for Image<F> {
    ghost use Rattle.std.specs.Prelude.{MatchResult};
    ghost use Rattle.bank.specs.Calls.{Puts, Blanks};
    ghost use Rattle.image.specs.Racks.{rack_of, after_put, after_blank};
    ghost use Rattle.image.specs.Images.{bytes_of};
    ghost use Rattle.image.specs.Opened.{bounds_in};

    ghost meaning = { λ i. rack_of F.LAYOUT (bytes_of i) };

    ghost sound = { λ i. bounds_in F.LAYOUT i };

    fn sleds(&self) -> usize {
        self.sled_count()
    }

    fn has(&self, sled: usize, key: Key) -> bool {
        self.payload(sled, key).is_some()
    }

    fn room(&self, sled: usize) -> usize {
        self.sled(sled).map_or(0, |s| s.room())
    }

    fn size(&self, sled: usize) -> usize {
        self.sled(sled).map_or(0, |s| s.plan.cells)
    }

    fn count(&self, sled: usize) -> usize {
        self.sled(sled).map_or(0, |s| s.count())
    }

    fn fetch(&self, sled: usize, key: Key, buffer: &mut [u8]) -> Result<usize, Fault> {
        let room = buffer.len();
        match self.payload(sled, key) {
            Some(payload) => {
                let due = check_fetch(self.sleds(), sled, key.number, Some(payload.len()), room)?;
                buffer[0..due].copy_from_slice(payload);
                Ok(due)
            }
            None => check_fetch(self.sleds(), sled, key.number, None, room),
        }
    }

    fn put(&mut self, sled: usize, key: Key, payload: &[u8]) -> Result<(), Fault>
        ensures answer { Puts (rack_of F.LAYOUT (bytes_of self.old)) (rack_of F.LAYOUT (bytes_of self.new)) sled key.id key.number payload.now result }
        ensures image { MatchResult result (λ _. bytes_of self.new ≡ after_put F.LAYOUT sled key.id key.number payload.now (bytes_of self.old)) (λ _. bytes_of self.new ≡ bytes_of self.old) }
    {
        self.check_put(sled, key, payload.len())?;
        let plan = self.plan();
        let image = self.bytes.as_mut_slice();
        plan.put_on(image, sled, &Share { key, payload });
        Ok(())
    }

    fn blank(&mut self, sled: usize) -> Result<(), Fault>
        ensures answer { Blanks (rack_of F.LAYOUT (bytes_of self.old)) (rack_of F.LAYOUT (bytes_of self.new)) sled result }
        ensures image { MatchResult result (λ _. bytes_of self.new ≡ after_blank F.LAYOUT sled (bytes_of self.old)) (λ _. bytes_of self.new ≡ bytes_of self.old) }
    {
        check_sled(self.sleds(), sled)?;
        let plan = self.plan();
        let image = self.bytes.as_mut_slice();
        plan.blank_on(image, sled);
        Ok(())
    }
}
