// Banks: racks of sleds that hold shares of files, the one interface that they have, and layers over them.
#![tactic(auto)]

ghost use Rattle.std.specs.Prelude.{◌≡◌, length, is_some};
ghost use Rattle.bank.specs.Calls.{put_grounds, Checks, Fetches, Puts, Blanks};
ghost use Rattle.bank.specs.Meaning.{Rack, Sound, sled_at, held, count};

use refusal::Fault;

pub mod checks;
pub mod join;
pub mod key;
pub mod quota;
pub mod theorems;

pub use key::Key;

// A bank: a rack of 1 to 32 sleds. Every call takes any numbers and any buffers. A question about a sled that there is not, or about a
// share from 32 on, is answered by no or 0. Neither the number of sleds nor a sled's size ever changes.
pub trait Bank {
    // what the bank holds
    ghost meaning: { Self → Rack };

    // How many sleds there are.
    fn sleds(&self) -> usize
        ensures { result ≡ length (meaning self.now) };

    // Whether the sled holds the share of this key.
    fn has(&self, sled: usize, key: Key) -> bool
        ensures { result ≡ is_some (held (sled_at (meaning self.now) sled) key.id key.number) };

    // How many more shares the sled takes.
    fn room(&self, sled: usize) -> usize
        ensures { result ≡ (sled_at (meaning self.now) sled).room };

    // How many shares the sled takes when it is empty.
    fn size(&self, sled: usize) -> usize
        ensures { result ≡ (sled_at (meaning self.now) sled).size };

    // How many shares the sled holds.
    fn count(&self, sled: usize) -> usize
        ensures { result ≡ count (sled_at (meaning self.now) sled) };

    // Copies the payload of a share to the start of the buffer, and tells its length.
    fn fetch(&self, sled: usize, key: Key, buffer: &mut [u8]) -> Result<usize, Fault>
        ensures { Fetches (meaning self.now) sled key.id key.number buffer.old buffer.new result };

    // Adds one share.
    fn put(&mut self, sled: usize, key: Key, payload: &[u8]) -> Result<(), Fault>
        ensures { Puts (meaning self.old) (meaning self.new) sled key.id key.number payload.now result };

    // Whether a share of this length can be put on the sled.
    fn check_put(&self, sled: usize, key: Key, len: usize) -> Result<(), Fault>
        ensures { Checks (put_grounds (meaning self.now) sled key.id key.number len) result }
    {
        checks::check_put(
            self.sleds(),
            sled,
            key.number,
            len,
            self.has(sled, key),
            self.room(sled),
        )
    }

    // Empties one sled.
    fn blank(&mut self, sled: usize) -> Result<(), Fault>
        ensures { Blanks (meaning self.old) (meaning self.new) sled result };

    // it keeps the bounds of a rack
    ghost sound: { (b : Self) → Sound (meaning b) };
}
