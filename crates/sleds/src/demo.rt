// The demonstration: the shares of a dump on the sleds of an image, the dump from half of them, and some refusals.
use bank::{Bank, Key};
use code::FieldChoice;
use dumps::banks::Kept;
use dumps::failure::Failure;
use dumps::shares::Share;
use dumps::trials::{H, Trial};
use dumps::words::{Answer, Listed, Returned, Summed};
use dumps::{banks, shares, trials};
use image::{Format, Image, Tray, Zone};
use std::fmt;

// The id under which the sleds keep the dump.
const ID: u32 = 7;

// The sleds of a bank, to be printed below a title.
#[derive(Clone, Copy)]
struct Sleds<'a, B> {
    title: &'a str,
    bank: &'a B,
}

impl<B: Bank> fmt::Display for Sleds<'_, B> {
    // Writes the title, and each sled with its size, its room and the number of its shares.
    fn fmt<W: fmt::Write>(&self, f: &mut fmt::Formatter<W>) -> fmt::Result {
        write!(f, "{}:", self.title)?;
        // by number: a bank tells of its sleds by number alone
        for sled in 0..self.bank.sleds() {
            let size = self.bank.size(sled);
            let room = self.bank.room(sled);
            let count = self.bank.count(sled);
            write!(
                f,
                "\n  sled {sled}: size {size}, room {room}, shares {count}"
            )?;
        }
        Ok(())
    }
}

// One trial of the demonstration: where it prints, the dump, and the field with the shares that are taken.
#[derive(Clone, Copy)]
struct Demo<'a> {
    rt: &'a HostRuntime,
    dump: &'a [u8],
    trial: Trial,
}

impl Demo<'_> {
    // The shares of the dump.
    fn cut(self) -> Result<Vec<Share>, Failure> {
        println!(self.rt; "{}", self.trial)?;
        let code = trials::code_over(self.trial.field, H)?;
        let shares = shares::cut(self.rt.alloc(), code, self.dump)?;
        for share in &shares {
            println!(self.rt; "  {share}")?;
        }
        Ok(shares)
    }

    // An image that keeps the shares, closed and opened again.
    fn keep_on<F: Format>(
        self,
        title: &str,
        image: Vec<u8>,
        shares: &[Share],
    ) -> Result<Image<F>, Failure> {
        let mut bank = Image::<F>::open(image)?;
        println!(self.rt; "{}", Sleds { title, bank: &bank })?;
        banks::keep(&mut bank, ID, shares)?;
        let image = bank.into_image();
        let closed = Summed(image.as_slice());
        println!(self.rt; "each share put on a sled in turn, and the image closed: {closed}")?;
        Ok(Image::open(image)?)
    }

    // Takes shares from the bank, and tells whether they give the dump back.
    fn bring_back<B: Bank>(self, bank: &B) -> Result<bool, Failure> {
        let title = "opened again";
        println!(self.rt; "{}", Sleds { title, bank })?;
        let Trial { field, taken } = self.trial;
        println!(self.rt; "taken from the sleds: shares {}", Listed(&taken))?;
        let kept = Kept { bank, id: ID };
        let code = trials::code_over(field, H)?;
        let file = kept.bring_back(self.rt.alloc(), code, &taken, self.dump.len())?;
        let returned = Returned {
            dump: self.dump,
            file: file.as_slice(),
        };
        println!(self.rt; "{returned}\n")?;
        Ok(returned.is_dump())
    }

    // Keeps the dump on an image, and tells whether it comes back.
    fn show<F: Format>(self, title: &str, image: Vec<u8>) -> Result<(bool, Image<F>), Failure> {
        let shares = self.cut()?;
        let bank = self.keep_on(title, image, shares.as_slice())?;
        let same = self.bring_back(&bank)?;
        Ok((same, bank))
    }
}

// Prints a request that should be turned down, and how it was answered. No `Display`, since a failure that is no refusal ends the program.
fn print_answer<T: Drop>(
    rt: &HostRuntime,
    request: &str,
    answer: Result<T, Failure>,
) -> Result<(), Failure> {
    println!(rt; "{request}\n  {}", Answer::of(answer)?)?;
    Ok(())
}

// Puts one byte as share 0 of the dump on a sled.
fn put_byte(tray: &mut Tray, sled: usize) -> Result<(), Failure> {
    let key = Key { id: ID, number: 0 };
    Ok(tray.put(sled, key, &[1])?)
}

// Shows requests that are turned down.
fn show_refusals(rt: &HostRuntime, mut tray: Tray, zone: Zone, len: usize) -> Result<(), Failure> {
    let request = "a code whose h is below its k: field 0, k 4, h 3, N 8";
    let none = trials::code_over(FieldChoice::Binary, 3).map_err(Failure::from);
    print_answer(rt, request, none)?;
    let code = trials::code_over(FieldChoice::Binary, H)?;
    let kept = Kept {
        bank: &tray,
        id: ID,
    };
    let twice = kept.bring_back(rt.alloc(), code, &[1, 3, 3, 6], len);
    print_answer(rt, "the dump from the shares 1 3 3 6", twice)?;
    let tray_of_zone = Tray::open(zone.into_image()).map_err(Failure::from);
    print_answer(rt, "the zone opened as a tray", tray_of_zone)?;
    let again = put_byte(&mut tray, 0);
    print_answer(rt, "share 0 put on sled 0 of the tray once more", again)?;
    let past = put_byte(&mut tray, 9);
    print_answer(rt, "share 0 put on sled 9 of the tray", past)
}

// Shows the dump on a tray and on a zone, and then the refusals.
pub fn show(rt: &HostRuntime, dump: &[u8], tray: Vec<u8>, zone: Vec<u8>) -> Result<(), Failure> {
    println!(rt; "the dump: {}\n", Summed(dump))?;
    let trial = trials::BINARY;
    let (from_tray, tray) = Demo { rt, dump, trial }.show("a tray", tray)?;
    let trial = trials::PRIME;
    let (from_zone, zone) = Demo { rt, dump, trial }.show("a zone", zone)?;
    show_refusals(rt, tray, zone, dump.len())?;
    let closing = if from_tray && from_zone {
        "done: over each field, half of the shares gave the dump back"
    } else {
        "done: some shares did not give the dump back"
    };
    println!(rt; "\n{closing}")?;
    Ok(())
}
