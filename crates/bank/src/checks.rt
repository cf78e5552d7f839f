// The checks that every bank makes, in the order in which a refusal is told, by what the bank's questions answer. Bank::check_put asks
// the bank itself. A generic function here could not: an impl of Bank that calls it would lead back to itself. The share is a number and no
// key: no check depends on the file.
ghost use Rattle.std.specs.Prelude.{◌≡◌, Some};
ghost use Rattle.refusal.specs.Refusals.{refusal_of};
ghost use Rattle.refusal.specs.Grounds.{Answers};
ghost use Rattle.bank.specs.Calls.{sled_checks, put_checks, fetch_checks, Checks};

use refusal::{Fault, Layer, Reason};

// A refusal of the layer bank.
pub(crate) fn refuse(reason: Reason, detail: usize) -> Fault
    ensures { result ≡ record { reason = reason; layer = Layer.Bank; detail = detail } }
{
    Fault {
        reason,
        layer: Layer::Bank,
        detail,
    }
}

// Whether there is such a sled among so many.
pub fn check_sled(sleds: usize, sled: usize) -> Result<(), Fault>
    ensures { Checks (sled_checks sleds sled) result }
{
    if sled >= sleds {
        return Err(refuse(Reason::BadSled, sled));
    }
    Ok(())
}

// Whether a share can be put on a sled, by the number of sleds, whether it is held, and the sled's room.
pub fn check_put(
    sleds: usize,
    sled: usize,
    share: usize,
    len: usize,
    present: bool,
    room: usize,
) -> Result<(), Fault>
    ensures { Checks (put_checks sleds sled share len present room) result }
{
    check_sled(sleds, sled)?;
    if share >= 32 {
        return Err(refuse(Reason::BadShare, 0));
    }
    if !(1..=1024).contains(&len) {
        return Err(refuse(Reason::BadLength, 0));
    }
    if present {
        return Err(refuse(Reason::Held, 0));
    }
    if room == 0 {
        return Err(refuse(Reason::NoRoom, 0));
    }
    Ok(())
}

// The length of the payload that is to be fetched, by the number of sleds, the length of what is held, and that of the buffer.
pub fn check_fetch(
    sleds: usize,
    sled: usize,
    share: usize,
    len: Option<usize>,
    buffer: usize,
) -> Result<usize, Fault>
    ensures { Answers (fetch_checks sleds sled share len buffer) refusal_of result (λ due. len ≡ Some due) (λ _. Unit {0}) }
{
    check_sled(sleds, sled)?;
    if share >= 32 {
        return Err(refuse(Reason::BadShare, 0));
    }
    let due = len.ok_or(refuse(Reason::Absent, 0))?;
    if buffer < due {
        return Err(refuse(Reason::ShortBuffer, 0));
    }
    Ok(due)
}
