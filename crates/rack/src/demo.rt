// The demonstration: shares of a dump, lost and kept ones, the dump from the kept ones, and two refusals.
use code::FieldChoice;
use dumps::failure::Failure;
use dumps::trials::{H, K, N, Trial};
use dumps::words::{Answer, Listed, Returned, Summed};
use dumps::{shares, trials};

// Shares are cut and printed as in the program on sleds: a function of the library has a contract, and these lines print.
// Cuts the dump into shares, loses some of them, and tells whether the kept ones give it back.
fn show_trial(rt: &HostRuntime, dump: &[u8], trial: Trial) -> Result<bool, Failure> {
    let heap = rt.alloc();
    let code = trials::code_over(trial.field, H)?;
    let kept = &trial.taken;
    println!(rt; "{trial}")?;
    let shares = shares::cut(heap, code, dump)?;
    for share in &shares {
        println!(rt; "  {share}")?;
    }
    let lost = shares::lost(heap, N, kept)?;
    println!(rt; "lost: shares {}", Listed(lost.as_slice()))?;
    println!(rt; "kept, in this order: shares {}", Listed(kept))?;
    let payloads = shares::gather(heap, shares.as_slice(), kept)?;
    let file = shares::restore(heap, code, kept, payloads.as_slice(), dump.len())?;
    let returned = Returned {
        dump,
        file: file.as_slice(),
    };
    println!(rt; "{returned}\n")?;
    Ok(returned.is_dump())
}

// Shows two requests that are turned down: a code that there is not, and a dump from a share that stands twice.
fn show_refusals(rt: &HostRuntime, dump: &[u8]) -> Result<(), Failure> {
    let heap = rt.alloc();
    let h = K - 1;
    println!(rt; "a code whose h is below its k: field 0, k {K}, h {h}, N {N}")?;
    let none = trials::code_over(FieldChoice::Binary, h).map_err(Failure::from);
    println!(rt; "  {}", Answer::of(none)?)?;
    let numbers = [1, 3, 3, 6];
    println!(rt; "the dump from the shares {}", Listed(&numbers))?;
    let code = trials::code_over(FieldChoice::Binary, H)?;
    let shares = shares::cut(heap, code, dump)?;
    let payloads = shares::gather(heap, shares.as_slice(), &numbers)?;
    let twice = shares::restore(heap, code, &numbers, payloads.as_slice(), dump.len());
    println!(rt; "  {}", Answer::of(twice)?)?;
    Ok(())
}

// Shows the dump's shares over each field, and then the refusals.
pub fn show(rt: &HostRuntime, dump: &[u8]) -> Result<(), Failure> {
    println!(rt; "the dump: {}\n", Summed(dump))?;
    let mut whole = true;
    for trial in [trials::BINARY, trials::PRIME] {
        whole = show_trial(rt, dump, trial)? && whole;
    }
    show_refusals(rt, dump)?;
    let closing = if whole {
        "done: over each field, half of the shares were lost and the rest gave the dump back"
    } else {
        "done: some shares did not give the dump back"
    };
    println!(rt; "\n{closing}")?;
    Ok(())
}
