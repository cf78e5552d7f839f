// Theorems on racks, each in the contract of a function that does nothing else.
ghost use Rattle.bank.specs.Theorems.{NothingBeyond};

// Past the bounds of a rack there is nothing.
pub fn nothing_beyond()
    ensures { NothingBeyond }
{}
