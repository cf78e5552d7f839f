// The numbers of a code.
ghost use Rattle.std.specs.Prelude.{◌≤◌};

pub mod calls;

// The fields that a code can be over: 0, of 256 symbols, and 1, of 257. In this crate encode and decode match on it, once each: a closure cannot be
// generic over the field.
#[derive(Clone, Copy, Debug, PartialEq, Eq, Hash)]
pub enum FieldChoice {
    Binary = 0,
    Prime = 1,
}

// A code: its field; k, the number of shares that give a file back; h, the happiness that is asked for; n, the number of shares.
// No code with other numbers can exist.
#[derive(Clone, Copy, Debug, PartialEq, Eq, Hash)]
pub struct Code {
    pub(crate) field: FieldChoice,
    pub(crate) k: usize,
    pub(crate) h: usize,
    pub(crate) n: usize,
    ghost numbers: { (1 ≤ k) × (k ≤ 16) × (k ≤ h) × (h ≤ n) × (n ≤ 32) },
}
