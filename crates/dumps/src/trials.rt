// The trials of the demonstrations: over each field, half of a dump's shares give it back.
ghost use Rattle.std.specs.Prelude.{◌≡◌};
ghost use Rattle.refusal.specs.Refusals.{refusal_of};
ghost use Rattle.refusal.specs.Grounds.{Answers};
ghost use Rattle.code.specs.Codes.{numbers as code-numbers, numbered, field_number};
ghost use Rattle.code.specs.Calls.{code_grounds};

use code::{Code, FieldChoice};
use field::Field;
use field::binary::Binary;
use field::prime::Prime;
use refusal::Fault;
use std::fmt;

// How many shares give a dump back.
pub const K: usize = 4;

// The happiness that is asked for.
pub const H: usize = 6;

// How many shares there are.
pub const N: usize = 8;

// A field, and the shares that are taken, in the order in which they are read.
#[derive(Clone, Copy, Debug)]
pub struct Trial {
    pub field: FieldChoice,
    pub taken: [usize; K],
}

// The trial over the field of 256 symbols.
pub const BINARY: Trial = Trial {
    field: FieldChoice::Binary,
    taken: [1, 3, 4, 6],
};

// The trial over the field of 257 symbols.
pub const PRIME: Trial = Trial {
    field: FieldChoice::Prime,
    taken: [7, 2, 5, 0],
};

// The code over this field, with this happiness.
pub fn code_over(field: FieldChoice, h: usize) -> Result<Code, Fault>
    ensures { Answers (code_grounds (numbered (field_number field) 4 h 8)) refusal_of result (λ c. code-numbers c ≡ numbered (field_number field) 4 h 8) (λ _. Unit {0}) }
{
    Code::new(usize::from(field), K, h, N)
}

impl fmt::Display for Trial {
    // Writes the field and the numbers of the code.
    fn fmt<W: fmt::Write>(&self, f: &mut fmt::Formatter<W>) -> fmt::Result {
        let field = usize::from(self.field);
        // a table of two, since a closure cannot be generic over the field
        let symbols = match self.field {
            FieldChoice::Binary => Binary::SIZE,
            FieldChoice::Prime => Prime::SIZE,
        };
        write!(
            f,
            "field {field}, of {symbols} symbols: k {K}, h {H}, N {N}"
        )
    }
}
