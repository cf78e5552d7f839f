// How a code is made, and its numbers.
ghost use Rattle.std.specs.Prelude.{◌≡◌};
ghost use Rattle.refusal.specs.Refusals.{refusal_of};
ghost use Rattle.refusal.specs.Grounds.{Answers};
ghost use Rattle.code.specs.Codes.{numbers, numbered, field_number};
ghost use Rattle.code.specs.Calls.{code_grounds};

use super::{Code, FieldChoice};
use refusal::{Fault, Layer, Reason};

// A refusal of the layer code, which has no detail. The other layers have one each: a struct literal, which a shared one would not shorten.
pub(crate) fn refuse(reason: Reason) -> Fault
    ensures { result ≡ record { reason = reason; layer = Layer.Code; detail = 0 } }
{
    Fault {
        reason,
        layer: Layer::Code,
        detail: 0,
    }
}

// The field with this number, or the refusal of numbers that no code has.
impl TryFrom<usize> for FieldChoice {
    type Error = Fault;

    ghost use Rattle.code.specs.Calls.{field_grounds};

    ghost try_from_gives = { λ number r. Answers (field_grounds number) refusal_of r (λ field. field_number field ≡ number) (λ _. Unit {0}) };

    fn try_from(number: usize) -> Result<FieldChoice, Fault> {
        match number {
            0 => Ok(FieldChoice::Binary),
            1 => Ok(FieldChoice::Prime),
            _ => Err(refuse(Reason::BadCode)),
        }
    }
}

// The number of a field.
impl From<FieldChoice> for usize {
    ghost from_gives = { λ field number. number ≡ field_number field };

    fn from(field: FieldChoice) -> usize {
        field as usize
    }
}

impl Code {
    // The code with these numbers, or a refusal: there is no code with others.
    // The field is asked for by its number, since any numbers may be asked for (a rule of the project), and the refusal has its place in their order.
    pub fn new(field: usize, k: usize, h: usize, n: usize) -> Result<Code, Fault>
        ensures { Answers (code_grounds (numbered field k h n)) refusal_of result (λ c. numbers c ≡ numbered field k h n) (λ _. Unit {0}) }
    {
        let field = FieldChoice::try_from(field)?;
        if k < 1 || k > 16 || k > h || h > n || n > 32 {
            return Err(refuse(Reason::BadCode));
        }
        Ok(Code { field, k, h, n })
    }

    // Which field the code is over.
    pub fn field(&self) -> FieldChoice
        ensures { field_number result ≡ (numbers self.now).field }
    {
        self.field
    }

    // How many shares give a file back.
    pub fn k(&self) -> usize
        ensures { result ≡ (numbers self.now).k }
    {
        self.k
    }

    // The happiness that is asked for.
    pub fn h(&self) -> usize
        ensures { result ≡ (numbers self.now).h }
    {
        self.h
    }

    // How many shares there are.
    pub fn n(&self) -> usize
        ensures { result ≡ (numbers self.now).n }
    {
        self.n
    }
}
