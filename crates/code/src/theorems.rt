// What holds of every code, and the examples worked by hand.
ghost use Rattle.code.specs.Theorems.{OnePolynomial, OnePayload};
ghost use Rattle.code.specs.Examples.{Worked};

use field::Field;

// Over every field one polynomial goes through k points, and each share of each file has one payload.
pub fn payloads_stand<F: Field>()
    ensures polynomial { OnePolynomial F.model }
    ensures payload { OnePayload F.model }
{}

// The definitions give what was worked out by hand.
pub fn examples_stand()
    ensures { Worked }
{}
