// One share of a file.
ghost use Rattle.std.specs.Prelude.{◌≡◌, ◌*◌, ◌<◌, ◌≤◌, length};
ghost use Rattle.code.specs.Shares.{block_length, Sized};
ghost use Rattle.code.specs.Codes.{numbers, field_of};
ghost use Rattle.code.specs.Calls.{Encoded, Encodes};

use crate::interpolation::{interpolate, points_of};
use crate::shape::calls::refuse;
use crate::shape::{Code, FieldChoice};
use crate::symbols::{block_of, load_file, store};
use field::Field;
use field::binary::Binary;
use field::prime::Prime;
use refusal::{Fault, Reason};

// The numbers of the shares that are the blocks of the file.
const FIRST: [usize; 16] = [0, 1, 2, 3, 4, 5, 6, 7, 8, 9, 10, 11, 12, 13, 14, 15];

// Writes the payload of a share to the start of the buffer, from the file and the length of a block of it.
fn write_payload<F: Field>(k: usize, block: usize, file: &[u8], share: usize, out: &mut [u8])
    requires some { 1 ≤ k }
    requires few { k ≤ 16 }
    requires sized { Sized (length file.now) k F.model.width }
    requires blocks { block ≡ block_length (length file.now) k }
    requires known { share < 32 }
    requires room { block * F.model.width ≤ length out.old }
    ensures { Encoded F.model k file.now share out.old out.new (block * F.model.width) }
{
    let symbols = load_file::<F>(file);
    let points = points_of::<F>(&FIRST[..k]);
    let point = F::point(share).unwrap();
    let mut sums = [F::zero(); 1024];
    interpolate::<F>(&points[..k], &symbols, block, point, &mut sums);
    store::<F>(&sums[..block], out);
}

impl Code {
    // Writes the payload of one share of the file to the start of the buffer, and tells its length. The field may be any.
    pub fn encode_over<F: Field>(
        self,
        file: &[u8],
        share: usize,
        out: &mut [u8],
    ) -> Result<usize, Fault>
        ensures { Encodes F.model (numbers self) file.now share out.old out.new result }
    {
        let Some(block) = block_of::<F>(file.len(), self.k) else {
            return Err(refuse(Reason::BadLength));
        };
        if share >= self.n {
            return Err(refuse(Reason::BadShare));
        }
        let size = block * F::WIDTH;
        if out.len() < size {
            return Err(refuse(Reason::ShortBuffer));
        }
        write_payload::<F>(self.k, block, file, share, out);
        Ok(size)
    }

    // Writes the payload of one share of the file to the start of the buffer, and tells its length, over the code's field.
    pub fn encode(self, file: &[u8], share: usize, out: &mut [u8]) -> Result<usize, Fault>
        ensures { Encodes (field_of (numbers self).field).model (numbers self) file.now share out.old out.new result }
    {
        match self.field {
            FieldChoice::Binary => self.encode_over::<Binary>(file, share, out),
            FieldChoice::Prime => self.encode_over::<Prime>(file, share, out),
        }
    }
}
