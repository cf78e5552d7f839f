// The header of an image: a mark of four bytes, the number of sleds, that of cells, and two zero bytes.
ghost use Rattle.std.specs.Prelude.{◌≡◌, ℕ, ◌<◌, take, Decides, slice_index};
ghost use Rattle.refusal.specs.Refusals.{refusal_of};
ghost use Rattle.refusal.specs.Grounds.{Answers};
ghost use Rattle.image.specs.Layouts.{mark};
ghost use Rattle.image.specs.Opening.{open_grounds};

use crate::layout::{Format, Layout};
use refusal::{Fault, Layer, Reason};

// A refusal of the layer image.
fn refuse(detail: usize) -> Fault
    ensures { result ≡ record { reason = Reason.BadImage; layer = Layer.Image; detail = detail } }
{
    Fault {
        reason: Reason::BadImage,
        layer: Layer::Image,
        detail,
    }
}

// Whether the image begins with the mark of this layout.
fn is_marked(layout: Layout, image: &[u8]) -> bool
    ensures { Decides result (take 4 image.now ≡ mark layout) }
{
    image.starts_with(&layout.mark())
}

// Whether an image of this format can be opened.
pub(crate) fn check_header<F: Format>(image: &[u8]) -> Result<(), Fault>
    ensures answers { Answers (open_grounds F.LAYOUT image.now) refusal_of result (λ _. Unit {0}) (λ _. Unit {0}) }
    ensures bytes { (k : ℕ) → slice_index image.now k < 256 }
{
    let &[_, _, _, _, sleds, cells, six, seven, ..] = image else {
        return Err(refuse(8));
    };
    if !is_marked(F::LAYOUT, image) {
        return Err(refuse(0));
    }
    if sleds == 0 || sleds > 32 {
        return Err(refuse(4));
    }
    if cells == 0 || cells > 64 {
        return Err(refuse(5));
    }
    if six != 0 || seven != 0 {
        return Err(refuse(6));
    }
    if image.len() != 8 + usize::from(sleds) * (usize::from(cells) * 1040) {
        return Err(refuse(8));
    }
    Ok(())
}
