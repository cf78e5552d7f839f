// Where the places of a sled lie in its bytes.
ghost use Rattle.std.specs.Prelude.{◌≡◌, ◌+◌, ◌*◌, ◌^◌, ◌<◌, ◌≤◌};
ghost use Rattle.image.specs.Layouts.{entry_at, cell_at};
ghost use Rattle.image.specs.Racks.{sled_start};

use crate::layout::Layout;

// How the sleds of an image are laid out: its layout, and the number of places of each sled.
#[derive(Clone, Copy)]
pub(crate) struct Plan {
    pub(crate) layout: Layout,
    pub(crate) cells: usize,
    ghost some: { 1 ≤ cells },
    ghost few: { cells ≤ 64 },
}

impl Plan {
    // How many bytes a sled has.
    pub(crate) fn size(self) -> usize
        ensures { result ≡ self.cells * 1040 }
    {
        self.cells * 1040
    }

    // Where the entry of a place begins. It and the cell's begin differ in their sums alone, which are what is told here.
    pub(crate) fn entry_at(self, place: usize) -> usize
        requires { place < self.cells }
        ensures value { result ≡ entry_at self.layout self.cells place }
        ensures fits { result + 16 ≤ self.cells * 1040 }
    {
        match self.layout {
            Layout::Tray => place * 16,
            Layout::Zone => place * 1040,
        }
    }

    // Where the cell of a place begins.
    pub(crate) fn cell_at(self, place: usize) -> usize
        requires { place < self.cells }
        ensures value { result ≡ cell_at self.layout self.cells place }
        ensures fits { result + 1024 ≤ self.cells * 1040 }
    {
        match self.layout {
            Layout::Tray => self.cells * 16 + place * 1024,
            Layout::Zone => place * 1040 + 16,
        }
    }

    // Where a sled begins in its image.
    pub(crate) fn sled_start(self, sled: usize) -> usize
        requires { sled_start self.cells sled < 2 ^ 64 }
        ensures { result ≡ sled_start self.cells sled }
    {
        8 + sled * self.size()
    }
}
