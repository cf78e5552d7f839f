// The two layouts of an image, and what differs between them but for where places lie (plan.rt), which are seen, and the room (sled.rt).
ghost use Rattle.std.specs.Prelude.{◌≡◌, ◌<◌, ◌≤◌};
ghost use Rattle.image.specs.Layouts.{mark, frees_next, blanked_places};
ghost use Rattle.image.specs.Scans.{turn};
ghost use Rattle.image.specs.declared.layout.Layout.TheVariants.{Tray, Zone};

// How the places of a sled lie in an image, and how they are used: a tray fills its lowest free place, a zone is a log.
// A value and no trait with a method for each difference: the functions on bytes then take no type parameter, and the proofs go by cases.
#[derive(Clone, Copy, Debug, PartialEq, Eq)]
pub enum Layout {
    Tray,
    Zone,
}

impl Layout {
    // The mark of the layout.
    pub(crate) fn mark(self) -> [u8; 4]
        ensures { result ≡ mark self }
    {
        match self {
            Layout::Tray => *b"TRAY",
            Layout::Zone => *b"ZONE",
        }
    }

    // The place that has its turn at j, of n places that are seen.
    pub(crate) fn turn(self, n: usize, j: usize) -> usize
        requires { j < n }
        ensures value { result ≡ turn self n j }
        ensures within { result < n }
    {
        match self {
            Layout::Tray => j,
            Layout::Zone => n - 1 - j,
        }
    }

    // Whether a put also frees the place after the one that it writes.
    pub(crate) fn frees_next(self) -> bool
        ensures { result ≡ frees_next self }
    {
        match self {
            Layout::Tray => false,
            Layout::Zone => true,
        }
    }

    // How many states a blank sets to 0 on a sled of this many places.
    pub(crate) fn blanked_places(self, cells: usize) -> usize
        requires { 1 ≤ cells }
        ensures value { result ≡ blanked_places self cells }
        ensures within { result ≤ cells }
    {
        match self {
            Layout::Tray => cells,
            Layout::Zone => 1,
        }
    }
}

// A format of images: the type that tells the layout of an image.
pub trait Format {
    ghost use Rattle.image.specs.declared.layout.Layout.{Layout};

    // the layout, as clauses name it, and as the code does
    ghost LAYOUT: { Layout };

    const LAYOUT: Layout;
}

// The format of trays: all the entries of a sled before its cells.
pub struct TrayFormat;

impl Format for TrayFormat {
    ghost LAYOUT = { Tray };

    const LAYOUT: Layout = Layout::Tray;
}

// The format of zones: each sled a log of places, each an entry and its cell.
pub struct ZoneFormat;

impl Format for ZoneFormat {
    ghost LAYOUT = { Zone };

    const LAYOUT: Layout = Layout::Zone;
}
