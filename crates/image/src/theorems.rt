// What holds of open images of the two formats, in the contract of a function that does nothing else.
ghost use Rattle.std.specs.Prelude.{◌≡◌, take, codes};
ghost use Rattle.image.specs.Images.{bytes_of};

use crate::image::{Tray, Zone};

// An open tray begins with the mark of trays, and an open zone with that of zones: so the names stand for the formats that they say.
pub fn marks_stand(tray: &Tray, zone: &Zone)
    ensures tray { take 4 (bytes_of tray.now) ≡ codes "TRAY" }
    ensures zone { take 4 (bytes_of zone.now) ≡ codes "ZONE" }
{}
