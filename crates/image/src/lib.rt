// Images of sleds: trays and zones, each a bank over its bytes.
#![tactic(auto)]

pub mod check;
mod header;
mod image;
mod layout;
mod place;
mod plan;
mod sled;
pub mod theorems;
mod writes;

pub use image::{Image, Tray, Unopened, Zone};
pub use layout::{Format, Layout, TrayFormat, ZoneFormat};
