// What puts, blanks, fetches and openings make of images that are written out here byte by byte.
// The checks of "foobar", "a" and "b" are the published values of FNV-1a.
use bank::join::Join;
use bank::quota::Quota;
use bank::{Bank, Key};
use image::{Tray, Zone};
use std::alloc::{AllocError, Global};
use std::test::Fail;

// State 1, share 5, 6 bytes, id 0x01020304, and the check of "foobar", which is 0x85944171F73967E8.
const FOOBAR: [u8; 16] = [
    1, 5, 6, 0, 4, 3, 2, 1, 0xE8, 0x67, 0x39, 0xF7, 0x71, 0x41, 0x94, 0x85,
];

// The id and the share number that the entry tells.
const FOOBAR_KEY: Key = Key {
    id: 0x01020304,
    number: 5,
};

// State 1, share 3, 1 byte, id 7, and the check of "a", which is 0xAF63DC4C8601EC8C.
const A: [u8; 16] = [
    1, 3, 1, 0, 7, 0, 0, 0, 0x8C, 0xEC, 0x01, 0x86, 0x4C, 0xDC, 0x63, 0xAF,
];

// The same share with the check of "b", which is 0xAF63DF4C8601F1A5.
const B: [u8; 16] = [
    1, 3, 1, 0, 7, 0, 0, 0, 0xA5, 0xF1, 0x01, 0x86, 0x4C, 0xDF, 0x63, 0xAF,
];

// The id and the share number that both tell.
const A_KEY: Key = Key { id: 7, number: 3 };

// Adds these bytes, and then equal ones, so that there are len bytes more.
fn add(image: &mut Vec<u8>, bytes: &[u8], fill: u8, len: usize) -> Result<(), AllocError> {
    let end = image.len().saturating_add(len);
    image.extend_from_slice(bytes)?;
    image.resize(end, fill)
}

// A tray of one sled of two places, by how its entries and its cells begin.
fn tray_bytes(heap: Global, entries: [&[u8]; 2], cells: [&[u8]; 2]) -> Result<Vec<u8>, AllocError> {
    let mut image = Vec::new(heap);
    add(&mut image, b"TRAY\x01\x02\x00\x00", 0, 8)?;
    add(&mut image, entries[0], 0x70, 16)?;
    add(&mut image, entries[1], 0x71, 16)?;
    add(&mut image, cells[0], 0xC0, 1024)?;
    add(&mut image, cells[1], 0xC1, 1024)?;
    Ok(image)
}

// A zone of one sled of three places, by how its entries and its cells begin.
fn zone_bytes(heap: Global, entries: [&[u8]; 3], cells: [&[u8]; 3]) -> Result<Vec<u8>, AllocError> {
    let mut image = Vec::new(heap);
    add(&mut image, b"ZONE\x01\x03\x00\x00", 0, 8)?;
    for (entry, cell) in entries.iter().zip(cells.iter()) {
        add(&mut image, entry, 0x70, 16)?;
        add(&mut image, cell, 0xC0, 1024)?;
    }
    Ok(image)
}

// The tray with these bytes.
fn tray(bytes: Vec<u8>) -> Result<Tray, Fail> {
    Tray::open(bytes).map_err(|_| Fail::new("the tray was not opened"))
}

// The zone with these bytes.
fn zone(bytes: Vec<u8>) -> Result<Zone, Fail> {
    Zone::open(bytes).map_err(|_| Fail::new("the zone was not opened"))
}

// The lowest free place of a tray is written, and nothing else.
#[test]
fn put_on_a_tray(rt: HostRuntime) -> Result<(), Fail> {
    let heap = rt.alloc();
    let mut tray = tray(tray_bytes(heap, [&[7], &[0]], [b"", b""])?)?;
    assert!(rt; tray.put(0, FOOBAR_KEY, b"foobar").is_ok());
    let by_hand = tray_bytes(heap, [&[7], &FOOBAR], [b"", b"foobar"])?;
    assert!(rt; tray.into_image().as_slice() == by_hand.as_slice());
    Ok(())
}

// Every state of a tray's sled is set to 0, and nothing else.
#[test]
fn blank_of_a_tray(rt: HostRuntime) -> Result<(), Fail> {
    let heap = rt.alloc();
    let mut tray = tray(tray_bytes(heap, [&[7, 2], &[1, 5, 6]], [b"x", b"foobar"])?)?;
    assert!(rt; tray.blank(0).is_ok());
    let by_hand = tray_bytes(heap, [&[0, 2], &[0, 5, 6]], [b"x", b"foobar"])?;
    assert!(rt; tray.into_image().as_slice() == by_hand.as_slice());
    Ok(())
}

// The place where a zone's log ends is written, the state of the next is set to 0, and nothing else.
#[test]
fn put_on_a_zone(rt: HostRuntime) -> Result<(), Fail> {
    let heap = rt.alloc();
    let mut zone = zone(zone_bytes(heap, [&[7], &[0], &[9, 4]], [b"", b"", b"y"])?)?;
    assert!(rt; zone.put(0, FOOBAR_KEY, b"foobar").is_ok());
    let by_hand = zone_bytes(heap, [&[7], &FOOBAR, &[0, 4]], [b"", b"foobar", b"y"])?;
    assert!(rt; zone.into_image().as_slice() == by_hand.as_slice());
    Ok(())
}

// The first state of a zone's sled is set to 0, and nothing else.
#[test]
fn blank_of_a_zone(rt: HostRuntime) -> Result<(), Fail> {
    let heap = rt.alloc();
    let mut zone = zone(zone_bytes(heap, [&[7, 2], &[1], &[9]], [b"x", b"", b""])?)?;
    assert!(rt; zone.blank(0).is_ok());
    let by_hand = zone_bytes(heap, [&[0, 2], &[1], &[9]], [b"x", b"", b""])?;
    assert!(rt; zone.into_image().as_slice() == by_hand.as_slice());
    Ok(())
}

// Of two sound places with the same id and share number, a tray takes the lower and a zone the later.
#[test]
fn which_place_counts(rt: HostRuntime) -> Result<(), Fail> {
    let heap = rt.alloc();
    let tray = tray(tray_bytes(heap, [&A, &B], [b"a", b"b"])?)?;
    let zone = zone(zone_bytes(heap, [&A, &B, &[0]], [b"a", b"b", b""])?)?;
    let mut buffer = [9; 2];
    assert_eq!(rt; tray.fetch(0, A_KEY, &mut buffer)?, 1);
    assert_eq!(rt; buffer, [b'a', 9]);
    assert_eq!(rt; zone.fetch(0, A_KEY, &mut buffer)?, 1);
    assert_eq!(rt; buffer, [b'b', 9]);
    Ok(())
}

// The detail by which a tray of these bytes is refused, if it is.
fn detail(heap: Global, bytes: &[u8]) -> Result<Option<usize>, AllocError> {
    let opened = Tray::open(bytes.to_vec(heap)?);
    Ok(opened.err().map(|unopened| unopened.fault.detail))
}

// Why an image is not opened, check by check.
#[test]
fn refused_openings(rt: HostRuntime) -> Result<(), Fail> {
    let heap = rt.alloc();
    assert_eq!(rt; detail(heap, b"TRAY\x01\x01\x00")?, Some(8));
    assert_eq!(rt; detail(heap, b"ZONE\x00\x00\x01\x00")?, Some(0));
    assert_eq!(rt; detail(heap, b"TRAY\x21\x00\x01\x00")?, Some(4));
    assert_eq!(rt; detail(heap, b"TRAY\x20\x41\x01\x00")?, Some(5));
    assert_eq!(rt; detail(heap, b"TRAY\x20\x40\x00\x01")?, Some(6));
    assert_eq!(rt; detail(heap, b"TRAY\x20\x40\x00\x00")?, Some(8));
    Ok(())
}

// A put through a quota and a join lands in the zone, as by hand; the quota of the tray's sled refuses one.
#[test]
fn a_pile_of_banks(rt: HostRuntime) -> Result<(), Fail> {
    let heap = rt.alloc();
    let tray = tray(tray_bytes(heap, [&[0], &[0]], [b"", b""])?)?;
    let zone = zone(zone_bytes(heap, [&[0], &[0], &[9]], [b"", b"", b""])?)?;
    let mut numbers = [5000; 32];
    numbers[0] = 0;
    let mut pile = Quota::new(Join::new(tray, zone), numbers);
    assert_eq!(rt; pile.sleds(), 2);
    assert_eq!(rt; (pile.room(0), pile.size(0)), (0, 0));
    assert_eq!(rt; (pile.room(1), pile.size(1)), (3, 3));
    assert!(rt; pile.put(0, FOOBAR_KEY, b"foobar").is_err());
    assert!(rt; pile.put(1, FOOBAR_KEY, b"foobar").is_ok());
    let (_tray, zone) = pile.into_bank().into_banks();
    let by_hand = zone_bytes(heap, [&FOOBAR, &[0], &[9]], [b"foobar", b"", b""])?;
    assert!(rt; zone.into_image().as_slice() == by_hand.as_slice());
    Ok(())
}

// A pile of any depth: a type that leads through the layers back to itself.
#[derive(Drop)]
enum Pile {
    Image(Tray),
    Limited(Box<Quota<Pile>>),
    Joined(Box<Join<Pile, Pile>>),
}

// How many sleds the image of a pile has, if the pile is an image alone.
fn sleds_of(pile: &Pile) -> Option<usize> {
    match pile {
        Pile::Image(tray) => Some(tray.sleds()),
        Pile::Limited(_) | Pile::Joined(_) => None,
    }
}

// Such a type can be declared, and a value of it, here an image alone, is asked and let go.
#[test]
fn a_pile_of_any_depth(rt: HostRuntime) -> Result<(), Fail> {
    let heap = rt.alloc();
    let pile = Pile::Image(tray(tray_bytes(heap, [&[0], &[0]], [b"", b""])?)?);
    assert_eq!(rt; sleds_of(&pile), Some(1));
    Ok(())
}
