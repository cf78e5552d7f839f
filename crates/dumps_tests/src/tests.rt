// What a dump's shares are, what comes back of them, and what a measurement tells: each call of the library that needs memory, with memory.
use code::{Code, FieldChoice};
use dumps::banks::{Kept, keep};
use dumps::shares;
use dumps::timing::{Measurement, Report, measure, measure_fields, show_fields};
use image::Tray;
use std::alloc::{AllocError, Global};
use std::test::Fail;

// The shares of the file 5, 7 with k 2, which hold 5, 7, 1 and 13 over the field of 256, and the file from two of them.
#[test]
fn shares_of_a_file(rt: HostRuntime) -> Result<(), Fail> {
    let heap = rt.alloc();
    let code = Code::new(0, 2, 2, 4)?;
    let shares = shares::cut(heap, code, &[5, 7])?;
    let held = shares::gather(heap, shares.as_slice(), &[0, 1, 2, 3])?;
    assert_eq!(rt; held.as_slice(), [5, 7, 1, 13].as_slice());
    let kept = [3, 0];
    let payloads = shares::gather(heap, shares.as_slice(), &kept)?;
    assert_eq!(rt; payloads.as_slice(), [13, 5].as_slice());
    let file = shares::restore(heap, code, &kept, payloads.as_slice(), 2)?;
    assert_eq!(rt; file.as_slice(), [5, 7].as_slice());
    let lost = shares::lost(heap, 4, &kept)?;
    assert_eq!(rt; lost.as_slice(), [1, 2].as_slice());
    Ok(())
}

// A file of equal bytes has equal shares. The check sums are FNV-1a of four bytes 0xA5, and of four symbols 0xA5 of two bytes each.
#[test]
fn measured_files(rt: HostRuntime) -> Result<(), Fail> {
    let fields = [
        (FieldChoice::Binary, 0x15AB_4374_834E_0051),
        (FieldChoice::Prime, 0x24B0_F6EE_E48E_D435),
    ];
    for (field, check) in fields {
        let measured = measure(&rt, field, 64)?;
        assert_eq!(rt; measured.field, field);
        assert_eq!(rt; measured.block, 4);
        assert_eq!(rt; measured.check, check);
    }
    Ok(())
}

// The shares that are measured have 1,024 bytes. The check sums are FNV-1a of so many bytes 0xA5, and of 512 symbols 0xA5 of two bytes each.
#[test]
fn measured_fields(rt: HostRuntime) -> Result<(), Fail> {
    let report = measure_fields(&rt)?;
    assert_eq!(rt; report.binary.check, 0x41C2_A9C7_7516_B725);
    assert_eq!(rt; report.prime.check, 0xC22F_480B_691B_AB25);
    let shown = show_fields(&rt)?;
    assert_eq!(rt; shown.binary.check, 0x41C2_A9C7_7516_B725);
    assert_eq!(rt; shown.prime.check, 0xC22F_480B_691B_AB25);
    Ok(())
}

// An empty tray of four sleds with one place each.
fn empty_tray(heap: Global) -> Result<Vec<u8>, AllocError> {
    let mut image = vec![in heap; 0u8; 8 + 4 * 1040]?;
    image[..8].copy_from_slice(b"TRAY\x04\x01\x00\x00");
    Ok(image)
}

// The shares of the file 5, 7 on the sleds of a tray, and the file from two of them.
#[test]
fn a_file_kept_on_a_tray(rt: HostRuntime) -> Result<(), Fail> {
    let heap = rt.alloc();
    let Ok(mut tray) = Tray::open(empty_tray(heap)?) else {
        return Err(Fail::new("the tray was not opened"));
    };
    let code = Code::new(0, 2, 2, 4)?;
    let shares = shares::cut(heap, code, &[5, 7])?;
    keep(&mut tray, 9, shares.as_slice())?;
    let kept = Kept { bank: &tray, id: 9 };
    let file = kept.bring_back(heap, code, &[3, 0], 2)?;
    assert_eq!(rt; file.as_slice(), [5, 7].as_slice());
    Ok(())
}

// What a measurement says in words.
#[test]
fn a_measurement_in_words(rt: HostRuntime) -> Result<(), Fail> {
    let measured = Measurement {
        field: FieldChoice::Prime,
        block: 512,
        smallest: 81,
        median: 85,
        check: 10,
    };
    let words = format!(in rt.alloc(); "{measured}")?;
    let by_hand =
        "field 1: shares 16 to 31 from 16 blocks of 512 bytes\n  smallest 81 us, median 85 us, the last payload's check sum 0x000000000000000a";
    assert_eq!(rt; words.as_str(), by_hand);
    Ok(())
}

// What a report says in words: the heading, and then both measurements.
#[test]
fn a_report_in_words(rt: HostRuntime) -> Result<(), Fail> {
    let binary = Measurement {
        field: FieldChoice::Binary,
        block: 1024,
        smallest: 112,
        median: 117,
        check: 11,
    };
    let prime = Measurement {
        field: FieldChoice::Prime,
        block: 512,
        smallest: 81,
        median: 85,
        check: 10,
    };
    let words = format!(in rt.alloc(); "{}", Report { binary, prime })?;
    let by_hand =
        "time to make 16 shares: 21 rounds of 20\nfield 0: shares 16 to 31 from 16 blocks of 1024 bytes\n  smallest 112 us, median 117 us, the last payload's check sum 0x000000000000000b\nfield 1: shares 16 to 31 from 16 blocks of 512 bytes\n  smallest 81 us, median 85 us, the last payload's check sum 0x000000000000000a";
    assert_eq!(rt; words.as_str(), by_hand);
    Ok(())
}
