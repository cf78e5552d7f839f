// Examples worked by hand, and the limits.
use crate::shape::Code;
use refusal::Fault;
use std::alloc::Global;
use std::test::Fail;

// The number of the refusal, if there is one.
fn number<T: Drop>(r: Result<T, Fault>) -> Option<u8> {
    Some(r.err()?.reason.number())
}

#[test]
fn shares_of_two_bytes(rt: HostRuntime) -> Result<(), Fail> {
    let code = Code::new(0, 2, 3, 4)?;
    let mut out = [9u8; 2];
    assert_eq!(rt; code.encode(&[5, 7], 2, &mut out)?, 1);
    assert_eq!(rt; out, [1, 9]);
    assert_eq!(rt; code.encode(&[5, 7], 3, &mut out)?, 1);
    assert_eq!(rt; out, [13, 9]);
    let code = Code::new(1, 2, 3, 4)?;
    assert_eq!(rt; code.encode(&[5, 3], 3, &mut out)?, 2);
    assert_eq!(rt; out, [0, 1]);
    Ok(())
}

#[test]
fn two_bytes_from_their_shares(rt: HostRuntime) -> Result<(), Fail> {
    let code = Code::new(1, 2, 3, 4)?;
    let mut out = [9u8; 3];
    code.decode(&[2, 3], &[9, 0, 11, 0], 2, &mut out)?;
    assert_eq!(rt; out, [5, 7, 9]);
    assert_eq!(rt;
        number(code.decode(&[2, 2], &[9, 0, 11, 0], 2, &mut out)),
        Some(19)
    );
    assert_eq!(rt;
        number(code.decode(&[2, 3], &[1, 1, 11, 0], 2, &mut out)),
        Some(14)
    );
    assert_eq!(rt;
        number(code.decode(&[2, 3], &[9, 0, 11, 0], 4, &mut out)),
        Some(5)
    );
    assert_eq!(rt; out, [5, 7, 9]);
    Ok(())
}

#[test]
fn numbers_of_a_code(rt: HostRuntime) {
    assert_eq!(rt; number(Code::new(0, 16, 16, 32)), None);
    assert_eq!(rt; number(Code::new(2, 2, 3, 4)), Some(4));
    assert_eq!(rt; number(Code::new(0, 0, 3, 4)), Some(4));
    assert_eq!(rt; number(Code::new(0, 17, 17, 32)), Some(4));
    assert_eq!(rt; number(Code::new(0, 3, 2, 4)), Some(4));
    assert_eq!(rt; number(Code::new(0, 2, 3, 33)), Some(4));
}

// By the number of a field, as a code is asked for: the number by which a share of a file of this length is refused, with k 2, N 4 and a buffer of this room.
fn refused(
    heap: Global,
    field: usize,
    len: usize,
    share: usize,
    room: usize,
) -> Result<Option<u8>, Fail> {
    let file = vec![in heap; 1u8; len]?;
    let mut out = vec![in heap; 0u8; room]?;
    let code = Code::new(field, 2, 3, 4)?;
    Ok(number(code.encode(&file, share, &mut out)))
}

#[test]
fn limits_of_a_file(rt: HostRuntime) -> Result<(), Fail> {
    assert_eq!(rt; refused(rt.alloc(), 0, 2048, 3, 1024)?, None);
    assert_eq!(rt; refused(rt.alloc(), 0, 2049, 3, 2000)?, Some(5));
    assert_eq!(rt; refused(rt.alloc(), 1, 1024, 3, 1024)?, None);
    assert_eq!(rt; refused(rt.alloc(), 1, 1025, 3, 2000)?, Some(5));
    assert_eq!(rt; refused(rt.alloc(), 0, 0, 3, 1024)?, Some(5));
    assert_eq!(rt; refused(rt.alloc(), 0, 2048, 4, 1023)?, Some(19));
    assert_eq!(rt; refused(rt.alloc(), 0, 2048, 3, 1023)?, Some(13));
    Ok(())
}
