// What the fields and the cases of lines give, in a lent space and in memory of their own, and that there is memory for it.
use crate::case::{Case, LentCase, case_in, case_of};
use crate::fault::Fault;
use crate::fields::{decoded, decoded_in};
use std::test::Fail;

// A field of three bytes, one of none, and fields that are not in the format.
#[test]
fn bytes_of_fields(rt: HostRuntime) -> Result<(), Fail> {
    let given = decoded(rt.alloc(), b"6e6173")?;
    assert_eq!(rt; given.as_slice(), b"nas".as_slice());
    let none = decoded(rt.alloc(), b"-")?;
    assert_eq!(rt; none.len(), 0);
    for field in [b"".as_slice(), b"6E", b"6", b"6g"] {
        assert!(rt; matches!(decoded(rt.alloc(), field), Err(Fault::Format)));
    }
    Ok(())
}

// A space of five bytes has room for three, and not for three more.
#[test]
fn bytes_in_a_space(rt: HostRuntime) -> Result<(), Fail> {
    let mut space = [0u8; 5];
    let (given, rest) = decoded_in(b"6e6173", &mut space)?;
    assert_eq!(rt; given, b"nas".as_slice());
    assert_eq!(rt; rest.len(), 2);
    assert!(rt; matches!(decoded_in(b"6e6173", rest), Err(Fault::Format)));
    Ok(())
}

// A case whose bytes are those of another.
fn lent(case: &Case) -> LentCase<'_> {
    match case {
        Case::Read { text, room } => LentCase::Read {
            text: text.as_slice(),
            room: *room,
        },
        Case::Print { image, room } => LentCase::Print {
            image: image.as_slice(),
            room: *room,
        },
        Case::Decide {
            image,
            stores,
            age,
            list,
        } => LentCase::Decide {
            image: image.as_slice(),
            stores: stores.as_slice(),
            age: *age,
            list: list.as_slice(),
        },
        Case::Check { image, stores } => LentCase::Check {
            image: image.as_slice(),
            stores: stores.as_slice(),
        },
        Case::Judge { text, stores } => LentCase::Judge {
            text: text.as_slice(),
            stores: stores.as_slice(),
        },
        Case::Report { text, args } => LentCase::Report {
            text: text.as_slice(),
            args: args.as_slice(),
        },
    }
}

// What a case is: its call, the bytes that it is given, and its number.
fn parts(case: LentCase<'_>) -> (&str, [&[u8]; 3], u64) {
    match case {
        LentCase::Read { text, room } => ("read", [text, &[], &[]], room as u64),
        LentCase::Print { image, room } => ("print", [image, &[], &[]], room as u64),
        LentCase::Decide {
            image,
            stores,
            age,
            list,
        } => ("decide", [image, stores, list], age),
        LentCase::Check { image, stores } => ("check", [image, stores, &[]], 0),
        LentCase::Judge { text, stores } => ("judge", [text, stores, &[]], 0),
        LentCase::Report { text, args } => ("report", [text, args, &[]], 0),
    }
}

// A line of each call gives the same case in a space and in memory of its own.
#[test]
fn cases_of_lines(rt: HostRuntime) -> Result<(), Fail> {
    let lines = [
        (
            b"read 6e6173 131072".as_slice(),
            ("read", [b"nas".as_slice(), b"", b""], 131_072),
        ),
        (b"print 010203 0", ("print", [b"\x01\x02\x03", b"", b""], 0)),
        (
            b"decide 01 0203 86400000 04",
            ("decide", [b"\x01", b"\x02\x03", b"\x04"], 86_400_000),
        ),
        (b"check 01 - ", ("check", [b"\x01", b"", b""], 0)),
        (b"judge 6e 6173", ("judge", [b"n", b"as", b""], 0)),
        (b"report 6e 617300 ", ("report", [b"n", b"as\0", b""], 0)),
    ];
    for (line, meant) in lines {
        let mut space = [0u8; 16];
        assert_eq!(rt; parts(case_in(line, &mut space)?), meant);
        assert_eq!(rt; parts(lent(&case_of(rt.alloc(), line)?)), meant);
    }
    Ok(())
}

// A line that is no case is refused, and one that would be a case but for a byte too many.
#[test]
fn lines_refused(rt: HostRuntime) -> Result<(), Fail> {
    let mut long = vec![in rt.alloc(); 48u8; 65_536]?;
    long.as_mut_slice()[..8].copy_from_slice(b"check - ");
    let mut space = [0u8; 65_536];
    for line in [
        b"".as_slice(),
        b"read 6e",
        b"read 6e 131073",
        b"read 6e 1 ",
        b"count 6e",
        long.as_slice(),
    ] {
        assert!(rt; matches!(case_in(line, &mut space), Err(Fault::Format)));
        assert!(rt; matches!(case_of(rt.alloc(), line), Err(Fault::Format)));
    }
    Ok(())
}
