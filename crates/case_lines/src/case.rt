// A case: a call, and what it is given.
ghost use Rattle.std.specs.Prelude.{◌≡◌, ◌≤◌, IfErr, IfOk, length};
ghost use Rattle.case_lines.specs.Inner.Cases.{Lendable, LentLendable};
ghost use Rattle.case_lines.specs.declared.fault.Fault.TheVariants.{Format};

use crate::fault::Fault;
use crate::fields::{count, decoded_in, room};
use std::alloc::{AllocError, Global};

// The longest line that is a case.
const LONGEST: usize = 65_535;

// The most fields that a case has.
const FIELDS: usize = 5;

// A call and what it is given. `Read` and `Print` are lent a buffer of this length; `Report` is the page of `rulejudge`, whose arguments
// have a 0 after each.
#[derive(Drop)]
pub enum Case {
    Read {
        text: Vec<u8>,
        room: usize,
    },
    Print {
        image: Vec<u8>,
        room: usize,
    },
    Decide {
        image: Vec<u8>,
        stores: Vec<u8>,
        age: u64,
        list: Vec<u8>,
    },
    Check {
        image: Vec<u8>,
        stores: Vec<u8>,
    },
    Judge {
        text: Vec<u8>,
        stores: Vec<u8>,
    },
    Report {
        text: Vec<u8>,
        args: Vec<u8>,
    },
}

// A case whose bytes were written to a lent space. One enum over the type of its bytes was tried: a definition over `Case`, and a `Case`
// of which nothing says where its bytes are, were refused then.
#[derive(Clone, Copy)]
pub enum LentCase<'a> {
    Read {
        text: &'a [u8],
        room: usize,
    },
    Print {
        image: &'a [u8],
        room: usize,
    },
    Decide {
        image: &'a [u8],
        stores: &'a [u8],
        age: u64,
        list: &'a [u8],
    },
    Check {
        image: &'a [u8],
        stores: &'a [u8],
    },
    Judge {
        text: &'a [u8],
        stores: &'a [u8],
    },
    Report {
        text: &'a [u8],
        args: &'a [u8],
    },
}

// The bytes of two fields.
fn decoded_pair<'a>(
    first: &[u8],
    second: &[u8],
    space: &'a mut [u8],
) -> Result<(&'a [u8], &'a [u8], &'a mut [u8]), Fault>
    ensures { IfErr result (λ fault. fault ≡ Format) }
{
    let (first, rest) = decoded_in(first, space)?;
    let (second, rest) = decoded_in(second, rest)?;
    Ok((first, second, rest))
}

// The case of the fields of a line: the age and the length of a buffer are in decimal, and the rest is in hex. After those of `check`,
// `judge` and `report` the line may end with a blank.
fn case_of_fields<'a>(fields: &[&[u8]], space: &'a mut [u8]) -> Result<LentCase<'a>, Fault>
    ensures lendable { IfOk result (λ case. LentLendable case) }
    ensures refused { IfErr result (λ fault. fault ≡ Format) }
{
    match fields {
        [b"read", text, length] => {
            let (text, _) = decoded_in(text, space)?;
            Ok(LentCase::Read {
                text,
                room: room(length)?,
            })
        }
        [b"print", image, size] => {
            let (image, _) = decoded_in(image, space)?;
            Ok(LentCase::Print {
                image,
                room: room(size)?,
            })
        }
        [b"decide", image, stores, age, list] => {
            let (image, stores, rest) = decoded_pair(image, stores, space)?;
            let (list, _) = decoded_in(list, rest)?;
            Ok(LentCase::Decide {
                image,
                stores,
                age: count(age)?,
                list,
            })
        }
        [b"check", image, stores] | [b"check", image, stores, b""] => {
            let (image, stores, _) = decoded_pair(image, stores, space)?;
            Ok(LentCase::Check { image, stores })
        }
        [b"judge", text, stores] | [b"judge", text, stores, b""] => {
            let (text, stores, _) = decoded_pair(text, stores, space)?;
            Ok(LentCase::Judge { text, stores })
        }
        [b"report", text, args] | [b"report", text, args, b""] => {
            let (text, args, _) = decoded_pair(text, args, space)?;
            Ok(LentCase::Report { text, args })
        }
        _ => Err(Fault::Format),
    }
}

// The case that a line gives: the name of a call and what it is given, with single blanks between them. What the fields give is written
// to a space.
pub fn case_in<'a>(line: &[u8], space: &'a mut [u8]) -> Result<LentCase<'a>, Fault>
    ensures lendable { IfOk result (λ case. (length line.now ≤ 65_535) × LentLendable case) }
    ensures refused { IfErr result (λ fault. fault ≡ Format) }
{
    if line.len() > LONGEST {
        return Err(Fault::Format);
    }
    let mut fields = [&line[..0]; FIELDS];
    let mut size = 0;
    for field in line.split(|b| *b == b' ') {
        if size >= FIELDS {
            return Err(Fault::Format);
        }
        fields[size] = field;
        size += 1;
    }
    case_of_fields(&fields[..size], space)
}

// A case in memory of its own.
fn owned(alloc: Global, case: LentCase<'_>) -> Result<Case, AllocError>
    ensures { IfOk result (λ owned. LentLendable case.entry → Lendable owned) }
{
    Ok(match case {
        LentCase::Read { text, room } => Case::Read {
            text: text.to_vec(alloc)?,
            room,
        },
        LentCase::Print { image, room } => Case::Print {
            image: image.to_vec(alloc)?,
            room,
        },
        LentCase::Decide {
            image,
            stores,
            age,
            list,
        } => Case::Decide {
            image: image.to_vec(alloc)?,
            stores: stores.to_vec(alloc)?,
            age,
            list: list.to_vec(alloc)?,
        },
        LentCase::Check { image, stores } => Case::Check {
            image: image.to_vec(alloc)?,
            stores: stores.to_vec(alloc)?,
        },
        LentCase::Judge { text, stores } => Case::Judge {
            text: text.to_vec(alloc)?,
            stores: stores.to_vec(alloc)?,
        },
        LentCase::Report { text, args } => Case::Report {
            text: text.to_vec(alloc)?,
            args: args.to_vec(alloc)?,
        },
    })
}

// How many bytes of a space the fields of a line take at most; none are needed where it is too long.
fn space_for(line: &[u8]) -> usize {
    if line.len() <= LONGEST {
        line.len() / 2
    } else {
        0
    }
}

// The case that a line gives, in memory of its own. No function calls it now: it stays, since it was promised.
pub fn case_of(alloc: Global, line: &[u8]) -> Result<Case, Fault>
    ensures { IfOk result (λ case. (length line.now ≤ 65_535) × Lendable case) }
{
    let mut space = vec![in alloc; 0u8; space_for(line)]?;
    let case = case_in(line, space.as_mut_slice())?;
    Ok(owned(alloc, case)?)
}
