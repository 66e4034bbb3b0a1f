// The fields of a line, and what they mean.
ghost use Rattle.std.specs.Prelude.{◌≡◌, ◌<◌, false, [], IfErr, IfOk, length};
ghost use Rattle.std.specs.Char.{is_ascii_uppercase};
ghost use Rattle.std.specs.List.{All};
ghost use Rattle.hex.specs.Hex.{decode_of};
ghost use Rattle.case_lines.specs.Inner.Fields.{number_of, room_of};
ghost use Rattle.case_lines.specs.declared.fault.Fault.TheVariants.{Format};

use crate::fault::Fault;
use decimal::count::parse_count;
use std::alloc::Global;

// More bytes than any case has: those of the buffer for a line, and of the space for what the fields give.
pub const SPACE: usize = 65536;

// The longest buffer that is lent. The longest text of a rule has 90,026 bytes.
pub const ROOM: usize = 131_072;

// The bytes of a field, in hex with digits in lower case; a dash gives none. They are written to the front of a space, and answered with
// the rest of it; where it has no room for them, the field is not in the format.
pub fn decoded_in<'a>(field: &[u8], space: &'a mut [u8]) -> Result<(&'a [u8], &'a mut [u8]), Fault>
    ensures dash { length field.now ≡ 1 → IfOk result (λ given. given.0.now ≡ []) }
    ensures hex { 1 < length field.now → IfOk result (λ given. decode_of field.now ≡ Ok given.0.now) }
    ensures lower { 1 < length field.now → IfOk result (λ given. All (λ b. is_ascii_uppercase b ≡ false) field.now) }
    ensures refused { IfErr result (λ fault. fault ≡ Format) }
{
    match field {
        b"-" => Ok((&[], space)),
        b"" => Err(Fault::Format),
        _ if field.iter().any(|b| b.is_ascii_uppercase()) => Err(Fault::Format),
        _ => {
            let (given, rest) = space
                .split_at_mut_checked(field.len() / 2)
                .ok_or(Fault::Format)?;
            hex::decode_to_slice(field, given).map_err(|_| Fault::Format)?;
            Ok((given, rest))
        }
    }
}

// The bytes of a field, in memory of their own. No function calls it now: it stays, since it was promised.
pub fn decoded(alloc: Global, field: &[u8]) -> Result<Vec<u8>, Fault>
    ensures dash { length field.now ≡ 1 → IfOk result (λ given. given.items ≡ []) }
    ensures hex { 1 < length field.now → IfOk result (λ given. decode_of field.now ≡ Ok given.items) }
    ensures lower { 1 < length field.now → IfOk result (λ given. All (λ b. is_ascii_uppercase b ≡ false) field.now) }
{
    let mut space = vec![in alloc; 0u8; field.len() / 2]?;
    let (given, _) = decoded_in(field, space.as_mut_slice())?;
    Ok(given.to_vec(alloc)?)
}

// A number, in decimal.
pub fn count(field: &[u8]) -> Result<u64, Fault>
    ensures { result ≡ number_of field.now }
{
    parse_count(field).ok_or(Fault::Format)
}

// The length of a lent buffer, in decimal.
pub fn room(field: &[u8]) -> Result<usize, Fault>
    ensures { result ≡ room_of field.now }
{
    match usize::try_from(count(field)?) {
        Ok(room) if room <= ROOM => Ok(room),
        _ => Err(Fault::Format),
    }
}
