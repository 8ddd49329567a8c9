//! Single fields of an image, each with the bytes after it.

ghost use Rattle.std.specs.Prelude.{◌≡◌, ◌^◌, ◌≤◌, IfSome, codes, length, unsigned_abs};
ghost use Rattle.std.specs.Option.{option_map};
ghost use Rattle.mesh_model.specs.Images.Codec.{number, text, times};
ghost use Rattle.mesh_model.specs.Images.Reading.{any, content, out, side, upto};

use amr_num::SideKind;
use byteorder::{ByteOrder, LittleEndian};

/// The first bytes of every image.
const MAGIC: &[u8] = b"AMRCHK01";

/// The greatest absolute value of a content.
const MOST_CONTENT: u64 = 1 << 40;

/// The greatest absolute value of what flowed out of a variable.
const MOST_OUT: u128 = 1 << 100;

/// What stands after the first bytes of every image.
pub fn after_magic(bytes: &[u8]) -> Option<&[u8]>
    ensures { option_map (λ x. (tt, x.now)) result ≡ (text (codes "AMRCHK01")).read bytes.now }
{
    bytes.strip_prefix(MAGIC)
}

/// A byte, and the bytes after it.
pub fn any_at(bytes: &[u8]) -> Option<(u8, &[u8])>
    ensures { option_map (λ x. (x.0, x.1.now)) result ≡ any.read bytes.now }
{
    match bytes {
        [] => None,
        [first, rest @ ..] => Some((*first, rest)),
    }
}

/// A byte of at most `most`, and the bytes after it.
pub fn upto_at(most: u8, bytes: &[u8]) -> Option<(u8, &[u8])>
    ensures { option_map (λ x. (x.0, x.1.now)) result ≡ (upto most).read bytes.now }
{
    match bytes {
        [] => None,
        [first, rest @ ..] => {
            if *first <= most {
                Some((*first, rest))
            } else {
                None
            }
        }
    }
}

/// So many bytes, and those after them.
pub fn bytes_at(count: usize, bytes: &[u8]) -> Option<(&[u8], &[u8])>
    ensures read { option_map (λ x. (x.0.now, x.1.now)) result ≡ (times count any).read bytes.now }
    ensures size { IfSome result (λ x. length x.0.now ≡ count) }
{
    if bytes.len() < count {
        return None;
    }
    Some(bytes.split_at(count))
}

/// The kind of a side, and the bytes after it.
pub fn side_at(bytes: &[u8]) -> Option<(SideKind, &[u8])>
    ensures { option_map (λ x. (x.0, x.1.now)) result ≡ side.read bytes.now }
{
    match bytes {
        [0, rest @ ..] => Some((SideKind::Periodic, rest)),
        [1, rest @ ..] => Some((SideKind::Outflow, rest)),
        [2, rest @ ..] => Some((SideKind::Closed, rest)),
        _ => None,
    }
}

/// A count of four bytes, and the bytes after it.
pub fn count_at(bytes: &[u8]) -> Option<(u32, &[u8])>
    ensures { option_map (λ x. (x.0, x.1.now)) result ≡ (number 4).read bytes.now }
{
    if bytes.len() < 4 {
        return None;
    }
    let (front, rest) = bytes.split_at(4);
    Some((LittleEndian::read_u32(front), rest))
}

/// A content, and the bytes after it.
pub fn content_at(bytes: &[u8]) -> Option<(i64, &[u8])>
    ensures read { option_map (λ x. (x.0, x.1.now)) result ≡ content.read bytes.now }
    ensures small { IfSome result (λ x. unsigned_abs x.0 ≤ 2 ^ 40) }
{
    if bytes.len() < 8 {
        return None;
    }
    let (front, rest) = bytes.split_at(8);
    let number = LittleEndian::read_i64(front);
    if number.unsigned_abs() > MOST_CONTENT {
        None
    } else {
        Some((number, rest))
    }
}

/// What flowed out of a variable, and the bytes after it.
pub fn out_at(bytes: &[u8]) -> Option<(i128, &[u8])>
    ensures read { option_map (λ x. (x.0, x.1.now)) result ≡ out.read bytes.now }
    ensures small { IfSome result (λ x. unsigned_abs x.0 ≤ 2 ^ 100) }
{
    if bytes.len() < 16 {
        return None;
    }
    let (front, rest) = bytes.split_at(16);
    let number = LittleEndian::read_i128(front);
    if number.unsigned_abs() > MOST_OUT {
        None
    } else {
        Some((number, rest))
    }
}
