//! The words of a script: lines, words, numbers and names.

ghost use Rattle.std.specs.Prelude.{◌≡◌, ℕ, ◌^◌, ◌≤◌, min, map, true, IfOk, nat_le, pos, neg_ℤ, unsigned_abs, int_le, ◌&&◌, ◌+◌, ◌<◌, length};
ghost use Rattle.mesh_model.specs.declared.language.script.Reason.TheVariants.{OutOfRange};
ghost use Rattle.std.specs.List.{list_all};
ghost use Rattle.mesh_model.specs.Language.Words as plain;
ghost use Rattle.mesh_model.specs.Language.Forms as form;
ghost use Rattle.script_lang.specs.Answers.{texts};

use amr_num::{Axis, BlockAt, SideKind};
use mesh_model::language::script::Reason;
use mesh_model::language::words::is_digit;
use std::alloc::{AllocError, Global};

/// The lines of a script: what stands before, between and after its LF bytes.
#[tactic(auto, unfolding(mesh_model::specs::Language::Words::lines_of))]
pub fn lines_of(alloc: Global, bytes: &[u8]) -> Result<Vec<&[u8]>, AllocError>
    ensures { IfOk result (λ v. map (λ x. x.now) v.items ≡ plain.lines_of bytes.now) }
{
    bytes.split(|b| *b == b'\n').collect(alloc)
}

fn is_gap(b: u8) -> bool
    ensures { result ≡ plain.is_gap b }
{
    b == b' ' || b == b'\t' || b == b'\r'
}

fn is_filled(word: &[u8]) -> bool
    ensures { result ≡ plain.is_filled word.now }
{
    !word.is_empty()
}

/// The words of a line: what stands between its spaces, tabs and CRs.
#[tactic(auto, unfolding(mesh_model::specs::Language::Words::words_of))]
pub fn words_of(alloc: Global, line: &[u8]) -> Result<Vec<&[u8]>, AllocError>
    ensures { IfOk result (λ v. map (λ x. x.now) v.items ≡ plain.words_of line.now) }
{
    line.split(|b| is_gap(*b))
        .filter(|word| is_filled(word))
        .collect(alloc)
}

fn all_digits(bytes: &[u8]) -> bool
    ensures { result ≡ list_all plain.is_digit bytes.now }
{
    bytes.iter().all(|b| is_digit(*b))
}

/// Whether the word is a digit 1 to 9, and then digits.
fn is_positive(word: &[u8]) -> bool
    ensures { result ≡ plain.is_positive word.now }
{
    match word.split_first() {
        Some((first, rest)) => *first >= b'1' && *first <= b'9' && all_digits(rest),
        None => false,
    }
}

/// More than any number of a script may be.
const BEYOND: u64 = 1 << 41;

/// The value of the digits, or `BEYOND`, which is 2^41, where it is greater.
fn value_of(digits: &[u8]) -> u64
    requires { plain.is_positive digits.now ≡ true }
    ensures { result ≡ min (plain.digits_value digits.now) (2 ^ 41) }
{
    let mut value: u64 = 0;
    for d in digits {
        value = (10 * value + (*d - b'0') as u64).min(BEYOND);
    }
    value
}

/// The value of the digits, where it is at most `most`.
fn size_of(digits: &[u8], most: u64) -> Result<i64, Reason>
    requires positive { plain.is_positive digits.now ≡ true }
    requires most { most ≤ 2 ^ 40 }
    ensures value { result ≡ form.check (nat_le (plain.digits_value digits.now) most) OutOfRange (pos (plain.digits_value digits.now)) }
    ensures small { IfOk result (λ z. unsigned_abs z ≤ 2 ^ 40) }
{
    let value = value_of(digits);
    if value > most {
        return Err(Reason::OutOfRange);
    }
    Ok(value as i64)
}

/// The same with a minus.
fn negative(digits: &[u8], most: u64) -> Result<i64, Reason>
    requires positive { plain.is_positive digits.now ≡ true }
    requires most { most ≤ 2 ^ 40 }
    ensures { result ≡ form.check (nat_le (plain.digits_value digits.now) most) OutOfRange (neg_ℤ (pos (plain.digits_value digits.now))) }
{
    let value = value_of(digits);
    if value > most {
        return Err(Reason::OutOfRange);
    }
    Ok(-(value as i64))
}

/// The digits after a minus.
fn after_minus(word: &[u8]) -> &[u8]
    ensures { result.now ≡ plain.after_minus word.now }
{
    if !word.is_empty() && word[0] == b'-' {
        &word[1..]
    } else {
        &[]
    }
}

/// The number that the word is, of absolute value at most `most`: `NotNumber` or `OutOfRange` where it
/// is none.
pub fn number(word: &[u8], most: u64) -> Result<i64, Reason>
    requires { most ≤ 2 ^ 40 }
    ensures { result ≡ form.number most word.now }
{
    if word == b"0".as_slice() {
        return Ok(0);
    }
    if is_positive(word) {
        return size_of(word, most);
    }
    let digits = after_minus(word);
    if is_positive(digits) {
        return negative(digits, most);
    }
    Err(Reason::NotNumber)
}

/// The value, where it lies from `low` to `high`.
fn in_range(value: i64, low: u32, high: u32) -> Result<u32, Reason>
    ensures value { result ≡ form.check (int_le (pos low) value && int_le value (pos high)) OutOfRange (unsigned_abs value) }
    ensures range { IfOk result (λ n. (low ≤ n) × (n ≤ high)) }
{
    if value < low as i64 || value > high as i64 {
        return Err(Reason::OutOfRange);
    }
    Ok(value as u32)
}

/// The number from `low` to `high` that the word is.
pub fn count(word: &[u8], low: u32, high: u32) -> Result<u32, Reason>
    ensures value { result ≡ form.count low high word.now }
    ensures range { IfOk result (λ n. (low ≤ n) × (n ≤ high)) }
{
    let value = number(word, 1 << 40)?;
    in_range(value, low, high)
}

/// The one of these numbers, at most 8, that the word is.
#[tactic(auto, unfolding(mesh_model::specs::Language::Forms::one_of))]
pub fn one_of(word: &[u8], numbers: &[u32]) -> Result<u32, Reason>
    ensures value { result ≡ form.one_of numbers.now word.now }
    ensures range { IfOk result (λ n. n ≤ 8) }
{
    let value = count(word, 0, 8)?;
    if numbers.contains(&value) {
        Ok(value)
    } else {
        Err(Reason::OutOfRange)
    }
}

/// A number that a leaf may hold.
pub fn leaf_number(word: &[u8]) -> Result<i64, Reason>
    ensures { result ≡ form.leaf_number word.now }
{
    number(word, 1 << 40)
}

/// A level.
pub fn level(word: &[u8]) -> Result<u32, Reason>
    ensures value { result ≡ form.level word.now }
    ensures range { IfOk result (λ l. l ≤ 10) }
{
    count(word, 0, 10)
}

/// The word at place `i`, from 0.
pub fn word<'a>(words: &[&'a [u8]], i: usize) -> &'a [u8]
    requires { i < length words.now }
    ensures { result.now ≡ plain.word (texts words.now) i }
{
    words[i]
}

/// Three numbers of absolute value at most `most`, the first at place `i`.
#[tactic(auto, unfolding(mesh_model::specs::Language::Forms::numbers))]
pub fn numbers(words: &[&[u8]], i: usize, most: u64) -> Result<[i64; 3], Reason>
    requires words { i + 2 < length words.now }
    requires most { most ≤ 2 ^ 40 }
    ensures { result ≡ form.numbers most (texts words.now) i }
{
    let x = number(word(words, i), most)?;
    let y = number(word(words, i + 1), most)?;
    let z = number(word(words, i + 2), most)?;
    Ok([x, y, z])
}

/// Three coordinates, the first at place `i`.
#[tactic(auto, unfolding(mesh_model::specs::Language::Forms::point))]
pub fn point(words: &[&[u8]], i: usize) -> Result<[u32; 3], Reason>
    requires { i + 2 < length words.now }
    ensures { result ≡ form.point (texts words.now) i }
{
    let x = count(word(words, i), 0, 65536)?;
    let y = count(word(words, i + 1), 0, 65536)?;
    let z = count(word(words, i + 2), 0, 65536)?;
    Ok([x, y, z])
}

/// The place of a block: its level at place `i`, and then its coordinates.
#[tactic(auto, unfolding(mesh_model::specs::Language::Forms::block))]
pub fn block(words: &[&[u8]], i: usize) -> Result<BlockAt, Reason>
    requires { i + 3 < length words.now }
    ensures { result ≡ form.block (texts words.now) i }
{
    let level = level(word(words, i))?;
    let x = count(word(words, i + 1), 0, 65536)?;
    let y = count(word(words, i + 2), 0, 65536)?;
    let z = count(word(words, i + 3), 0, 65536)?;
    Ok(BlockAt { level, x, y, z })
}

/// `UnknownWord` where the word is not this text.
#[tactic(auto, unfolding(mesh_model::specs::Language::Forms::fixed))]
pub fn fixed(word: &[u8], text: &[u8]) -> Result<(), Reason>
    ensures { result ≡ form.fixed text.now word.now }
{
    if word == text {
        Ok(())
    } else {
        Err(Reason::UnknownWord)
    }
}

/// `x`, `y` or `z`.
#[tactic(auto, unfolding(mesh_model::specs::Language::Forms::axis))]
pub fn axis(word: &[u8]) -> Result<Axis, Reason>
    ensures { result ≡ form.axis word.now }
{
    if word == b"x".as_slice() {
        return Ok(Axis::X);
    }
    if word == b"y".as_slice() {
        return Ok(Axis::Y);
    }
    if word == b"z".as_slice() {
        return Ok(Axis::Z);
    }
    Err(Reason::UnknownWord)
}

/// `periodic`, `outflow` or `closed`.
#[tactic(auto, unfolding(mesh_model::specs::Language::Forms::side))]
pub fn side(word: &[u8]) -> Result<SideKind, Reason>
    ensures { result ≡ form.side word.now }
{
    if word == b"periodic".as_slice() {
        return Ok(SideKind::Periodic);
    }
    if word == b"outflow".as_slice() {
        return Ok(SideKind::Outflow);
    }
    if word == b"closed".as_slice() {
        return Ok(SideKind::Closed);
    }
    Err(Reason::UnknownWord)
}
