//! Numbers of a record, between bounds, of one to eight bytes, the greatest first. A number beyond
//! its bounds is `Bad`; bytes that can still become one between them are `Short`.
ghost use Rattle.std.specs.Prelude.{◌≡◌, ◌≤◌, ◌<◌, ◌≤ℤ◌, length, IfOk};
ghost use Rattle.tl_record.specs.Reading.{
  Gives,
  Fails,
  IsBetween,
  byte_between,
  is_kind,
  kind_at,
  turned,
  turned_byte,
  turned_between,
  between,
  weight,
  distance,
  signed_between,
};

use crate::faults::{Fault, ReadError};

/// A byte from `lo` to `hi`, and what follows it.
#[inline(always)]
pub fn byte(lo: u8, hi: u8, bytes: &[u8]) -> Result<(u8, &[u8]), ReadError>
    ensures read { Gives (λ x. (x.0, x.1.now)) result (byte_between lo hi bytes.now) }
    ensures within { IfOk result (λ x. IsBetween lo hi x.0) }
{
    match bytes {
        [] => Err(ReadError::Fault(Fault::Short)),
        [first, rest @ ..] => {
            if lo <= *first && *first <= hi {
                Ok((*first, rest))
            } else {
                Err(ReadError::Fault(Fault::Bad))
            }
        }
    }
}

// Whether a byte says what a commit does.
fn is_kind(byte: u8) -> bool
    ensures { result ≡ is_kind byte }
{
    byte == 1 || byte == 2 || byte == 4 || byte == 5
}

/// A byte that says what a commit does, and what follows it.
pub fn kind(bytes: &[u8]) -> Result<(u8, &[u8]), ReadError>
    ensures { Gives (λ x. (x.0, x.1.now)) result (kind_at bytes.now) }
{
    match bytes {
        [] => Err(ReadError::Fault(Fault::Short)),
        [first, rest @ ..] => {
            if is_kind(*first) {
                Ok((*first, rest))
            } else {
                Err(ReadError::Fault(Fault::Bad))
            }
        }
    }
}

fn weight(count: u8) -> u64
    requires { count < 8 }
    ensures { result ≡ weight count }
{
    match count {
        0 => 1,
        1 => 256,
        2 => 65536,
        3 => 16777216,
        4 => 4294967296,
        5 => 1099511627776,
        6 => 281474976710656,
        _ => 72057594037927936,
    }
}

/// A number of `count` bytes, at most 8, from `lo` to `hi`, and what follows it.
#[tactic(auto, using(crate::proofs::Steps::all, crate::proofs::Bounds::weight_pos))]
pub fn between(count: u8, lo: u64, hi: u64, bytes: &[u8]) -> Result<(u64, &[u8]), ReadError>
    requires size { count ≤ 8 }
    requires some { lo ≤ hi }
    requires small { hi < weight count }
    ensures read { Gives (λ x. (x.0, x.1.now)) result (between count lo hi bytes.now) }
    ensures within { IfOk result (λ x. IsBetween lo hi x.0) }
{
    if count == 0 {
        return Ok((0, bytes));
    }
    let weight = weight(count - 1);
    let (first, rest) = byte((lo / weight) as u8, (hi / weight) as u8, bytes)?;
    let front = first as u64 * weight;
    let most = (hi - front).min(weight - 1);
    let (behind, rest) = between(count - 1, lo.saturating_sub(front), most, rest)?;
    Ok((front + behind, rest))
}

#[tactic(auto, using(crate::proofs::Whole::four_read))]
#[inline(always)]
fn whole_number(lo: u32, hi: u32, bytes: &[u8]) -> Result<(u32, &[u8]), ReadError>
    requires some { lo ≤ hi }
    requires long { 4 ≤ length bytes.now }
    ensures read { Gives (λ x. (x.0, x.1.now)) result (between 4 lo hi bytes.now) }
    ensures within { IfOk result (λ x. IsBetween lo hi x.0) }
{
    let (front, rest) = bytes.split_at(4);
    let n = u32::from_be_bytes([front[0], front[1], front[2], front[3]]);
    if lo <= n && n <= hi {
        Ok((n, rest))
    } else {
        Err(ReadError::Fault(Fault::Bad))
    }
}

// Why no number of 4 bytes is read, where the bytes are fewer.
#[tactic(auto, using(crate::proofs::Whole::four_cut))]
#[cold]
#[inline(never)]
fn cut_number(lo: u32, hi: u32, bytes: &[u8]) -> ReadError
    requires some { lo ≤ hi }
    requires cut { length bytes.now < 4 }
    ensures { Fails result (between 4 lo hi bytes.now) }
{
    match between(4, lo as u64, hi as u64, bytes) {
        Ok(_) => unreachable!(),
        Err(error) => error,
    }
}

/// A number of 4 bytes from `lo` to `hi`, and what follows it.
#[inline(always)]
pub fn number(lo: u32, hi: u32, bytes: &[u8]) -> Result<(u32, &[u8]), ReadError>
    requires { lo ≤ hi }
    ensures read { Gives (λ x. (x.0, x.1.now)) result (between 4 lo hi bytes.now) }
    ensures within { IfOk result (λ x. IsBetween lo hi x.0) }
{
    if bytes.len() >= 4 {
        return whole_number(lo, hi, bytes);
    }
    Err(cut_number(lo, hi, bytes))
}

#[tactic(auto, using(crate::proofs::Whole::two_read))]
#[inline(always)]
fn whole_short_number(bytes: &[u8]) -> Result<(u16, &[u8]), ReadError>
    requires { 2 ≤ length bytes.now }
    ensures { Gives (λ x. (x.0, x.1.now)) result (between 2 0 65535 bytes.now) }
{
    let (front, rest) = bytes.split_at(2);
    let n = u16::from_be_bytes([front[0], front[1]]);
    Ok((n, rest))
}

// Why no number of 2 bytes is read, where the bytes are fewer.
#[tactic(auto, using(crate::proofs::Whole::two_cut))]
#[cold]
#[inline(never)]
fn cut_short_number(bytes: &[u8]) -> ReadError
    requires cut { length bytes.now < 2 }
    ensures { Fails result (between 2 0 65535 bytes.now) }
{
    match between(2, 0, 65535, bytes) {
        Ok(_) => unreachable!(),
        Err(error) => error,
    }
}

/// A number of 2 bytes, and what follows it.
#[inline(always)]
pub fn short_number(bytes: &[u8]) -> Result<(u16, &[u8]), ReadError>
    ensures { Gives (λ x. (x.0, x.1.now)) result (between 2 0 65535 bytes.now) }
{
    if bytes.len() >= 2 {
        return whole_short_number(bytes);
    }
    Err(cut_short_number(bytes))
}

fn turned(byte: u8) -> u8
    ensures { result ≡ turned byte }
{
    if byte < 128 { byte + 128 } else { byte - 128 }
}

// The first byte, of which the top bit is turned, where it is between two bounds, and the rest.
fn turned_byte(lo: u8, hi: u8, bytes: &[u8]) -> Result<(u8, &[u8]), ReadError>
    ensures read { Gives (λ x. (x.0, x.1.now)) result (turned_byte lo hi bytes.now) }
    ensures within { IfOk result (λ x. IsBetween lo hi x.0) }
{
    match bytes {
        [] => Err(ReadError::Fault(Fault::Short)),
        [first, rest @ ..] => {
            let value = turned(*first);
            if lo <= value && value <= hi {
                Ok((value, rest))
            } else {
                Err(ReadError::Fault(Fault::Bad))
            }
        }
    }
}

const WEIGHT: u64 = 72057594037927936;

#[tactic(auto, using(crate::proofs::Steps::step), unfolding(crate::specs::Reading::turned_between))]
fn turned_between(lo: u64, hi: u64, bytes: &[u8]) -> Result<(u64, &[u8]), ReadError>
    requires { lo ≤ hi }
    ensures read { Gives (λ x. (x.0, x.1.now)) result (turned_between lo hi bytes.now) }
    ensures within { IfOk result (λ x. IsBetween lo hi x.0) }
{
    let (first, rest) = turned_byte((lo / WEIGHT) as u8, (hi / WEIGHT) as u8, bytes)?;
    let front = first as u64 * WEIGHT;
    let most = (hi - front).min(WEIGHT - 1);
    let (behind, rest) = between(7, lo.saturating_sub(front), most, rest)?;
    Ok((front + behind, rest))
}

fn distance(i: i64) -> u64
    ensures { result ≡ distance i }
{
    if i < 0 {
        9223372036854775807 - (-(i + 1)) as u64
    } else {
        i as u64 + 9223372036854775808
    }
}

// The number of 64 bits in the first eight bytes, where it is between two bounds, and the rest.
#[tactic(auto, using(crate::proofs::Whole::eight_read))]
#[inline(always)]
fn whole_signed(lo: i64, hi: i64, bytes: &[u8]) -> Result<(i64, &[u8]), ReadError>
    requires some { lo ≤ℤ hi }
    requires long { 8 ≤ length bytes.now }
    ensures read { Gives (λ x. (x.0, x.1.now)) result (signed_between lo hi bytes.now) }
    ensures within { IfOk result (λ x. (lo ≤ℤ x.0) × (x.0 ≤ℤ hi)) }
{
    let (front, rest) = bytes.split_at(8);
    let i = i64::from_be_bytes([
        front[0], front[1], front[2], front[3], front[4], front[5], front[6], front[7],
    ]);
    if lo <= i {
        if i <= hi {
            return Ok((i, rest));
        }
        return Err(ReadError::Fault(Fault::Bad));
    }
    Err(ReadError::Fault(Fault::Bad))
}

// Why no signed number is read, where the bytes are fewer than 8.
#[tactic(auto, using(crate::proofs::Whole::cut), unfolding(crate::specs::Reading::signed_between))]
#[cold]
#[inline(never)]
fn cut_signed(lo: i64, hi: i64, bytes: &[u8]) -> ReadError
    requires some { lo ≤ℤ hi }
    requires cut { length bytes.now < 8 }
    ensures { Fails result (signed_between lo hi bytes.now) }
{
    match turned_between(distance(lo), distance(hi), bytes) {
        Ok(_) => unreachable!(),
        Err(error) => error,
    }
}

/// A signed number of 8 bytes from `lo` to `hi`, and what follows it.
#[inline(always)]
pub fn signed(lo: i64, hi: i64, bytes: &[u8]) -> Result<(i64, &[u8]), ReadError>
    requires { lo ≤ℤ hi }
    ensures read { Gives (λ x. (x.0, x.1.now)) result (signed_between lo hi bytes.now) }
    ensures within { IfOk result (λ x. (lo ≤ℤ x.0) × (x.0 ≤ℤ hi)) }
{
    if bytes.len() >= 8 {
        return whole_signed(lo, hi, bytes);
    }
    Err(cut_signed(lo, hi, bytes))
}
