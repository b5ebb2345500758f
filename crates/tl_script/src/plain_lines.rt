//! Whole lines without a backslash, which end no block, so that they are read together. They are
//! found by their last LF before the first backslash, and counted 128 bytes at a time.
ghost use Rattle.std.specs.Prelude.{◌≡◌, ◌≤◌, length, take, true, false};
ghost use Rattle.tl_script.specs.Script.{stands_in};
ghost use Rattle.tl_script.specs.PlainLines.{ArePlain, are_lines, line_ends};

use memchr::{memchr, memrchr};

// How many bytes are counted at once: a u8 holds their count.
const RUN: usize = 128;

// How many of the bytes are LF.
fn few_line_ends(bytes: &[u8]) -> u8
    requires { length bytes.now ≤ 128 }
    ensures { result ≡ line_ends bytes.now }
{
    let mut count = 0;
    for byte in bytes {
        if *byte == b'\n' {
            count += 1;
        }
    }
    count
}

/// How many of the bytes are LF.
pub(crate) fn line_ends(bytes: &[u8]) -> u64
    ensures { result ≡ line_ends bytes.now }
{
    let mut count = 0;
    let mut rest = bytes;
    while rest.len() >= RUN {
        let (run, behind) = rest.split_at(RUN);
        count += few_line_ends(run) as u64;
        rest = behind;
    }
    count + few_line_ends(rest) as u64
}

// The bytes before the first backslash.
fn before_backslash(bytes: &[u8]) -> &[u8]
    ensures front { result.now ≡ take (length result.now) bytes.now }
    ensures plain { stands_in 92 result.now ≡ false }
{
    match memchr(b'\\', bytes) {
        Some(at) => bytes.split_at(at).0,
        None => bytes,
    }
}

// The bytes up to the last LF.
fn whole_lines(bytes: &[u8]) -> &[u8]
    ensures front { result.now ≡ take (length result.now) bytes.now }
    ensures whole { are_lines result.now ≡ true }
{
    match memrchr(b'\n', bytes) {
        Some(at) => bytes.split_at(at + 1).0,
        None => bytes.split_at(0).0,
    }
}

/// The whole lines before the first line that has a backslash or no LF.
pub(crate) fn plain_lines(bytes: &[u8]) -> &[u8]
    ensures { ArePlain bytes.now result.now }
{
    whole_lines(before_backslash(bytes))
}
