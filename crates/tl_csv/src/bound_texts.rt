//! The texts of the bounds of runs. A run mostly begins where the run before it ends, so the digits
//! of an end serve again as those of the next beginning.
ghost use Rattle.std.specs.Prelude.{◌≡◌, ◌≤◌, drop};
ghost use Rattle.std.specs.Fmt.{signed_decimal};
ghost use Rattle.tl_csv.specs.Answers.{field_text};
ghost use Rattle.tl_query.specs.Fields.{moment_field};

use itoa::write_digits;
use std::marker::Model;
use std::mem::swap;
use tl_types::Period;

// The most bytes of a bound.
const MOST: usize = 20;

// Writes a number in decimal to the end of the bytes, and says where it starts.
#[inline]
fn put_digits(bytes: &mut [u8; MOST], number: i64) -> usize
    ensures within { result ≤ 20 }
    ensures text { drop result bytes.new ≡ signed_decimal number }
{
    let start = write_digits(number.unsigned_abs(), bytes, MOST);
    if number >= 0 {
        return start;
    }
    bytes[start - 1] = b'-';
    start - 1
}

// Writes a bound of a period to the end of the bytes, in decimal where it is a number, and says
// where it starts.
#[inline(never)]
fn put_bound(bytes: &mut [u8; MOST], moment: i64) -> usize
    ensures within { result ≤ 20 }
    ensures text { drop result bytes.new ≡ field_text (moment_field moment) }
{
    if moment == Period::FOREVER {
        *bytes = *b"             FOREVER";
        return 13;
    }
    put_digits(bytes, moment)
}

// A bound and its text.
#[derive(Drop)]
struct BoundText {
    moment: i64,
    start: usize,
    bytes: [u8; MOST],
}

impl Model for BoundText {
    ghost use Rattle.std.specs.Prelude.{ℤ};
    ghost use Rattle.tl_csv.specs.BoundTexts.{IsTextOf};

    ghost Value = { ℤ };

    ghost view = { λ t. t.moment };

    ghost invariant = { λ t. IsTextOf t.moment t.start t.bytes };
}

impl BoundText {
    fn new() -> BoundText {
        BoundText {
            moment: 0,
            start: MOST - 1,
            bytes: [b'0'; MOST],
        }
    }

    // Makes it the text of this bound.
    #[inline]
    fn hold(&mut self, moment: i64)
        ensures { self.new ≡ moment }
    {
        if moment != self.moment {
            self.start = put_bound(&mut self.bytes, moment);
            self.moment = moment;
        }
    }

    #[inline]
    fn as_slice(&self) -> &[u8]
        ensures { result.now ≡ field_text (moment_field self.now) }
    {
        &self.bytes[self.start..]
    }
}

/// The texts of the bounds of a run.
#[derive(Drop)]
pub(crate) struct BoundTexts {
    from: BoundText,
    to: BoundText,
}

impl BoundTexts {
    pub(crate) fn new() -> BoundTexts {
        BoundTexts {
            from: BoundText::new(),
            to: BoundText::new(),
        }
    }

    /// The texts of the bounds of the next run, from and to, each in decimal where it is a number.
    #[inline]
    pub(crate) fn of(&mut self, from: i64, to: i64) -> (&[u8], &[u8])
        ensures from { result.0.now ≡ field_text (moment_field from) }
        ensures to { result.1.now ≡ field_text (moment_field to) }
    {
        swap(&mut self.from, &mut self.to);
        self.from.hold(from);
        self.to.hold(to);
        (self.from.as_slice(), self.to.as_slice())
    }
}
