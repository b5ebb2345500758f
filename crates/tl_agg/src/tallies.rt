//! What the numbers of rows that come and go add up to, without a test of which it is in the sum.
//! It holds fewer than 2^64 rows, whose sum stays far from the ends of 128 bits.
ghost use Rattle.std.specs.Prelude.{◌≡◌, ◌+◌, ◌-◌, ◌*◌, ◌^◌, ◌<◌, ◌≤◌};
ghost use Rattle.tl_agg.specs.Tallies.{IsFarFromEnds, total, count_with, signed, tally_moved};

/// What the numbers of rows that come and go add up to: how many rows are kept, how many of these
/// come, and a sum to which a row that goes adds its number with all bits turned, which is 1 less
/// than what it takes away.
#[derive(Clone, Copy)]
pub(crate) struct Tally {
    pub(crate) came: u64,
    pub(crate) kept: u64,
    pub(crate) sum: i128,
}

// What a row with a number adds to a sum where it comes, and else goes.
#[inline(always)]
fn signed(opens: bool, number: i64) -> i64
    ensures { result ≡ signed opens number }
{
    if opens { number } else { -1 - number }
}

impl Tally {
    /// No row, and a sum before it.
    pub(crate) fn none(sum: i128) -> Tally
        ensures { result ≡ record { came = 0; kept = 0; sum = sum } }
    {
        Tally {
            came: 0,
            kept: 0,
            sum,
        }
    }

    /// A row with a number comes where `opens`, and else goes.
    #[inline(always)]
    pub(crate) fn moved(self, opens: bool, number: i64) -> Tally
        requires came { self.came ≤ self.kept }
        requires few { self.kept < 2 ^ 64 - 1 }
        requires wide { IsFarFromEnds self.sum }
        ensures { result ≡ tally_moved opens number self }
    {
        Tally {
            came: self.came + u64::from(opens),
            kept: self.kept + 1,
            sum: self.sum + i128::from(signed(opens, number)),
        }
    }

    /// How many rows there are, where there were so many.
    pub(crate) fn count(self, before: u32) -> u32
        requires came { self.came ≤ self.kept }
        requires some { self.kept ≤ before + 2 * self.came }
        requires fits { count_with before self < 2 ^ 32 }
        ensures { result ≡ count_with before self }
    {
        let came = u128::from(self.came);
        (u128::from(before) + came + came - u128::from(self.kept)) as u32
    }

    /// The sum of the numbers.
    pub(crate) fn total(self) -> i128
        requires came { self.came ≤ self.kept }
        requires wide { IsFarFromEnds self.sum }
        ensures { result ≡ total self }
    {
        self.sum + i128::from(self.kept - self.came)
    }
}
