//! The blocks of the sample: as many lines as are asked for, with numbers of a linear congruential
//! generator.
ghost use Rattle.std.specs.Prelude.{◌≡◌, ◌≤◌, ◌<◌, ◌+◌, ◌-◌, ◌++◌, ◌∷◌, ◌^◌, length, drop, IfOk, OnOk, OnErr};
ghost use Rattle.std.specs.Fmt.{decimal};
ghost use Rattle.tl_csv.specs.Sample.{block_end, block_of, nth_number, id_of, line_text};
ghost use Rattle.tl_csv.specs.Sample.{lines_from};

use itoa::write_digits;
use std::alloc::Global;
use std::marker::Model;
use tl_types::{Bytes, NoMemory};

const LINES_OF_A_BLOCK: u32 = 10_000;

// Three numbers of 32 bits, and a byte behind each.
const LONGEST_LINE: usize = 33;

// The numbers so far, of which `last` is the last.
#[derive(Clone, Copy)]
struct Draw {
    start: u64,
    count: u32,
    last: u32,
    ghost right: { last ≡ nth_number start count },
}

impl Draw {
    fn new(start: u64) -> Draw
        ensures start { result.start ≡ start }
        ensures count { result.count ≡ 0 }
    {
        Draw {
            start,
            count: 0,
            last: (start % 2_147_483_648) as u32,
        }
    }

    #[tactic(auto, using(crate::proofs::SampleLemmas::drawn_next))]
    fn next(&mut self) -> u32
        requires { self.old.count + 1 < 2 ^ 32 }
        ensures value { result ≡ nth_number self.old.start (self.old.count + 1) }
        ensures count { self.new.count ≡ self.old.count + 1 }
        ensures start { self.new.start ≡ self.old.start }
    {
        let next = (1_103_515_245 * u64::from(self.last) + 12_345) % 2_147_483_648;
        *self = Draw {
            start: self.start,
            count: self.count + 1,
            last: next as u32,
        };
        self.last
    }
}

fn id_of(line: u32) -> u32
    ensures { result ≡ id_of line }
{
    5_000 * (line / LINES_OF_A_BLOCK) + line % LINES_OF_A_BLOCK
}

// Writes a number in decimal and a byte behind it, so that they end at `end`, and says where they
// start.
#[inline]
fn put_number(line: &mut [u8], end: usize, number: u32, behind: u8) -> usize
    requires { (11 ≤ end) × (end ≤ length line.old) }
    ensures start { end ≤ result + 11 }
    ensures within { result ≤ end }
    ensures text { drop result line.new ≡ decimal number ++ behind ∷ drop end line.old }
{
    line[end - 1] = behind;
    write_digits(u64::from(number), line, end - 1)
}

// Writes a line so that it ends with the bytes, and says where it starts.
fn fill_line(line: &mut [u8; LONGEST_LINE], id: u32, value: u32) -> usize
    ensures within { result ≤ 33 }
    ensures text { drop result line.new ≡ line_text id value }
{
    let value_start = put_number(line, LONGEST_LINE, value, b'\n');
    let group_start = put_number(line, value_start, value % 8, b',');
    put_number(line, group_start, id, b',')
}

fn put_line(
    out: &mut Vec<u8>,
    line: &mut [u8; LONGEST_LINE],
    id: u32,
    value: u32,
) -> Result<(), NoMemory>
    ensures { OnOk result (out.new.items ≡ out.old.items ++ line_text id value) }
{
    let start = fill_line(line, id, value);
    out.extend_from_slice(&line[start..])?;
    Ok(())
}

// Appends the lines up to line `to`, which is not one of them.
#[tactic(auto, using(crate::proofs::SampleLemmas::one_line, crate::proofs::SampleLemmas::no_line))]
fn put_lines(out: &mut Vec<u8>, draw: &mut Draw, to: u32) -> Result<(), NoMemory>
    requires { draw.old.count ≤ to }
    ensures lines { OnOk result (out.new.items
        ≡ out.old.items ++ lines_from draw.old.start draw.old.count (to - draw.old.count)) }
    ensures count { OnOk result (draw.new.count ≡ to) }
    ensures start { OnOk result (draw.new.start ≡ draw.old.start) }
{
    let mut line = [0; LONGEST_LINE];
    'lines: while draw.count < to {
        let id = id_of(draw.count);
        let value = draw.next() / 65_536;
        put_line(out, &mut line, id, value)?;
    }
    Ok(())
}

/// A sample of lines `id,grp,val`, given in blocks of 10,000. `val` is the next number of the
/// generator x -> (1103515245 x + 12345) mod 2^31, divided by 65,536, and `grp` is `val` mod 8. The
/// ids of a block are in a row, and those of the next one begin 5,000 further on, so half of a full
/// block has ids of the block before it.
#[derive(Drop)]
pub struct Sample {
    lines: u32,
    draw: Draw,
}

impl Model for Sample {
    ghost use Rattle.std.specs.Prelude.{◌≤◌};
    ghost use Rattle.tl_csv.specs.Sample as plain;

    ghost Value = { plain.Sample };

    ghost view = { λ s. record { lines = s.lines; start = s.draw.start; given = s.draw.count } };

    ghost invariant = { λ s. s.draw.count ≤ s.lines };
}

impl Sample {
    /// A sample of `n` lines before its first block. The generator begins with `start` mod 2^31,
    /// and the first line has the number after it.
    pub fn new(n: u32, start: u64) -> Sample
        ensures { result ≡ record { lines = n; start = start; given = 0 } }
    {
        Sample {
            lines: n,
            draw: Draw::new(start),
        }
    }

    fn block_end(&self) -> u32
        ensures end { result ≡ block_end self.now }
        ensures forward { self.now.given ≤ result }
        ensures within { result ≤ self.now.lines }
    {
        self.draw
            .count
            .saturating_add(LINES_OF_A_BLOCK)
            .min(self.lines)
    }

    /// The next block: the header and up to 10,000 lines, each ended by LF. `None` exactly where
    /// all lines were given. The error is `NoMemory`, and leaves the sample as it was.
    pub fn next_block(&mut self, alloc: Global) -> Result<Option<Bytes>, NoMemory>
        ensures block { IfOk result (λ block. block ≡ block_of self.old) }
        ensures given { OnOk result (self.new ≡ record self.old { given = block_end self.old }) }
        ensures kept { OnErr result (self.new ≡ self.old) }
    {
        if self.draw.count == self.lines {
            return Ok(None);
        }
        let end = self.block_end();
        let mut draw = self.draw;
        let mut text = Vec::new(alloc);
        text.extend_from_slice(b"id,grp,val\n")?;
        put_lines(&mut text, &mut draw, end)?;
        self.draw = draw;
        Ok(Some(Bytes::from_vec(text)))
    }
}
