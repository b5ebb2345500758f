//! Piles of whole numbers, each of which tells its greatest: a heap of some, and the others in no
//! order. It keeps that none of the others is above a bound, which the greatest reaches.
ghost use Rattle.std.specs.Prelude.{◌≡◌, ℤ, ◌≤ℤ◌, ◌<ℤ◌, ◌+◌, ◌<◌, ◌≤◌, true, false, length, IfSome, IfNone, OnOk};
ghost use Rattle.tl_running.specs.Heaps.{IsTop, JoinsHeap, none_in, count_in, AreUpTo, Reaches, IsPile, FillsPile, IsGreaterAt, IsGreatestAt, MovesNear, MendsPile, IsLower};

use crate::far::Far;
use crate::heap::Heap;
use std::alloc::Global;
use std::marker::Model;
use tl_types::NoMemory;

/// Whole numbers of which the greatest is known: a heap of some, the greatest among them, and the
/// others in no order, none of them above a bound that the greatest reaches. A number below the
/// bound costs a comparison and a place; when the heap has none left that reaches the bound, a
/// sixteenth of the others or more move into it, so that each is looked at a few times. A contract
/// sees the numbers in some order, and how many there is room for.
#[derive(Drop)]
pub(crate) struct Pile {
    near: Heap,
    far: Far,
    bound: i64,
}

impl Model for Pile {
    ghost use Rattle.tl_running.specs.Heaps.{HeapOf, IsPile, pile_of};

    ghost Value = { HeapOf };

    ghost view = { λ p. pile_of p.near p.far };

    ghost invariant = { λ p. IsPile p.near p.far p.bound };
}

// How many numbers there is room for at least, where there is room for any, and how many more than
// a share of the room may come near the greatest.
const FEW: usize = 8;

// One in so many of the numbers that there is room for may come near the greatest; more may move
// there from among those that are far.
const NEAR_SHARE: usize = 4;

// By how much the room grows when it is full: the numbers are moved then.
const GROWTH: usize = 4;

// Into how many parts numbers are divided, of each of which one is looked at.
const PARTS: usize = 8;

// One in so many of the numbers that are far moves near the greatest, or more.
const SHARE: usize = 16;

// One of some numbers, which is likely to have few above it where they are many. Any is right.
fn sample(far: &Far) -> i64 {
    let many = far.len();
    let step = many / PARTS + 1;
    let mut best = i64::MIN;
    let mut place = step / 2;
    'samples: while place < many {
        best = best.max(far.at(place));
        place += step;
    }
    best
}

// The place of the greater one of two numbers.
fn greater_place(far: &Far, first: usize, second: usize) -> usize
    requires { (first < length far.now.numbers) × (second < length far.now.numbers) }
    ensures { IsGreaterAt far.now.numbers first second result }
{
    if far.at(first) < far.at(second) {
        second
    } else {
        first
    }
}

// The place of the greatest number.
fn greatest_place(far: &Far) -> usize
    requires { 0 < length far.now.numbers }
    ensures { IsGreatestAt far.now.numbers result }
{
    let mut place = 0;
    let mut i = 1;
    'numbers: while i < far.len() {
        place = greater_place(far, place, i);
        i += 1;
    }
    place
}

// Moves the numbers that are not below a bound, as long as there is room; whether all are moved.
fn move_near(near: &mut Heap, far: &mut Far, bound: i64) -> bool
    ensures moves { MovesNear near.old far.old near.new far.new }
    ensures all { result ≡ true → AreUpTo far.new.numbers bound }
{
    let mut i = 0;
    'numbers: while i < far.len() {
        if far.at(i) < bound {
            i += 1;
            continue;
        }
        if near.len() >= near.room() {
            return false;
        }
        let number = far.take(i);
        near.push(number);
    }
    true
}

// Whether a number is far from the greatest: below the bound, where there is a greatest.
#[inline]
fn is_far(near: &Heap, bound: i64, number: i64) -> bool
    requires { Reaches near.now.numbers bound }
    ensures far { result ≡ true → (number ≤ℤ bound) × (0 < length near.now.numbers) }
    ensures below { result ≡ true → (x : ℤ) → AreUpTo near.now.numbers x → number <ℤ x }
    ensures close { result ≡ false → 0 < length near.now.numbers → bound ≤ℤ number }
{
    match near.top() {
        Some(_top) => number < bound,
        None => false,
    }
}

// Puts a number where it is far from the greatest; whether it is.
#[inline]
fn put_far(near: &Heap, far: &mut Far, bound: i64, number: i64) -> bool
    requires pile { IsPile near.now far.old bound }
    requires room { length near.now.numbers + length far.old.numbers < far.old.room }
    ensures fills { result ≡ true → FillsPile near.now far.old near.now far.new number bound }
    ensures below { result ≡ true → (x : ℤ) → AreUpTo near.now.numbers x → number <ℤ x }
    ensures close { result ≡ false → 0 < length near.now.numbers → bound ≤ℤ number }
    ensures same { result ≡ false → far.new ≡ far.old }
{
    let is_far = is_far(near, bound, number);
    if is_far {
        far.push(number);
    }
    is_far
}

// Puts the greater one of a number and the greatest near the top, in place of the latter, and the
// other one far from it. The answer is the new bound.
fn exchange(near: &mut Heap, far: &mut Far, bound: i64, number: i64) -> i64
    requires pile { IsPile near.old far.old bound }
    requires some { 0 < length near.old.numbers }
    requires room { length far.old.numbers < far.old.room }
    ensures fills { FillsPile near.old far.old near.new far.new number result }
{
    let _bound = bound; // says that it is of 64 bits
    let Some(top) = near.pop() else {
        unreachable!()
    };
    if number > top {
        near.push(number);
        far.push(top);
        return number;
    }
    near.push(top);
    far.push(number);
    top
}

// Puts a number that is not far from the greatest. The answer is the new bound.
#[inline(never)]
fn put_near(near: &mut Heap, far: &mut Far, bound: i64, number: i64) -> i64
    requires pile { IsPile near.old far.old bound }
    requires close { 0 < length near.old.numbers → bound ≤ℤ number }
    requires room { length near.old.numbers + length far.old.numbers < far.old.room }
    ensures fills { FillsPile near.old far.old near.new far.new number result }
{
    if near.len() >= near.room() || near.len() >= near.room() / NEAR_SHARE + FEW {
        return exchange(near, far, bound, number);
    }
    near.push(number);
    if number < bound {
        return number;
    }
    bound
}

// Puts a number. The answer is the new bound.
#[inline]
fn put(near: &mut Heap, far: &mut Far, bound: i64, number: i64) -> i64
    requires pile { IsPile near.old far.old bound }
    requires room { length near.old.numbers + length far.old.numbers < far.old.room }
    ensures fills { FillsPile near.old far.old near.new far.new number result }
{
    let is_put = put_far(near, far, bound, number);
    if is_put {
        return bound;
    }
    put_near(near, far, bound, number)
}

// Whether the greatest near number reaches the bound.
fn reaches(near: &Heap, bound: i64) -> bool
    ensures reaches { result ≡ true → Reaches near.now.numbers bound }
    ensures some { result ≡ true → 0 < length near.now.numbers }
{
    match near.top() {
        Some(top) => top >= bound,
        None => false,
    }
}

// A bound that the greatest near number reaches.
fn reached(near: &Heap) -> i64
    ensures { Reaches near.now.numbers result }
{
    match near.top() {
        Some(top) => top,
        None => i64::MAX,
    }
}

// The lower one of two bounds where it holds, else the upper one.
fn lower(holds: bool, low: i64, top: i64) -> i64
    ensures { IsLower holds low top result }
{
    if holds && low < top { low } else { top }
}

// Moves the numbers that are not below a bound, or all, where these are less than a share of them.
// The answer is the bound of those that stay, and whether it holds.
fn move_share(near: &mut Heap, far: &mut Far, low: i64) -> (bool, i64)
    ensures moves { MovesNear near.old far.old near.new far.new }
    ensures all { result.0 ≡ true → AreUpTo far.new.numbers result.1 }
{
    let many = far.len();
    let holds = move_near(near, far, low);
    if far.len() <= many - many / SHARE {
        return (holds, low);
    }
    let holds = move_near(near, far, i64::MIN);
    (holds, i64::MIN)
}

// Moves more numbers near the greatest, which is near already. The answer is the new bound.
fn spread(near: &mut Heap, far: &mut Far) -> i64
    requires some { 0 < length near.old.numbers }
    requires above { (x : ℤ) → IsTop near.old.numbers x → AreUpTo far.old.numbers x }
    requires room { 0 < near.old.room }
    ensures mends { MendsPile near.old far.old near.new far.new result }
{
    let Some(top) = near.top() else {
        unreachable!()
    };
    let low = sample(far);
    let (holds, least) = move_share(near, far, low);
    lower(holds, least, top)
}

// Moves the greatest number of those that are far near the greatest, and some more. The answer is
// the new bound.
#[inline(never)]
fn refill(near: &mut Heap, far: &mut Far) -> i64
    requires spare { length near.old.numbers < near.old.room }
    requires room { 0 < near.old.room }
    ensures mends { MendsPile near.old far.old near.new far.new result }
{
    if far.len() == 0 {
        return reached(near);
    }
    let place = greatest_place(far);
    let number = far.take(place);
    near.push(number);
    spread(near, far)
}

// Makes a pile again of what is left of one without its greatest number. The answer is the new
// bound.
fn mend(near: &mut Heap, far: &mut Far, bound: i64) -> i64
    requires below { AreUpTo far.old.numbers bound }
    requires spare { length near.old.numbers < near.old.room }
    requires room { 0 < near.old.room }
    ensures mends { MendsPile near.old far.old near.new far.new result }
{
    if reaches(near, bound) {
        return bound;
    }
    refill(near, far)
}

impl Pile {
    /// The pile of no number. It takes no memory.
    pub(crate) fn none(alloc: Global) -> Pile
        ensures { none_in result.numbers }
    {
        Pile {
            near: Heap::none(alloc),
            far: Far::none(alloc),
            bound: i64::MAX,
        }
    }

    /// How many numbers there are.
    pub(crate) fn len(&self) -> usize
        ensures len { result ≡ length self.now.numbers }
        ensures few { result < 18446744073709551615 }
    {
        self.near.len() + self.far.len()
    }

    /// How many numbers there is room for.
    pub(crate) fn room(&self) -> usize
        ensures { result ≡ self.now.room }
    {
        self.far.room()
    }

    /// The greatest number.
    pub(crate) fn top(&self) -> Option<i64>
        ensures some { IfSome result (IsTop self.now.numbers) }
        ensures none { IfNone result (none_in self.now.numbers) }
    {
        self.near.top()
    }

    /// Makes room for so many numbers, near the greatest and far from it: no other call takes
    /// memory. The error is `NoMemory`.
    #[inline(never)]
    pub(crate) fn reserve(&mut self, many: usize) -> Result<(), NoMemory>
        ensures numbers { self.new.numbers ≡ self.old.numbers }
        ensures room { self.old.room ≤ self.new.room }
        ensures ok { OnOk result (many ≤ self.new.room) }
    {
        let room = self.far.room().saturating_mul(GROWTH).max(many).max(FEW);
        self.near.make_room(room)?;
        self.far.make_room(room)?;
        Ok(())
    }

    /// Puts a number in, for which there is room.
    #[inline]
    pub(crate) fn push(&mut self, number: i64)
        requires { length self.old.numbers < self.old.room }
        ensures joins { JoinsHeap self.old self.new number }
        ensures room { self.new.room ≡ self.old.room }
    {
        self.bound = put(&mut self.near, &mut self.far, self.bound, number);
    }

    /// Puts a number in where it is far from the greatest, which is above it; whether it is.
    #[inline]
    pub(crate) fn push_far(&mut self, number: i64) -> bool
        requires { length self.old.numbers < self.old.room }
        ensures joins { result ≡ true → JoinsHeap self.old self.new number }
        ensures below { result ≡ true → (x : ℤ) → AreUpTo self.old.numbers x → number <ℤ x }
        ensures same { result ≡ false → self.new ≡ self.old }
        ensures room { self.new.room ≡ self.old.room }
    {
        put_far(&self.near, &mut self.far, self.bound, number)
    }

    /// Takes the greatest number out.
    #[inline(never)]
    pub(crate) fn pop(&mut self) -> Option<i64>
        ensures top { IfSome result (IsTop self.old.numbers) }
        ensures some { IfSome result (JoinsHeap self.new self.old) }
        ensures none { IfNone result (none_in self.old.numbers) }
        ensures room { self.new.room ≡ self.old.room }
    {
        let top = self.near.pop()?;
        self.bound = mend(&mut self.near, &mut self.far, self.bound);
        Some(top)
    }
}
