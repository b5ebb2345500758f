//! Short texts of at most 65,535 bytes: names, and the cells of TEXT columns. A text of at most 16
//! bytes stands in its value. Bytes become a text exactly where they are UTF-8.
ghost use Rattle.std.specs.Prelude.{◌≡◌, ◌≤◌, ◌<◌, length, true, false, IfOk, IfSome, IfNone, IsUtf8, Some, refl, nat_eq};
ghost use Rattle.std.specs.Str.{is_utf8, IsAscii};
ghost use Rattle.std.specs.Ordering.{nat_cmp};
ghost use Rattle.std.specs.Cmp.Lexicographic.{pointwise, slice_cmp, nat_list_eq_equiv, nat_list_cmp_total, texts_ties, texts_po};
ghost use Rattle.std.specs.Cmp.{partial_equiv_from_equiv};
ghost use Rattle.std.specs.Cmp.Rules.{hashing};
ghost use Rattle.std.specs.Hash as fed;
ghost use Rattle.std.proofs.Common.{rules};

use crate::NoMemory;
use arrayvec::ArrayString;
use std::alloc::Global;
use std::cmp::Ordering;
use std::fmt;
use std::hash::{Hash, Hasher};
use std::marker::Model;

// The most bytes of a text that is kept in the value itself.
const SHORT: usize = 16;

// By what the bytes of a text are multiplied to spread texts over places.
const SPREAD: u32 = 2654435769;

/// A number for a text, by its first byte and its last three, that spreads texts over all numbers
/// of 32 bits: for tables in which a text is looked for at one place, by the number's upper bits.
/// Other texts may have the same, so what stands at a place is compared, and any number is right.
pub fn text_place(text: &str) -> u32 {
    let bytes = text.as_bytes();
    let mixed = match bytes {
        [first, .., third, second, last] => u32::from_le_bytes([*last, *second, *third, *first]),
        _ => few_mixed(bytes),
    };
    mixed.wrapping_mul(SPREAD)
}

// The same bytes of a text of at most three.
fn few_mixed(bytes: &[u8]) -> u32 {
    match bytes {
        [first, second, last] => u32::from_le_bytes([*last, *second, 0, *first]),
        [first, last] => u32::from_le_bytes([*last, 0, 0, *first]),
        [only] => u32::from(*only),
        _ => 0,
    }
}

// Bytes that are not all ASCII as a text, where they are UTF-8.
#[tactic(auto, using(crate::proofs::TextLemmas::utf8_yes, crate::proofs::TextLemmas::utf8_no))]
#[inline(never)]
fn as_wide_text(bytes: &[u8]) -> Option<&str>
    ensures some { IfSome result (λ text. (text.now ≡ bytes.now) × (is_utf8 bytes.now ≡ true)) }
    ensures none { IfNone result (is_utf8 bytes.now ≡ false) }
{
    match str::from_utf8(bytes) {
        Ok(text) => Some(text),
        Err(_) => None,
    }
}

/// Bytes that are ASCII as a text, without a further look at them.
#[tactic(auto, using(crate::proofs::TextLemmas::ascii_yes, crate::proofs::TextLemmas::ascii_test))]
#[inline(always)]
pub fn ascii_text(bytes: &[u8]) -> &str
    requires { IsAscii bytes.now }
    ensures text { result.now ≡ bytes.now }
    ensures whole { is_utf8 bytes.now ≡ true }
{
    unsafe { str::from_utf8_unchecked(bytes) }
}

/// Bytes as a text, where they are UTF-8. Most texts are ASCII, for which one pass over the bytes
/// is enough.
#[inline]
pub fn as_text(bytes: &[u8]) -> Option<&str>
    ensures some { IfSome result (λ text. (text.now ≡ bytes.now) × (is_utf8 bytes.now ≡ true)) }
    ensures none { IfNone result (is_utf8 bytes.now ≡ false) }
{
    if bytes.is_ascii() {
        return Some(ascii_text(bytes));
    }
    as_wide_text(bytes)
}

// How a text is kept.
#[derive(Drop)]
enum Form {
    // In the value itself.
    Short(ArrayString<SHORT>),
    // In memory of its own.
    Long(String),
}

/// A text of at most 65,535 bytes of UTF-8, which takes memory of its own only where it has more
/// than 16. A contract sees it as its bytes.
#[derive(Drop)]
pub struct Text {
    form: Form,
}

impl Model for Text {
    ghost use Rattle.std.specs.Prelude.{ℕ, List, ◌≤◌, length};
    ghost use Rattle.tl_types.specs.Texts.{bytes_of_form};

    ghost Value = { List ℕ };

    ghost view = { λ t. bytes_of_form t.form };

    ghost invariant = { λ t. length (bytes_of_form t.form) ≤ 65535 };
}

impl Text {
    /// A copy of a text of at most 65,535 bytes. The error is `NoMemory`.
    #[inline(always)]
    pub fn new(alloc: Global, text: &str) -> Result<Text, NoMemory>
        requires { length text.now ≤ 65535 }
        ensures { IfOk result (λ t. t ≡ text.now) }
    {
        let form = match ArrayString::from(text) {
            Ok(short) => Form::Short(short),
            Err(_) => Form::Long(String::from_str(alloc, text)?),
        };
        Ok(Text { form })
    }

    /// The text, lent.
    pub fn as_str(&self) -> &str
        ensures bytes { result.now ≡ self.now }
        ensures short { length self.now ≤ 65535 }
        ensures utf8 { IsUtf8 self.now }
    {
        match &self.form {
            Form::Short(text) => text.as_str(),
            Form::Long(text) => text.as_str(),
        }
    }

    /// The text's bytes, lent.
    pub fn as_bytes(&self) -> &[u8]
        ensures bytes { result.now ≡ self.now }
        ensures short { length self.now ≤ 65535 }
    {
        self.as_str().as_bytes()
    }
}

impl Clone for Text {
    ghost is_clone = { λ v w. w ≡ v };

    fn clone(&self) -> Result<Self, NoMemory> {
        let form = match &self.form {
            Form::Short(text) => Form::Short(*text),
            Form::Long(text) => Form::Long(text.clone()?),
        };
        Ok(Text { form })
    }
}

impl PartialEq for Text {
    ghost eq = { pointwise nat_eq };

    ghost laws = { partial_equiv_from_equiv nat_list_eq_equiv };

    fn eq(&self, other: &Text) -> bool {
        self.as_str() == other.as_str()
    }
}

impl Eq for Text {
    ghost laws = { nat_list_eq_equiv };
}

impl PartialOrd for Text {
    ghost partial_cmp = { λ x y. Some (slice_cmp nat_cmp x y) };

    ghost laws = { texts_po };

    fn partial_cmp(&self, other: &Text) -> Option<Ordering> {
        Some(self.cmp(other))
    }
}

impl Ord for Text {
    ghost cmp = { slice_cmp nat_cmp };

    ghost total = { nat_list_cmp_total };

    ghost matches_partial_cmp = { λ x y. refl };

    ghost matches_eq = { texts_ties };

    fn cmp(&self, other: &Text) -> Ordering {
        self.as_str().cmp(other.as_str())
    }
}

impl Hash for Text {
    ghost hash_input = { λ t. fed.str t };

    ghost respects_eq = { Prim.search (hashing, rules) };

    fn hash<H: Hasher>(&self, state: &mut H) {
        self.as_str().hash(state);
    }
}

impl fmt::Debug for Text {
    fn fmt<W: fmt::Write>(&self, f: &mut fmt::Formatter<W>) -> fmt::Result {
        f.write_str(self.as_str())
    }
}
