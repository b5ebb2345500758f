//! The words after the program's name, as they are handed over, and as the program goes by them.
//! Each is copied whole; where one is not UTF-8 there are none.
ghost use Rattle.std.specs.Prelude.{◌≡◌, ◌<◌, ◌≤◌, ◌+◌, ◌^◌, List, ℕ, length, slice_get, take, true, IfOk, IfSome, Some, None, Err};
ghost use Rattle.std.specs.List.{list_all};
ghost use Rattle.std.specs.Str.{is_utf8};
ghost use Rattle.std.specs.declared.env.FillError.TheVariants as fill;
ghost use Rattle.std.specs.declared.option.Option.{Option};
ghost use Rattle.tl_program.specs.Commands.{texts_of, words_of};

use std::alloc::{AllocError, Global};
use std::env::FillError;
use std::rt::Env;
use tl_script::{as_text, is_utf8};
use tl_types::{Bytes, NoMemory};

/// The words after a program's name.
pub trait Words {
    // The bytes of each word, in order, or None where the object does not tell.
    ghost words: { Self → Option (List (List ℕ)) };

    /// Copies the word with a number, from 0 on, to the start of `into`, and answers its length.
    /// `NotPresent`: there is no such word. `TooLong`: it is longer than `into`.
    fn word(&self, number: usize, into: &mut [u8]) -> Result<usize, FillError>
        requires { number + 1 < 2 ^ 64 }
        ensures bound { IfOk result (λ n. n ≤ length into.new) }
        ensures whole { IfOk result (λ n. IfSome (words self.now)
            (λ given. slice_get given number ≡ Some (take n into.new))) }
        ensures none { result ≡ Err fill.NotPresent
            → IfSome (words self.now) (λ given. slice_get given number ≡ None) };
}

/// The words of a process. It tells nothing of them.
#[derive(Drop)]
pub struct EnvWords<'a, R> {
    /// The runtime that has them.
    pub rt: &'a R,
}

impl<'a, R: Env> Words for EnvWords<'a, R> {
    ghost words = { λ _. None };

    fn word(&self, number: usize, into: &mut [u8]) -> Result<usize, FillError> {
        self.rt.arg(number + 1, into)
    }
}

// How many bytes a word is taken to have at first; where it has more the room is doubled.
const FEW: usize = 64;

// The bytes of the word with a number, `None` where there is no such word.
fn word_at<W: Words>(alloc: Global, words: &W, number: usize) -> Result<Option<Bytes>, NoMemory>
    requires { number + 1 < 2 ^ 64 }
    ensures { IfOk result (λ word. IfSome (W.words words.now)
        (λ given. slice_get given number ≡ word)) }
{
    let mut room = FEW;
    for _ in 0..usize::BITS {
        let mut bytes = vec![in alloc; 0u8; room]?;
        match words.word(number, &mut bytes) {
            Ok(len) => {
                bytes.truncate(len);
                return Ok(Some(Bytes::from_vec(bytes)));
            }
            Err(FillError::NotPresent) => return Ok(None),
            Err(FillError::TooLong) => room = room.saturating_mul(2),
        }
    }
    Err(AllocError)
}

/// The words after the program's name, in order, each of them whole. The error is `NoMemory`.
pub fn given_words<W: Words>(alloc: Global, words: &W) -> Result<Vec<Bytes>, NoMemory>
    ensures { IfOk result (λ all. IfSome (W.words words.now) (λ given. all.items ≡ given)) }
{
    let mut all = Vec::new(alloc);
    for number in 0..usize::MAX {
        let Some(word) = word_at(alloc, words, number)? else {
            return Ok(all);
        };
        all.push(word)?;
    }
    Err(AllocError)
}

fn are_utf8(given: &[Bytes]) -> bool
    ensures { result ≡ list_all is_utf8 given.now }
{
    given.iter().all(|word| is_utf8(word.as_slice()))
}

// The words as texts.
fn texts_of(alloc: Global, given: &[Bytes]) -> Result<Vec<String>, NoMemory>
    requires { list_all is_utf8 given.now ≡ true }
    ensures { IfOk result (λ texts. texts_of texts.items ≡ given.now) }
{
    let mut texts = Vec::new(alloc);
    for word in given {
        texts.push(String::from_str(alloc, as_text(word.as_slice()))?)?;
    }
    Ok(texts)
}

/// The words that the program goes by: those that were given, as texts. Where one of them is not
/// UTF-8 it has none, which is no command. The error is `NoMemory`.
pub fn words_of(alloc: Global, given: &[Bytes]) -> Result<Vec<String>, NoMemory>
    ensures { IfOk result (λ texts. texts_of texts.items ≡ words_of given.now) }
{
    if are_utf8(given) {
        texts_of(alloc, given)
    } else {
        Ok(Vec::new(alloc))
    }
}
