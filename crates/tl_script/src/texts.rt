//! What one line of a script says: nothing, the end of a phase, a statement of a session, or the
//! end of a block. What is none of these is told as none, and no byte is copied.
ghost use Rattle.std.specs.Prelude.{◌≡◌, ◌==◌, position, not, MatchOption, IsUtf8, IsTrue, Some, None};
ghost use Rattle.std.specs.Str.{is_utf8};
ghost use Rattle.std.specs.List.{list_all};
ghost use Rattle.tl_script.specs.Script.{without_last, text_of, is_blank, without_blanks_before, without_blanks_after, trimmed, is_passed_over, is_session_name, statement_of, first_word, has_block, ends_block};
ghost use Rattle.tl_types.specs.Names.{continues_word};

use tl_types::continues_word;

/// Whether the bytes are UTF-8.
#[tactic(auto, using(crate::proofs::ScriptLemmas::is_text, crate::proofs::ScriptLemmas::is_no_text))]
pub fn is_utf8(bytes: &[u8]) -> bool
    ensures value { result ≡ is_utf8 bytes.now }
    ensures text { IsTrue result → IsUtf8 bytes.now }
{
    match str::from_utf8(bytes) {
        Ok(_) => true,
        Err(_) => false,
    }
}

/// Bytes that are UTF-8, as text.
pub fn as_text(bytes: &[u8]) -> &str
    requires { IsUtf8 bytes.now }
    ensures { result.now ≡ bytes.now }
{
    match str::from_utf8(bytes) {
        Ok(text) => text,
        Err(_) => unreachable!(),
    }
}

pub(crate) fn position_of(bytes: &[u8], byte: u8) -> Option<usize>
    ensures { result ≡ position (λ b. b == byte) bytes.now }
{
    bytes.iter().position(|b| *b == byte)
}

// The line without its last byte where that is this one.
#[tactic(auto, using(crate::proofs::ScriptLemmas::drops_last, crate::proofs::ScriptLemmas::keeps_last))]
pub(crate) fn without_last(line: &[u8], byte: u8) -> &[u8]
    ensures { result.now ≡ without_last byte line.now }
{
    match line.split_last() {
        Some((last, prefix)) if *last == byte => prefix,
        _ => line,
    }
}

// The text of a line: without its LF, and without one CR before it.
pub(crate) fn text_of(line: &[u8]) -> &[u8]
    ensures { result.now ≡ text_of line.now }
{
    without_last(without_last(line, b'\n'), b'\r')
}

fn is_blank(byte: u8) -> bool
    ensures { result ≡ is_blank byte }
{
    byte == b' ' || byte == b'\t'
}

fn all_blank(bytes: &[u8]) -> bool
    ensures { result ≡ list_all is_blank bytes.now }
{
    bytes.iter().all(|byte| is_blank(*byte))
}

#[tactic(auto, using(crate::proofs::ScriptLemmas::drops_blank_before, crate::proofs::ScriptLemmas::keeps_before, crate::proofs::ScriptLemmas::utf8_rest))]
fn without_blanks_before(bytes: &[u8]) -> &[u8]
    ensures kept { result.now ≡ without_blanks_before bytes.now }
    ensures utf8 { IsUtf8 bytes.now → IsUtf8 result.now }
{
    let mut kept = bytes;
    while let Some((first, rest)) = kept.split_first() {
        if !is_blank(*first) {
            break;
        }
        kept = rest;
    }
    kept
}

#[tactic(auto, using(crate::proofs::ScriptLemmas::drops_blank_after, crate::proofs::ScriptLemmas::keeps_after, crate::proofs::ScriptLemmas::utf8_prefix))]
fn without_blanks_after(bytes: &[u8]) -> &[u8]
    ensures kept { result.now ≡ without_blanks_after bytes.now }
    ensures utf8 { IsUtf8 bytes.now → IsUtf8 result.now }
{
    let mut kept = bytes;
    while let Some((last, prefix)) = kept.split_last() {
        if !is_blank(*last) {
            break;
        }
        kept = prefix;
    }
    kept
}

fn trimmed(bytes: &[u8]) -> &[u8]
    ensures kept { result.now ≡ trimmed bytes.now }
    ensures utf8 { IsUtf8 bytes.now → IsUtf8 result.now }
{
    without_blanks_after(without_blanks_before(bytes))
}

// Whether a line is blank or a comment.
pub(crate) fn is_passed_over(text: &[u8]) -> bool
    ensures { result ≡ is_passed_over text.now }
{
    match text {
        [] => true,
        [first, ..] => *first == b'#' || all_blank(text),
    }
}

fn all_continue(bytes: &[u8]) -> bool
    ensures { result ≡ list_all continues_word bytes.now }
{
    bytes.iter().all(|byte| continues_word(*byte))
}

fn is_session_name(name: &[u8]) -> bool
    ensures { result ≡ is_session_name name.now }
{
    1 <= name.len() && name.len() <= 32 && all_continue(name)
}

// What a line says: the name of its session, and its statement.
#[tactic(auto, using(crate::proofs::ScriptLemmas::stands_in_by_position))]
pub(crate) fn statement_of(text: &[u8]) -> Option<(&[u8], &[u8])>
    ensures said { MatchOption result (statement_of text.now ≡ None)
        (λ s. statement_of text.now ≡ Some (s.0.now, s.1.now)) }
    ensures utf8 { IsUtf8 text.now → MatchOption result Unit (λ s. IsUtf8 s.1.now) }
    ensures name_utf8 { IsUtf8 text.now → MatchOption result Unit (λ s. IsUtf8 s.0.now) }
{
    let (name, rest) = text.split_at(position_of(text, b'>')?);
    if !is_session_name(name) {
        return None;
    }
    let (_, statement) = rest.split_at(1);
    Some((name, trimmed(statement)))
}

fn end_of_word(text: &[u8]) -> Option<usize>
    ensures { result ≡ position (λ b. not (continues_word b)) text.now }
{
    text.iter().position(|byte| !continues_word(*byte))
}

fn first_word(text: &[u8]) -> &[u8]
    ensures { result.now ≡ first_word text.now }
{
    match end_of_word(text) {
        Some(at) => text.split_at(at).0,
        None => text,
    }
}

// Whether a statement has a block: its first word is PUT, REMOVE or SYNC.
pub(crate) fn has_block(text: &[u8]) -> bool
    ensures { result ≡ has_block text.now }
{
    let word = first_word(text);
    word == b"PUT".as_slice() || word == b"REMOVE".as_slice() || word == b"SYNC".as_slice()
}

// Whether a line ends a block.
pub(crate) fn ends_block(line: &[u8]) -> bool
    ensures { result ≡ ends_block line.now }
{
    text_of(line) == b"\\.".as_slice()
}
