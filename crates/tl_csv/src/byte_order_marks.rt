//! Byte order marks at the start of a block, one or several, are passed over.
ghost use Rattle.std.specs.Prelude.{◌≡◌, ◌<◌, length, None, IfSome};
ghost use Rattle.tl_csv.specs.ByteOrderMarks.{is_byte_order_mark, past_byte_order_marks};

fn is_byte_order_mark(a: u8, b: u8, c: u8) -> bool
    ensures { result ≡ is_byte_order_mark a b c }
{
    a == 0xEF && b == 0xBB && c == 0xBF
}

// The bytes behind a byte order mark at their start.
fn past_one(bytes: &[u8]) -> Option<&[u8]>
    ensures none { result ≡ None → past_byte_order_marks bytes.now ≡ bytes.now }
    ensures more { IfSome result (λ rest.
        past_byte_order_marks bytes.now ≡ past_byte_order_marks rest.now) }
    ensures fewer { IfSome result (λ rest. length rest.now < length bytes.now) }
{
    match bytes {
        [a, b, c, rest @ ..] if is_byte_order_mark(*a, *b, *c) => Some(rest),
        _ => None,
    }
}

/// The bytes of a block past the byte order marks at its start.
pub fn past_byte_order_marks(block: &[u8]) -> &[u8]
    ensures { result.now ≡ past_byte_order_marks block.now }
{
    let mut rest = block;
    while let Some(behind) = past_one(rest) {
        rest = behind;
    }
    rest
}
