//! What can be wrong with a text, each with its byte offset. Of several, the one of least offset
//! is told, and at one offset the one that stands first here.

/// The fault of a text. Offsets count bytes from the text's first, which is 0.
#[derive(Clone, Copy, Debug, PartialEq, Eq)]
pub enum TextFault {
    /// No token begins with the character at this offset.
    BadByte {
        /// The offset of the character's first byte.
        at: u32,
    },
    /// The text constant that begins at this offset isn't closed.
    OpenText {
        /// The offset of its opening quote.
        at: u32,
    },
    /// The number that begins at this offset isn't a signed number of 64 bits.
    NumberTooLarge {
        /// The offset of its `-` or first digit.
        at: u32,
    },
    /// The token at this offset cannot stand there, or the text ends there too early.
    Unexpected {
        /// The offset of the token, or the text's length.
        at: u32,
    },
    /// The text has more than 65,536 bytes.
    QueryTooLong,
    /// Memory ran out.
    NoMemory,
}
