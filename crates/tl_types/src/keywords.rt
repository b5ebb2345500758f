//! The keywords of the language, how each is spelled, and which words are names: words of 1 to 64
//! letters, digits and `_` that do not begin with a digit and are no keyword.
ghost use Rattle.std.specs.Prelude.{◌≡◌, ◌==◌, length};
ghost use Rattle.std.specs.List.{filter, find, list_all};
ghost use Rattle.tl_types.specs.Names.{
  begins_word,
  continues_word,
  is_word,
  is_keyword,
  is_name,
  keyword_of,
  keywords,
  same_bytes,
  spelling_of,
};

/// A keyword of the language, which is no name. `spelling` says how it is written.
#[derive(Clone, Copy, Debug, PartialEq, Eq)]
pub enum Keyword {
    /// `CREATE`.
    Create,
    /// `TABLE`.
    Table,
    /// `KEY`.
    Key,
    /// `VALID`.
    Valid,
    /// `INT`.
    Int,
    /// `TEXT`.
    Text,
    /// `PUT`.
    Put,
    /// `REMOVE`.
    Remove,
    /// `SELECT`.
    Select,
    /// `FROM`.
    From,
    /// `WHERE`.
    Where,
    /// `AND`.
    And,
    /// `OR`.
    Or,
    /// `AS`.
    As,
    /// `OF`.
    Of,
    /// `AT`.
    At,
    /// `COUNT`.
    Count,
    /// `SUM`.
    Sum,
    /// `AVG`.
    Avg,
    /// `MIN`.
    Min,
    /// `MAX`.
    Max,
    /// `BY`.
    By,
    /// `OVER`.
    Over,
    /// `SYSTEM`.
    System,
    /// `ALL`.
    All,
    /// `TO`.
    To,
    /// `JOIN`.
    Join,
    /// `WITH`.
    With,
    /// `ON`.
    On,
    /// `FOREVER`.
    Forever,
    /// `valid_from`.
    ValidFrom,
    /// `valid_to`.
    ValidTo,
}

// The keywords by how many letters they have, each list in the order above.
const OF_TWO: [Keyword; 7] = [
    Keyword::Or,
    Keyword::As,
    Keyword::Of,
    Keyword::At,
    Keyword::By,
    Keyword::To,
    Keyword::On,
];

const OF_THREE: [Keyword; 9] = [
    Keyword::Key,
    Keyword::Int,
    Keyword::Put,
    Keyword::And,
    Keyword::Sum,
    Keyword::Avg,
    Keyword::Min,
    Keyword::Max,
    Keyword::All,
];

const OF_FOUR: [Keyword; 5] = [
    Keyword::Text,
    Keyword::From,
    Keyword::Over,
    Keyword::Join,
    Keyword::With,
];

const OF_FIVE: [Keyword; 4] = [
    Keyword::Table,
    Keyword::Valid,
    Keyword::Where,
    Keyword::Count,
];

const OF_SIX: [Keyword; 4] = [
    Keyword::Create,
    Keyword::Remove,
    Keyword::Select,
    Keyword::System,
];

const OF_SEVEN: [Keyword; 1] = [Keyword::Forever];

const OF_EIGHT: [Keyword; 1] = [Keyword::ValidTo];

const OF_TEN: [Keyword; 1] = [Keyword::ValidFrom];

// The keywords of so many letters.
#[tactic(auto, using(crate::proofs::KeywordLemmas::none_of_length), unfolding(crate::specs::Names::keywords, crate::specs::Names::spelling_of))]
fn of_length(letters: usize) -> &'static [Keyword]
    ensures { result.now ≡ filter (λ k. length (spelling_of k) == letters) keywords }
{
    match letters {
        2 => OF_TWO.as_slice(),
        3 => OF_THREE.as_slice(),
        4 => OF_FOUR.as_slice(),
        5 => OF_FIVE.as_slice(),
        6 => OF_SIX.as_slice(),
        7 => OF_SEVEN.as_slice(),
        8 => OF_EIGHT.as_slice(),
        10 => OF_TEN.as_slice(),
        _ => &[],
    }
}

// Whether two texts are the same. Most that are compared differ in their first byte.
#[tactic(auto, using(crate::proofs::KeywordLemmas::other_first))]
#[inline(always)]
fn is_same(spelled: &str, word: &str) -> bool
    ensures { result ≡ same_bytes spelled.now word.now }
{
    let [first, ..] = spelled.as_bytes() else {
        return word.is_empty();
    };
    let [other, ..] = word.as_bytes() else {
        return false;
    };
    if *first != *other {
        return false;
    }
    spelled == word
}

// The keyword among these that a word is, or `None` where it is none of them.
fn spelled_so(keywords: &[Keyword], word: &str) -> Option<Keyword>
    ensures { result ≡ find (λ k. same_bytes (spelling_of k) word.now) keywords.now }
{
    keywords
        .iter()
        .copied()
        .find(|keyword| is_same(keyword.spelling(), word))
}

impl Keyword {
    /// How the keyword is spelled.
    #[tactic(auto, unfolding(crate::specs::Names::spelling_of))]
    pub fn spelling(self) -> &'static str
        ensures { result.now ≡ spelling_of self }
    {
        match self {
            Keyword::Create => "CREATE",
            Keyword::Table => "TABLE",
            Keyword::Key => "KEY",
            Keyword::Valid => "VALID",
            Keyword::Int => "INT",
            Keyword::Text => "TEXT",
            Keyword::Put => "PUT",
            Keyword::Remove => "REMOVE",
            Keyword::Select => "SELECT",
            Keyword::From => "FROM",
            Keyword::Where => "WHERE",
            Keyword::And => "AND",
            Keyword::Or => "OR",
            Keyword::As => "AS",
            Keyword::Of => "OF",
            Keyword::At => "AT",
            Keyword::Count => "COUNT",
            Keyword::Sum => "SUM",
            Keyword::Avg => "AVG",
            Keyword::Min => "MIN",
            Keyword::Max => "MAX",
            Keyword::By => "BY",
            Keyword::Over => "OVER",
            Keyword::System => "SYSTEM",
            Keyword::All => "ALL",
            Keyword::To => "TO",
            Keyword::Join => "JOIN",
            Keyword::With => "WITH",
            Keyword::On => "ON",
            Keyword::Forever => "FOREVER",
            Keyword::ValidFrom => "valid_from",
            Keyword::ValidTo => "valid_to",
        }
    }

    /// The keyword that a word is, or `None` where the word is no keyword.
    pub fn of(word: &str) -> Option<Keyword>
        ensures { result ≡ keyword_of word.now }
    {
        spelled_so(of_length(word.len()), word)
    }
}

/// Whether a word is one of the keywords of the language.
pub fn is_keyword(word: &str) -> bool
    ensures { result ≡ is_keyword word.now }
{
    Keyword::of(word).is_some()
}

/// Whether a byte begins a word: an ASCII letter or `_`.
pub fn begins_word(byte: u8) -> bool
    ensures { result ≡ begins_word byte }
{
    matches!(byte, b'a'..=b'z') || matches!(byte, b'A'..=b'Z') || byte == b'_'
}

/// Whether a byte continues a word: an ASCII letter, a digit or `_`.
pub fn continues_word(byte: u8) -> bool
    ensures { result ≡ continues_word byte }
{
    begins_word(byte) || (byte >= b'0' && byte <= b'9')
}

fn all_continue(bytes: &[u8]) -> bool
    ensures { result ≡ list_all continues_word bytes.now }
{
    bytes.iter().all(|byte| continues_word(*byte))
}

fn is_word(bytes: &[u8]) -> bool
    ensures { result ≡ is_word bytes.now }
{
    match bytes {
        [] => false,
        [first, rest @ ..] => begins_word(*first) && all_continue(rest),
    }
}

/// Whether a text is a name: a word of at most 64 bytes that is no keyword.
pub fn is_name(word: &str) -> bool
    ensures { result ≡ is_name word.now }
{
    is_word(word.as_bytes()) && word.len() <= 64 && !is_keyword(word)
}
