//! How much there may be of each thing: tables, rows, versions, lines, bytes. The program has the
//! standard limits; tests have lower ones, and none has higher.
ghost use Rattle.std.specs.Prelude.{◌≡◌};
ghost use Rattle.tl_types.specs.Limits.{standard_limits};

/// How much there may be of each thing. A value, so that tests can lower it.
#[derive(Clone, Copy, Debug, PartialEq, Eq)]
pub struct Limits {
    /// Tables of the database.
    pub tables: u64,
    /// Rows of one table, closed ones included.
    pub rows: u64,
    /// Commits.
    pub versions: u64,
    /// Records of a batch past its header.
    pub batch: u64,
    /// Bytes of a TEXT cell.
    pub text: u64,
    /// Session names of a script.
    pub sessions: u64,
    /// Bytes of a script line without its LF.
    pub line: u64,
    /// Bytes of the lines of a phase, LF included.
    pub phase: u64,
    /// `GO` lines of a script.
    pub phases: u64,
}

impl Limits {
    /// The limits of the program: 64 tables, 16,777,216 rows of a table, 16,777,215 versions.
    pub fn standard() -> Limits
        ensures { result ≡ standard_limits }
    {
        Limits {
            tables: 64,
            rows: 16_777_216,
            versions: 16_777_215,
            batch: 1_000_000,
            text: 65_535,
            sessions: 64,
            line: 1_048_576,
            phase: 67_108_864,
            phases: 65_536,
        }
    }
}
