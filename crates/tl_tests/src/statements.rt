//! Statements printed again.
ghost use Rattle.tl_query.specs.Parsed.{IsParsed};

use std::alloc::Global;
use std::test::Fail;
use tl_query::{Statement, parse, print};

// Whether a statement is printed so.
fn prints(alloc: Global, statement: &Statement, wanted: &str) -> bool
    requires { IsParsed statement.now }
{
    match print(alloc, statement) {
        Ok(printed) => printed.as_slice() == wanted.as_bytes(),
        Err(_) => false,
    }
}

// Whether a text is a statement that is printed so.
fn is_printed(alloc: Global, text: &str, wanted: &str) -> bool {
    match parse(alloc, text) {
        Ok(statement) => prints(alloc, &statement, wanted),
        Err(_) => false,
    }
}

// Texts, and what they are printed as.
const CASES: [(&str, &str); 9] = [
    (
        "CREATE  TABLE emp(id INT , dept TEXT)KEY id VALID;",
        "CREATE TABLE emp (id INT, dept TEXT) KEY id VALID",
    ),
    ("PUT emp ;", "PUT emp"),
    (
        "SELECT x,valid_to FROM q WHERE d='o''p' AND p<-007 VALID AT 3 AS OF 02",
        "SELECT x, valid_to FROM q WHERE d = 'o''p' AND p < -7 VALID AT 3 AS OF 2",
    ),
    (
        "COUNT FROM c OVER VALID -0 TO 9223372036854775807 AS OF 1",
        "COUNT FROM c OVER VALID 0 TO FOREVER AS OF 1",
    ),
    (
        "JOIN l WHERE k>=1 WITH r ON k=k OVER SYSTEM ALL",
        "JOIN l WHERE k >= 1 WITH r ON k = k OVER SYSTEM ALL",
    ),
    ("MOMENT  -01 ;", "MOMENT -1"),
    ("FORGET BEFORE  BEFORE 03", "FORGET BEFORE BEFORE 3"),
    (
        "SELECT MOMENT FROM q AS OF  MOMENT -7",
        "SELECT MOMENT FROM q AS OF MOMENT -7",
    ),
    (
        "COUNT FROM c OVER VALID 0 TO 9 AS OF MOMENT 1000;",
        "COUNT FROM c OVER VALID 0 TO 9 AS OF MOMENT 1000",
    ),
];

#[test]
fn statements_are_printed_again(rt: HostRuntime) -> Result<(), Fail> {
    for (text, wanted) in &CASES {
        assert!(rt; is_printed(rt.alloc(), text, wanted));
    }
    Ok(())
}
