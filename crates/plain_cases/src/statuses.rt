//! The texts of statuses, of which no clause speaks.
use crate::same::same;
use std::alloc::{AllocError, Global};
use std::test::Fail;
use tc_base::Bytes;
use tool_words::{InputKind, Status};

fn bytes(alloc: Global, name: &[u8]) -> Result<Bytes, AllocError> {
    Ok(Bytes::from_vec(name.to_vec(alloc)?))
}

fn text_of(alloc: Global, status: &Status) -> Result<String, AllocError> {
    format!(in alloc; "{status}")
}

// Names with how they are told.
const NAMES: &[(&str, &str)] = &[
    ("a b", "cannot read a b"),
    ("a\tb", "cannot read \"a\\tb\""),
    ("\u{1b}[31m", "cannot read \"\\u{1b}[31m\""),
];

#[test]
fn names_are_escaped(rt: HostRuntime) -> Result<(), Fail> {
    for (name, told) in NAMES {
        let name = bytes(rt.alloc(), name.as_bytes())?;
        let text = text_of(rt.alloc(), &Status::ReadFault { name })?;
        same(&rt, text.as_str(), *told);
    }
    Ok(())
}

// Breaks at place 24 with how they are told.
const BREAKS: &[(InputKind, &str)] = &[
    (InputKind::CutHeader, "bad input in at 24: CutHeader"),
    (
        InputKind::TooLong { length: 262_145 },
        "bad input in at 24: TooLong 262145",
    ),
];

#[test]
fn breaks_are_told_with_their_place(rt: HostRuntime) -> Result<(), Fail> {
    for (kind, told) in BREAKS {
        let status = Status::BadInput {
            name: bytes(rt.alloc(), b"in")?,
            place: 24,
            kind: *kind,
        };
        let text = text_of(rt.alloc(), &status)?;
        same(&rt, text.as_str(), *told);
    }
    Ok(())
}
