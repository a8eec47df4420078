//! The short lines of placed edits, as text and as the twin reads them.
//!
//! `add pref 10 handle 1 flower dst_ip 10.0.0.1 action drop` stands for the line of a batch that adds this
//! filter at the ingress, for IPv4 frames. A `replace` or `del` is shortened alike, and all other lines are
//! whole.

use std::alloc::{AllocError, Global};

/// What a filter looks for, in one field. Each kind is a mask of its own.
#[derive(Clone, Copy, PartialEq, Eq)]
pub(crate) enum Fields {
    /// 10.0.0.N.
    Host(u32),
    /// 10.0.0.N/30.
    Net(u32),
    /// This UDP port.
    Port(u32),
}

impl Fields {
    /// Whether both have one mask.
    pub(crate) fn is_like(self, other: Fields) -> bool {
        matches!(
            (self, other),
            (Fields::Host(_), Fields::Host(_))
                | (Fields::Net(_), Fields::Net(_))
                | (Fields::Port(_), Fields::Port(_))
        )
    }

    /// Whether a frame to that host of 10.0.0.0/24, port 53, has them.
    pub(crate) fn take(self, host: u32) -> bool {
        match self {
            Fields::Host(own) => own == host,
            Fields::Net(own) => own == host & !3,
            Fields::Port(own) => own == 53,
        }
    }
}

/// What an action leads to.
#[derive(Clone, Copy, PartialEq, Eq)]
pub(crate) enum Control {
    Ok,
    Drop,
    Continue,
    Pipe,
    Reclassify,
    Goto(u32),
}

/// Where a filter stands, and what it looks for.
#[derive(Clone, Copy)]
pub(crate) struct Seat {
    pub(crate) chain: u32,
    pub(crate) pref: u32,
    pub(crate) handle: u32,
    pub(crate) fields: Fields,
}

// The word behind a name.
fn word_behind<'a>(line: &'a str, name: &str) -> Option<&'a str> {
    let (_, rest) = line.split_once(name)?;
    match rest.split_once(' ') {
        Some((word, _)) => Some(word),
        None => Some(rest),
    }
}

/// The number behind a name.
pub(crate) fn number_behind(line: &str, name: &str) -> Option<u32> {
    word_behind(line, name)?.parse::<u32>().ok()
}

fn fields_in(line: &str) -> Option<Fields> {
    let Some(word) = word_behind(line, " dst_ip 10.0.0.") else {
        return Some(Fields::Port(number_behind(line, " dst_port ")?));
    };
    match word.split_once('/') {
        Some((net, _)) => Some(Fields::Net(net.parse::<u32>().ok()?)),
        None => Some(Fields::Host(word.parse::<u32>().ok()?)),
    }
}

/// The chain and the pref of a filter's line.
pub(crate) fn table_in(line: &str) -> Option<(u32, u32)> {
    let chain = number_behind(line, " chain ").unwrap_or(0);
    Some((chain, number_behind(line, " pref ")?))
}

/// The filter of a line, without its actions.
pub(crate) fn seat_in(line: &str) -> Option<Seat> {
    let (place, _) = line.split_once(" flower ")?;
    let (chain, pref) = table_in(place)?;
    Some(Seat {
        chain,
        pref,
        handle: number_behind(place, " handle ")?,
        fields: fields_in(line)?,
    })
}

/// A control.
pub(crate) fn control_in(text: &str) -> Option<Control> {
    match text.as_bytes() {
        b"ok" => Some(Control::Ok),
        b"drop" => Some(Control::Drop),
        b"continue" => Some(Control::Continue),
        b"pipe" => Some(Control::Pipe),
        b"reclassify" => Some(Control::Reclassify),
        _ => Some(Control::Goto(number_behind(text, "goto chain ")?)),
    }
}

/// The line of a batch.
pub(crate) fn whole_line(alloc: Global, line: &str) -> Result<String, AllocError> {
    match line.split_once(" pref ") {
        Some((verb, rest)) => format!(in alloc;
            "filter {verb} dev eth0 ingress protocol ip pref {rest}\n"
        ),
        None => format!(in alloc; "{line}\n"),
    }
}

/// A batch of such lines.
pub(crate) fn whole_batch(alloc: Global, lines: &[&str]) -> Result<String, AllocError> {
    let mut batch = String::new(alloc);
    for line in lines {
        batch.push_str(&whole_line(alloc, line)?)?;
    }
    Ok(batch)
}
