//! PDUs' fields as text.

use crate::pdus::{Entry, Header, Missing, Segment};
use std::fmt;

impl fmt::Display for Segment {
    fn fmt<W: fmt::Write>(&self, f: &mut fmt::Formatter<W>) -> fmt::Result {
        f.write_str(match self {
            Segment::Whole => "whole SDU",
            Segment::First => "first segment",
            Segment::Middle { .. } => "middle segment",
            Segment::Last { .. } => "last segment",
        })
    }
}

impl fmt::Display for Header {
    fn fmt<W: fmt::Write>(&self, f: &mut fmt::Formatter<W>) -> fmt::Result {
        let segment = self.segment;
        let sn = self.sn.value();
        let poll = if self.poll { "poll" } else { "no poll" };
        write!(f, "{segment}: SN {sn}, {poll}")?;
        match segment.so() {
            None => Ok(()),
            Some(so) => write!(f, ", SO {so}"),
        }
    }
}

impl fmt::Display for Entry {
    fn fmt<W: fmt::Write>(&self, f: &mut fmt::Formatter<W>) -> fmt::Result {
        let sn = self.nack_sn.value();
        match self.missing {
            Missing::Every => write!(f, "NACK {sn} whole"),
            Missing::Span {
                so_start,
                so_end: 0xFFFF,
            } => write!(f, "NACK {sn} from byte {so_start}"),
            Missing::Span { so_start, so_end } => {
                write!(f, "NACK {sn} bytes {so_start} to {so_end}")
            }
        }
    }
}
