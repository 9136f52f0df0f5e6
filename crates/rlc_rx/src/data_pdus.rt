//! A data PDU that was read.

ghost use Rattle.std.specs.Prelude.{◌≡◌, ◌≤◌, length};
ghost use Rattle.protocol.specs.Receiving.{offset as first_byte, data_end, marks_end, so_place};
ghost use Rattle.wire.specs.Views.{amd_of};

use wire::{Header, Segment};

/// An AMD PDU: its data, of which there is some, ends within the longest SDU.
#[derive(Clone, Copy)]
pub(crate) struct DataPdu<'a> {
    pub(crate) header: Header,
    pub(crate) payload: &'a [u8],
    ghost some: { 1 ≤ length payload.now },
    ghost short: { data_end (amd_of header payload.now) ≤ 502 },
}

impl<'a> DataPdu<'a> {
    ghost use Rattle.rlc_rx.specs.DataPdus.{data_pdu_of};

    /// The place of the first data byte in its SDU.
    pub(crate) fn offset(&self) -> usize
        ensures { result ≡ first_byte (data_pdu_of self.now).segment }
    {
        self.header.segment.so().map_or(0, usize::from)
    }

    /// One past the place of the last data byte.
    pub(crate) fn end(&self) -> usize
        ensures { result ≡ data_end (data_pdu_of self.now) }
    {
        self.offset() + self.payload.len()
    }

    /// Whether the last data byte is the SDU's last.
    pub(crate) fn marks_end(&self) -> bool
        ensures { result ≡ marks_end (data_pdu_of self.now).segment }
    {
        matches!(self.header.segment, Segment::Whole | Segment::Last { .. })
    }

    /// Where SO stands in the PDU, if there is one.
    pub(crate) fn so_place(&self) -> usize
        ensures { result ≡ so_place (data_pdu_of self.now).segment }
    {
        if self.header.segment.so().is_some() {
            2
        } else {
            0
        }
    }
}
