//! The laws of numbers and formats, each the contract of a function that does nothing else.

ghost use Rattle.protocol.specs.Delivery.{Delivery, NothingRefused};
ghost use Rattle.protocol.specs.Examples.{WorkedExamples, WorkedSeries};
ghost use Rattle.protocol.specs.Laws.{OneCount, OnePdcpCount, WrittenReadsBack, ReadWritesBack, ReservedNotRead, PdcpRoundTrip, DraftWrites};
ghost use Rattle.protocol.specs.Recovery.{Recovers};

pub fn sn_stands_for_one_count()
    ensures { OneCount }
{}

pub fn sn_stands_for_one_pdcp_count()
    ensures { OnePdcpCount }
{}

pub fn written_pdu_reads_back()
    ensures { WrittenReadsBack }
{}

pub fn read_pdu_writes_back()
    ensures { ReadWritesBack }
{}

pub fn reserved_bits_are_not_read()
    ensures { ReservedNotRead }
{}

pub fn pdcp_header_round_trip()
    ensures { PdcpRoundTrip }
{}

pub fn draft_writes_its_entries()
    ensures { DraftWrites }
{}

/// Every lawful series of calls from a new link delivers.
pub fn lawful_series_deliver()
    ensures { Delivery }
{}

/// What either end put is never refused for its content.
pub fn arrivals_are_read()
    ensures { NothingRefused }
{}

pub fn a_lost_segment_is_recovered()
    ensures { Recovers }
{}

pub fn worked_examples()
    ensures { WorkedExamples }
{}

pub fn worked_series()
    ensures { WorkedSeries }
{}
