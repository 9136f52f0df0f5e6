use pdcp::Receiver;
use protocol::Fault;
use timers::Settings;

/// A receiver of a link whose other timers do not matter here.
fn receiver(t_reordering: Option<u16>) -> Receiver {
    Receiver::new(Settings {
        poll_pdu: None,
        max_retx: 4,
        t_poll_retransmit: 10,
        t_reassembly: 10,
        t_status_prohibit: 10,
        t_reordering,
    })
}

/// The SDU that carries one byte under this number.
fn sdu(sn: u16, byte: u8) -> [u8; 3] {
    [128 + (sn / 256 % 16) as u8, (sn % 256) as u8, byte]
}

/// The number of the refusal, if there is one.
fn refusal<T: Drop>(answer: Result<T, Fault>) -> Option<u8> {
    answer.err().map(|fault| fault.refusal.number())
}

fn receive(pdcp: &mut Receiver, sn: u16, byte: u8) -> Option<u8> {
    refusal(pdcp.receive(&sdu(sn, byte)))
}

/// The packet collected, if it is of one byte.
fn collected(pdcp: &mut Receiver) -> Option<u8> {
    let mut buffer = [0; 4];
    match pdcp.collect(&mut buffer) {
        Ok(Some(1)) => Some(buffer[0]),
        _ => None,
    }
}

fn tick_times(pdcp: &mut Receiver, times: u16) {
    for _ in 0..times {
        pdcp.tick();
    }
}

#[test]
fn in_order(rt: HostRuntime) {
    let mut pdcp = receiver(Some(5));
    assert_eq!(rt; collected(&mut pdcp), None);
    assert_eq!(rt; receive(&mut pdcp, 0, 10), None);
    assert_eq!(rt; pdcp.due(), 1);
    assert_eq!(rt; receive(&mut pdcp, 1, 11), Some(7), "a packet is due");
    assert_eq!(rt; pdcp.due(), 1);
    assert_eq!(rt; collected(&mut pdcp), Some(10));
    assert_eq!(rt; receive(&mut pdcp, 1, 11), None);
    assert_eq!(rt; collected(&mut pdcp), Some(11));
    assert_eq!(rt; pdcp.due(), 0);
}

#[test]
fn out_of_order(rt: HostRuntime) {
    let mut pdcp = receiver(Some(5));
    assert_eq!(rt; receive(&mut pdcp, 2, 12), None);
    assert_eq!(rt; receive(&mut pdcp, 15, 25), None);
    assert_eq!(rt; receive(&mut pdcp, 1, 11), None);
    assert_eq!(rt; pdcp.due(), 0);
    assert_eq!(rt; receive(&mut pdcp, 0, 10), None);
    assert_eq!(rt; pdcp.due(), 3, "15 still waits");
    assert_eq!(rt; collected(&mut pdcp), Some(10));
    assert_eq!(rt; collected(&mut pdcp), Some(11));
    assert_eq!(rt; collected(&mut pdcp), Some(12));
    assert_eq!(rt; collected(&mut pdcp), None);
}

#[test]
fn duplicates_are_discarded(rt: HostRuntime) {
    let mut pdcp = receiver(None);
    assert_eq!(rt; receive(&mut pdcp, 1, 11), None);
    assert_eq!(rt; receive(&mut pdcp, 1, 99), None);
    assert_eq!(rt; receive(&mut pdcp, 0, 10), None);
    assert_eq!(rt; collected(&mut pdcp), Some(10));
    assert_eq!(rt; collected(&mut pdcp), Some(11), "the first one of COUNT 1");
    assert_eq!(rt; receive(&mut pdcp, 0, 98), None);
    assert_eq!(rt; pdcp.due(), 0);
}

#[test]
fn t_reordering_runs_out(rt: HostRuntime) {
    let mut pdcp = receiver(Some(2));
    assert_eq!(rt; receive(&mut pdcp, 1, 11), None);
    tick_times(&mut pdcp, 1);
    assert_eq!(rt; receive(&mut pdcp, 3, 13), None);
    assert_eq!(rt; pdcp.due(), 0);
    tick_times(&mut pdcp, 1);
    assert_eq!(rt; pdcp.due(), 1, "0 is given up, 2 is awaited");
    assert_eq!(rt; collected(&mut pdcp), Some(11));
    assert_eq!(rt; receive(&mut pdcp, 0, 10), None);
    assert_eq!(rt; pdcp.due(), 0, "0 is discarded");
    tick_times(&mut pdcp, 2);
    assert_eq!(rt; collected(&mut pdcp), Some(13), "started again");
}

#[test]
fn absent_t_reordering_never_runs_out(rt: HostRuntime) {
    let mut pdcp = receiver(None);
    assert_eq!(rt; receive(&mut pdcp, 1, 11), None);
    tick_times(&mut pdcp, 20_000);
    assert_eq!(rt; pdcp.due(), 0);
    assert_eq!(rt; receive(&mut pdcp, 0, 10), None);
    assert_eq!(rt; pdcp.due(), 2);
}

#[test]
fn refusals_change_nothing(rt: HostRuntime) {
    let mut pdcp = receiver(None);
    assert_eq!(rt; refusal(pdcp.receive(&[128, 0])), Some(13));
    assert_eq!(rt; refusal(pdcp.receive(&[127, 0, 10])), Some(13));
    assert_eq!(rt; refusal(pdcp.receive(&[128; 503])), Some(13));
    assert_eq!(rt; receive(&mut pdcp, 16, 26), Some(14));
    assert_eq!(rt; receive(&mut pdcp, 4095, 9), Some(14), "COUNT is below 0");
    assert_eq!(rt; refusal(pdcp.receive(&[128; 502])), Some(14), "number 128");
    assert_eq!(rt; receive(&mut pdcp, 0, 10), None);
    assert_eq!(rt; refusal(pdcp.collect(&mut [])), Some(15));
    assert_eq!(rt; collected(&mut pdcp), Some(10));
    assert_eq!(rt; receive(&mut pdcp, 16, 26), None, "RX_DELIV is 1");
}

#[test]
fn numbers_wrap(rt: HostRuntime) {
    let mut pdcp = receiver(Some(1));
    for count in 0..4100 {
        assert_eq!(rt; receive(&mut pdcp, count % 4096, 1), None);
        assert_eq!(rt; collected(&mut pdcp), Some(1));
    }
    assert_eq!(rt; receive(&mut pdcp, 4095, 9), None);
    assert_eq!(rt; pdcp.due(), 0, "COUNT 4,095 is discarded");
    assert_eq!(rt; receive(&mut pdcp, 4, 2), None);
    assert_eq!(rt; collected(&mut pdcp), Some(2));
}

#[test]
fn longest_packet(rt: HostRuntime) {
    let mut pdcp = receiver(None);
    let mut bytes = [7; 502];
    bytes[0] = 240;
    bytes[1] = 0;
    assert_eq!(rt;
        refusal(pdcp.receive(&bytes)),
        None,
        "reserved bits are not read"
    );
    let mut short = [1; 499];
    assert_eq!(rt; refusal(pdcp.collect(&mut short)), Some(15));
    assert_eq!(rt; short[0], 1);
    let mut buffer = [1; 501];
    assert!(rt; matches!(pdcp.collect(&mut buffer), Ok(Some(500))));
    assert!(rt; buffer[0] == 7 && buffer[499] == 7 && buffer[500] == 1);
}
