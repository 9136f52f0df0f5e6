use rlc_rx::{FarEnd, Reception};
use std::test::Fail;
use timers::Settings;
use wire::{Fault, Grant};

fn far_end() -> FarEnd {
    FarEnd::new(Settings {
        poll_pdu: None,
        max_retx: 4,
        t_poll_retransmit: 40,
        t_reassembly: 2,
        t_status_prohibit: 1,
        t_reordering: None,
    })
}

/// What a grant of 16 bytes answers: the length of the report that it sends.
fn report(end: &mut FarEnd, buffer: &mut [u8]) -> Result<usize, Fault> {
    end.spend(Grant::open(16)?, buffer)
}

#[test]
fn segments_become_an_sdu(rt: HostRuntime) -> Result<(), Fail> {
    let mut end = far_end();
    assert!(rt; matches!(end.read(&[0x90, 0, 0x80, 0, 0x41]), Ok(Reception::Kept)));
    assert!(rt; matches!(end.read(&[0xb0, 0, 0, 3, 0x42]), Ok(Reception::Kept)));
    assert!(rt; matches!(end.read(&[0xb0, 0, 0, 3, 0x42]), Ok(Reception::Discarded)));
    let Ok(reception) = end.read(&[0xe0, 0, 0, 4, 0x43]) else {
        return Err(Fail::new("refused"));
    };
    let Reception::HandedUp(sdu) = reception else {
        return Err(Fail::new("not handed up"));
    };
    assert!(rt; end.sdu(&sdu) == [0x80, 0, 0x41, 0x42, 0x43].as_slice());
    let mut buffer = [0; 16];
    assert!(rt; matches!(report(&mut end, &mut buffer), Ok(3)));
    assert!(rt; buffer[0] == 0 && buffer[1] == 1 && buffer[2] == 0);
    Ok(())
}

#[test]
fn gaps_are_reported_once_t_reassembly_runs_out(rt: HostRuntime) {
    let mut end = far_end();
    let mut buffer = [7; 16];
    assert!(rt; matches!(end.read(&[0x90, 0, 0x80, 0, 0x41]), Ok(Reception::Kept)));
    assert!(rt;
        matches!(
            end.read(&[0x80, 1, 0x80, 1, 0x44]),
            Ok(Reception::HandedUp(_))
        )
    );
    end.tick();
    assert!(rt; matches!(report(&mut end, &mut buffer), Ok(0)));
    end.tick();
    assert!(rt; matches!(report(&mut end, &mut buffer), Ok(9)));
    assert!(rt; buffer == [0, 2, 0x80, 0, 4, 0, 3, 0xff, 0xff, 7, 7, 7, 7, 7, 7, 7]);
    assert!(rt; matches!(report(&mut end, &mut buffer), Ok(0)));
    // it passes the known end
    assert!(rt; matches!(end.read(&[0xa0, 1, 0, 9, 0x44]), Err(_)));
    // it has no byte that is new
    assert!(rt; matches!(end.read(&[0xa0, 0, 0, 2, 0x44]), Ok(Reception::Discarded)));
}
