use super::Hollow;
use air::{Air, Fade, Pipe, Pool};

/// The first byte of what a Take lets out.
fn taken<A: Air>(air: &mut A, draw: u16) -> Option<u8> {
    let mut buffer = [0; 520];
    air.take(draw, &mut buffer)?;
    Some(buffer[0])
}

/// Puts the PDUs of one byte from `first` to `last`.
fn put_all<A: Air>(air: &mut A, first: u8, last: u8) {
    for b in first..=last {
        air.put(&[b]);
    }
}

fn skip_times<A: Air>(air: &mut A, times: u8) {
    for _ in 0..times {
        air.skip();
    }
}

#[test]
fn hollow_lets_nothing_out(rt: HostRuntime) {
    let mut hollow = Fade::new(Hollow, 0);
    put_all(&mut hollow, 1, 3);
    assert_eq!(rt; taken(&mut hollow, 0), None);
}

#[test]
fn full_pipe_loses_the_oldest(rt: HostRuntime) {
    let mut pipe = Pipe::new();
    put_all(&mut pipe, 1, 9);
    for b in 2..10 {
        assert_eq!(rt; taken(&mut pipe, 1), Some(b));
    }
    assert_eq!(rt; taken(&mut pipe, 0), None);
}

#[test]
fn odd_draw_keeps(rt: HostRuntime) {
    let mut pool = Pool::new();
    put_all(&mut pool, 1, 3);
    assert_eq!(rt; taken(&mut pool, 5), Some(3));
    assert_eq!(rt; taken(&mut pool, 4), Some(3), "the odd draw kept it");
    assert_eq!(rt; taken(&mut pool, 4), Some(1), "two are held");
    assert_eq!(rt; taken(&mut pool, 8191), Some(2));
    assert_eq!(rt; taken(&mut pool, 8190), Some(2));
    assert_eq!(rt; taken(&mut pool, 8190), None);
}

#[test]
fn age_64_is_lost(rt: HostRuntime) {
    let mut pipe = Pipe::new();
    pipe.put(&[7]);
    skip_times(&mut pipe, 63);
    assert_eq!(rt; taken(&mut pipe, 0), Some(7));
    pipe.put(&[8]);
    skip_times(&mut pipe, 63);
    pipe.put(&[9]);
    assert_eq!(rt; taken(&mut pipe, 0), Some(9));
}

#[test]
fn mask_bits_count_puts(rt: HostRuntime) {
    let mut fade = Fade::new(Pipe::new(), 2);
    fade.put(&[1]);
    fade.put(&[]);
    fade.skip();
    put_all(&mut fade, 2, 3);
    assert_eq!(rt; taken(&mut fade, 0), Some(1));
    assert_eq!(rt; taken(&mut fade, 0), Some(3), "Put 1 is lost");
    put_all(&mut fade, 4, 66);
    assert_eq!(rt; taken(&mut fade, 0), Some(58), "Put 65 is lost as Put 1");
    let mut again = Fade::new(fade.into_below(), 1);
    put_all(&mut again, 70, 72);
    assert_eq!(rt; taken(&mut again, 0), Some(60), "a new fade counts from 0");
}

#[test]
fn other_lengths_and_draws(rt: HostRuntime) {
    let mut pool = Pool::new();
    let long = [5; 521];
    pool.put(&long);
    assert_eq!(rt; taken(&mut pool, 0), None);
    pool.put(&long[0..520]);
    assert_eq!(rt; taken(&mut pool, 8192), None);
    let mut buffer = [0; 600];
    assert_eq!(rt; pool.take(1, &mut buffer[0..519]), None);
    assert_eq!(rt; pool.take(1, &mut buffer), Some(520));
    assert!(rt; buffer[519] == 5 && buffer[520] == 0);
}
