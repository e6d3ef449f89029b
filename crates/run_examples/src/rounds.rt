// New rounds, and hints from masks of suspects.
use calls::hint::{Hint, trusted_leader};
use protocol::round::next_round;

#[test]
fn a_round_is_the_least_of_its_worker_above_what_was_seen(rt: HostRuntime) {
    for (number, total, seen, round) in [
        (1usize, 2usize, 0u32, Some(1u32)),
        (1, 2, 2, Some(3)),
        (2, 2, 3, Some(4)),
        (8, 8, 8, Some(16)),
        (2, 2, 999_999_999, Some(1_000_000_000)),
        (1, 2, 999_999_999, None),
        (0, 2, 0, None),
        (3, 2, 0, None),
        (1, 9, 0, None),
    ] {
        assert_eq!(rt; next_round(seen, number, total), round);
    }
}

#[test]
fn the_least_worker_that_is_not_suspected_leads(rt: HostRuntime) {
    for (suspects, workers, leader) in [
        (1u8, 2usize, Some(2usize)),
        (3, 2, None),
        (0, 2, Some(1)),
        (4, 2, Some(1)),
        (127, 8, Some(8)),
        (255, 8, None),
        (0, 0, None),
    ] {
        assert_eq!(rt; trusted_leader(suspects, workers), leader);
    }
    assert_eq!(rt; Hint::from_suspects(1, 2, 2), Hint::Go);
    assert_eq!(rt; Hint::from_suspects(1, 2, 1), Hint::Wait);
    assert_eq!(rt; Hint::from_suspects(3, 2, 1), Hint::Wait);
    assert_eq!(rt; Hint::from_leader(3, 3), Hint::Go);
    assert_eq!(rt; Hint::from_leader(3, 2), Hint::Wait);
}
