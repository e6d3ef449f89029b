// Numbers in decimal: no sign, and no leading zero except in 0 itself.
#![tactic(auto)]

ghost use Rattle.std.specs.Prelude.{◌≡◌, ℕ, ◌^◌, ◌<◌, Some, decimal};
ghost use Rattle.decimals.specs.Decimals.{begins, read_decimal};

// Whether `text` begins as a number does: it is 0, or its first digit is another.
fn begins_well(text: &[u8]) -> bool
    ensures { result ≡ begins text.now }
{
    matches!(text, [b'0'] | [b'1'..=b'9', ..])
}

// The number that `text` writes, where it fits 64 bits.
#[tactic(auto, using(crate::proofs::DecimalLaws::read_steps))]
pub fn read_decimal(text: &[u8]) -> Option<u64>
    ensures value { result ≡ read_decimal text.now }
    ensures only { (n : ℕ) → result ≡ Some n → text.now ≡ decimal n }
    ensures back { (n : ℕ) → n < 2 ^ 64 → text.now ≡ decimal n → result ≡ Some n }
{
    if !begins_well(text) {
        return None;
    }
    let digits = std::str::from_utf8(text).ok()?;
    digits.parse().ok()
}
