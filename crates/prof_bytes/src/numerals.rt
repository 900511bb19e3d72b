//! Numbers in decimal, as words and schedules have them.
ghost use Rattle.std.specs.Prelude.{◌≡◌, ◌≤◌, ◌<◌, ◌^◌, min, IfSome};
ghost use Rattle.prof_bytes.specs.Numerals.{is_digit, is_decimal, decimal_value, decimal_in};
ghost use Rattle.std.specs.List.{list_all};

/// Above every number that is looked for: larger ones count as this one.
const TOO_LARGE: u64 = 1 << 40;

fn is_digit_byte(byte: u8) -> bool
    ensures { result ≡ is_digit byte }
{
    48 <= byte && byte < 58
}

fn all_digits(word: &[u8]) -> bool
    ensures { result ≡ list_all is_digit word.now }
{
    word.iter().all(|byte| is_digit_byte(*byte))
}

fn is_decimal(word: &[u8]) -> bool
    ensures { result ≡ is_decimal word.now }
{
    match word {
        [] => false,
        [first, rest @ ..] => all_digits(word) && (*first != 48 || rest.is_empty()),
    }
}

#[tactic(auto, using(crate::proofs::DigitSteps::numeral_steps))]
fn capped_value(word: &[u8]) -> u64
    ensures { result ≡ min (decimal_value word.now) (2 ^ 40) }
{
    let mut value: u64 = 0;
    for byte in word {
        value = (value * 10 + u64::from(byte.saturating_sub(48))).min(TOO_LARGE);
    }
    value
}

/// A number from `low` to `high`, without a sign and without leading zeros.
pub fn decimal(word: &[u8], low: u32, high: u32) -> Option<u32>
    ensures number { result ≡ decimal_in low high word.now }
    ensures range { IfSome result (λ n. (low ≤ n) × (n ≤ high)) }
{
    if !is_decimal(word) {
        return None;
    }
    let value = capped_value(word);
    if value < u64::from(low) || value > u64::from(high) {
        return None;
    }
    Some(value as u32)
}
