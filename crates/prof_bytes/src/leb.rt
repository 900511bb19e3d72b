//! LEB128 numbers at the front of bytes, by DWARF 5, section 7.6.
ghost use Rattle.std.specs.Prelude.{◌≡◌, ◌<◌, ◌≤◌, ◌-◌, ◌^◌, ◌-ℤ◌, pos, IfSome, Some, None, if◌then◌else◌, nat_le, nat_lt};
ghost use Rattle.std.specs.Prelude.{length, position, take};
ghost use Rattle.std.specs.Option.{option_copied};
ghost use Rattle.prof_bytes.specs.Leb.{is_last, leb_group, seven_bits, unsigned_of, signed_of, uleb_at, sleb_at, span};

/// The most bytes that a number may have.
const MOST_BYTES: usize = 10;

fn last_index(bytes: &[u8]) -> Option<usize>
    ensures index { result ≡ position is_last bytes.now }
    ensures within { IfSome result (λ index. index < length bytes.now) }
{
    bytes.iter().position(|byte| *byte < 128)
}

/// As many of the first bytes as a number may have.
fn front(bytes: &[u8]) -> &[u8]
    ensures { result.now ≡ take 10 bytes.now }
{
    if bytes.len() > MOST_BYTES {
        return &bytes[..MOST_BYTES];
    }
    bytes
}

/// The bytes of the number at the front, up to its last one; `None` where that is not among the bytes.
fn group_front(bytes: &[u8]) -> Option<&[u8]>
    ensures { option_copied result ≡ leb_group bytes.now }
{
    match last_index(bytes) {
        Some(end) => Some(&bytes[..end + 1]),
        None => None,
    }
}

#[tactic(auto, using(crate::proofs::Spans::span_small))]
fn seven_bits_of(group: &[u8]) -> u128
    requires { length group.now ≤ 10 }
    ensures value { result ≡ seven_bits group.now }
    ensures bound { result < span group.now }
{
    match group {
        [] => 0,
        [byte, rest @ ..] => u128::from(*byte % 128) + 128 * seven_bits_of(rest),
    }
}

fn unsigned(group: &[u8]) -> Option<(u64, usize)>
    ensures { result ≡ unsigned_of group.now }
{
    if group.len() > MOST_BYTES {
        return None;
    }
    let value = seven_bits_of(group);
    if value >= 1 << 64 {
        return None;
    }
    Some((value as u64, group.len()))
}

#[tactic(auto, using(crate::proofs::Groups::unsigned_in_ten))]
fn any_uleb_front(bytes: &[u8]) -> Option<(u64, usize)>
    ensures { result ≡ uleb_at bytes.now }
{
    unsigned(group_front(front(bytes))?)
}

/// The unsigned number at the front. Looks at ten bytes at most; one of a single byte, as most are, is read at once.
#[tactic(auto, using(crate::proofs::Groups::one_byte))]
pub(crate) fn uleb_front(bytes: &[u8]) -> Option<(u64, usize)>
    ensures { result ≡ uleb_at bytes.now }
{
    match bytes {
        [byte, ..] if *byte < 128 => Some((u64::from(*byte), 1)),
        _ => any_uleb_front(bytes),
    }
}

/// One more than the largest number that the bytes of the group hold.
fn span_of(group: &[u8]) -> u128
    requires { length group.now ≤ 10 }
    ensures value { result ≡ span group.now }
    ensures bound { result ≤ 2 ^ 70 }
{
    1 << (7 * group.len())
}

/// `value - span`, where that is negative and fits.
fn below_zero(value: u128, span: u128) -> Option<i64>
    requires { value < span }
    ensures { result ≡ (if nat_le (span - value) (2 ^ 63) then Some (pos value -ℤ pos span) else None) }
{
    let magnitude = span - value;
    if magnitude > 1 << 63 {
        return None;
    }
    Some(0_i64.wrapping_sub_unsigned(magnitude as u64))
}

fn signed(group: &[u8]) -> Option<(i64, usize)>
    ensures { result ≡ signed_of group.now }
{
    if group.len() > MOST_BYTES {
        return None;
    }
    let value = seven_bits_of(group);
    let span = span_of(group);
    if 2 * value >= span {
        return Some((below_zero(value, span)?, group.len()));
    }
    if value >= 1 << 63 {
        return None;
    }
    Some((value as i64, group.len()))
}

#[tactic(auto, using(crate::proofs::Groups::signed_in_ten))]
fn any_sleb_front(bytes: &[u8]) -> Option<(i64, usize)>
    ensures { result ≡ sleb_at bytes.now }
{
    signed(group_front(front(bytes))?)
}

/// The signed number of a single byte.
fn signed_byte(byte: u8) -> i64
    requires { byte < 128 }
    ensures { result ≡ (if nat_lt byte 64 then pos byte else pos byte -ℤ pos 128) }
{
    if byte < 64 {
        return i64::from(byte);
    }
    i64::from(byte) - 128
}

/// The signed number at the front. Looks at ten bytes at most; one of a single byte, as most are, is read at once.
#[tactic(auto, using(crate::proofs::Groups::one_signed_byte))]
pub(crate) fn sleb_front(bytes: &[u8]) -> Option<(i64, usize)>
    ensures { result ≡ sleb_at bytes.now }
{
    match bytes {
        [byte, ..] if *byte < 128 => Some((signed_byte(*byte), 1)),
        _ => any_sleb_front(bytes),
    }
}
