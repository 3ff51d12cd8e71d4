//! The digits at the front of a text.
ghost use Rattle.std.specs.Prelude.{◌≡◌, ◌≤◌, ◌<◌, ◌+◌, ◌-◌, ◌^◌, length, take, slice_index_or, IfSome};
ghost use Rattle.om_ring.specs.Numerals.{AllDigits, digits_value, digits_value_from};

use crate::eights::{eight_at_front, seven_at_front};

// The greatest number behind which any digit fits.
const MOST_TENTHS: u64 = 1_844_674_407_370_955_160;

// The least number of sixteen digits without a zero in front.
const LEAST_OF_SIXTEEN: u64 = 1_000_000_000_000_000;

/// The number that some digits write, and how many there are.
#[derive(Clone, Copy)]
pub(crate) struct Digits {
    pub(crate) value: u64,
    pub(crate) len: usize,
}

// The value of a digit.
#[inline(always)]
fn digit_value(byte: u8) -> Option<u64>
    ensures { IfSome result (λ d. (48 ≤ byte) × (byte ≤ 57) × (d + 48 ≡ byte)) }
{
    match byte {
        digit @ b'0'..=b'9' => Some(u64::from(digit - b'0')),
        _ => None,
    }
}

// One to four digits at the front, before `stop`, read as going on behind those of `first`. None says nothing.
#[inline(always)]
fn few_digits(text: &[u8], first: u64, stop: u8) -> Option<Digits>
    requires { first < 10 ^ 16 }
    ensures some { IfSome result (λ d. 0 < d.len) }
    ensures within { IfSome result (λ d. d.len < length text.now) }
    ensures digits { IfSome result (λ d. AllDigits (take d.len text.now)) }
    ensures value { IfSome result (λ d. d.value ≡ digits_value_from first (take d.len text.now)) }
    ensures stop { IfSome result (λ d. slice_index_or text.now d.len 0 ≡ stop) }
    ensures lead { IfSome result (λ d. first ≡ 0 → slice_index_or text.now 0 0 ≡ 48 → d.len ≡ 1) }
{
    let [a, b, c, d, e, ..] = text else {
        return None;
    };
    let one = first * 10 + digit_value(*a)?;
    if *b == stop {
        return Some(Digits { value: one, len: 1 });
    }
    let two = one * 10 + digit_value(*b)?;
    if two < 10 {
        return None;
    }
    if *c == stop {
        return Some(Digits { value: two, len: 2 });
    }
    let three = two * 10 + digit_value(*c)?;
    if *d == stop {
        return Some(Digits {
            value: three,
            len: 3,
        });
    }
    let fourth = digit_value(*d)?;
    if three > MOST_TENTHS || *e != stop {
        return None;
    }
    Some(Digits {
        value: three * 10 + fourth,
        len: 4,
    })
}

// The digits at the front, before another byte, read as going on behind those of `first`.
#[inline(always)]
fn more_digits(text: &[u8], first: u64) -> Option<Digits>
    ensures within { IfSome result (λ d. d.len < length text.now) }
    ensures digits { IfSome result (λ d. AllDigits (take d.len text.now)) }
    ensures value { IfSome result (λ d. d.value ≡ digits_value_from first (take d.len text.now)) }
{
    let mut value = first;
    for (len, byte) in text.iter().enumerate() {
        match *byte {
            digit @ b'0'..=b'9' => {
                if value > MOST_TENTHS {
                    return None;
                }
                value = value * 10 + u64::from(digit - b'0');
            }
            _ => return Some(Digits { value, len }),
        }
    }
    None
}

// The first eight or sixteen of the digits at the front, or none of them.
#[inline(always)]
fn eights_at_front(text: &[u8]) -> Digits
    ensures within { result.len ≤ length text.now }
    ensures few { result.len ≤ 16 }
    ensures digits { AllDigits (take result.len text.now) }
    ensures value { result.value ≡ digits_value (take result.len text.now) }
    ensures below { result.value < 10 ^ 16 }
{
    let Some(first) = eight_at_front(text) else {
        return Digits { value: 0, len: 0 };
    };
    let Some(second) = eight_at_front(&text[8..]) else {
        return Digits {
            value: first,
            len: 8,
        };
    };
    Digits {
        value: first * 100_000_000 + second,
        len: 16,
    }
}

/// The digits at the front, before another byte, if their number is below 2^64. None says nothing of greater ones.
#[inline(always)]
pub(crate) fn digits_at_front(text: &[u8]) -> Option<Digits>
    ensures within { IfSome result (λ d. d.len < length text.now) }
    ensures digits { IfSome result (λ d. AllDigits (take d.len text.now)) }
    ensures value { IfSome result (λ d. d.value ≡ digits_value (take d.len text.now)) }
{
    let front = eights_at_front(text);
    let more = more_digits(&text[front.len..], front.value)?;
    Some(Digits {
        value: more.value,
        len: front.len + more.len,
    })
}

/// The digits at the front, before `stop`, without a zero in front, if they are one to four, or so many behind sixteen. None says nothing
/// of others.
#[inline(always)]
pub(crate) fn digits_before(text: &[u8], stop: u8) -> Option<Digits>
    ensures some { IfSome result (λ d. 0 < d.len) }
    ensures within { IfSome result (λ d. d.len < length text.now) }
    ensures digits { IfSome result (λ d. AllDigits (take d.len text.now)) }
    ensures value { IfSome result (λ d. d.value ≡ digits_value (take d.len text.now)) }
    ensures stop { IfSome result (λ d. slice_index_or text.now d.len 0 ≡ stop) }
    ensures lead { IfSome result (λ d. slice_index_or text.now 0 0 ≡ 48 → d.len ≡ 1) }
{
    let front = eights_at_front(text);
    if front.len == 0 {
        let few = few_digits(text, 0, stop)?;
        return Some(few);
    }
    if front.len < 16 || front.value < LEAST_OF_SIXTEEN {
        return None;
    }
    let few = few_digits(&text[16..], front.value, stop)?;
    Some(Digits {
        value: few.value,
        len: 16 + few.len,
    })
}

/// The least number that so many digits write without a zero in front.
#[inline(always)]
pub(crate) fn least_of_len(len: usize) -> Option<u64>
    ensures { IfSome result (λ least. (0 < len) × (1 < len → least ≡ 10 ^ (len - 1))) }
{
    match len {
        1 => Some(0),
        2 => Some(10),
        3 => Some(100),
        4 => Some(1_000),
        5 => Some(10_000),
        6 => Some(100_000),
        7 => Some(1_000_000),
        8 => Some(10_000_000),
        9 => Some(100_000_000),
        10 => Some(1_000_000_000),
        11 => Some(10_000_000_000),
        12 => Some(100_000_000_000),
        13 => Some(1_000_000_000_000),
        14 => Some(10_000_000_000_000),
        15 => Some(100_000_000_000_000),
        16 => Some(1_000_000_000_000_000),
        17 => Some(10_000_000_000_000_000),
        18 => Some(100_000_000_000_000_000),
        19 => Some(1_000_000_000_000_000_000),
        20 => Some(10_000_000_000_000_000_000),
        _ => None,
    }
}

// Ten to the power of a number of digits, of up to seven.
#[inline(always)]
fn ten_to(len: usize) -> Option<u64>
    ensures { IfSome result (λ n. (n ≡ 10 ^ len) × (n ≤ 10000000)) }
{
    match len {
        0 => Some(1),
        1 => Some(10),
        2 => Some(100),
        3 => Some(1_000),
        4 => Some(10_000),
        5 => Some(100_000),
        6 => Some(1_000_000),
        7 => Some(10_000_000),
        _ => None,
    }
}

/// The digits at the front, before another byte, if they are fewer than sixteen and so many bytes are there.
#[inline(always)]
pub(crate) fn fifteen_at_front(text: &[u8]) -> Option<Digits>
    ensures within { IfSome result (λ d. d.len < length text.now) }
    ensures digits { IfSome result (λ d. AllDigits (take d.len text.now)) }
    ensures value { IfSome result (λ d. d.value ≡ digits_value (take d.len text.now)) }
{
    let Some(first) = eight_at_front(text) else {
        let seven = seven_at_front(text)?;
        return Some(seven);
    };
    let second = seven_at_front(&text[8..])?;
    Some(Digits {
        value: first * ten_to(second.len)? + second.value,
        len: 8 + second.len,
    })
}
