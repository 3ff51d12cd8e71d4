//! The slots that go before a hole in a reading order.
ghost use Rattle.std.specs.Prelude.{◌≡◌};
ghost use Rattle.om_kernel.specs.Forms.{three_before, two_before};

use om_lorentz::Reading;

/// The two slots that go before the hole in the reading order of three slots, which goes round.
#[inline(always)]
pub(crate) fn two_before(reading: Reading, hole: u8) -> (u8, u8)
    ensures { result ≡ two_before reading hole }
{
    let [a, b, c, _] = reading.slots;
    if hole == c {
        (a, b)
    } else if hole == a {
        (b, c)
    } else {
        (c, a)
    }
}

/// The three slots that go before the hole in the reading order of four slots, which goes round.
#[inline(always)]
pub(crate) fn three_before(reading: Reading, hole: u8) -> (u8, u8, u8)
    ensures { result ≡ three_before reading hole }
{
    let [a, b, c, d] = reading.slots;
    if hole == d {
        (a, b, c)
    } else if hole == a {
        (b, c, d)
    } else if hole == b {
        (c, d, a)
    } else {
        (d, a, b)
    }
}
