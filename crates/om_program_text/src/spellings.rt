//! Numbers that are spelt once, so that writing one takes one copy.
ghost use Rattle.std.specs.Prelude.{◌≡◌, ◌+◌, ◌<◌, ◌≤◌, ◌∷◌, length, take, decimal};
ghost use Rattle.om_program_text.specs.declared.spellings.TheConstants.{MOST_SPELT};
ghost use Rattle.om_program_text.specs.Spelt.{AreSpelt};

/// How many numbers are spelt at most.
pub(crate) const MOST_SPELT: usize = 8192;

/// The number of a place, which counts from 0, behind a space, in the first `len` bytes.
#[derive(Clone, Copy)]
pub(crate) struct Spelling {
    pub(crate) bytes: [u8; 8],
    pub(crate) len: u8,
}

/// No number yet.
pub(crate) const BLANK: Spelling = Spelling {
    bytes: [0; 8],
    len: 0,
};

/// Spells the numbers of the first `count` places.
pub(crate) fn spell(numbers: &mut [Spelling], count: usize)
    requires few { count ≤ MOST_SPELT }
    requires within { count ≤ length numbers.old }
    ensures spelt { AreSpelt (take count numbers.new) }
    ensures same { length numbers.new ≡ length numbers.old }
{
    for k in 0..count {
        numbers[k] = spelling_of(k as u64 + 1);
    }
}

fn spelling_of(k: u64) -> Spelling
    requires { k ≤ MOST_SPELT }
    ensures text { take result.len result.bytes ≡ 32 ∷ decimal k }
    ensures short { result.len ≤ 8 }
{
    if k < 10 {
        return Spelling {
            bytes: [b' ', digit(k), 0, 0, 0, 0, 0, 0],
            len: 2,
        };
    }
    if k < 100 {
        return Spelling {
            bytes: [b' ', digit(k / 10), digit(k % 10), 0, 0, 0, 0, 0],
            len: 3,
        };
    }
    if k < 1000 {
        return Spelling {
            bytes: [
                b' ',
                digit(k / 10 / 10),
                digit(k / 10 % 10),
                digit(k % 10),
                0,
                0,
                0,
                0,
            ],
            len: 4,
        };
    }
    Spelling {
        bytes: [
            b' ',
            digit(k / 10 / 10 / 10),
            digit(k / 10 / 10 % 10),
            digit(k / 10 % 10),
            digit(k % 10),
            0,
            0,
            0,
        ],
        len: 5,
    }
}

fn digit(k: u64) -> u8
    requires { k < 10 }
    ensures { result ≡ 48 + k }
{
    b'0' + k as u8
}
