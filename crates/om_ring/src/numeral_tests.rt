//! Numerals and decimals that were worked out elsewhere.

use crate::{
    Book, Line, Numeral, NumeralFault, Ring, Steps, Zp, read_decimal, read_decimal_below,
    read_numeral, show_numeral, value_of, value_of_product,
};
use std::process::Abort;
use std::test::Fail;

// The parts of a numeral, or why a text is none.
type Parts = Result<(bool, u64, u64, bool), NumeralFault>;

fn parts_of(answer: Result<Numeral, NumeralFault>) -> Parts {
    match answer {
        Ok(x) => Ok((x.neg, x.num, x.den, x.imag)),
        Err(fault) => Err(fault),
    }
}

#[test]
fn reads_numerals(rt: HostRuntime) {
    let rows: [(&[u8], Parts); 12] = [
        (b"0".as_slice(), Ok((false, 0, 1, false))),
        (b"-0".as_slice(), Ok((true, 0, 1, false))),
        (b"7/1".as_slice(), Ok((false, 7, 1, false))),
        (b"-3/4i".as_slice(), Ok((true, 3, 4, true))),
        (b"0/5i".as_slice(), Ok((false, 0, 5, true))),
        (
            b"12345678901234567890".as_slice(),
            Ok((false, 12345678901234567890, 1, false)),
        ),
        (
            b"18446744073709551615/18446744073709551615i".as_slice(),
            Ok((false, u64::MAX, u64::MAX, true)),
        ),
        (
            b"18446744073709551616".as_slice(),
            Err(NumeralFault::TooBig),
        ),
        (
            b"1/18446744073709551616".as_slice(),
            Err(NumeralFault::TooBig),
        ),
        (
            b"18446744073709551616/0".as_slice(),
            Err(NumeralFault::TooBig),
        ),
        (
            b"100000000000000000000000000000000000000000".as_slice(),
            Err(NumeralFault::TooBig),
        ),
        (b"5/0".as_slice(), Err(NumeralFault::ZeroDen)),
    ];
    for (text, want) in rows {
        assert_eq!(rt; parts_of(read_numeral(text)), want);
    }
}

#[test]
fn finds_the_bad_byte(rt: HostRuntime) {
    let rows: [(&[u8], usize); 14] = [
        (b"01".as_slice(), 1),
        (b"-".as_slice(), 1),
        (b"i".as_slice(), 0),
        (b"1/".as_slice(), 2),
        (b"1i2".as_slice(), 2),
        (b"--1".as_slice(), 1),
        (b"+1".as_slice(), 0),
        (b" 1".as_slice(), 0),
        (b"1 ".as_slice(), 1),
        (b"1/i".as_slice(), 2),
        (b"1/02".as_slice(), 3),
        (b"1/2/3".as_slice(), 3),
        (b"18446744073709551616x".as_slice(), 20),
        (b"1/0x".as_slice(), 3),
    ];
    for (text, place) in rows {
        assert_eq!(rt;
            parts_of(read_numeral(text)),
            Err(NumeralFault::BadByte(place))
        );
    }
    assert_eq!(rt; parts_of(read_numeral(b"")), Err(NumeralFault::Empty));
}

#[test]
fn shows_numerals(rt: HostRuntime) -> Result<(), Fail> {
    let rows: [(&[u8], &[u8]); 6] = [
        (b"0".as_slice(), b"0".as_slice()),
        (b"-0".as_slice(), b"-0".as_slice()),
        (b"7/1".as_slice(), b"7".as_slice()),
        (b"2/4".as_slice(), b"2/4".as_slice()),
        (b"0/5i".as_slice(), b"0/5i".as_slice()),
        (
            b"-18446744073709551615/18446744073709551615i".as_slice(),
            b"-18446744073709551615/18446744073709551615i".as_slice(),
        ),
    ];
    for (text, want) in rows {
        let x = read_numeral(text)?;
        let mut line = Line::new();
        show_numeral(&x, &mut line);
        assert_eq!(rt; line.bytes(), want);
    }
    Ok(())
}

#[test]
fn values_of_numerals(rt: HostRuntime) -> Result<(), Fail> {
    let mut steps = Steps::new(Book);
    let rows: [(&[u8], u64, u64); 6] = [
        (b"-3/4i".as_slice(), 18446532963182051329, 4),
        (b"3".as_slice(), 3, 0),
        (b"1/4".as_slice(), 13835058052060938241, 2),
        (b"-1".as_slice(), 18446744069414584320, 1),
        (b"1i".as_slice(), 281474976710656, 1),
        (b"18446744073709551615".as_slice(), 4294967294, 0),
    ];
    for (text, want, calls) in rows {
        let x = read_numeral(text)?;
        let before = steps.count();
        let value = value_of(&Zp, &x, &mut steps).ok_or("no value")?;
        assert_eq!(rt; value.get(), want);
        assert_eq!(rt; steps.count(), before.saturating_add(calls));
    }
    let zero_den = read_numeral(b"1/18446744069414584321")?;
    assert_eq!(rt; value_of(&Zp, &zero_den, &mut steps), None);
    let product = [
        read_numeral(b"-1/2")?,
        read_numeral(b"1i")?,
        read_numeral(b"4")?,
    ];
    let value = value_of_product(&Zp, product.as_slice(), &mut steps).ok_or("no value")?;
    assert_eq!(rt; value.get(), 18446181119461163009);
    Ok(())
}

#[test]
fn reads_decimals(rt: HostRuntime) {
    let rows: [(&[u8], Option<u64>); 8] = [
        (b"0".as_slice(), Some(0)),
        (b"907".as_slice(), Some(907)),
        (b"18446744073709551615".as_slice(), Some(u64::MAX)),
        (b"18446744073709551616".as_slice(), None),
        (b"".as_slice(), None),
        (b"00".as_slice(), None),
        (b"01".as_slice(), None),
        (b"1a".as_slice(), None),
    ];
    for (text, want) in rows {
        assert_eq!(rt; read_decimal(text), want);
    }
    assert_eq!(rt; read_decimal_below(b"12", 13), Some(12));
    assert_eq!(rt; read_decimal_below(b"13", 13), None);
}
