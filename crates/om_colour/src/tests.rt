//! Worked vertices, and the texts of their flows.
ghost use Rattle.std.specs.Prelude.{◌≡◌, [], ◌∷◌};
ghost use Rattle.om_colour.specs.Lines.{anti_colour};
ghost use Rattle.om_colour.specs.Choices.{SendsOn, colour_at, goes_to};

use crate::{
    Choice, Colour, Flow, Partial, SlotPartials, close, flow_text, join, partial_of_leg,
    partial_text, pattern,
};
use om_ring::Line;
use std::process::Abort;
use std::test::Fail;

fn check_flow(rt: &impl Abort, flow: &Flow, text: &str) {
    let mut line = Line::new();
    flow_text(flow, &mut line);
    assert_eq!(rt; line.bytes(), text.as_bytes(), "{flow:?}");
}

fn check_partial(rt: &impl Abort, part: &Partial, text: &str) {
    let mut line = Line::new();
    partial_text(part, &mut line);
    assert_eq!(rt; line.bytes(), text.as_bytes(), "{part:?}");
}

#[test]
fn texts(rt: HostRuntime) {
    for (ends, text) in [
        ([0; 12], "-"),
        ([2, 0, 0, 3, 0, 0, 0, 0, 0, 0, 0, 0], "1>2,4>3"),
        ([3, 0, 0, 2, 0, 0, 0, 0, 0, 0, 0, 0], "1>3,4>2"),
        ([2, 3, 1, 0, 0, 0, 0, 0, 0, 0, 0, 0], "1>2,2>3,3>1"),
        ([3, 1, 2, 0, 0, 0, 0, 0, 0, 0, 0, 0], "1>3,2>1,3>2"),
        (
            [12, 1, 2, 3, 4, 5, 6, 7, 8, 9, 10, 11],
            "1>12,2>1,3>2,4>3,5>4,6>5,7>6,8>7,9>8,10>9,11>10,12>11",
        ),
    ] {
        check_flow(&rt, &Flow { ends }, text);
    }
    for (ends, into, text) in [
        ([0; 12], 0, "-"),
        ([0, 3, 13, 0, 0, 0, 0, 0, 0, 0, 0, 0], 2, "2>3,3>,>2"),
        ([0, 13, 2, 0, 0, 0, 0, 0, 0, 0, 0, 0], 3, "2>,3>2,>3"),
        ([0, 0, 0, 13, 0, 0, 0, 0, 0, 0, 0, 0], 0, "4>"),
        ([0, 0, 0, 0, 0, 0, 0, 0, 0, 0, 0, 0], 12, ">12"),
    ] {
        check_partial(&rt, &Partial { ends, into }, text);
    }
}

// The octets 2 and 3 behind a vertex of three octets, and the octets 1, 2 and 3 around it.
fn check_octets(rt: &impl Abort, choice: &Choice, part: &str, flow: &str)
    requires { SendsOn (goes_to choice.now) (colour_at (Colour.Eight ∷ Colour.Eight ∷ Colour.Eight ∷ [])) }
{
    let second = Some(partial_of_leg(2, Colour::Eight));
    let third = Some(partial_of_leg(3, Colour::Eight));
    let behind = SlotPartials {
        first: None,
        second,
        third,
        fourth: None,
    };
    check_partial(rt, &join(&behind, choice, 1), part);
    let around = SlotPartials {
        first: Some(partial_of_leg(1, Colour::Eight)),
        second,
        third,
        fourth: None,
    };
    check_flow(rt, &close(&around, choice), flow);
}

#[test]
fn three_octets(rt: HostRuntime) -> Result<(), Fail> {
    let Some(row) = pattern(&[Colour::Eight, Colour::Eight, Colour::Eight]) else {
        return Err("three octets have no row".into());
    };
    assert_eq!(rt; row.row(), 5);
    assert_eq!(rt; row.count(), 2);
    assert_eq!(rt; row.reading(1), [1, 3, 2, 0]);
    check_octets(&rt, &row.choice(0), "2>3,3>,>2", "1>2,2>3,3>1");
    check_octets(&rt, &row.choice(1), "2>,3>2,>3", "1>3,2>1,3>2");
    Ok(())
}

// The quark pairs 1, 2 and 4, 3 at two vertices that exchange a part of one colour.
fn check_exchange(rt: &impl Abort, choice: &Choice, exchanged: Colour, part: &str, flow: &str)
    requires sends { SendsOn (goes_to choice.now) (colour_at (Colour.AntiThree ∷ Colour.Three ∷ exchanged ∷ [])) }
    requires own { anti_colour exchanged ≡ exchanged }
{
    let behind = SlotPartials {
        first: Some(partial_of_leg(3, Colour::AntiThree)),
        second: Some(partial_of_leg(4, Colour::Three)),
        third: None,
        fourth: None,
    };
    let joined = join(&behind, choice, 3);
    check_partial(rt, &joined, part);
    let around = SlotPartials {
        first: Some(partial_of_leg(2, Colour::AntiThree)),
        second: Some(partial_of_leg(1, Colour::Three)),
        third: Some(joined),
        fourth: None,
    };
    check_flow(rt, &close(&around, choice), flow);
}

#[test]
fn quarks_exchange_octet(rt: HostRuntime) -> Result<(), Fail> {
    let Some(row) = pattern(&[Colour::AntiThree, Colour::Three, Colour::Eight]) else {
        return Err("quarks and an octet have no row".into());
    };
    check_exchange(&rt, &row.choice(0), Colour::Eight, "4>,>3", "1>3,4>2");
    Ok(())
}

#[test]
fn quarks_exchange_singlet(rt: HostRuntime) -> Result<(), Fail> {
    let Some(row) = pattern(&[Colour::AntiThree, Colour::Three, Colour::One]) else {
        return Err("quarks and a singlet have no row".into());
    };
    check_exchange(&rt, &row.choice(0), Colour::One, "4>3", "1>2,4>3");
    Ok(())
}
