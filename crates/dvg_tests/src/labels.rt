//! Labels by which words are named, in each of the forms of label files. The files that assemblers wrote are those of tests/labels.

use crate::expecting::{expect, expect_same};
use dvg_labels::{LabelFault, Labels, Unnamed, read_labels};
use std::alloc::Global;
use std::process::Abort;

/// The labels of a text that has no wrong line.
fn labels_of(rt: &impl Abort, alloc: Global, text: &str) -> Labels {
    read_labels(alloc, text.as_bytes()).expect(rt, "labels")
}

/// The name and the distance by which an address is named, as far as there is one.
fn expect_name(rt: &impl Abort, labels: &Labels, at: u16, want: Option<(&str, u16)>) {
    let got = labels.name_at(at);
    match want {
        Some((name, distance)) => {
            let is = got.is_some_and(|label| label.name == name.as_bytes());
            expect(rt, is, &at);
            let is = got.is_some_and(|label| label.distance == distance);
            expect(rt, is, &at);
        }
        None => expect(rt, got.is_none(), &at),
    }
}

#[test]
fn names_addresses(rt: HostRuntime) {
    let labels = labels_of(
        &rt,
        rt.alloc(),
        "al C:5000 .SHIP\r\n\n!addr\tROCK\t= $502C\t; unused\nDIGIT 5040 (R )\nTIE A:502c\nal 4000 .LIST\nODD 5001\nNONE ????\n",
    );
    for (at, want) in [
        (0x800, Some(("SHIP", 0))),
        (0x803, Some(("SHIP", 3))),
        (0x816, Some(("ROCK", 0))),
        (0x81F, Some(("ROCK", 9))),
        (0xBFF, Some(("DIGIT", 991))),
        (0x7FF, None),
        (0x3FF, Some(("LIST", 1023))),
    ] {
        expect_name(&rt, &labels, at, want);
    }
    expect_same(&rt, &labels.passed(), &2, &"passed");
    expect_same(&rt, &labels.address_of(b"TIE"), &Ok(0x816), &"TIE");
    let unknown = labels.address_of(b"ODD");
    expect_same(&rt, &unknown, &Err(Unnamed::Unknown), &"ODD");
}

#[test]
fn refuses_wrong_lines(rt: HostRuntime) {
    for (text, line) in [
        ("al C:5000 SHIP", 1),
        ("al C:5000 .SHIP\n\nSHIP = $50G0", 3),
        ("; remark\nSHIP\n", 2),
        ("SHIP 5000 x\n", 1),
        ("SHIP E:\n", 1),
    ] {
        let fault = read_labels(rt.alloc(), text.as_bytes()).err();
        expect_same(&rt, &fault, &Some(LabelFault::Form { line }), &text);
    }
}

#[test]
fn collides(rt: HostRuntime) {
    let labels = labels_of(&rt, rt.alloc(), "A 5000\nA 5000\nB 5002\nB 5004\n");
    expect_same(&rt, &labels.address_of(b"A"), &Ok(0x800), &"A");
    let several = labels.address_of(b"B");
    expect_same(&rt, &several, &Err(Unnamed::Several), &"B");
}
