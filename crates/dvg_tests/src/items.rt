//! Where items lead. What the rules see of items is run by each judged frame.

use dvg_items::{Item, Kind};
use dvg_words::{Format, Instr};

#[test]
fn ends_and_jumps(rt: HostRuntime) {
    for (at, kind, instr, next) in [
        (0, Kind::Frame, Instr::Jmpl { to: 5 }, Some(5)),
        (5, Kind::Frame, Instr::Jmpl { to: 5 }, None),
        (5, Kind::Shape, Instr::Jmpl { to: 9 }, None),
        (5, Kind::Shape, Instr::Jsrl { to: 9 }, Some(6)),
    ] {
        let item = Item {
            at,
            format: Format::Short,
            instr,
        };
        assert_eq!(rt; item.next_address(kind), next);
    }
}
