//! A frame is judged from the ROM alone, by the certificate that is made for it.

ghost use Rattle.std.specs.Prelude.{◌≡◌, IfOk, IfErr};
ghost use Rattle.dvg_c.specs.Told.{machine_of, map_of, numbered, window_of};
ghost use Rattle.dvg_c.specs.Alone.{IsBad, JudgesAlone};

use crate::answer::{Answer, BAD_MACHINE, BAD_MAP, BAD_WINDOW, numbered};
use crate::passed::{MapEnds, WindowEnds, machine_numbered, map_between, window_for};
use dvg_cmd::OwnCertificates;

/// The judge of frames, each by its own certificate, over a ROM at a map, or the answer that tells the first of the machine, the map and the
/// window that is out of range.
pub fn own_certificates<'a>(
    machine: u32,
    rom: &'a [u8],
    map: MapEnds,
    budget: u32,
    window: WindowEnds,
) -> Result<OwnCertificates<'a>, Answer>
    ensures ok { IfOk result (JudgesAlone machine rom.now (map_of map) budget (window_of window)) }
    ensures over { IfOk result (λ own. (own.machine ≡ machine_of machine) × (own.map ≡ map_of map) × (own.rom.now ≡ rom.now)) }
    ensures err { IfErr result (λ answer. IsBad machine (map_of map) (window_of window) answer.number) }
    ensures alone { IfErr result (λ answer. answer ≡ numbered answer.number) }
{
    let machine = machine_numbered(machine).ok_or(numbered(BAD_MACHINE))?;
    let map = map_between(map).ok_or(numbered(BAD_MAP))?;
    let window = window_for(machine, window).ok_or(numbered(BAD_WINDOW))?;
    Ok(OwnCertificates {
        machine,
        rom,
        map,
        budget,
        window,
        others: None,
    })
}
