// Prints inputs, domains and plans whose text the worked example does not show: every refusal, groups, effects without conditions.
#![tactic(auto)]

use domain::record::Domain;
use input::split;
use outline::plans::Outline;
use outline::refusals::Refused;
use outline::sheets::Sheet;
use plan::record::Plan;
use std::io;

// An input that ends inside its first field.
const INPUT: [u8; 1] = [0x00];

// Domains, the first three of them lawful.
const DOMAINS: [&[u8]; 10] = [
    &[0x10, 0x80, 0x04, 0x40, 0x04, 0x40, 0x85, 0x00, 0x00, 0x00],
    &[0x10, 0x80, 0x00, 0x02, 0x21, 0x00, 0x43, 0x04, 0x00],
    &[0x10, 0x80, 0x00, 0x01, 0x00, 0x80, 0x00],
    &[0x10, 0x80],
    &[0x10, 0x80, 0x00, 0x01, 0x00, 0x80, 0x00, 0x00],
    &[0x20],
    &[0x10, 0x84, 0x20],
    &[0x10, 0x80, 0x22, 0x00],
    &[0x10, 0x80, 0x40, 0x02],
    &[0x10, 0x88, 0x01, 0x00, 0x00, 0x88, 0x40, 0x10, 0x01, 0x00],
];

// Plans, none of them lawful; the last has 33 orders in a row.
const PLANS: [&[u8]; 5] = [
    &[0x14],
    &[0x14, 0x21, 0x01],
    &[0x24],
    &[0x1c],
    &[
        0x14, 0x10, 0x41, 0x04, 0x10, 0x41, 0x04, 0x10, 0x41, 0x04, 0x10, 0x41, 0x04, 0x10, 0x41,
        0x04, 0x10, 0x41, 0x04, 0x10, 0x41, 0x04, 0x10, 0x41, 0x04, 0x10,
    ],
];

fn main(rt: HostRuntime) -> io::Result<()> {
    match split(&INPUT) {
        Ok(_) => println!(rt; "an input")?,
        Err(refusal) => print!(rt; "{}", Refused::Input(refusal))?,
    }
    for bytes in &DOMAINS {
        match Domain::read(bytes) {
            Ok(domain) => print!(rt; "{}", Sheet { domain: &domain })?,
            Err(refusal) => print!(rt; "{}", Refused::Domain(refusal))?,
        }
    }
    for bytes in &PLANS {
        match Plan::read(bytes) {
            Ok(plan) => print!(rt; "{}", Outline { plan: &plan })?,
            Err(refusal) => print!(rt; "{}", Refused::Plan(refusal))?,
        }
    }
    Ok(())
}
