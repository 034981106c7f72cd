// Reads a trial input, a domain and a plan, from standard input and prints an account of both for people.
#![tactic(auto)]

ghost use Rattle.std.specs.Prelude.{◌≡◌, ◌≤◌, length, take, IfOk, IfSome};

use domain::record::Domain;
use outline::plans::Outline;
use outline::refusals::Refused;
use outline::sheets::Sheet;
use plan::record::Plan;
use std::io;
use std::io::Read;

// The most bytes that are read.
const MOST: usize = 4096;

fn main(rt: HostRuntime) -> io::Result<()> {
    let mut buffer = [0u8; MOST];
    let input = read_input(&mut rt.stdin(), &mut buffer)?;
    let (domain, plan) = match input::split(input) {
        Ok(parts) => parts,
        Err(refusal) => return print!(rt; "{}", Refused::Input(refusal)),
    };
    match Domain::read(domain) {
        Ok(domain) => print!(rt; "{}", Sheet { domain: &domain })?,
        Err(refusal) => print!(rt; "{}", Refused::Domain(refusal))?,
    }
    match Plan::read(plan) {
        Ok(plan) => print!(rt; "{}", Outline { plan: &plan }),
        Err(refusal) => print!(rt; "{}", Refused::Plan(refusal)),
    }
}

// The bytes that a reader has left, up to their end or the buffer's. Of standard input no clause says which they are, and an error is the
// reader's own. The library has no call that reads up to an end into a lent buffer.
fn read_input<'a, R: Read>(reader: &mut R, buffer: &'a mut [u8]) -> io::Result<&'a [u8]>
    ensures long { IfOk result (λ bytes. length bytes.now ≤ length buffer.old) }
    ensures bytes { IfOk result (λ bytes. IfSome (R.remaining reader.old) (λ left. bytes.now ≡ take (length buffer.old) left)) }
{
    let mut count = 0;
    for _ in 0..buffer.len() {
        let read = reader.read(&mut buffer[count..])?;
        if read == 0 {
            break;
        }
        count += read;
    }
    Ok(&buffer[..count])
}
