// What the programs read.
#![tactic(auto)]

ghost use Rattle.std.specs.Prelude.{◌≤◌, length, IfOk};

use std::io;
use std::io::Read;

// All that comes from `source`, or as much as there is room for: how much it is, or why a read failed. Of what came before
// a failure nothing counts, other than in the corpus programs, so they read by a loop of their own.
pub fn read(source: &mut impl Read, file: &mut [u8]) -> io::Result<usize>
    ensures { IfOk result (λ n. n ≤ length file.new) }
{
    let mut n = 0;
    while n < file.len() {
        let more = source.read(&mut file[n..])?;
        if more == 0 {
            break;
        }
        n += more;
    }
    Ok(n)
}
