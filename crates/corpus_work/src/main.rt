// Works out each of the graph files that its arguments name. Prints the name, the answer's number, type, place and line, and then each
// marked block of the sheet: the number of its first word, and its words.
#![tactic(auto)]

ghost use Rattle.std.specs.Prelude.{◌≡◌, ◌<◌};
ghost use Rattle.graph.specs.Judgement.{judged_of};

use corpus_files::Numbers;
use graph::Judgement;
use sheet_layout::Shape;
use std::io;

// The block of `size` words whose first word is w.
fn print_block(to: &impl Print, s: &[u8], w: usize, size: usize) -> io::Result<()>
    requires { (w < 72057594037927936) × (size < 1048576) }
{
    print!(to; "{w}")?;
    for k in w..w + size {
        print!(to; " {}", words::word(s, 2 * k))?;
    }
    println!(to)
}

fn print_blocks(to: &impl Print, x: Shape, s: &[u8]) -> io::Result<()> {
    for b in 0..sheet_layout::block_count(x) {
        let w = sheet_layout::block_at(x, b);
        if sheet::mark(s, w) != 0 {
            print_block(to, s, w, sheet_layout::block_size(x, b))?;
        }
    }
    Ok(())
}

// The sheet s is as long as the judgement j of the file f says.
fn work_out_in(to: &impl Print, name: &str, f: &[u8], j: Judgement, s: &mut [u8]) -> io::Result<()>
    requires { j ≡ judged_of f.now }
{
    let a = work::of_judged(f, j, s);
    println!(to; "{name} {}", Numbers(a))?;
    print_blocks(to, j.shape, s)
}

// The sheet is the part of the longest that the file asks for. A file that is refused asks for none, and has no blocks.
#[tactic(auto, using(sheet_layout::proofs::Bounds::sheet_le, std::proofs::lemmas::Grind::common_steps), unfolding(sheet_layout::specs::Layout::sheet_bytes))]
fn work_out(to: &impl Print, name: &str, f: &[u8]) -> io::Result<()> {
    let j = graph::judged(f);
    let end = sheet_layout::sheet_bytes(j.shape);
    let mut sheet = sheet_layout::longest_sheet();
    work_out_in(to, name, f, j, &mut sheet[..end])
}

fn main(rt: HostRuntime) -> io::Result<()> {
    corpus_files::each_file::<65536, _>(&rt, |name, part| work_out(&rt, name, part.bytes))
}
