// Judges the sheets in the files that its arguments name. A file is three bytes, the number of methods, of nodes and of
// types, and then the sheet. Printed are its first ill-formed block and that block's first word.
#![tactic(auto)]

use sheet_layout::Shape;
use std::io;

fn judge_sheet(to: &impl Print, sheet: &[u8], x: Shape) -> io::Result<()> {
    if sheet.len() != sheet_layout::sheet_bytes(x) {
        return println!(to; "wrong length");
    }
    let b = sheet_formed::first_ill(sheet, x);
    if b < sheet_layout::block_count(x) {
        println!(to; "block {b} word {}", sheet_layout::block_at(x, b))
    } else {
        println!(to; "well formed")
    }
}

// Of a file with no whole shape nothing is printed.
fn judge(to: &impl Print, file: &[u8]) -> io::Result<()> {
    let [methods, nodes, types, sheet @ ..] = file else {
        return Ok(());
    };
    let x = Shape {
        methods: u16::from(*methods),
        nodes: u16::from(*nodes),
        types: u16::from(*types),
    };
    judge_sheet(to, sheet, x)
}

fn main(rt: HostRuntime) -> io::Result<()> {
    corpus_files::each_file::<4096, _>(&rt, |_, part| judge(&rt, part.bytes))
}
