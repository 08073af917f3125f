// Where the blocks of a sheet stand, in words of two bytes. A sheet does not know graphs: its shape is three numbers.
#![tactic(auto)]

ghost use Rattle.std.specs.Prelude.{◌≡◌, ◌<◌, length};
ghost use Rattle.sheet_layout.specs.Layout.{method_at, exit_at, node_at, longest_sheet, sheet_bytes, block_count, is_stock, block_size, block_at};

// Numbers as the graph file has them, so that no place in any sheet passes 64 bits.
#[derive(Clone, Copy)]
pub struct Shape {
    pub methods: u16,
    pub nodes: u16,
    pub types: u16,
}

// A blank sheet, of which a part is as long as any file's sheet.
#[tactic(auto, unfolding(crate::specs::Layout::longest_sheet))]
pub fn longest_sheet() -> [u8; 56064]
    ensures { (result ≡ longest_sheet) × (56064 ≡ length result) }
{
    [0; 56064]
}

// The sheet's length.
#[tactic(auto, using(crate::proofs::Bounds::node_lt), unfolding(crate::specs::Layout::sheet_bytes, crate::specs::Layout::sheet_words, crate::specs::Layout::node_at, crate::specs::Layout::method_at))]
pub fn sheet_bytes(x: Shape) -> usize
    ensures { result ≡ sheet_bytes x }
{
    2 * node_at(x, x.nodes)
}

pub fn block_count(x: Shape) -> u32
    ensures { result ≡ block_count x }
{
    10 * x.methods as u32 + x.nodes as u32
}

// The first word of method m.
#[tactic(auto, using(crate::proofs::Bounds::methods_lt), unfolding(crate::specs::Layout::method_at))]
pub fn method_at(x: Shape, m: u16) -> usize
    ensures { result ≡ method_at x m }
{
    m as usize * (10 + 38 * x.types as usize)
}

// The first word of exit e of method m.
#[tactic(auto, using(crate::proofs::Bounds::method_lt, crate::proofs::Bounds::effects_lt), unfolding(crate::specs::Layout::exit_at))]
pub fn exit_at(x: Shape, m: u16, e: u16) -> usize
    ensures { result ≡ exit_at x m e }
{
    method_at(x, m) + (1 + 2 * x.types as usize) + e as usize * (1 + 4 * x.types as usize)
}

// The first word of node n.
#[tactic(auto, using(crate::proofs::Bounds::method_lt, crate::proofs::Bounds::effects_lt), unfolding(crate::specs::Layout::node_at))]
pub fn node_at(x: Shape, n: u16) -> usize
    ensures { result ≡ node_at x n }
{
    method_at(x, x.methods) + n as usize * (1 + 4 * x.types as usize)
}

// Block b is a method's mark with its stock.
pub fn is_stock(x: Shape, b: u32) -> bool
    ensures { result ≡ is_stock x b }
{
    let method = b < 10 * x.methods as u32;
    let first = b % 10 == 0;
    method & first
}

// How many words block b has.
#[tactic(auto, unfolding(crate::specs::Layout::block_size))]
pub fn block_size(x: Shape, b: u32) -> usize
    ensures { (result ≡ block_size x b) × (result < 1048576) }
{
    if is_stock(x, b) {
        return 1 + 2 * x.types as usize;
    }
    1 + 4 * x.types as usize
}

// The first word of block b.
#[tactic(auto, using(crate::proofs::Bounds::method_lt, crate::proofs::Bounds::effects_lt, crate::proofs::Bounds::exit_lt), unfolding(crate::specs::Layout::block_at, crate::specs::Layout::node_at))]
pub fn block_at(x: Shape, b: u32) -> usize
    ensures { (result ≡ block_at x b) × (result < 72057594037927936) }
{
    let nodes = 10 * x.methods as u32;
    if nodes <= b {
        let n = (b - nodes) as usize;
        return method_at(x, x.methods) + n * (1 + 4 * x.types as usize);
    }
    let m = (b / 10) as u16;
    if b % 10 == 0 {
        return method_at(x, m);
    }
    exit_at(x, m, (b % 10 - 1) as u16)
}
