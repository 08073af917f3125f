// Where the tables of a graph file stand, and the fields of their rows. What lies past the end of the file reads as 0.
#![tactic(auto)]

ghost use Rattle.std.specs.Prelude.{◌≡◌, ◌+◌, ◌*◌, ◌<◌, ◌||◌, eqb, leb};
ghost use Rattle.words.specs.Bytes.{byte_at, word_at};
ghost use Rattle.graph_tables.specs.Rows.{rows_of};
ghost use Rattle.graph_tables.specs.Kinds.{draw_kind, return_kind, throw_kind};
ghost use Rattle.graph_tables.specs.Named.{number_of, kind_named, Names};
ghost use Rattle.graph_tables.specs.Fields.{entry_of, node_method, node_kind, node_number, node_count, node_rights, node_line, flow_from, flow_to, call_node, call_method, parent_of, catch_from, catch_exception, catch_to, opening_rights, opening_count};

// The kinds of nodes.
#[derive(Clone, Copy, PartialEq, Eq)]
pub enum Kind {
    Plain,
    Grant,
    Draw,
    Call,
    Return,
    Throw,
}

// A number that no kind has.
#[derive(Clone, Copy, PartialEq, Eq)]
pub struct NoKind(pub u16);

impl TryFrom<u16> for Kind {
    type Error = NoKind;

    ghost try_from_gives = { Names };

    fn try_from(number: u16) -> Result<Self, NoKind> {
        match number {
            0 => Ok(Kind::Plain),
            1 => Ok(Kind::Grant),
            2 => Ok(Kind::Draw),
            3 => Ok(Kind::Call),
            4 => Ok(Kind::Return),
            5 => Ok(Kind::Throw),
            _ => Err(NoKind(number)),
        }
    }
}

// The trailer's six counts, and where each table but the first starts. The tables end where the trailer has to start.
#[derive(Clone, Copy)]
pub struct Tables {
    pub methods: u16,
    pub nodes: u16,
    pub flows: u16,
    pub calls: u16,
    pub catches: u16,
    pub types: u16,
    pub nodesat: u32,
    pub flowsat: u32,
    pub callsat: u32,
    pub parentsat: u32,
    pub catchesat: u32,
    pub openingat: u32,
    pub end: u32,
}

// The seven tables, and the trailer's counts as one more.
#[derive(Clone, Copy)]
pub enum Table {
    Trailer,
    Methods,
    Nodes,
    Flow,
    Calls,
    Parents,
    Catches,
    Opening,
}

// How many rows the table has.
pub fn rows(t: Tables, table: Table) -> u16
    ensures { result ≡ rows_of t table }
{
    match table {
        Table::Trailer => 6,
        Table::Methods => t.methods,
        Table::Nodes => t.nodes,
        Table::Flow => t.flows,
        Table::Calls => t.calls,
        Table::Parents => 8,
        Table::Catches => t.catches,
        Table::Opening => t.types,
    }
}

// A graph file, and where its tables stand.
#[derive(Clone, Copy)]
pub struct Graph<'a> {
    pub file: &'a [u8],
    pub tables: Tables,
}

// Where row k starts in a table of rows of `width` bytes that starts at `start`.
fn row_at(start: u32, width: u16, k: u16) -> usize
    ensures { (result ≡ start + width * k) × (result < 8589934592) }
{
    start as usize + width as usize * (k as usize)
}

// A word of that row, and a byte of it.
fn word_of(f: &[u8], start: u32, width: u16, k: u16, column: u16) -> u16
    ensures { result ≡ word_at f.now (start + width * k + column) }
{
    words::word(f, row_at(start, width, k) + column as usize) as u16
}

fn byte_of(f: &[u8], start: u32, width: u16, k: u16, column: u16) -> u16
    ensures { (result ≡ byte_at f.now (start + width * k + column)) × (result < 256) }
{
    words::byte(f, row_at(start, width, k) + column as usize) as u16
}

impl Graph<'_> {
    // The entry node of method m.
    pub fn entry(&self, m: u16) -> u16
        ensures { result ≡ entry_of self.now.file.now m }
    {
        word_of(self.file, 0, 2, m, 0)
    }

    // The fields of node n.
    pub fn node_method(&self, n: u16) -> u16
        ensures { (result ≡ node_method self.now.file.now self.now.tables n) × (result < 256) }
    {
        byte_of(self.file, self.tables.nodesat, 8, n, 0)
    }

    pub fn node_kind(&self, n: u16) -> u16
        ensures { (result ≡ node_kind self.now.file.now self.now.tables n) × (result < 256) }
    {
        byte_of(self.file, self.tables.nodesat, 8, n, 1)
    }

    // None where the number is no kind's: such a file is refused.
    pub fn kind_at(&self, n: u16) -> Option<Kind>
        ensures { result ≡ kind_named (node_kind self.now.file.now self.now.tables n) }
    {
        Kind::try_from(self.node_kind(n)).ok()
    }

    pub fn is_kind(&self, n: u16, kind: Kind) -> bool
        ensures { result ≡ eqb (node_kind self.now.file.now self.now.tables n) (number_of kind) }
    {
        self.kind_at(n) == Some(kind)
    }

    // A plain node, a grant or a draw: the run goes on along the flow.
    pub fn goes_on(&self, n: u16) -> bool
        ensures { result ≡ leb (node_kind self.now.file.now self.now.tables n) draw_kind }
    {
        matches!(
            self.kind_at(n),
            Some(Kind::Plain | Kind::Grant | Kind::Draw)
        )
    }

    // A return or a throw: the run leaves the method.
    pub fn ends(&self, n: u16) -> bool
        ensures { result ≡ (eqb (node_kind self.now.file.now self.now.tables n) return_kind || eqb (node_kind self.now.file.now self.now.tables n) throw_kind) }
    {
        matches!(self.kind_at(n), Some(Kind::Return | Kind::Throw))
    }

    pub fn node_number(&self, n: u16) -> u16
        ensures { (result ≡ node_number self.now.file.now self.now.tables n) × (result < 256) }
    {
        byte_of(self.file, self.tables.nodesat, 8, n, 2)
    }

    pub fn node_count(&self, n: u16) -> u16
        ensures { (result ≡ node_count self.now.file.now self.now.tables n) × (result < 256) }
    {
        byte_of(self.file, self.tables.nodesat, 8, n, 3)
    }

    pub fn node_rights(&self, n: u16) -> u16
        ensures { result ≡ node_rights self.now.file.now self.now.tables n }
    {
        word_of(self.file, self.tables.nodesat, 8, n, 4)
    }

    pub fn node_line(&self, n: u16) -> u16
        ensures { result ≡ node_line self.now.file.now self.now.tables n }
    {
        word_of(self.file, self.tables.nodesat, 8, n, 6)
    }

    // The fields of row k of the flow,
    pub fn flow_from(&self, k: u16) -> u16
        ensures { result ≡ flow_from self.now.file.now self.now.tables k }
    {
        word_of(self.file, self.tables.flowsat, 4, k, 0)
    }

    pub fn flow_to(&self, k: u16) -> u16
        ensures { result ≡ flow_to self.now.file.now self.now.tables k }
    {
        word_of(self.file, self.tables.flowsat, 4, k, 2)
    }

    // of the calls,
    pub fn call_node(&self, k: u16) -> u16
        ensures { result ≡ call_node self.now.file.now self.now.tables k }
    {
        word_of(self.file, self.tables.callsat, 4, k, 0)
    }

    pub fn call_method(&self, k: u16) -> u16
        ensures { result ≡ call_method self.now.file.now self.now.tables k }
    {
        word_of(self.file, self.tables.callsat, 4, k, 2)
    }

    // of the parents, kind by kind,
    pub fn parent(&self, e: u16) -> u16
        ensures { (result ≡ parent_of self.now.file.now self.now.tables e) × (result < 256) }
    {
        byte_of(self.file, self.tables.parentsat, 1, e, 0)
    }

    // of the catches,
    pub fn catch_from(&self, k: u16) -> u16
        ensures { result ≡ catch_from self.now.file.now self.now.tables k }
    {
        word_of(self.file, self.tables.catchesat, 6, k, 0)
    }

    pub fn catch_exception(&self, k: u16) -> u16
        ensures { result ≡ catch_exception self.now.file.now self.now.tables k }
    {
        word_of(self.file, self.tables.catchesat, 6, k, 2)
    }

    pub fn catch_to(&self, k: u16) -> u16
        ensures { result ≡ catch_to self.now.file.now self.now.tables k }
    {
        word_of(self.file, self.tables.catchesat, 6, k, 4)
    }

    // and of the opening stock.
    pub fn opening_rights(&self, k: u16) -> u16
        ensures { result ≡ opening_rights self.now.file.now self.now.tables k }
    {
        word_of(self.file, self.tables.openingat, 4, k, 0)
    }

    pub fn opening_count(&self, k: u16) -> u16
        ensures { result ≡ opening_count self.now.file.now self.now.tables k }
    {
        word_of(self.file, self.tables.openingat, 4, k, 2)
    }
}
