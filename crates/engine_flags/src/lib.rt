// The area that is lent to the queue engine: which nodes are to be looked at again. Byte n: node n waits. A flag is a byte and no bool, since the
// area is memory of the caller of snellair_work_out_queued.
#![tactic(auto)]

ghost use Rattle.std.specs.Prelude.{◌≡◌, true, ℕ, ◌+◌, ◌<◌, ◌≤◌, length, MatchOption};
ghost use Rattle.graph_tables.specs.declared.Table.TheVariants.{Calls};
ghost use Rattle.graph_tables.specs.Rows.{rows_of};
ghost use Rattle.graph_tables.specs.Fields.{node_method, call_node};
ghost use Rattle.engine_flags.specs.Flags.{Able, Waits, Woken, Awake, Forgot, AllWait, LeavesWait, EndWaits, CallWaits, RowWaits, PassedOn, Spread, Clear};

use graph_rows::Stretch;
use graph_tables::{Graph, Kind, Table};

// Flag EXITS + m: an exit of method m was lowered.
const EXITS: usize = 512;

// Flag STOCKS + m: its stock was.
const STOCKS: usize = 576;

// The end of the flags.
const FLAGS: usize = 640;

// The flag i is set.
fn wake(area: &mut [u8], i: usize)
    requires { i < length area.old }
    ensures { Woken area.old area.new × Waits area.new i }
{
    area[i] = 1;
}

// The node that each row of the stretch leads to.
fn wake_each(g: &Graph, area: &mut [u8], table: Table, z: Stretch)
    requires { Able g.now.file.now g.now.tables area.old × (z.to ≤ rows_of g.now.tables table) }
    ensures { Woken area.old area.new × AllWait g.now.file.now g.now.tables area.new table z }
{
    for j in z.from..z.to {
        wake(area, graph_rows::target(g, table, j) as usize);
    }
}

// The exits of the method of node n.
fn wake_exits(g: &Graph, area: &mut [u8], n: u16)
    requires { length area.old ≡ 4096 }
    ensures { Woken area.old area.new × Waits area.new (512 + node_method g.now.file.now g.now.tables n) }
{
    wake(area, EXITS + g.node_method(n) as usize);
}

// Where the exception e leads to at the node n: the catch rows that apply, or the exits of its method.
fn wake_leaving(g: &Graph, area: &mut [u8], n: u16, e: u16)
    requires { Able g.now.file.now g.now.tables area.old × (n < g.now.tables.nodes) }
    ensures { Woken area.old area.new × LeavesWait g.now.file.now g.now.tables area.new n e }
{
    let handlers = graph_rows::catches_of(g, n, e);
    if graph_rows::no_rows(handlers) {
        wake_exits(g, area, n);
        return;
    }
    wake_each(g, area, Table::Catches, handlers);
}

// Where any exception does. With no catch rows at all that is the exits of its method.
fn wake_thrown(g: &Graph, area: &mut [u8], n: u16)
    requires { Able g.now.file.now g.now.tables area.old × (n < g.now.tables.nodes) }
    ensures { Woken area.old area.new × ((e : ℕ) → e < 8 → LeavesWait g.now.file.now g.now.tables area.new n e) }
{
    if g.tables.catches == 0 {
        wake_exits(g, area, n);
        return;
    }
    for e in 0..8 {
        wake_leaving(g, area, n, e);
    }
}

// Where a return or a throw does.
fn wake_end(g: &Graph, area: &mut [u8], n: u16)
    requires { Able g.now.file.now g.now.tables area.old × (n < g.now.tables.nodes) }
    ensures { Woken area.old area.new × EndWaits g.now.file.now g.now.tables area.new n }
{
    if g.is_kind(n, Kind::Return) {
        wake_exits(g, area, n);
        return;
    }
    wake_leaving(g, area, n, g.node_number(n));
}

// Where call row k does.
fn wake_call(g: &Graph, area: &mut [u8], k: u16)
    requires { Able g.now.file.now g.now.tables area.old × (k < g.now.tables.calls) }
    ensures { Woken area.old area.new × CallWaits g.now.file.now g.now.tables area.new k }
{
    let n = g.call_node(k);
    wake_each(g, area, Table::Flow, graph_rows::flow_of(g, n));
    wake(area, STOCKS + g.call_method(k) as usize);
    wake_thrown(g, area, n);
}

// Where row k of a table does.
pub fn wake_row(g: &Graph, area: &mut [u8], table: Table, k: u16)
    requires { Able g.now.file.now g.now.tables area.old × (k < rows_of g.now.tables table) }
    ensures { Woken area.old area.new × RowWaits g.now.file.now g.now.tables area.new table k }
{
    match table {
        Table::Trailer => {}
        Table::Methods => wake(area, g.entry(k) as usize),
        Table::Nodes => wake_end(g, area, k),
        Table::Flow => wake(area, g.flow_to(k) as usize),
        Table::Calls => wake_call(g, area, k),
        Table::Parents => {}
        Table::Catches => {}
        Table::Opening => {}
    }
}

// The node of call row k waits if an exit of the method called was lowered, or the stock of its own method.
fn pass_on(g: &Graph, area: &mut [u8], k: u16)
    requires { Able g.now.file.now g.now.tables area.old × (k < g.now.tables.calls) }
    ensures { Woken area.old area.new × (Awake g.now.file.now g.now.tables area.old Calls k → Waits area.new (call_node g.now.file.now g.now.tables k)) }
{
    let n = g.call_node(k);
    let called = EXITS + g.call_method(k) as usize;
    let own = STOCKS + g.node_method(n) as usize;
    if area[called] != 0 || area[own] != 0 {
        wake(area, n as usize);
    }
}

// So for every call row. By a copy of the graph: through the loan its fields were read again for each row.
fn pass_all_on(g: &Graph, area: &mut [u8])
    requires { Able g.now.file.now g.now.tables area.old }
    ensures { Woken area.old area.new × PassedOn g.now.file.now g.now.tables area.old area.new g.now.tables.calls }
{
    let own = *g;
    for k in 0..own.tables.calls {
        pass_on(&own, area, k);
    }
}

// The methods' flags are cleared.
fn forget(area: &mut [u8])
    requires { length area.old ≡ 4096 }
    ensures { Forgot area.old area.new }
{
    area[EXITS..FLAGS].fill(0);
}

// The methods' flags are passed on to the calls that they concern.
pub fn spread(g: &Graph, area: &mut [u8])
    requires { Able g.now.file.now g.now.tables area.old }
    ensures { Spread g.now.file.now g.now.tables area.old area.new }
{
    pass_all_on(g, area);
    forget(area);
}

// Every node waits.
pub fn wake_nodes(area: &mut [u8])
    requires { length area.old ≡ 4096 }
    ensures { (length area.new ≡ 4096) × ((i : ℕ) → i < 512 → Waits area.new i) }
{
    area[..EXITS].fill(1);
}

// The flags of eight steps from step j on are clear.
fn eight_clear(area: &[u8], backwards: bool, n: u16, j: u16) -> bool
    requires { (j ≤ n) × (n ≤ length area.now) }
    ensures { result ≡ true → (j + 8 ≤ n) × Clear area.now backwards n j (j + 8) }
{
    if n - j < 8 {
        return false;
    }
    let i = rule_ask::at_step(backwards, n, j) as usize;
    if backwards {
        return words::inner_four(area, i - 7) == 0;
    }
    words::inner_four(area, i) == 0
}

// Steps are left out eight at a time,
fn past_eights(area: &[u8], backwards: bool, n: u16, k: u16) -> u16
    requires { (k ≤ n) × (n ≤ length area.now) × (n ≤ 512) }
    ensures { (k ≤ result) × (result ≤ n) × Clear area.now backwards n k result }
{
    let mut j = k;
    while eight_clear(area, backwards, n, j) {
        j += 8;
    }
    j
}

// and then one at a time, up to the first from step k on whose node waits.
pub fn next(area: &[u8], backwards: bool, n: u16, k: u16) -> Option<u16>
    requires { (k ≤ n) × (n ≤ length area.now) × (n ≤ 512) }
    ensures { MatchOption result (Clear area.now backwards n k n) (λ j. (k ≤ j) × (j < n) × Clear area.now backwards n k j) }
{
    let start = past_eights(area, backwards, n, k);
    (start..n).find(|j| area[rule_ask::at_step(backwards, n, *j) as usize] != 0)
}
