// One sweep over the ten rules: the rows are walked in their order, and each block that a rule leads to is lowered where it stands.
#![tactic(auto)]

ghost use Rattle.std.specs.Prelude.{◌≡◌};
ghost use Rattle.rule_ask.specs.Walk.{table_walk, tables_walk};
ghost use Rattle.rule_ready.specs.Ready.{Ready};
ghost use Rattle.engine_row.specs.Lowers.{sheet_of, lowers};
ghost use Rattle.engine_sweep.specs.Sweep.{sweep_of};

use graph_tables::{Graph, Table};
use sheet_layout::Shape;

// These functions are told whether anything was written before, and answer whether anything was by now, as in `engine_row`.

// All rows of the table, forwards or backwards,
fn each_of(g: &Graph, x: Shape, s: &mut [u8], backwards: bool, table: Table, wrote: bool) -> bool
    requires { Ready g.now.file.now g.now.tables x s.old }
    ensures { (s.new, result) ≡ table_walk g.now.file.now g.now.tables x sheet_of (lowers x) backwards table (s.old, wrote) }
{
    let n = graph_tables::rows(g.tables, table);
    let mut told = wrote;
    for k in 0..n {
        told = engine_row::row(g, x, s, table, rule_ask::at_step(backwards, n, k), told);
    }
    told
}

// and of all tables.
fn each_table(g: &Graph, x: Shape, s: &mut [u8], backwards: bool, wrote: bool) -> bool
    requires { Ready g.now.file.now g.now.tables x s.old }
    ensures { (s.new, result) ≡ tables_walk g.now.file.now g.now.tables x sheet_of (lowers x) backwards (s.old, wrote) }
{
    let mut told = wrote;
    for table in rule_ask::TABLES {
        told = each_of(g, x, s, backwards, table, told);
    }
    told
}

// All rules once. A sweep that wrote nothing found everything met that the rows ask.
pub fn once(g: &Graph, x: Shape, s: &mut [u8], backwards: bool) -> bool
    requires { Ready g.now.file.now g.now.tables x s.old }
    ensures { (s.new, result) ≡ sweep_of g.now.file.now g.now.tables x backwards s.old }
{
    let start = engine_row::at_start(g, x, s, false);
    each_table(g, x, s, backwards, start)
}
