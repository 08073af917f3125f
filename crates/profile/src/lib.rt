// Profiles: how an add-on asks for its permits. Judged by the rows of a graph file alone, which is only read.
#![tactic(auto)]

ghost use Rattle.std.specs.Prelude.{◌≡◌};
ghost use Rattle.graph_nodes.specs.Program.{Safe};
ghost use Rattle.profile.specs.Profile.{Profiled, BreaksOneShot, BreaksSession};
ghost use Rattle.profile.specs.Breaks.{Breaks};

use answer::Answer;
use graph::PassedGraph;
use profile_looks::Profile;

// The nodes of a file that passes.
fn of_passed(p: &PassedGraph, profile: Profile) -> Answer
    ensures { Profiled p.now.graph.file.now (Breaks p.now.graph.file.now profile) result }
{
    let g = &p.graph;
    let n = profile_looks::breaking(g, profile);
    if n < g.tables.nodes {
        return graph_places::unfit_at(g, n);
    }
    Answer::Pass
}

// The file is judged first, and then its nodes.
fn profiled(f: &[u8], profile: Profile) -> Answer
    ensures { Profiled f.now (Breaks f.now profile) result }
{
    match graph::pass(f) {
        Ok(p) => of_passed(&p, profile),
        Err(refusal) => refusal,
    }
}

// For add-ons that ask right before each use.
pub fn one_shot(f: &[u8]) -> Answer
    ensures means { Profiled f.now (BreaksOneShot f.now) result }
    ensures safe { Safe f.now result }
{
    profiled(f, Profile::OneShot)
}

// For add-ons that ask at start-up.
pub fn session(f: &[u8]) -> Answer
    ensures { Profiled f.now (BreaksSession f.now) result }
{
    profiled(f, Profile::Session)
}
