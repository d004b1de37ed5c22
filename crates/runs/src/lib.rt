// What charts do in a kind: runs, the constraint graph, limits, and the theory of their tables. The
// functions of this crate compute nothing. Each carries one theorem in its contract, so that the check
// fails where its proof is missing: all but the worked charts for every kind of bound, from the laws alone.
// The name of a limit is declared here, for the code and for the definitions.
#![tactic(auto)]

ghost use Rattle.runs.specs.Claims.{PartialSolutionsExtend, ClosedTablesReached, PivotsKeep, NewNodeCloses, RunsKeepChains, RunsExactly, TablesTell, LimitsTellWithin, Answered};
ghost use Rattle.runs.specs.Worked.{WorkedCharts};

mod names;

use bound::Bound;
pub use names::Name;

// Dates of some nodes that keep a closed table two by two go on to dates of all nodes.
pub fn partial_solutions_extend<B: Bound>()
    ensures { PartialSolutionsExtend B.meaning }
{}

// What a place of a closed table allows, a solution reaches, and so for what both sums of a limit allow.
pub fn closed_tables_reached<B: Bound>()
    ensures { ClosedTablesReached B.meaning }
{}

// A pivot keeps the solutions and the settled nodes; one that forbids 0 means that there is no solution.
pub fn pivots_keep<B: Bound>()
    ensures { PivotsKeep B.meaning }
{}

// One new node on a closed table, and one pivot on it, give a closed table.
pub fn new_node_closes<B: Bound>()
    ensures { NewNodeCloses B.meaning }
{}

// The dates of a run keep every chain.
pub fn runs_keep_chains<B: Bound>()
    ensures { RunsKeepChains B.meaning }
{}

// A chart has a run exactly when no closed chain forbids 0.
pub fn runs_exactly<B: Bound>()
    ensures { RunsExactly B.meaning }
{}

// A good table is normalised, its chart has a run, its solutions are runs, and its limits are sharp and
// decide which pairs of readings are joined.
pub fn tables_tell<B: Bound>()
    ensures { TablesTell B.meaning }
{}

// One chart is within another exactly when each of its limits is tighter, and else there is a first name that fails.
pub fn limits_tell_within<B: Bound>()
    ensures { LimitsTellWithin B.meaning }
{}

// No sum of the working is refused.
pub fn sums_answered<B: Bound>()
    ensures { Answered B.meaning }
{}

// The worked charts: their limits, their spans, which of them run, and which is within which.
pub fn worked_charts()
    ensures { WorkedCharts }
{}
