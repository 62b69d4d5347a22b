// Relations between the expression's chart and the file's chart: the checks 40 to 45.
#![tactic(auto)]

mod classes;
mod clearing;
mod matching;
mod pairs;
mod rows;
mod runs;
mod small;
mod steps;
mod suspects;
mod tables;

ghost use Rattle.std.specs.Prelude.{◌≡◌, true, ◌↔◌, ℕ, ◌≤◌, ◌<◌};
ghost use Rattle.chart.specs.Checks.{check_of};
ghost use Rattle.bisimulation.specs.Relations.{opening_of};
ghost use Rattle.bisimulation.specs.Answers.{StrayBit, StrayAnswer, SomeListed, SomeNumbered};
ghost use Rattle.bisimulation.specs.Answers.{Doubtful, PairsAnswer};

use bits::{Set, byte};
use chart::Chart;
use clearing::Clearing;
use matching::{Tables, VertexSteps};
use pairs::Search;
use report::Refusal;
pub use rows::Relation;
use runs::runs;
pub use steps::Steps;

// 41: the first bit for a vertex of V or above, by row and then by column.
fn strays(body: &[u8], relation: &Relation) -> Result<(), Refusal>
    requires { check_of body.now ≡ Ok tt }
    ensures { StrayAnswer body.now relation.now.bytes.now result }
{
    let inside = Set::below(byte(body, 0));
    for u in 0..relation.rows {
        let v = relation.row(u).difference(inside).lowest();
        if v < 128 {
            return Err(Refusal::PairNoVertex(u, v));
        }
    }
    Ok(())
}

// Whether no row has a bit for a vertex of V or above, by all rows at once.
fn all_inside(body: &[u8], relation: &Relation) -> bool
    requires { check_of body.now ≡ Ok tt }
    ensures { (result ≡ true) ↔ ((u v : ℕ) → ¬ StrayBit body.now relation.now.bytes.now u v) }
{
    let mut all = Set::empty();
    for u in 0..relation.rows {
        all = all.union(relation.row(u));
    }
    all.difference(Set::below(byte(body, 0))).is_empty()
}

// 40, 41 and 42, which ask only for the number of rows and the start.
pub fn opening(vertices: usize, start: usize, body: &[u8], relation: &[u8]) -> Result<(), Refusal>
    requires { (check_of body.now ≡ Ok tt) × (vertices ≤ 128) × (start < vertices) }
    ensures { result ≡ opening_of vertices start body.now relation.now }
{
    if relation.len() != 16 * vertices {
        return Err(Refusal::RelationLength(relation.len()));
    }
    let relation = Relation {
        bytes: relation,
        rows: vertices,
    };
    if !all_inside(body, &relation) {
        return strays(body, &relation);
    }
    let q = byte(body, 1);
    if !relation.related(start, q) {
        return Err(Refusal::PairStarts(start, q));
    }
    Ok(())
}

// The chart vertices that 43 to 45 may refuse, found by tables: for all rows of a vertex at once.
// Inlined, its tables and those of `check_pairs` would lie on one stack.
#[inline(never)]
fn doubtful_by_tables(steps: &Steps, chart: &Chart) -> Set
    ensures { Doubtful steps.now.keys.now steps.now.words.now steps.now.count steps.now.relation.rows
        chart.now.body.now steps.now.relation.bytes.now result }
{
    // here and in `check_pairs` each table lies on the stack once, and is lent to what fills it: answered by value it
    // would be copied
    let mut at = VertexSteps {
        into: [0; 128],
        all: [u64::MAX; 128],
        any: [0; 128],
    };
    let mut acting = [0u64; 256];
    let related = steps.fill_tables(&mut at, &mut acting);
    let mut until = [0u8; 128];
    runs(&at.into, chart, &mut until);
    let tables = Tables {
        at: &at,
        acting: &acting,
        until: &until,
        chart,
    };
    tables.suspects(&steps.relation, related)
}

// The chart vertices that 43 to 45 may refuse, where 40 to 42 pass: every pair of another vertex passes. The
// expression's chart is given by its steps, in any order: it is not written.
pub fn doubtful(steps: &Steps, chart: &Chart) -> Set
    requires { SomeListed steps.now.keys.now steps.now.words.now steps.now.count steps.now.relation.rows
        chart.now.body.now steps.now.relation.bytes.now }
    ensures { Doubtful steps.now.keys.now steps.now.words.now steps.now.count steps.now.relation.rows
        chart.now.body.now steps.now.relation.bytes.now result }
{
    if steps.small_passes(chart) {
        return Set::empty();
    }
    doubtful_by_tables(steps, chart)
}

// 43 to 45, where 40 to 42 pass and every pair outside the suspects does: the rows of the suspects are looked through.
// The steps are in order here: the place of 44 needs it.
#[inline(never)]
pub fn check_pairs(steps: &Steps, chart: &Chart, suspects: Set) -> Result<(), Refusal>
    requires { SomeNumbered steps.now.keys.now steps.now.words.now steps.now.count steps.now.relation.rows
        chart.now.body.now steps.now.relation.bytes.now suspects }
    ensures { PairsAnswer steps.now.keys.now steps.now.words.now steps.now.count steps.now.relation.rows
        chart.now.body.now steps.now.relation.bytes.now suspects result }
{
    let mut at = VertexSteps {
        into: [0; 128],
        all: [u64::MAX; 128],
        any: [0; 128],
    };
    let mut acting = [0u64; 256];
    steps.fill_tables(&mut at, &mut acting);
    let mut until = [0u8; 128];
    runs(&at.into, chart, &mut until);
    let tables = Tables {
        at: &at,
        acting: &acting,
        until: &until,
        chart,
    };
    let mut columns = [0u64; 256];
    steps.relation.columns(suspects, &mut columns);
    let mut users = [0u64; 128];
    steps.users(&mut users);
    let clearing = Clearing {
        tables: &tables,
        users: &users,
        used: steps.used(),
    };
    let mut table = [0u64; 256];
    clearing.gather(&columns, &mut table);
    let search = Search {
        tables: &tables,
        steps,
        table: &table,
    };
    search.run()
}
