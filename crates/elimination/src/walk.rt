// The walks through the charts of loops.
ghost use Rattle.std.specs.Prelude.{◌≡◌, ◌⊎◌, ◌↔◌, ℕ, ◌≤◌, ◌<◌, length, get_or};
ghost use Rattle.bits.specs.Sets.{Has, empty_set, Members};
ghost use Rattle.chart.specs.Bodies.{count_of};
ghost use Rattle.chart.specs.Steps.{Kept};
ghost use Rattle.elimination.specs.Walks.{RowsOf, Onward, Settled, Alone, StopsAt, FoundIn, Judged};

use bits::Set;
use bits::tables::{put_row, row};
use chart::Chart;
use report::Refusal;

// The vertex where walks stop, the vertices that are past, and those of them that lead to where walks stop.
#[derive(Clone, Copy)]
pub struct Stops {
    pub at: usize,
    pub past: Set,
    pub back: Set,
}

impl Stops {
    // At first v alone is past.
    pub(crate) fn new(v: usize) -> Stops
        requires { v < 128 }
        ensures { Alone v result }
    {
        let own = Set::empty().with(v);
        Stops {
            at: v,
            past: own,
            back: own,
        }
    }

    // What stays past when walks stop at v.
    pub(crate) fn moved_to(self, v: usize) -> Stops
        requires { v < 128 }
        ensures { StopsAt v self result }
    {
        if v == self.at {
            return self;
        }
        let rest = self.past.difference(self.back);
        if rest.contains(v) {
            return Stops::new(v);
        }
        Stops {
            at: v,
            past: rest.with(v),
            back: Set::empty().with(v),
        }
    }
}

// What a walk has found: of the body of a loop all that was not past, and what is past now.
#[derive(Clone, Copy)]
pub struct Found {
    pub body: Set,
    pub stops: Stops,
}

// The standing transitions of a chart as a table of sets, of which those of the vertices in `read` are there.
#[derive(Drop)]
pub struct Rows<'a> {
    pub chart: &'a Chart<'a>,
    pub standing: &'a [u8],
    pub table: [u64; 256],
    pub read: Set,
    pub ghost long: { count_of chart.now.body.now ≤ length standing.now },
    pub ghost rows: { ∥ RowsOf (Kept chart.now.body.now standing.now) read table ∥₁ },
}

impl<'a> Rows<'a> {
    // None is read.
    pub(crate) fn new(chart: &'a Chart<'a>, standing: &'a [u8]) -> Rows<'a>
        requires { count_of chart.now.body.now ≤ length standing.now }
        ensures { (result.chart.now.body.now ≡ chart.now.body.now)
            × (result.standing.now ≡ standing.now)
            × (result.read ≡ empty_set) }
    {
        Rows {
            chart,
            standing,
            table: [0; 256],
            read: Set::empty(),
        }
    }

    // The set of w comes into the table, unless it is there.
    fn read_row(&mut self, w: usize)
        requires { w < 128 }
        ensures { (self.new.chart.now.body.now ≡ self.old.chart.now.body.now)
            × (self.new.standing.now ≡ self.old.standing.now)
            × ((y : ℕ) → Has self.new.read y ↔ (Has self.old.read y ⊎ (y ≡ w))) }
    {
        if self.read.contains(w) {
            return;
        }
        let targets = self.chart.kept(self.standing, w);
        put_row(&mut self.table, w, targets);
        self.read = self.read.with(w);
    }

    // What the standing transitions of w lead to, which is read.
    fn row(&self, w: usize) -> Set
        requires { Has self.now.read w }
        ensures { Members (Kept self.now.chart.now.body.now self.now.standing.now w) result }
    {
        row(&self.table, w)
    }

    // What follows the last vertex of a path and is not past; where the path has none, the targets that are not.
    fn onward(&self, path: &[usize; 130], depth: usize, targets: Set, past: Set) -> Set
        requires { (depth < 130) × (0 < depth → Has self.now.read (get_or path.now depth 0)) }
        ensures { Members
            (Onward (Kept self.now.chart.now.body.now self.now.standing.now) path.now depth targets past) result }
    {
        if depth == 0 {
            return targets.difference(past);
        }
        self.row(path[depth]).difference(past)
    }

    // Goes through the chart of a loop whose entries lead to the targets, and which starts where the walk stops: forward
    // to any vertex that is not past; one that leads to none of these is past from then on, and the path goes back by one
    // vertex. A path of 129 vertices has one of them twice: a cycle aside of the loop's start, and nothing is found.
    fn walk(&mut self, targets: Set, stops: Stops) -> Option<Found>
        requires { Settled (Kept self.old.chart.now.body.now self.old.standing.now) stops }
        ensures { (self.new.chart.now.body.now ≡ self.old.chart.now.body.now)
            × (self.new.standing.now ≡ self.old.standing.now)
            × FoundIn (Has targets) (Kept self.old.chart.now.body.now self.old.standing.now) stops result }
    {
        let mut past = stops.past;
        let mut back = stops.back;
        let mut body = targets;
        let mut path = [0usize; 130];
        // a `while`: the path goes on and back
        let mut depth: usize = 0;
        while depth < 129 {
            let w = self.onward(&path, depth, targets, past).lowest();
            if w < 128 {
                self.read_row(w);
                body = body.union(self.row(w));
                depth += 1;
                path[depth] = w;
            } else {
                if depth == 0 {
                    let stops = Stops {
                        at: stops.at,
                        past,
                        back,
                    };
                    return Some(Found { body, stops });
                }
                let left = path[depth];
                let leads = self.row(left).intersection(back);
                back = back.with_if(left, !leads.is_empty());
                past = past.with(left);
                depth -= 1;
            }
        }
        None
    }

    // 52 of a loop with this level that starts where walks stop: the first of L1, L2, L3 that its chart breaks, or what is
    // found of it.
    pub(crate) fn judge(
        &mut self,
        targets: Set,
        level: usize,
        stops: Stops,
    ) -> Result<Found, Refusal>
        requires { Settled (Kept self.old.chart.now.body.now self.old.standing.now) stops × (¬ Has stops.past 0) }
        ensures { (self.new.chart.now.body.now ≡ self.old.chart.now.body.now)
            × (self.new.standing.now ≡ self.old.standing.now)
            × Judged (Has targets) (Kept self.old.chart.now.body.now self.old.standing.now) stops level result }
    {
        let Some(found) = self.walk(targets, stops) else {
            return Err(Refusal::NotLoop(stops.at, level, 2));
        };
        if found.body.intersection(found.stops.back).is_empty() {
            return Err(Refusal::NotLoop(stops.at, level, 1));
        }
        if found.body.contains(0) {
            return Err(Refusal::NotLoop(stops.at, level, 3));
        }
        Ok(found)
    }
}
