// Where an action leads from a set of vertices, which actions the set offers, the lowest that leads into another set,
// and where a vertex leads. The loops go over a vertex's rows.
ghost use Rattle.std.specs.Prelude.{◌≡◌, cond, ◌+◌, ◌<◌, length};
ghost use Rattle.bits.specs.First.{First};
ghost use Rattle.bits.specs.Sets.{Members};
ghost use Rattle.chart.specs.Images.{Image, ActsFrom, ActsInto, Offers, Marks, MarksMore, marked_of};
ghost use Rattle.chart.specs.Images.{LeadsInto, LeadsTo};
ghost use Rattle.chart.specs.Parts.{ActionsRise, Lower};
ghost use Rattle.chart.specs.Steps.{ActsOf};

use crate::Chart;
use bits::Set;

// From the first row on to another, by eights: actions do not fall, and those passed are below this one. The blocks are
// for speed: one look passes eight transitions.
fn skip_lower(rows: &[[u8; 4]], action: usize) -> usize
    requires { ActionsRise rows.now }
    ensures { Lower rows.now action result }
{
    // where the next eight end
    let mut end: usize = 8;
    while end <= rows.len() {
        if rows[end - 1][1] as usize >= action {
            return end - 8;
        }
        end += 8;
    }
    end - 8
}

fn one_more_if(n: usize, flag: bool) -> usize
    requires { n < 256 }
    ensures { result ≡ n + cond flag 1 0 }
{
    if flag { n + 1 } else { n }
}

// How many are marked.
pub fn count_marks(marks: &[u8; 256]) -> usize
    requires { length marks.now ≡ 256 }
    ensures { result ≡ length (marked_of marks.now) }
{
    let mut total: usize = 0;
    for mark in marks {
        total = one_more_if(total, *mark == 1);
    }
    total
}

impl<'a> Chart<'a> {
    // What the transitions of u lead to.
    pub fn targets(&self, u: usize) -> Set
        requires { u < 128 }
        ensures { Members (LeadsTo self.now.body.now u) result }
    {
        let mut set = Set::empty();
        for row in self.rows(u) {
            set = set.with(row[2] as usize);
        }
        set
    }

    // What the transitions of u with this action lead to.
    fn acting(&self, u: usize, action: usize) -> Set
        requires { u < 128 }
        ensures { Members (ActsOf self.now.body.now u action) result }
    {
        let rows = self.rows(u);
        let lower = skip_lower(rows, action);
        let mut set = Set::empty();
        for row in &rows[lower..] {
            let acting = row[1] as usize;
            if acting > action {
                return set;
            }
            set = set.with_if(row[2] as usize, acting == action);
        }
        set
    }

    // All targets of the vertices of a set by an action.
    pub fn image(&self, set: Set, action: usize) -> Set
        ensures { Members (Image self.now.body.now set action) result }
    {
        let mut targets = Set::empty();
        for u in set.members() {
            targets = targets.union(self.acting(u, action));
        }
        targets
    }

    // The lowest action below `best` by which u leads into a set, or `best`: its actions do not fall, so that the first
    // transition into the set has the lowest.
    fn lowest_from(&self, u: usize, aim: Set, best: usize) -> usize
        requires { u < 128 }
        ensures { First (ActsInto self.now.body.now u aim) 0 best result }
    {
        for row in self.rows(u) {
            if aim.contains(row[2] as usize) {
                return best.min(row[1] as usize);
            }
        }
        best
    }

    // The lowest action by which a vertex of a set leads into another set, or 256, which is above all actions: so the
    // least of several vertices needs no case.
    pub fn lowest_into(&self, set: Set, aim: Set) -> usize
        ensures { First (LeadsInto self.now.body.now set aim) 0 256 result }
    {
        let mut best: usize = 256;
        for u in set.members() {
            best = self.lowest_from(u, aim, best);
        }
        best
    }

    // Marks the actions of the transitions of u.
    fn mark(&self, u: usize, marks: &mut [u8; 256])
        requires { (u < 128) × (length marks.old ≡ 256) }
        ensures { MarksMore (ActsFrom self.now.body.now u) marks.old marks.new }
    {
        for row in self.rows(u) {
            marks[row[1] as usize] = 1;
        }
    }

    // The actions that the vertices of a set offer: a mark for each.
    pub fn offered(&self, set: Set) -> [u8; 256]
        ensures { Marks (Offers self.now.body.now set) result }
    {
        let mut marks = [0u8; 256];
        for u in set.members() {
            self.mark(u, &mut marks);
        }
        marks
    }
}
