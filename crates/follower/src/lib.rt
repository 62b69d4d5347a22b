// The follower of events over a chart body: by value, over lent bytes, and with its state itself lent; and the shortest way
// from its state to the end.
#![tactic(auto)]

mod ways;

ghost use Rattle.std.specs.Prelude.{◌≡◌, true, ◌↔◌, length};
ghost use Rattle.theory.specs.Events.{restart, event};
ghost use Rattle.chart.specs.Bodies.{vertices_of};
ghost use Rattle.chart.specs.Checks.{check_of};
ghost use Rattle.follower.specs.States.{state_size, bytes_in, state_in, members_of, no_state};
ghost use Rattle.follower.specs.Parts.{Same, Fits, StepBy, SetShows, TakenTo};
ghost use Rattle.follower.specs.Calls.{asked, ruled_of, called_on, lent_on, by_other_length};
ghost use Rattle.follower.specs.Ways.{way_of, way_left};

use bits::{Set, byte, read_set, set_bytes};
use chart::images::count_marks;
use chart::{Chart, fill_begins};
use report::{Refusal, Response};
use ways::way_from;

// The state: a set of vertices in sixteen bytes, bits as in a row of a relation, and a mark, 1 where it is spoilt, else 0.
#[derive(Clone, Copy, Debug, PartialEq, Eq)]
pub struct Follower {
    pub set: [u8; 16],
    pub mark: u8,
}

// How many bytes a state has.
pub const STATE_SIZE: usize = 17;

// What a call by value hands back: its answer, and the state after it.
#[derive(Clone, Copy, Debug, PartialEq, Eq)]
pub struct Moved {
    pub answer: Result<Response, Refusal>,
    pub follower: Follower,
}

// What a call asks of a follower.
#[derive(Clone, Copy, Debug, PartialEq, Eq)]
enum Call {
    Restart,
    Event(u8),
}

// What a set shows: whether the end is in it, and how many different actions its vertices offer.
#[derive(Clone, Copy, Debug, PartialEq, Eq)]
struct Shown {
    end: bool,
    offered: usize,
}

// Whether 53 passes: some vertex is in the set, and none of V or above, and the mark is 0 or 1.
fn state_fits(set: Set, mark: u8, vertices: usize) -> bool
    ensures { (result ≡ true) ↔ Fits vertices set mark }
{
    if 1 < mark {
        return false;
    }
    if set.is_empty() {
        return false;
    }
    let highest = Set::empty().with_highest(set);
    highest.at < vertices
}

// 53 of a set and its mark.
fn ready(chart: &[u8], set: Set, mark: u8) -> Result<(), Refusal>
    requires { check_of chart.now ≡ Ok tt }
    ensures { (Fits (vertices_of chart.now) set mark → result ≡ Ok tt)
        × (¬ Fits (vertices_of chart.now) set mark → result ≡ Err Refusal.FollowerSet) }
{
    if state_fits(set, mark, byte(chart, 0)) {
        return Ok(());
    }
    Err(Refusal::FollowerSet)
}

// The set after the step from a set by an action, where the action has a target.
fn step(chart: &Chart<'_>, set: Set, action: usize) -> Option<Set>
    ensures { StepBy chart.now.body.now set action result }
{
    let targets = chart.image(set, action);
    if targets.is_empty() {
        return None;
    }
    Some(targets)
}

fn show(chart: &Chart<'_>, set: Set) -> Shown
    ensures { SetShows chart.now.body.now set result }
{
    let marks = chart.offered(set);
    Shown {
        end: set.contains(0),
        offered: count_marks(&marks),
    }
}

// A call that is taken to a set.
fn taken(chart: &Chart<'_>, set: Set) -> Moved
    ensures { TakenTo chart.now.body.now set result }
{
    let Shown { end, offered } = show(chart, set);
    let left = set_bytes(set);
    Moved {
        answer: Ok(Response::Taken(end, offered)),
        follower: Follower { set: left, mark: 0 },
    }
}

// An event where 20, 21 and 53 pass; the set is the state's.
fn event_from(chart: &[u8], follower: Follower, set: Set, action: u8) -> Moved
    requires { (check_of chart.now ≡ Ok tt)
        × Same set (members_of follower)
        × Fits (vertices_of chart.now) set follower.mark }
    ensures { result ≡ ruled_of chart.now follower (event action) }
{
    let mark = follower.mark;
    if mark == 1 {
        return Moved {
            answer: Ok(Response::Spoilt),
            follower,
        };
    }
    let mut begins = [0; 129];
    fill_begins(chart, &mut begins);
    let chart = Chart::new(chart, &begins);
    match step(&chart, set, action as usize) {
        Some(targets) => taken(&chart, targets),
        None => {
            let Shown { end, offered } = show(&chart, set);
            let kept = follower.set;
            Moved {
                answer: Ok(Response::NotPossible(end, offered)),
                follower: Follower { set: kept, mark: 1 },
            }
        }
    }
}

// An event over a body that passes 20 and 21.
fn event_on(chart: &[u8], follower: Follower, action: u8) -> Moved
    requires { (check_of chart.now ≡ Ok tt) × (length follower.set ≡ 16) }
    ensures { result ≡ called_on chart.now follower (event action) }
{
    let bytes = follower.set;
    let set = read_set(&bytes, 0);
    match ready(chart, set, follower.mark) {
        Err(refusal) => Moved {
            answer: Err(refusal),
            follower,
        },
        Ok(()) => event_from(chart, follower, set, action),
    }
}

// A restart over a body that passes 20 and 21.
fn restart_on(chart: &[u8]) -> Moved
    requires { check_of chart.now ≡ Ok tt }
    ensures { result ≡ ruled_of chart.now no_state restart }
{
    let mut begins = [0; 129];
    fill_begins(chart, &mut begins);
    let chart = Chart::new(chart, &begins);
    taken(&chart, Set::empty().with(chart.start()))
}

// One call. A refusal hands the state back as it came. Inlined, so that each kind of call has its own part alone.
#[inline(always)]
fn called(follower: Follower, chart: &[u8], call: Call) -> Moved
    ensures { result ≡ called_on chart.now follower (asked call) }
{
    match chart::check(chart) {
        Err(refusal) => Moved {
            answer: Err(refusal),
            follower,
        },
        Ok(()) => match call {
            Call::Restart => restart_on(chart),
            Call::Event(action) => event_on(chart, follower, action),
        },
    }
}

// One event. A refusal hands the state back as it came.
pub fn event(follower: Follower, chart: &[u8], action: u8) -> Moved
    ensures { result ≡ called_on chart.now follower (event action) }
{
    called(follower, chart, Call::Event(action))
}

// A restart. A refusal hands back the empty set, not spoilt.
pub fn restart(chart: &[u8]) -> Moved
    ensures { result ≡ called_on chart.now no_state restart }
{
    let no_state = Follower {
        set: [0; 16],
        mark: 0,
    };
    called(no_state, chart, Call::Restart)
}

// The state that lent bytes hold.
fn state_of(state: &[u8]) -> Follower
    requires { length state.now ≡ state_size }
    ensures { result ≡ state_in state.now }
{
    let mut set = [0u8; 16];
    set.copy_from_slice(&state[..16]);
    Follower {
        set,
        mark: state[16],
    }
}

// Writes a state into lent bytes.
fn put_state(state: &mut [u8], follower: Follower)
    requires { (length state.old ≡ state_size) × (length follower.set ≡ 16) }
    ensures { state.new ≡ bytes_in follower }
{
    let set = follower.set;
    state[..16].copy_from_slice(&set);
    state[16] = follower.mark;
}

// 53 of another number of lent bytes than the state's, after 20 and 21.
fn other_length(chart: &[u8]) -> Result<Response, Refusal>
    ensures { result ≡ by_other_length (check_of chart.now) }
{
    chart::check(chart)?;
    Err(Refusal::FollowerSet)
}

// One call, of a state in lent bytes. A refusal changes none of them.
#[inline(always)]
fn called_lent(chart: &[u8], state: &mut [u8], call: Call) -> Result<Response, Refusal>
    ensures answer { result ≡ (lent_on chart.now state.old (asked call)).0 }
    ensures left { state.new ≡ (lent_on chart.now state.old (asked call)).1 }
{
    if state.len() != STATE_SIZE {
        return other_length(chart);
    }
    let moved = called(state_of(state), chart, call);
    put_state(state, moved.follower);
    moved.answer
}

// One event, of a state in lent bytes. A refusal changes none of them.
pub fn event_lent(chart: &[u8], state: &mut [u8], action: u8) -> Result<Response, Refusal>
    ensures { (result ≡ (lent_on chart.now state.old (event action)).0)
        × (state.new ≡ (lent_on chart.now state.old (event action)).1) }
{
    called_lent(chart, state, Call::Event(action))
}

// A restart, of a state in lent bytes. A refusal changes none of them.
pub fn restart_lent(chart: &[u8], state: &mut [u8]) -> Result<Response, Refusal>
    ensures { (result ≡ (lent_on chart.now state.old restart).0)
        × (state.new ≡ (lent_on chart.now state.old restart).1) }
{
    called_lent(chart, state, Call::Restart)
}

// One call, of a follower that is lent and updated where it stands.
fn called_in_place(follower: &mut Follower, chart: &[u8], call: Call) -> Result<Response, Refusal>
    ensures answer { result ≡ (called_on chart.now follower.old (asked call)).answer }
    ensures left { follower.new ≡ (called_on chart.now follower.old (asked call)).follower }
{
    let moved = called(*follower, chart, call);
    *follower = moved.follower;
    moved.answer
}

// One event, of a follower that is lent and updated where it stands.
pub fn event_in_place(
    follower: &mut Follower,
    chart: &[u8],
    action: u8,
) -> Result<Response, Refusal>
    ensures { (result ≡ (called_on chart.now follower.old (event action)).answer)
        × (follower.new
        ≡ (called_on chart.now follower.old (event action)).follower) }
{
    called_in_place(follower, chart, Call::Event(action))
}

// A restart, of a follower that is lent and updated where it stands.
pub fn restart_in_place(follower: &mut Follower, chart: &[u8]) -> Result<Response, Refusal>
    ensures { (result ≡ (called_on chart.now follower.old restart).answer)
        × (follower.new ≡ (called_on chart.now follower.old restart).follower) }
{
    called_in_place(follower, chart, Call::Restart)
}

// The two functions above, called on a local: they stand for a caller that lends a follower.
pub fn event_through(follower: Follower, chart: &[u8], action: u8) -> Moved
    ensures { result ≡ called_on chart.now follower (event action) }
{
    let mut lent = follower;
    let answer = event_in_place(&mut lent, chart, action);
    Moved {
        answer,
        follower: lent,
    }
}

pub fn restart_through(follower: Follower, chart: &[u8]) -> Moved
    ensures { result ≡ called_on chart.now follower restart }
{
    let mut lent = follower;
    let answer = restart_in_place(&mut lent, chart);
    Moved {
        answer,
        follower: lent,
    }
}

// Writes the shortest list of events after which the end is in the set of a state, of those the lowest, to the beginning of
// the lent bytes; those past it are kept. The state is only read; from a spoilt one no list does it. A refusal changes no
// lent byte.
pub fn shortest_way(chart: &[u8], state: &[u8], out: &mut [u8]) -> Result<usize, Refusal>
    ensures { (result ≡ way_of chart.now state.now (length out.old))
        × (out.new ≡ way_left chart.now state.now out.old) }
{
    chart::check(chart)?;
    if state.len() != STATE_SIZE {
        return Err(Refusal::FollowerSet);
    }
    let mark = state[16];
    let set = read_set(state, 0);
    ready(chart, set, mark)?;
    if mark == 1 {
        return Err(Refusal::NoWay);
    }
    let mut begins = [0; 129];
    fill_begins(chart, &mut begins);
    way_from(&Chart::new(chart, &begins), set, out)
}
