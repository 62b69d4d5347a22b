// The answers: a call's value or its refusal, and document 01's number and values (n, p, q, r) for each of their cases.
#![tactic(auto)]

ghost use Rattle.std.specs.Prelude.{◌≡◌, MatchResult};
ghost use Rattle.report.specs.Numbers.{four, flag, refusal_numbers, accepted_numbers, response_numbers};

// A refusal, which holds its place. One case for each number of documents 01 and 02.
#[derive(Clone, Copy, Debug, PartialEq, Eq)]
pub enum Refusal {
    // 1: the file is too long
    File,
    // 2: header or body incomplete; the record, from 1
    Record(usize),
    // 3: wrong kind; the record and the kind found
    RecordKind(usize, usize),
    // 4: bytes after record four; their offset
    FileOffset(usize),
    // 10: the length of the body of kind 1
    NodesLength(usize),
    // 11: malformed node
    Node(usize),
    // 12: node not used once, and its uses
    NodeUses(usize, usize),
    // 20: the chart's first four bytes or its length
    ChartHeader,
    // 21: malformed or unordered transition; its index
    Transition(usize),
    // 30: the length of the labelling
    LabelsLength(usize),
    // 31: vertex that the start does not reach
    Unreached(usize),
    // 32: vertex on a branch cycle
    BranchCycle(usize),
    // 33: loop (vertex, level) with no way back
    LoopNoReturn(usize, usize),
    // 34: loop (vertex, level) with the end in its body
    LoopEndInside(usize, usize),
    // 35: loop (vertex, level) and a body vertex with an entry of equal or higher level
    LoopNotLower(usize, usize, usize),
    // 40: the length of the relation
    RelationLength(usize),
    // 41: pair (row, column) of a column that is no vertex
    PairNoVertex(usize, usize),
    // 42: the pair of the starts, not related
    PairStarts(usize, usize),
    // 43: pair of which one is the end and the other not
    PairEnds(usize, usize),
    // 44: pair, and a transition of the expression's chart that is not matched
    PairExpressionStep(usize, usize, usize),
    // 45: pair, and a transition of the file's chart that is not matched
    PairChartStep(usize, usize, usize),
    // 50: standing bytes not one a transition, or not 0 or 1
    StandingBytes,
    // 51: pair (vertex, level) with no standing entry
    NoEntry(usize, usize),
    // 52: loop (vertex, level) whose chart is no loop chart, and the first of L1, L2, L3 that is broken
    NotLoop(usize, usize, usize),
    // 53: the follower's set is empty or has a vertex of V or above, its mark is not 0 or 1, or its state has not 17 bytes
    FollowerSet,
    // 54: lent output too short; the bytes needed
    OutputLength(usize),
    // 55: no list of events reaches the end
    NoWay,
    // 56: list of odd length, too long, or with a loop twice
    LoopList,
    // 57: place in the list of a loop whose start is inside another's body
    StartInside(usize),
    // 58: the table would have more than 127 nodes
    TooManyNodes,
}

// What is counted of a yard file that is accepted.
#[derive(Clone, Copy, Debug, PartialEq, Eq)]
pub struct Accepted {
    pub vertices: usize,
    pub transitions: usize,
    pub loops: usize,
}

// What an event or a restart answers: its word with whether the end is in the set and how many different actions the
// set's vertices offer. "Spoilt" has no and 0 there.
#[derive(Clone, Copy, Debug, PartialEq, Eq)]
pub enum Response {
    Taken(bool, usize),
    NotPossible(bool, usize),
    Spoilt,
}

// The refusal's number, or 0 where nothing is refused, and three values.
#[repr(C)]
#[derive(Clone, Copy, Debug, PartialEq, Eq)]
pub struct Numbers {
    pub n: u64,
    pub p: u64,
    pub q: u64,
    pub r: u64,
}

fn four_numbers(n: usize, p: usize, q: usize, r: usize) -> Numbers
    ensures { result ≡ four n p q r }
{
    Numbers {
        n: n as u64,
        p: p as u64,
        q: q as u64,
        r: r as u64,
    }
}

impl From<Refusal> for Numbers {
    ghost from_gives = { λ refusal numbers. numbers ≡ refusal_numbers refusal };

    fn from(refusal: Refusal) -> Numbers {
        match refusal {
            Refusal::File => four_numbers(1, 0, 0, 0),
            Refusal::Record(p) => four_numbers(2, p, 0, 0),
            Refusal::RecordKind(p, q) => four_numbers(3, p, q, 0),
            Refusal::FileOffset(p) => four_numbers(4, p, 0, 0),
            Refusal::NodesLength(p) => four_numbers(10, p, 0, 0),
            Refusal::Node(p) => four_numbers(11, p, 0, 0),
            Refusal::NodeUses(p, q) => four_numbers(12, p, q, 0),
            Refusal::ChartHeader => four_numbers(20, 0, 0, 0),
            Refusal::Transition(p) => four_numbers(21, p, 0, 0),
            Refusal::LabelsLength(p) => four_numbers(30, p, 0, 0),
            Refusal::Unreached(p) => four_numbers(31, p, 0, 0),
            Refusal::BranchCycle(p) => four_numbers(32, p, 0, 0),
            Refusal::LoopNoReturn(p, q) => four_numbers(33, p, q, 0),
            Refusal::LoopEndInside(p, q) => four_numbers(34, p, q, 0),
            Refusal::LoopNotLower(p, q, r) => four_numbers(35, p, q, r),
            Refusal::RelationLength(p) => four_numbers(40, p, 0, 0),
            Refusal::PairNoVertex(p, q) => four_numbers(41, p, q, 0),
            Refusal::PairStarts(p, q) => four_numbers(42, p, q, 0),
            Refusal::PairEnds(p, q) => four_numbers(43, p, q, 0),
            Refusal::PairExpressionStep(p, q, r) => four_numbers(44, p, q, r),
            Refusal::PairChartStep(p, q, r) => four_numbers(45, p, q, r),
            Refusal::StandingBytes => four_numbers(50, 0, 0, 0),
            Refusal::NoEntry(p, q) => four_numbers(51, p, q, 0),
            Refusal::NotLoop(p, q, r) => four_numbers(52, p, q, r),
            Refusal::FollowerSet => four_numbers(53, 0, 0, 0),
            Refusal::OutputLength(p) => four_numbers(54, p, 0, 0),
            Refusal::NoWay => four_numbers(55, 0, 0, 0),
            Refusal::LoopList => four_numbers(56, 0, 0, 0),
            Refusal::StartInside(p) => four_numbers(57, p, 0, 0),
            Refusal::TooManyNodes => four_numbers(58, 0, 0, 0),
        }
    }
}

// Of a removal that is done.
impl From<()> for Numbers {
    ghost from_gives = { λ _ numbers. numbers ≡ four 0 0 0 0 };

    fn from(_: ()) -> Numbers {
        four_numbers(0, 0, 0, 0)
    }
}

// Of the length of what is written.
impl From<usize> for Numbers {
    ghost from_gives = { λ length numbers. numbers ≡ four 0 length 0 0 };

    fn from(length: usize) -> Numbers {
        four_numbers(0, length, 0, 0)
    }
}

impl From<Accepted> for Numbers {
    ghost from_gives = { λ accepted numbers. numbers ≡ accepted_numbers accepted };

    fn from(accepted: Accepted) -> Numbers {
        four_numbers(0, accepted.vertices, accepted.transitions, accepted.loops)
    }
}

impl From<Response> for Numbers {
    ghost from_gives = { λ response numbers. numbers ≡ response_numbers response };

    fn from(response: Response) -> Numbers {
        match response {
            Response::Taken(end, offered) => four_numbers(0, 1, usize::from(end), offered),
            Response::NotPossible(end, offered) => four_numbers(0, 0, usize::from(end), offered),
            Response::Spoilt => four_numbers(0, 2, 0, 0),
        }
    }
}

// The numbers of an answer, or those of the refusal.
impl<A: Into<Numbers>> From<Result<A, Refusal>> for Numbers {
    ghost from_gives = { λ answer numbers. MatchResult answer
        (λ a. A.converts a numbers) (λ refusal. numbers ≡ refusal_numbers refusal) };

    fn from(answer: Result<A, Refusal>) -> Numbers {
        match answer {
            Ok(a) => a.into(),
            Err(refusal) => refusal.into(),
        }
    }
}
