// The forms that a line is cut into, where their parts stand in it, and the cut of a list of paths or of one path.
#![tactic(auto)]

pub mod opens;
pub mod paths;

// What a line without indent is.
#[derive(Clone, Copy)]
pub enum Statement {
    // where the name starts and ends
    Rule(usize, usize),
    Build(BuildPlaces),
    // where the paths start
    Default(usize),
    // `subninja` or else `include`, and where the path starts and ends
    Open(bool, usize, usize),
    // where the name starts and ends, and the place behind the `=`: `raw_value` hands the value back from there
    Binding(usize, usize, usize),
}

// What is wrong with a line's bytes: 4, 5 with the place of the `$`, or 6.
#[derive(Clone, Copy)]
pub enum Fault {
    NoForm,
    BadDollar(usize),
    NotYet,
}

// Where the parts of a build line start. The rule's name ends where the explicit inputs start. Implicit or order-only
// inputs that are not there start at the line's end, where no path is.
#[derive(Clone, Copy)]
pub struct BuildPlaces {
    pub outs: usize,
    pub rule: usize,
    pub ins: usize,
    pub implicit: usize,
    pub order: usize,
}

// What stands after a list of inputs: nothing, `|` or `||` with the place behind it, or a byte that does not fit.
#[derive(Clone, Copy)]
pub enum Bars {
    LineEnd,
    One(usize),
    Two(usize),
    Other,
}

// Where a build line's outputs, rule and explicit inputs start.
#[derive(Clone, Copy)]
pub struct Head {
    pub outs: usize,
    pub rule: usize,
    pub ins: usize,
}
