// The answers of the two asks, and every refusal with its place. The rules themselves are in specs/.
#![tactic(auto)]

pub mod limits;

// What the planner says no with: a case for each row of document 01's table, in its order, with its place where that
// is not always 0.
#[derive(Clone, Copy)]
pub enum Refusal {
    // 1: a lent buffer is too short
    ShortBuffer,
    // 2: the manifest is too long
    LongManifest,
    // 3: a forbidden byte, or no newline at the end
    BadByte(usize),
    // 4: a line fits no form
    BadLine(usize),
    // 5: a bad dollar
    BadDollar(usize),
    // 6: a keyword or key that is not yet in this edition
    NotYet(usize),
    // 7: a rule or its keys
    BadRule(usize),
    // 8: a path
    BadPath(usize),
    // 9: over a limit
    OverLimit(usize),
    // 10: the required version
    BadVersion(usize),
    // 11: the time card
    BadCard,
    // 12: the target list
    BadTarget(usize),
    // 13: nothing to start from
    NoRoot,
    // 14: a circle, by its length
    Circle(usize),
    // 15: a needed source is missing
    MissingSource(usize),
    // 16: a rule's text leads back to itself
    EndlessText(usize),
    // 17: a text is too long
    LongText(usize),
    // 18: no such step, or a phony one
    NoCommand(usize),
    // 19: the bundle is malformed
    BadBundle,
    // 19: a file that cannot be opened
    BadOpen(usize),
    // 20: a step's header list, by the step, or the bundle of header lists, at 0
    BadHeaders(usize),
}

// What the text ask is asked for.
#[derive(Clone, Copy)]
pub enum Wanted {
    Command,
    Description,
}

// The keys that a rule has in this edition or a later one.
#[derive(Clone, Copy)]
pub enum Key {
    Command,
    Description,
    Generator,
    Depfile,
    Pool,
}
