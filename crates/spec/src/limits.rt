// Every limit of document 01, once for all code. `specs/Limits.antt` has them for the definitions; the proofs hold
// each use to those.

pub const STEPS: usize = 512;

pub const FILES: usize = 1024;

pub const RULES: usize = 128;

pub const BINDINGS: usize = 1024;

pub const MENTIONS: usize = 4096;

pub const NAME: usize = 64;

pub const PATH: usize = 255;

pub const VALUE: usize = 2048;

pub const WRITTEN: usize = 60000;

pub const MANIFEST: usize = 49152;

pub const BUNDLE: usize = 64;
// files open at once, and files opened in all; the top one counts
pub const OPEN: usize = 8;

pub const OPENED: usize = 64;
// the records of a bundle of header lists
pub const HEADERS: usize = 512;

pub const RECORDS: usize = 1024;

pub const CARD: usize = 49152;

pub const TARGETS: usize = 4096;
// the least numbers of a list buffer
pub const LIST: usize = 512;
// the least bytes of a text buffer, and the most of a text
pub const TEXT: usize = 8192;
