// The pieces of a raw text, one after another: bytes of its own, and references to names.
#![tactic(auto)]

ghost use Rattle.std.specs.Prelude.{◌<◌, length};
ghost use Rattle.text_references.specs.Begins.{ReferencesReady, BeginsPiece};

use scan_dollars::{Escape, dollar};
use slices::bytes::find;

// A piece from place to place of the raw text, and where the text goes on behind it.
// No `Result`: a name is a piece like the bytes.
#[derive(Clone, Copy)]
pub enum Piece {
    Bytes(usize, usize, usize),
    Name(usize, usize, usize),
}

// The piece that begins at place i.
pub fn piece_at(t: &[u8; 256], raw: &[u8], i: usize) -> Piece
    requires { (i < length raw.now) × ReferencesReady t.now raw.now i }
    ensures { BeginsPiece raw.now i result }
{
    if raw[i] != b'$' {
        let end = find(raw, i, b'$');
        return Piece::Bytes(i, end, end);
    }
    match dollar(t, raw, i + 1) {
        Escape::Byte(_, next) => Piece::Bytes(i + 1, i + 2, next),
        Escape::Join(next) => Piece::Bytes(next, next, next),
        Escape::Name(from, to, next) => Piece::Name(from, to, next),
        Escape::Bad => Piece::Bytes(i, i, raw.len()),
    }
}
