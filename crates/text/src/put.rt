// Writing: each function writes to the front of the part of a buffer that it is lent, and leaves what follows.
ghost use Rattle.std.specs.Prelude.{◌≡◌, ◌<◌, ◌≤◌, ◌∷◌, map, length, decimal};
ghost use Rattle.text.specs.Parts.{ended};
ghost use Rattle.text.specs.Put.{over, piece_bytes, left_of};

// One field of a line to write.
#[derive(Clone, Copy)]
pub enum Piece {
    Word(&'static [u8]),
    Number(u64),
    Register(u64),
    Slot(u64),
}

fn put_digits(out: &mut [u8], n: u64) -> usize
    requires { length (decimal n) ≤ length out.old }
    ensures count { result ≡ length (decimal n) }
    ensures bytes { out.new ≡ over (decimal n) out.old }
{
    if n < 10 {
        out[0] = b'0' + n as u8;
        return 1;
    }
    let at = put_digits(out, n / 10);
    out[at] = b'0' + (n % 10) as u8;
    at + 1
}

fn put_bytes(out: &mut [u8], bytes: &[u8]) -> usize
    requires { length bytes.now ≤ length out.old }
    ensures count { result ≡ length bytes.now }
    ensures bytes { out.new ≡ over bytes.now out.old }
{
    let n = bytes.len();
    out[0..n].copy_from_slice(bytes);
    n
}

// A letter and then a number.
fn put_lettered(out: &mut [u8], letter: u8, n: u64) -> usize
    requires { length (letter ∷ decimal n) ≤ length out.old }
    ensures count { result ≡ length (letter ∷ decimal n) }
    ensures bytes { out.new ≡ over (letter ∷ decimal n) out.old }
{
    out[0] = letter;
    1 + put_digits(&mut out[1..], n)
}

fn put_piece(out: &mut [u8], p: Piece) -> usize
    requires { length (piece_bytes p) ≤ length out.old }
    ensures count { result ≡ length (piece_bytes p) }
    ensures bytes { out.new ≡ over (piece_bytes p) out.old }
{
    match p {
        Piece::Word(bytes) => put_bytes(out, bytes),
        Piece::Number(n) => put_digits(out, n),
        Piece::Register(n) => put_lettered(out, b'r', n),
        Piece::Slot(n) => put_lettered(out, b's', n),
    }
}

// Fields parted by byte 9, and byte 10 after the last.
pub fn put_line(out: &mut [u8], row: &[Piece]) -> usize
    requires { length (ended (map piece_bytes row.now)) ≤ length out.old }
    ensures count { result ≡ length (ended (map piece_bytes row.now)) }
    ensures bytes { out.new ≡ over (ended (map piece_bytes row.now)) out.old }
{
    let mut at = 0;
    for (i, p) in row.iter().enumerate() {
        at += put_piece(&mut out[at..], *p);
        out[at] = if i + 1 < row.len() { b'\t' } else { b'\n' };
        at += 1;
    }
    at
}

fn digits_len(n: u64) -> usize
    ensures is { result ≡ length (decimal n) }
    ensures small { result ≤ 20 }
{
    if n < 10 { 1 } else { digits_len(n / 10) + 1 }
}

fn piece_len(p: Piece) -> usize
    ensures { result ≡ length (piece_bytes p) }
{
    match p {
        Piece::Word(bytes) => bytes.len(),
        Piece::Number(n) => digits_len(n),
        Piece::Register(n) | Piece::Slot(n) => digits_len(n) + 1,
    }
}

// What is left of `room` bytes after the fields, if they fit. It is counted down, so no sum can be too large.
pub fn line_fits(row: &[Piece], room: usize) -> Option<usize>
    ensures { result ≡ left_of room (length (ended (map piece_bytes row.now))) }
{
    let mut left = room;
    for p in row {
        left = left.checked_sub(piece_len(*p))?.checked_sub(1)?;
    }
    Some(left)
}
