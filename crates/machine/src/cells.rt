// The cells of a frame: locations read, moves made, arguments written.
ghost use Rattle.std.specs.Prelude.{◌≡◌, ℕ, ◌+◌, ◌<◌, length, nat_le};
ghost use Rattle.machine.specs.Machine.{read, move_all, write_all};
ghost use Rattle.machine.specs.Steps.{ReadsBelow};

use allocation::line::Move;
use values::frame::Frame;
use values::kind::Kind;

// What the cell of a location holds. A frame answers none where there is no cell, since anyone may ask it; here there is one.
pub(crate) fn value_at<V: Kind, F: Frame<Value = V>>(frame: &F, location: u8) -> V
    requires { location < length (F.Frame.cells frame.now) }
    ensures { result ≡ read V.Kind.arithmetic (F.Frame.cells frame.now) location }
{
    frame.read(location as usize).unwrap()
}

// Makes the moves in order.
pub(crate) fn make_moves<V: Kind, F: Frame<Value = V>>(moves: &[Move], frame: &mut F)
    requires { ReadsBelow (length (F.Frame.cells frame.old)) moves.now }
    ensures moved { (k : ℕ) → move_all V.Kind.arithmetic moves.now (record { cells = F.Frame.cells frame.old; moves = k }) ≡ record { cells = F.Frame.cells frame.new; moves = k + length moves.now } }
    ensures wide { length (F.Frame.cells frame.new) ≡ length (F.Frame.cells frame.old) }
{
    for m in moves {
        let x = value_at(frame, m.from);
        let _ = frame.write(m.to as usize, x);
    }
}

// Whether the frame has n cells or more.
pub(crate) fn has_cells<V: Kind, F: Frame<Value = V>>(frame: &F, n: usize) -> bool
    ensures { result ≡ nat_le n (length (F.Frame.cells frame.now)) }
{
    n == 0 || frame.read(n - 1).is_some()
}

// Writes the arguments to the cells from `first` on.
pub(crate) fn write_arguments<V: Kind, F: Frame<Value = V>>(args: &[V], first: u8, frame: &mut F)
    requires { length args.now < 256 }
    ensures cells { F.Frame.cells frame.new ≡ write_all first args.now (F.Frame.cells frame.old) }
    ensures wide { length (F.Frame.cells frame.new) ≡ length (F.Frame.cells frame.old) }
{
    for (i, x) in args.iter().enumerate() {
        let _ = frame.write(first as usize + i, *x);
    }
}
