// Where a temporary is kept: at home, which is its own slot, or in a register.
#[derive(Clone, Copy, PartialEq, Eq, Debug)]
pub enum Place {
    Home,
    Register(u8),
}
