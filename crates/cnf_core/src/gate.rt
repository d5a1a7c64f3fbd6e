/// A gate over variables: a constant, both, either but not both, or a choice (`Mux(c, a, b)` is a where c is 1, else b).
#[derive(Clone, Copy, PartialEq, Eq, Debug)]
pub enum Gate {
    Const(bool),
    And(u32, u32),
    Xor(u32, u32),
    Mux(u32, u32, u32),
}
