//! The bytes of a leaf.
ghost use Rattle.std.specs.Prelude.{◌≤◌};

/// How many bytes a leaf has at most.
pub const LEAF_MAX: usize = 48;

/// The bytes of a leaf: as many of `bytes`, from the first on, as `len` says.
#[derive(Clone, Copy)]
pub struct Leaf {
    pub len: usize,
    pub bytes: [u8; 48],
    pub ghost few: { len ≤ 48 },
}
