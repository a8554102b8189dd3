// The kind of a voxel.
ghost use Rattle.std.specs.Prelude.{◌≡◌};
ghost use Rattle.cell_grid.specs.Kind.{bytes_of, greatest_of};

/// The kind of a voxel: an unsigned number of 8 to 64 bits.
#[derive(Clone, Copy, Debug, PartialEq, Eq)]
pub enum Kind {
    U8,
    U16,
    U32,
    U64,
}

impl Kind {
    /// Bytes of a voxel: 1, 2, 4 or 8.
    pub fn bytes(self) -> u32
        ensures { result ≡ bytes_of self }
    {
        match self {
            Kind::U8 => 1,
            Kind::U16 => 2,
            Kind::U32 => 4,
            Kind::U64 => 8,
        }
    }

    /// The greatest value of a voxel.
    pub fn greatest(self) -> u64
        ensures { result ≡ greatest_of self }
    {
        match self {
            Kind::U8 => u8::MAX as u64,
            Kind::U16 => u16::MAX as u64,
            Kind::U32 => u32::MAX as u64,
            Kind::U64 => u64::MAX,
        }
    }
}
