// The members of attributes.
ghost use Rattle.std.specs.Prelude.{◌≡◌, Some};
ghost use Rattle.n5_meta.specs.Member.{member_name};

use std::fmt;

/// A member of an attributes object.
#[derive(Clone, Copy, Debug, PartialEq, Eq)]
pub enum Member {
    Dimensions,
    BlockSize,
    DataType,
    Compression,
    Factors,
}

impl Member {
    /// Its name in a JSON text.
    pub fn name(self) -> &'static str
        ensures { result.now ≡ member_name self }
    {
        match self {
            Member::Dimensions => "dimensions",
            Member::BlockSize => "blockSize",
            Member::DataType => "dataType",
            Member::Compression => "compression",
            Member::Factors => "downsamplingFactors",
        }
    }
}

impl fmt::Display for Member {
    ghost output = { λ member. Some (member_name member) };

    fn fmt<W: fmt::Write>(&self, f: &mut fmt::Formatter<W>) -> fmt::Result {
        f.write_str(self.name())
    }
}
