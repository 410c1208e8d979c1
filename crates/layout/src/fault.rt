// What can be wrong with the layout of a sheet.
ghost use Rattle.std.specs.Prelude.{◌≡◌};
ghost use Rattle.layout.specs.declared.fault.BlockFault.TheVariants.{Letter};

use crate::letter::NoLetter;

// What is wrong with a block, in checking order.
#[derive(Clone, Copy, Debug, PartialEq, Eq)]
pub enum BlockFault {
    Check,
    Position,
    Letter,
    Count,
    Padding,
}

// What is wrong with a sheet's layout.
#[derive(Clone, Copy, Debug, PartialEq, Eq)]
pub enum LayoutFault {
    Length,
    Block(usize, BlockFault),
}

impl From<NoLetter> for BlockFault {
    ghost from_gives = { λ _ fault. fault ≡ Letter };

    fn from(_byte: NoLetter) -> Self {
        BlockFault::Letter
    }
}
