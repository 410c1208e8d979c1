// The layout of a sheet: 1 to 64 blocks of 512 bytes.
ghost use Rattle.std.specs.Prelude.{◌≡◌};
ghost use Rattle.std.specs.Option.{option_map};
ghost use Rattle.std.specs.Result.{result_err};
ghost use Rattle.layout.specs.Layout.{layout_refusal, layout_code};

use crate::block::Block;
use crate::fault::LayoutFault;
use crate::parts::{BLOCK, MOST_BLOCKS};

// The first fault of a sheet's layout, if it has one, is the error.
#[tactic(auto, using(crate::proofs::Laws::fault_none, crate::proofs::Laws::fault_step), unfolding(crate::specs::Layout::layout_refusal))]
pub fn check_layout(bytes: &[u8]) -> Result<(), LayoutFault>
    ensures { option_map layout_code (result_err result) ≡ layout_refusal bytes.now }
{
    let n = bytes.len();
    if n == 0 || n > MOST_BLOCKS * BLOCK || n % BLOCK != 0 {
        return Err(LayoutFault::Length);
    }
    // By number: a block is known by it, and which letter may stand depends on the block before.
    for number in 0..n / BLOCK {
        let block = Block {
            sheet: bytes,
            number,
        };
        block
            .check()
            .map_err(|fault| LayoutFault::Block(number, fault))?;
    }
    Ok(())
}
