// One block of a sheet.
ghost use Rattle.std.specs.Prelude.{◌≡◌, ℕ, ◌+◌, ◌-◌, ◌*◌, ◌<◌, ◌≤◌, ◌↔◌, length, slice_index, slice_range, IfOk, IsOk, IsTrue, IsNone, IsOkUnless};
ghost use Rattle.std.specs.Option.{option_map};
ghost use Rattle.std.specs.Result.{result_err};
ghost use Rattle.layout.specs.declared.parts.TheConstants.{BLOCK, CHECK_AT};
ghost use Rattle.layout.specs.Layout.{weighted, zeros, IsLetterOf, rank_of, option_rank, letter_rank_of, records_of, records_end, right_check, right_position, right_letter, right_count, right_padding, fault_in, block_code};

use crate::bytes::{all_zero, u16_at, u32_at, weighted_sum};
use crate::fault::BlockFault;
use crate::letter::{Letter, NoLetter};
use crate::parts::{BLOCK, BODY_AT, CHECK_AT, COUNT_AT, POSITION_AT};

// A block of a sheet, by its number from 0 on.
#[derive(Clone, Copy)]
pub struct Block<'a> {
    pub sheet: &'a [u8],
    pub number: usize,
    ghost in_sheet: { BLOCK * number + BLOCK ≤ length sheet.now },
}

impl<'a> Block<'a> {
    // The bytes of the block.
    fn bytes(&self) -> &'a [u8]
        ensures part { let start = BLOCK * self.now.number in
            result.now ≡ slice_range self.now.sheet.now start (start + BLOCK) }
        ensures length { length result.now ≡ BLOCK }
    {
        let start = BLOCK * self.number;
        &self.sheet[start..start + BLOCK]
    }

    // The block's letter.
    fn letter(&self) -> Result<Letter, NoLetter>
        ensures { IsLetterOf (slice_index self.now.sheet.now (BLOCK * self.now.number)) result }
    {
        Letter::try_from(self.bytes()[0])
    }

    // The letter of the block before; none for the first block, or where no letter stands there.
    fn letter_before(&self) -> Option<Letter>
        ensures first { self.now.number ≡ 0 → IsNone result }
        ensures later { 0 < self.now.number
            → option_rank result ≡ letter_rank_of self.now.sheet.now (self.now.number - 1) }
    {
        let number = self.number.checked_sub(1)?;
        let before = Block {
            sheet: self.sheet,
            number,
        };
        before.letter().ok()
    }

    // How many records the block has.
    fn count(&self) -> u8
        ensures { result ≡ records_of self.now.sheet.now self.now.number }
    {
        self.bytes()[COUNT_AT]
    }

    // The weighted sum of the bytes before the check.
    #[tactic(auto, using(crate::proofs::Laws::body_long))]
    fn sum(&self) -> u32
        ensures { result ≡ weighted self.now.sheet.now (BLOCK * self.now.number) CHECK_AT }
    {
        weighted_sum(&self.bytes()[..CHECK_AT])
    }

    // Whether the bytes from `at` to the check are zero.
    fn is_zero_from(&self, at: usize) -> bool
        requires { at ≤ CHECK_AT }
        ensures { result ≡ zeros self.now.sheet.now (BLOCK * self.now.number + at) (CHECK_AT - at) }
    {
        all_zero(&self.bytes()[at..CHECK_AT])
    }

    // Tests that the check is the weighted sum of the bytes before it.
    #[tactic(auto, unfolding(crate::specs::Layout::right_check))]
    fn check_sum(&self) -> Result<(), BlockFault>
        ensures holds { IsOk result ↔ IsTrue (right_check self.now.sheet.now self.now.number) }
        ensures fault { IsOkUnless result BlockFault.Check }
    {
        if self.sum() == u32_at(self.bytes(), CHECK_AT) {
            Ok(())
        } else {
            Err(BlockFault::Check)
        }
    }

    // Tests that the block stands where it says.
    #[tactic(auto, unfolding(crate::specs::Layout::right_position))]
    fn check_position(&self) -> Result<(), BlockFault>
        ensures holds { IsOk result ↔ IsTrue (right_position self.now.sheet.now self.now.number) }
        ensures fault { IsOkUnless result BlockFault.Position }
    {
        if usize::from(u16_at(self.bytes(), POSITION_AT)) == self.number {
            Ok(())
        } else {
            Err(BlockFault::Position)
        }
    }

    // Tests that the block's letter may stand there; answers the letter.
    #[tactic(auto, unfolding(crate::specs::Layout::right_letter))]
    fn check_letter(&self) -> Result<Letter, BlockFault>
        ensures holds { IsOk result ↔ IsTrue (right_letter self.now.sheet.now self.now.number) }
        ensures letter { IfOk result (λ l. rank_of l ≡ letter_rank_of self.now.sheet.now self.now.number) }
        ensures fault { IsOkUnless result BlockFault.Letter }
    {
        let letter = self.letter()?;
        let blocks = self.sheet.len() / BLOCK;
        if letter.may_stand(self.number, blocks, self.letter_before()) {
            Ok(letter)
        } else {
            Err(BlockFault::Letter)
        }
    }

    // Tests that the letter allows so many records; answers where they end.
    #[tactic(auto, using(crate::proofs::Laws::end_within), unfolding(crate::specs::Layout::right_count))]
    fn check_count(&self, letter: Letter) -> Result<usize, BlockFault>
        requires { rank_of letter ≡ letter_rank_of self.now.sheet.now self.now.number }
        ensures holds { IsOk result ↔ IsTrue (right_count self.now.sheet.now self.now.number) }
        ensures end { IfOk result (λ end. end ≡ records_end self.now.sheet.now self.now.number) }
        ensures in_body { IfOk result (λ end. end ≤ CHECK_AT) }
        ensures fault { IsOkUnless result BlockFault.Count }
    {
        let count = self.count();
        if letter.allows(count) {
            Ok(BODY_AT + usize::from(count) * letter.record_size())
        } else {
            Err(BlockFault::Count)
        }
    }

    // Tests that the bytes between the end of the records and the check are zero.
    #[tactic(auto, unfolding(crate::specs::Layout::right_padding))]
    fn check_padding(&self, end: usize) -> Result<(), BlockFault>
        requires end { end ≡ records_end self.now.sheet.now self.now.number }
        requires in_body { end ≤ CHECK_AT }
        ensures holds { IsOk result ↔ IsTrue (right_padding self.now.sheet.now self.now.number) }
        ensures fault { IsOkUnless result BlockFault.Padding }
    {
        if self.is_zero_from(end) {
            Ok(())
        } else {
            Err(BlockFault::Padding)
        }
    }

    // The first fault of the block, if it has one, is the error.
    #[tactic(auto, unfolding(crate::specs::Layout::fault_in))]
    pub fn check(&self) -> Result<(), BlockFault>
        ensures { option_map block_code (result_err result)
            ≡ fault_in self.now.sheet.now self.now.number }
    {
        self.check_sum()?;
        self.check_position()?;
        let letter = self.check_letter()?;
        let end = self.check_count(letter)?;
        self.check_padding(end)
    }
}
