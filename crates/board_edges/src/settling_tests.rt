// Settlings and standing lists.
use crate::tables::*;
use board::Lengths;
use places::CarrierRow;
use refusals::Refusal;
use std::test::Fail;

// The refusal of settling a board of two rules and two cuts with tables of these lengths.
fn settling(lent: Lengths) -> Result<Option<Refusal>, Refusal> {
    let mut tables = Tables::new(0b110, 0b110, 0b1000);
    let board = tables.cut_board()?;
    Ok(refused(tables.settle(board, &lent)))
}

#[test]
fn one_list_too_few(rt: HostRuntime) -> Result<(), Fail> {
    assert_eq!(rt; settling(ENOUGH)?, None);
    let short = Some(Refusal::TableTooShort);
    assert_eq!(rt;
        settling(Lengths {
            opened: 2,
            ..ENOUGH
        })?,
        short
    );
    assert_eq!(rt;
        settling(Lengths {
            standing: 2,
            ..ENOUGH
        })?,
        short
    );
    assert_eq!(rt;
        settling(Lengths {
            working: 2,
            ..ENOUGH
        })?,
        short
    );
    Ok(())
}

#[test]
fn one_slot_too_few(rt: HostRuntime) -> Result<(), Fail> {
    let short = Some(Refusal::TableTooShort);
    assert_eq!(rt; settling(Lengths { rules: 1, ..ENOUGH })?, short);
    assert_eq!(rt; settling(Lengths { log: 1, ..ENOUGH })?, short);
    assert_eq!(rt;
        settling(Lengths {
            numbers: 535,
            ..ENOUGH
        })?,
        short
    );
    assert_eq!(rt; settling(Lengths { wakes: 1, ..ENOUGH })?, short);
    assert_eq!(rt; settling(Lengths { group: 0, ..ENOUGH })?, None);
    Ok(())
}

// Lists come before rules, and rules before cuts.
#[test]
fn overwritten_tables(rt: HostRuntime) -> Result<(), Fail> {
    let mut tables = Tables::new(0b110, 0b110, 0b1000);
    let board = tables.cut_board()?;
    tables.log[1] = OUTSIDE;
    assert_eq!(rt;
        refused(tables.settle(board, &ENOUGH)),
        Some(Refusal::CutOutside(1))
    );
    let board = tables.cut_board()?;
    tables.log[0] = OUTSIDE;
    tables.course.rules[1] = UNLAWFUL;
    assert_eq!(rt;
        refused(tables.settle(board, &ENOUGH)),
        Some(Refusal::UnlawfulRule(1))
    );
    let board = tables.cut_board()?;
    tables.course.rules[0] = UNLAWFUL;
    tables.course.opened[2] = CarrierRow(256);
    assert_eq!(rt;
        refused(tables.settle(board, &ENOUGH)),
        Some(Refusal::PlaceTooLarge(2))
    );
    Ok(())
}

#[test]
fn short_courses_leave_the_standing_lists(rt: HostRuntime) -> Result<(), Fail> {
    let mut tables = Tables::new(0b110, 0b110, 0b110);
    let board = tables.board()?;
    assert_eq!(rt;
        refused(tables.settle(board, &ENOUGH)),
        Some(Refusal::Short(0))
    );
    assert_eq!(rt; tables.standing[0].0, 9);
    assert_eq!(rt; tables.standing[3].0, 9);
    Ok(())
}

#[test]
fn standing_lists(rt: HostRuntime) -> Result<(), Fail> {
    let mut tables = Tables::new(0b1110, 0b110, 0b1000);
    let board = tables.board()?;
    let board = made(tables.settle(board, &ENOUGH))?;
    assert_eq!(rt; tables.standing[0].0, 0b110);
    assert_eq!(rt; tables.standing[3].0, 9);
    assert_eq!(rt; board.standing(&tables.standing)?.len(), 3);
    let short = board.standing(&[CarrierRow(9); 2]).err();
    assert_eq!(rt; short, Some(Refusal::TableTooShort));
    Ok(())
}
