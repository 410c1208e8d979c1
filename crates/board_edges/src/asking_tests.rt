// Trials and group questions.
use crate::tables::*;
use board::Lengths;
use cuts::Action;
use refusals::Refusal;
use std::test::Fail;

const ROOM: Lengths = Lengths { log: 4, ..ENOUGH };

// The refusal of asking for the group of a rule.
fn group_refusal(
    tables: &mut Tables,
    lent: &Lengths,
    rule: usize,
) -> Result<Option<Refusal>, Refusal> {
    let board = tables.cut_board()?;
    Ok(tables.ask_group(&board, lent, rule).err())
}

#[test]
fn a_trial_leaves_the_log(rt: HostRuntime) -> Result<(), Fail> {
    let mut tables = Tables::new(0b110, 0b110, 0b1010);
    let board = tables.cut_board()?;
    assert_eq!(rt; tables.trial(&board, &ROOM, 2, 3), Ok(true));
    assert_eq!(rt; tables.trial(&board, &ROOM, 2, 1), Ok(false));
    assert_eq!(rt; tables.trial(&board, &ROOM, 2, 5), Ok(false));
    assert!(rt; tables.log[1] == INSIDE);
    assert!(rt; tables.log[2] == OUTSIDE);
    assert_eq!(rt; tables.standing[0].0, 9);
    Ok(())
}

#[test]
fn jobs_places_and_room_of_a_trial(rt: HostRuntime) -> Result<(), Fail> {
    let mut tables = Tables::new(0b110, 0b110, 0b1010);
    let board = tables.cut_board()?;
    assert_eq!(rt; tables.trial(&board, &ROOM, 3, 8), Err(Refusal::NoSuchJob));
    assert_eq!(rt;
        tables.trial(&board, &ROOM, 2, 8),
        Err(Refusal::NoSuchPlace)
    );
    assert_eq!(rt; tables.trial(&board, &ENOUGH, 2, 3), Err(Refusal::Full));
    tables.log[1] = OUTSIDE;
    assert_eq!(rt;
        tables.trial(&board, &ENOUGH, 3, 8),
        Err(Refusal::CutOutside(1))
    );
    assert_eq!(rt;
        tables.trial(&board, &ROOM, 2, 3),
        Err(Refusal::CutOutside(1))
    );
    assert!(rt; tables.log[2] == OUTSIDE);
    Ok(())
}

// Whether a trial is refused these lengths as too short.
fn trial_lacks(lent: Lengths) -> Result<bool, Refusal> {
    let mut tables = Tables::new(0b110, 0b110, 0b1010);
    let board = tables.cut_board()?;
    Ok(tables.trial(&board, &lent, 2, 3) == Err(Refusal::TableTooShort))
}

#[test]
fn short_tables_of_a_trial(rt: HostRuntime) -> Result<(), Fail> {
    assert!(rt; !trial_lacks(ROOM)?);
    assert!(rt;
        trial_lacks(Lengths {
            numbers: 535,
            ..ROOM
        })?
    );
    assert!(rt; trial_lacks(Lengths { opened: 2, ..ROOM })?);
    assert!(rt; trial_lacks(Lengths { rules: 1, ..ROOM })?);
    assert!(rt; trial_lacks(Lengths { log: 1, ..ROOM })?);
    assert!(rt; trial_lacks(Lengths { working: 2, ..ROOM })?);
    assert!(rt; trial_lacks(Lengths { wakes: 1, ..ROOM })?);
    Ok(())
}

#[test]
fn three_jobs_on_two_places_lack_one(rt: HostRuntime) -> Result<(), Fail> {
    let mut tables = Tables::new(0b110, 0b110, 0b110);
    let board = tables.board()?;
    let found = tables.ask_group(&board, &ENOUGH, 0)?;
    assert_eq!(rt; found.count, 3);
    assert_eq!(rt; found.deficiency, 1);
    assert_eq!(rt; tables.group, [0, 1, 2, 9]);
    Ok(())
}

#[test]
fn an_empty_list_is_in_the_group(rt: HostRuntime) -> Result<(), Fail> {
    let mut tables = Tables::new(0b110, 0b110, 0b1000);
    let board = tables.board()?;
    assert_eq!(rt; tables.ask_group(&board, &ENOUGH, 0)?.deficiency, 0);
    let board = made(board.cut(&mut tables.log, Action::Strike, 2, 3))?;
    let found = tables.ask_group(&board, &ENOUGH, 0)?;
    assert_eq!(rt; found.count, 1);
    assert_eq!(rt; found.deficiency, 1);
    assert_eq!(rt; tables.group, [2, 9, 9, 9]);
    Ok(())
}

#[test]
fn rules_without_a_group(rt: HostRuntime) -> Result<(), Fail> {
    let mut tables = Tables::new(0b110, 0b110, 0b110);
    assert_eq!(rt; group_refusal(&mut tables, &ENOUGH, 0)?, None);
    let none = Some(Refusal::NoDistinctRule);
    assert_eq!(rt; group_refusal(&mut tables, &ENOUGH, 1)?, none);
    tables.course.rules[2] = ALL_THREE;
    assert_eq!(rt; group_refusal(&mut tables, &ROOM, 2)?, none);
    assert_eq!(rt; group_refusal(&mut tables, &ENOUGH, 1 << 40)?, none);
    Ok(())
}

// Whether a group question is refused these lengths as too short.
fn group_lacks(lent: Lengths) -> Result<bool, Refusal> {
    let mut tables = Tables::new(0b110, 0b110, 0b110);
    let refusal = group_refusal(&mut tables, &lent, 1)?;
    Ok(refusal == Some(Refusal::TableTooShort))
}

#[test]
fn short_tables_of_a_group_question(rt: HostRuntime) -> Result<(), Fail> {
    assert!(rt; !group_lacks(ENOUGH)?);
    let mut lent = ENOUGH;
    lent.standing = 0;
    assert!(rt; !group_lacks(lent)?);
    lent.numbers = 535;
    assert!(rt; group_lacks(lent)?);
    assert!(rt; group_lacks(Lengths { group: 2, ..ENOUGH })?);
    assert!(rt; group_lacks(Lengths { log: 1, ..ENOUGH })?);
    assert!(rt; group_lacks(Lengths { wakes: 1, ..ENOUGH })?);
    Ok(())
}
