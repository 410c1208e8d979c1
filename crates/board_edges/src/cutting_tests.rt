// Cuts and returns.
use crate::tables::*;
use board::{AtWork, Board, Settled};
use cuts::{Action, Cut};
use refusals::Refusal;
use std::test::Fail;

#[test]
fn jobs_and_places_of_a_cut(rt: HostRuntime) -> Result<(), Fail> {
    let mut tables = Tables::new(1, 2, 4);
    let mut log = [OUTSIDE; 4];
    let cut = tables.board()?.cut(&mut log, Action::Strike, 3, 8);
    assert_eq!(rt; refused(cut), Some(Refusal::NoSuchJob));
    let cut = tables.board()?.cut(&mut log, Action::Fix, 2, 8);
    assert_eq!(rt; refused(cut), Some(Refusal::NoSuchPlace));
    assert!(rt; log[0] == OUTSIDE);
    let cut = tables.board()?.cut(&mut log, Action::Strike, 2, 7);
    assert_eq!(rt; refused(cut), None);
    assert!(rt; log[0] == INSIDE);
    assert!(rt; log[1] == OUTSIDE);
    Ok(())
}

#[test]
fn a_full_log_table(rt: HostRuntime) -> Result<(), Fail> {
    let mut tables = Tables::new(1, 2, 4);
    let cut = tables.board()?.cut(&mut [], Action::Fix, 0, 0);
    assert_eq!(rt; refused(cut), Some(Refusal::Full));
    let cut = tables.cut_board()?.cut(&mut [INSIDE; 2], Action::Fix, 0, 0);
    assert_eq!(rt; refused(cut), Some(Refusal::Full));
    let cut = tables.cut_board()?.cut(&mut [INSIDE; 1], Action::Fix, 9, 9);
    assert_eq!(rt; refused(cut), Some(Refusal::TableTooShort));
    Ok(())
}

fn cut_often(board: Board<AtWork>, log: &mut [Cut]) -> Result<Board<AtWork>, Refusal> {
    let mut board = board;
    for _ in 0..1024 {
        board = made(board.cut(log, Action::Strike, 0, 7))?;
    }
    Ok(board)
}

#[test]
fn a_thousand_and_twenty_four_cuts(rt: HostRuntime) -> Result<(), Fail> {
    let mut tables = Tables::new(1, 2, 4);
    let mut log = [OUTSIDE; 1025];
    let board = cut_often(tables.board()?, &mut log)?;
    assert!(rt; log[1023] != OUTSIDE);
    let cut = board.cut(&mut log, Action::Strike, 0, 7);
    assert_eq!(rt; refused(cut), Some(Refusal::Full));
    assert!(rt; log[1024] == OUTSIDE);
    Ok(())
}

#[test]
fn returns(rt: HostRuntime) -> Result<(), Fail> {
    let mut tables = Tables::new(1, 2, 4);
    let back = tables.cut_board()?.return_to(&tables.log, 3);
    assert_eq!(rt; refused(back), Some(Refusal::NoSuchCut));
    let back = tables.cut_board()?.return_to(&[INSIDE; 1], 3);
    assert_eq!(rt; refused(back), Some(Refusal::TableTooShort));
    let board = made(tables.cut_board()?.return_to(&tables.log, 2))?;
    let board = made(board.return_to(&tables.log, 1))?;
    let back = board.return_to(&tables.log, 2);
    assert_eq!(rt; refused(back), Some(Refusal::NoSuchCut));
    assert!(rt; tables.log[1] == INSIDE);
    Ok(())
}

// What stands of the first job after a return to no cut.
fn returned(tables: &mut Tables, board: Board<Settled>) -> Result<u64, Refusal> {
    let board = made(board.return_to(&tables.log, 0))?;
    let _ = made(tables.settle(board, &ENOUGH))?;
    Ok(tables.standing[0].0)
}

#[test]
fn a_return_brings_places_back(rt: HostRuntime) -> Result<(), Fail> {
    let mut tables = Tables::new(0b110, 0b110, 0b1000);
    let board = tables.board()?;
    let board = made(board.cut(&mut tables.log, Action::Fix, 0, 2))?;
    let board = made(tables.settle(board, &ENOUGH))?;
    assert_eq!(rt; tables.standing[0].0, 0b100);
    assert_eq!(rt; tables.standing[1].0, 0b010);
    assert_eq!(rt; returned(&mut tables, board)?, 0b110);
    Ok(())
}

#[test]
fn strikes_of_unheld_places_count(rt: HostRuntime) -> Result<(), Fail> {
    let mut tables = Tables::new(0b110, 0b110, 0b1000);
    let board = tables.cut_board()?;
    let board = made(tables.settle(board, &ENOUGH))?;
    assert_eq!(rt; tables.standing[2].0, 0b1000);
    assert_eq!(rt; refused(board.return_to(&tables.log, 2)), None);
    Ok(())
}

#[test]
fn a_fix_to_an_unheld_place_empties(rt: HostRuntime) -> Result<(), Fail> {
    let mut tables = Tables::new(0b110, 0b110, 0b1000);
    let board = tables.board()?;
    let board = made(board.cut(&mut tables.log, Action::Fix, 2, 7))?;
    let settled = tables.settle(board, &ENOUGH);
    assert_eq!(rt; refused(settled), Some(Refusal::Short(0)));
    let mut opened = Tables::new(1, 2, 0);
    let board = opened.board()?;
    let settled = opened.settle(board, &ENOUGH);
    assert_eq!(rt; refused(settled), Some(Refusal::Short(0)));
    Ok(())
}
