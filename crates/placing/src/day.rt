// Boards that are asked more than once.
use crate::listing::print_lists;
use crate::stopped::Stopped;
use crate::tables::{ALL_THREE, FIRST_TWO, SUM, Tables, WIDTH};
use board::{AtWork, Board, Settled};
use cuts::Action;
use places::{CarrierRow, NoList};

fn lists() -> Result<[CarrierRow; 4], NoList> {
    let two = CarrierRow::new(&[0, 1])?;
    Ok([two, two, CarrierRow::new(&[0, 1, 2])?, CarrierRow(0)])
}

// Strikes place 0 of job 0. A cut board has no standing lists before it is settled again.
fn strike(
    rt: HostRuntime,
    tables: &mut Tables<CarrierRow, 544>,
    board: Board<Settled>,
) -> Result<Board<AtWork>, Stopped> {
    let cut = board.cut(&mut tables.log, Action::Strike, 0, 0)?;
    let settled = tables.settle(cut)?;
    print_lists(rt, settled.standing(&tables.standing)?)?;
    Ok(settled.return_to(&tables.log, 0)?)
}

pub fn day(rt: HostRuntime) -> Result<(), Stopped> {
    println!(rt; "a day on one board")?;
    let mut tables = Tables::new(lists()?);
    let board = tables.board(3, &[FIRST_TWO, SUM])?;
    let board = tables.settle(board)?;
    print_lists(rt, board.standing(&tables.standing)?)?;
    tables.print_trial(rt, &board, 2, 2)?;
    tables.print_trial(rt, &board, 2, 1)?;
    let board = strike(rt, &mut tables, board)?;
    let board = tables.settle(board)?;
    print_lists(rt, board.standing(&tables.standing)?)?;
    tables.print_rule(rt, &board, 0)
}

// A closed board takes no more rules, so one rule more is a new board.
pub fn rule_more(rt: HostRuntime) -> Result<(), Stopped> {
    println!(rt; "no rule, and then one, on a new board")?;
    let mut tables = Tables::<CarrierRow, 544>::new(lists()?);
    let board = tables.board(3, &[])?;
    let settled = tables.settle(board)?;
    print_lists(rt, settled.standing(&tables.standing)?)?;
    let mut board = Board::open(3, WIDTH, &tables.course.opened)?;
    board.add_rule(&mut tables.course.rules, ALL_THREE)?;
    let board = board.close(tables.course.lent())?;
    tables.finish(rt, board, &[ALL_THREE])
}
