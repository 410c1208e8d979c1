// Opening, adding rules and closing.
use crate::tables::*;
use board::{Board, Course, Filling};
use places::{CarrierRow, NeedleList};
use records::RuleRecord;
use refusals::Refusal;
use std::test::Fail;

// The refusal of opening a board of rows that hold place 63 alone.
fn opening(n: u16, w: u16, lists: usize) -> Option<Refusal> {
    let opened = [CarrierRow(1 << 63); 257];
    Board::open(n, w, &opened[..lists.min(257)]).err()
}

fn filling(opened: &[CarrierRow]) -> Result<Board<Filling>, Refusal> {
    Board::open(3, 8, opened)
}

// The refusal of closing a board over these lists and rules.
fn closed(board: Board<Filling>, opened: &[CarrierRow], rules: &[RuleRecord]) -> Option<Refusal> {
    refused(board.close(Course { opened, rules }))
}

#[test]
fn job_counts(rt: HostRuntime) {
    assert_eq!(rt; opening(0, 0, 0), Some(Refusal::JobCount));
    assert_eq!(rt; opening(1, 64, 1), None);
    assert_eq!(rt; opening(256, 64, 256), None);
    assert_eq!(rt; opening(257, 64, 257), Some(Refusal::JobCount));
    assert_eq!(rt; opening(256, 64, 255), Some(Refusal::TableTooShort));
}

#[test]
fn bed_widths(rt: HostRuntime) {
    assert_eq!(rt; opening(1, 0, 0), Some(Refusal::BedWidth));
    assert_eq!(rt; opening(1, 64, 1), None);
    assert_eq!(rt; opening(1, 65, 0), Some(Refusal::BedWidth));
}

// The refusal of opening a board of one job on needle lists.
fn opening_by_needles(w: u16, opened: &[NeedleList]) -> Option<Refusal> {
    Board::open(1, w, opened).err()
}

#[test]
fn bed_widths_of_needles(rt: HostRuntime) -> Result<(), Fail> {
    let opened = [NeedleList::new(&[2047])?];
    assert_eq!(rt; opening_by_needles(2048, &opened), None);
    assert_eq!(rt; opening_by_needles(2049, &opened), Some(Refusal::BedWidth));
    assert_eq!(rt;
        opening_by_needles(2047, &opened),
        Some(Refusal::PlaceTooLarge(0))
    );
    Ok(())
}

#[test]
fn places_at_the_width(rt: HostRuntime) -> Result<(), Fail> {
    assert_eq!(rt; opening(2, 63, 2), Some(Refusal::PlaceTooLarge(0)));
    let opened = [CarrierRow(128), CarrierRow(256), CarrierRow(512)];
    assert_eq!(rt; filling(&opened).err(), Some(Refusal::PlaceTooLarge(1)));
    Ok(())
}

#[test]
fn unlawful_rules_held_and_offered(rt: HostRuntime) -> Result<(), Fail> {
    let mut rules = [SUM; 4];
    let mut board = filling(&[CarrierRow(1); 3])?;
    let offered = board.add_rule(&mut rules, UNLAWFUL);
    assert_eq!(rt; offered, Err(Refusal::UnlawfulRule(0)));
    board.add_rule(&mut rules, ALL_THREE)?;
    let offered = board.add_rule(&mut rules, UNLAWFUL);
    assert_eq!(rt; offered, Err(Refusal::UnlawfulRule(1)));
    rules[0] = UNLAWFUL;
    let offered = board.add_rule(&mut rules, SUM);
    assert_eq!(rt; offered, Err(Refusal::UnlawfulRule(0)));
    Ok(())
}

#[test]
fn rule_tables(rt: HostRuntime) -> Result<(), Fail> {
    let mut rules = [UNLAWFUL; 1];
    let mut board = filling(&[CarrierRow(1); 3])?;
    assert_eq!(rt; board.add_rule(&mut [], SUM), Err(Refusal::Full));
    board.add_rule(&mut rules, SUM)?;
    assert_eq!(rt; board.add_rule(&mut rules, SUM), Err(Refusal::Full));
    let offered = board.add_rule(&mut rules, UNLAWFUL);
    assert_eq!(rt; offered, Err(Refusal::UnlawfulRule(1)));
    assert_eq!(rt; board.add_rule(&mut [], SUM), Err(Refusal::TableTooShort));
    Ok(())
}

fn add_sixty_four(board: &mut Board<Filling>, rules: &mut [RuleRecord]) -> Result<(), Refusal> {
    for _ in 0..64 {
        board.add_rule(rules, SUM)?;
    }
    Ok(())
}

#[test]
fn sixty_four_rules(rt: HostRuntime) -> Result<(), Fail> {
    let mut rules = [UNLAWFUL; 65];
    let mut board = filling(&[CarrierRow(1); 3])?;
    add_sixty_four(&mut board, &mut rules)?;
    assert_eq!(rt; board.add_rule(&mut rules, SUM), Err(Refusal::Full));
    assert_eq!(rt; closed(board, &[CarrierRow(1); 3], &rules), None);
    Ok(())
}

#[test]
fn closing(rt: HostRuntime) -> Result<(), Fail> {
    let opened = [CarrierRow(1); 3];
    let mut rules = [SUM; 2];
    let mut board = filling(&opened)?;
    board.add_rule(&mut rules, SUM)?;
    board.add_rule(&mut rules, SUM)?;
    assert_eq!(rt; closed(board, &opened, &rules), None);
    Ok(())
}

#[test]
fn closing_by_short_tables(rt: HostRuntime) -> Result<(), Fail> {
    let opened = [CarrierRow(1); 3];
    let mut rules = [SUM; 2];
    let mut board = filling(&opened)?;
    board.add_rule(&mut rules, SUM)?;
    board.add_rule(&mut rules, SUM)?;
    let short = Some(Refusal::TableTooShort);
    assert_eq!(rt; closed(board, &opened, &rules[..1]), short);
    assert_eq!(rt; closed(filling(&opened)?, &opened[..2], &rules), short);
    Ok(())
}

#[test]
fn closing_by_overwritten_tables(rt: HostRuntime) -> Result<(), Fail> {
    let opened = [CarrierRow(1); 3];
    let mut rules = [SUM; 2];
    let mut board = filling(&opened)?;
    board.add_rule(&mut rules, SUM)?;
    board.add_rule(&mut rules, SUM)?;
    rules[1] = UNLAWFUL;
    let unlawful = Some(Refusal::UnlawfulRule(1));
    assert_eq!(rt; closed(board, &opened, &rules), unlawful);
    let wide = [CarrierRow(1), CarrierRow(1), CarrierRow(256)];
    let too_large = Some(Refusal::PlaceTooLarge(2));
    assert_eq!(rt; closed(filling(&opened)?, &wide, &rules), too_large);
    Ok(())
}
