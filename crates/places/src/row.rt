// A set of places below 64 in one number: bit p is set exactly if p is held.
ghost use Rattle.std.specs.Prelude.{◌≡◌, ℕ, true, not, ◌&&◌, ◌||◌, is_ok, IfOk, ◌==◌, nat_lt};
ghost use Rattle.theory.specs.Counts.{count};
ghost use Rattle.theory.specs.Lists.{member, all_below};
ghost use Rattle.places.specs.Sets.{row_has};
ghost use Rattle.std.proofs.Common.{rules};

use crate::set::{NoList, PlaceSet};

#[derive(Clone, Copy)]
pub struct CarrierRow(pub u64);

// The row of one place; a place of 64 or more leaves it empty.
fn bit_of(place: u16) -> u64
    ensures { (q : ℕ) → row_has result q ≡ (nat_lt q 64 && q == place) }
{
    if place < 64 { 1 << place } else { 0 }
}

fn common(a: u64, b: u64) -> u64
    ensures { (q : ℕ) → row_has result q ≡ (row_has a q && row_has b q) }
{
    a & b
}

fn joined(a: u64, b: u64) -> u64
    ensures { (q : ℕ) → row_has result q ≡ (row_has a q || row_has b q) }
{
    a | b
}

fn remaining(a: u64, b: u64) -> u64
    ensures { (q : ℕ) → row_has result q ≡ (row_has a q && not (row_has b q)) }
{
    a ^ (a & b)
}

fn bit_count(row: u64) -> u16
    ensures { result ≡ count (row_has row) 64 }
{
    row.count_ones() as u16
}

fn all_fit(named: &[u16]) -> bool
    ensures { result ≡ all_below 64 named.now }
{
    named.iter().all(|place| *place < 64)
}

fn row_of(named: &[u16]) -> u64
    requires { all_below 64 named.now ≡ true }
    ensures { (q : ℕ) → row_has result q ≡ member named.now q }
{
    let mut row = bit_of(64);
    for place in named {
        row = joined(row, bit_of(*place));
    }
    row
}

impl CarrierRow {
    // The row of exactly the named places; refused for one of 64 or more.
    pub fn new(named: &[u16]) -> Result<CarrierRow, NoList>
        ensures accepts { is_ok result ≡ all_below 64 named.now }
        ensures holds { IfOk result (λ l. (q : ℕ) → row_has l.0 q ≡ member named.now q) }
    {
        if !all_fit(named) {
            return Err(NoList);
        }
        Ok(CarrierRow(row_of(named)))
    }
}

impl PlaceSet for CarrierRow {
    const LIMIT: usize = 64;

    ghost LIMIT = { 64 };

    ghost has = { λ x. row_has x.0 };

    ghost bounded = { Prim.search rules };

    ghost within = { Prim.search rules };

    fn contains(&self, place: u16) -> bool {
        place < 64 && (self.0 >> place) % 2 == 1
    }

    fn count(&self) -> u16 {
        bit_count(self.0)
    }

    fn next_from(&self, place: u16) -> Option<u16> {
        if place >= 64 {
            return None;
        }
        let rest = self.0 >> place;
        if rest == 0 {
            return None;
        }
        Some(place + rest.trailing_zeros() as u16)
    }

    fn strike(&mut self, place: u16) {
        self.0 = remaining(self.0, bit_of(place));
    }

    fn fix(&mut self, place: u16) {
        self.0 = common(self.0, bit_of(place));
    }
}
